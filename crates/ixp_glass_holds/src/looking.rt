//! Looks at what sessions hold.
ghost use Rattle.std.specs.Prelude.{◌≡◌, option_map, IfOk, IfSome};
ghost use Rattle.ixp_board.specs.Histories.{IsLegal, IsViewOf};
ghost use Rattle.ixp_glass_holds.specs.Calls.{Grows, IsHeld, routes_of};
ghost use Rattle.ixp_glass_holds.specs.Holds.{Legal, MayAnnounce, held_after};

use crate::hold::{Hold, HoldView, Routes, SessionKey};
use crate::sharing::GlassSeat;
use ixp_board::BoardName;
use ixp_num::Name;
use ixp_num_tables::Table;
use std::alloc::{AllocError, Global};

/// What the router's session at the interface holds, of what all sessions hold.
fn routes_of(
    alloc: Global,
    rows: &Table<Hold>,
    router: &Name,
    interface: u32,
) -> Result<Option<Routes>, AllocError>
    ensures { IfOk result (λ x. x ≡ routes_of rows.now router.now interface) }
{
    let session = SessionKey::new(alloc, router, interface)?;
    match rows.find(&session) {
        Some(hold) => Ok(Some(hold.routes.shared()?)),
        None => Ok(None),
    }
}

/// What the seat has seen is legal. It does nothing: it is called for what it ensures.
#[tactic(auto, using(crate::proofs::Histories::view_legal))]
pub(crate) fn is_legal<N: BoardName>(seat: &GlassSeat<N>)
    ensures { IsLegal Legal seat.now }
{
    let _view = seat.view();
}

/// Looks at what the router's session at the interface holds: None where that is nothing. It waits for
/// nobody.
pub fn held<N: BoardName>(
    alloc: Global,
    seat: &mut GlassSeat<N>,
    router: &Name,
    interface: u32,
) -> Result<Option<Routes>, AllocError>
    ensures grows { Grows seat.old seat.new }
    ensures held { IfOk result (IsHeld seat.new router.now interface) }
    ensures announced { IfOk result (λ x. IfSome x MayAnnounce) }
{
    is_legal(seat);
    seat.refresh()?;
    routes_of(alloc, seat.view().get().get(), router, interface)
}
