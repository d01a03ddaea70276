//! The call that makes sessions hold routes.
ghost use Rattle.std.specs.Prelude.{◌≡◌, IfOk, All};
ghost use Rattle.ixp_glass_holds.specs.Calls.{Grows, MakesHold, hold_of};
ghost use Rattle.ixp_glass_holds.specs.Holds.{IsWellFormed};

use crate::fault::HoldFault;
use crate::hold::{Hold, SessionKey};
use crate::holding::hold_by;
use crate::looking::is_legal;
use crate::sharing::{GlassDesk, GlassSeat};
use crate::story::HoldStory;
use ixp_board::{BoardName, Note, Pen, Publish};
use ixp_lang::Route;
use ixp_num::{Family, Items, Name};
use ixp_num_tables::Held;
use std::alloc::{AllocError, Global};
use std::sync::Wait;

/// A board of holds, as its callers have it: threads share it by a lock, or one caller has it alone. What a
/// seat has seen at the return is legal, and begins with all that it had seen.
pub trait GlassDesks<N: BoardName> {
    ghost use Rattle.std.specs.Prelude.{All};
    ghost use Rattle.ixp_glass_holds.specs.Calls.{Grows, MakesHold, hold_of};
    ghost use Rattle.ixp_glass_holds.specs.Holds.{IsWellFormed};

    /// Makes the router's session at the interface hold these routes from now on, and no others; without
    /// routes it holds nothing. Z1 comes where there are more than 1,000 routes, or where the session holds
    /// nothing yet and 16 others do; Z2 where a route isn't of the family.
    fn hold<R: Wait>(
        &mut self,
        rt: &R,
        alloc: Global,
        seat: &mut GlassSeat<N>,
        router: &Name,
        interface: u32,
        family: Family,
        routes: Items<Route>,
    ) -> Result<(), HoldFault>
        requires formed { All IsWellFormed routes }
        ensures grows { Grows seat.old seat.new }
        ensures makes { MakesHold family (hold_of router.now interface routes) result seat.old seat.new };
}

/// What the session is to hold.
fn hold_of(
    alloc: Global,
    router: &Name,
    interface: u32,
    routes: Items<Route>,
) -> Result<Hold, AllocError>
    ensures { IfOk result (λ h. h ≡ hold_of router.now interface routes) }
{
    let session = SessionKey::new(alloc, router, interface)?;
    let routes = Held::new(alloc, routes)?;
    Ok(Hold { session, routes })
}

impl<N: BoardName, W: Publish<Note<HoldStory, N>>> GlassDesks<N> for Pen<HoldStory, N, W> {
    fn hold<R: Wait>(
        &mut self,
        rt: &R,
        alloc: Global,
        seat: &mut GlassSeat<N>,
        router: &Name,
        interface: u32,
        family: Family,
        routes: Items<Route>,
    ) -> Result<(), HoldFault> {
        is_legal(seat);
        let hold = hold_of(alloc, router, interface, routes)?;
        hold_by(rt, self, seat, family, &hold)
    }
}

/// A call holds the lock for as long as it takes.
impl<N: BoardName, W: Publish<Note<HoldStory, N>>> GlassDesks<N> for &GlassDesk<N, W> {
    fn hold<R: Wait>(
        &mut self,
        rt: &R,
        alloc: Global,
        seat: &mut GlassSeat<N>,
        router: &Name,
        interface: u32,
        family: Family,
        routes: Items<Route>,
    ) -> Result<(), HoldFault> {
        self.lock
            .lock(rt)
            .hold(rt, alloc, seat, router, interface, family, routes)
    }
}
