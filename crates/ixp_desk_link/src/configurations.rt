//! Configurations.
ghost use Rattle.std.specs.Prelude.{◌≡◌};
ghost use Rattle.ixp_desk_lock.specs.Calls.{Grows};
ghost use Rattle.ixp_desk_link.specs.Turns.{ConfigTurn, text_outcome};

use ixp_api::Outcome;
use ixp_board::BoardName;
use ixp_desk::{DeskSeat, Desks, PubFault, Text, published};
use ixp_desk_explain::fault_outcome;
use ixp_num::Name;
use std::alloc::Global;
use std::sync::Wait;

fn text_outcome(text: Result<Text, PubFault>) -> Outcome
    ensures { result ≡ text_outcome text }
{
    match text {
        Ok(text) => Outcome::Text(text.bytes),
        Err(fault) => fault_outcome(fault),
    }
}

/// What is answered to who asks for the configuration of the router with the handle.
pub(crate) fn configured<R: Wait, N: BoardName, D: Desks<N>>(
    rt: &R,
    alloc: Global,
    desk: &mut D,
    seat: &mut DeskSeat<N>,
    secret: &[u8],
    router: &Name,
    seen: Option<u64>,
) -> Outcome
    ensures grows { Grows seat.old seat.new }
    ensures turn { ConfigTurn secret.now router.now seen result seat.old seat.new }
{
    text_outcome(published(rt, alloc, desk, seat, secret, router, seen))
}
