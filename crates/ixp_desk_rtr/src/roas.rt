//! The ROAs of the present version.
ghost use Rattle.std.specs.Prelude.{◌≡◌, ◌≤◌, IfOk, IfErr};
ghost use Rattle.ixp_desk_lock.specs.Calls.{Grows};
ghost use Rattle.ixp_desk_lock.specs.Facts.{HasAccepted, HasBuilt};
ghost use Rattle.ixp_desk_rtr.specs.Roas.{AreRoasAt, GivesRoas, RoasFault};

use ixp_board::BoardName;
use ixp_desk::{DeskSeat, Desks, TurnFault};
use ixp_num_tables::Held;
use ixp_roa::RoaTable;
use std::alloc::AllocError;
use std::sync::Wait;

/// How many edits were accepted, by what the seat has seen.
fn accepted_seen<N: BoardName>(seat: &DeskSeat<N>) -> u64
    ensures { HasAccepted seat.now.2 result }
{
    seat.view().get().accepted
}

/// The version whose texts and ROAs are shown, by what the seat has seen.
fn built_seen<N: BoardName>(seat: &DeskSeat<N>) -> u64
    ensures { HasBuilt seat.now.2 result }
{
    seat.view().get().bundle.get().built()
}

/// The ROAs that are shown, and their version, by what the seat has seen.
pub(crate) fn roas_seen<N: BoardName>(
    seat: &DeskSeat<N>,
) -> Result<(u64, Held<RoaTable>), AllocError>
    ensures built { IfOk result (λ x. HasBuilt seat.now.2 x.0) }
    ensures roas { IfOk result (λ x. AreRoasAt seat.now.2 x.0 x.1) }
{
    let bundle = seat.view().get().bundle.get();
    let roas = bundle.shared_roas()?;
    Ok((bundle.built(), roas))
}

/// The ROAs of a version that contains every edit which was accepted when the call looked, and the
/// version's count. Where what is shown is older, the call makes and installs the texts that are pending.
/// Nothing is copied: the table has one more owner. Y4 and Y5 where the seat's turns can't be counted.
pub fn roas_now<R: Wait, N: BoardName, D: Desks<N>>(
    rt: &R,
    desk: &mut D,
    seat: &mut DeskSeat<N>,
) -> Result<(u64, Held<RoaTable>), TurnFault>
    ensures grows { Grows seat.old seat.new }
    ensures ok { IfOk result (λ x. GivesRoas x.0 x.1 seat.old seat.new) }
    ensures fault { IfErr result (λ x. RoasFault x seat.old seat.new) }
{
    seat.is_legal();
    seat.look()?;
    if accepted_seen(seat) <= built_seen(seat) {
        let shown = roas_seen(seat)?;
        return Ok(shown);
    }
    desk.catch_up(rt, seat)?;
    let shown = roas_seen(seat)?;
    Ok(shown)
}
