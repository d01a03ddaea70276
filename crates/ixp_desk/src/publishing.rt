//! Configurations that are handed out.
ghost use Rattle.std.specs.Prelude.{◌≡◌, IfOk, IfSome};
ghost use Rattle.ixp_board.specs.Histories.{IsLegal};
ghost use Rattle.ixp_members.specs.Owners.{owner_in};
ghost use Rattle.ixp_desk_history.specs.Legal.{Legal};
ghost use Rattle.ixp_desk_lock.specs.Calls.{Grows};
ghost use Rattle.ixp_desk_lock.specs.Facts.{HasAccepted};
ghost use Rattle.ixp_desk_lock.specs.Published.{ReadsAt};
ghost use Rattle.ixp_desk_lock.specs.Sights.{Looks};
ghost use Rattle.ixp_desk.specs.Publications.{Answers, Hands, IsPublished, IsReader, reader_of};

use crate::calls::Desks;
use ixp_board::BoardName;
use ixp_desk_history::Text;
use ixp_desk_lock::{DeskSeat, PubFault, text_shown};
use ixp_members::owner_in;
use ixp_num::Name;
use ixp_num_tables::Table;
use ixp_registry::{ApiKey, Owner, Refusal, Right};
use std::alloc::{AllocError, Global};
use std::sync::Wait;

/// The owner of the secret, who may read configurations: X0 where no key has it, X1 where it is a member's.
fn reader(keys: &Table<ApiKey>, secret: &[u8]) -> Result<Owner, Refusal>
    ensures { result ≡ reader_of (owner_in keys.now secret.now) }
{
    match owner_in(keys.as_slice(), secret) {
        None => Err(Refusal::NoKey),
        Some(Owner::Member(_)) => Err(Refusal::Denied {
            right: Right::Staff,
        }),
        Some(Owner::Staff(number)) => Ok(Owner::Staff(number)),
    }
}

/// Looks at what was published, and gives the count of accepted edits of what the seat had seen before.
fn look<N: BoardName>(seat: &mut DeskSeat<N>) -> Result<u64, AllocError>
    ensures looks { Looks seat.old seat.new }
    ensures before { IsLegal Legal seat.old.2 }
    ensures legal { IsLegal Legal seat.new.2 }
    ensures must { IfOk result (HasAccepted seat.old.2) }
{
    seat.is_legal();
    let must = seat.view().get().accepted;
    seat.look()?;
    Ok(must)
}

/// Who asks, by what the seat has seen.
fn reader_seen<N: BoardName>(seat: &DeskSeat<N>, secret: &[u8]) -> Result<Owner, Refusal>
    ensures { IsReader seat.now.2 secret.now result }
{
    reader(seat.view().get().keys.get(), secret)
}

/// The text of the router with the handle, of what the seat has seen, if that shows a version with `must`
/// accepted edits. Else the inner answer is missing: the lock has to be taken.
fn text_seen<N: BoardName>(
    alloc: Global,
    seat: &DeskSeat<N>,
    router: &Name,
    must: u64,
) -> Result<Option<Option<Text>>, AllocError>
    ensures { IfOk result (λ x. IfSome x (ReadsAt seat.now.2 must router.now)) }
{
    let shown = seat.view().get();
    if shown.bundle.get().built() < must {
        return Ok(None);
    }
    let text = text_shown(alloc, shown, router)?;
    Ok(Some(text))
}

/// Hands out the text of the router with the handle, or none where the version has no such router.
fn handed_out<R: Wait, N: BoardName, D: Desks<N>>(
    rt: &R,
    alloc: Global,
    desk: &mut D,
    seat: &mut DeskSeat<N>,
    secret: &[u8],
    router: &Name,
    seen: Option<u64>,
) -> Result<Option<Text>, PubFault>
    ensures grows { Grows seat.old seat.new }
    ensures hands { Hands secret.now router.now seen result seat.old seat.new }
{
    let must = look(seat)?;
    let owner = match reader_seen(seat, secret) {
        Ok(owner) => owner,
        Err(refusal) => return Err(PubFault::Refused(refusal)),
    };
    if seen.is_none() {
        if let Some(text) = text_seen(alloc, seat, router, must)? {
            return Ok(text);
        }
    }
    desk.publish(rt, seat, owner, router, must, seen)
}

/// Hands out the configuration of the router with the handle to the staff: X0 or X1 for others, by the look;
/// Y2 where an edit of the reader's own is named that wasn't made; Y3 where no router has the handle. Where
/// what is shown is older than what the reader has seen, or than the edit that it names, the call makes the
/// texts that are pending. A look takes no lock.
pub fn published<R: Wait, N: BoardName, D: Desks<N>>(
    rt: &R,
    alloc: Global,
    desk: &mut D,
    seat: &mut DeskSeat<N>,
    secret: &[u8],
    router: &Name,
    seen: Option<u64>,
) -> Result<Text, PubFault>
    ensures grows { Grows seat.old seat.new }
    ensures answers { Answers secret.now router.now seen result seat.old seat.new }
    ensures headline { IfOk result (IsPublished seat.old.2 seat.new.2 router.now) }
{
    seat.is_legal();
    match handed_out(rt, alloc, desk, seat, secret, router, seen) {
        Ok(Some(text)) => Ok(text),
        Ok(None) => Err(PubFault::NoRouter),
        Err(fault) => Err(fault),
    }
}
