//! The calls of a desk. Each says which turns of its seat stand in the history for it.
ghost use Rattle.ixp_desk_lock.specs.Calls.{Grows, Submits};

use crate::shared::Shared;
use ixp_board::{BoardName, Note, Publish};
use ixp_desk_history::{DeskStory, Text};
use ixp_desk_lock::{AskFault, DeskSeat, Locked, PubFault, SubmitFault, TurnFault};
use ixp_io::Keeper;
use ixp_machine::{Answer, Query, Reply};
use ixp_machine_steps::Entry;
use ixp_num::Name;
use ixp_registry::Owner;
use std::sync::{Mutex, Wait};

/// A desk, as its callers have it: threads share it by a lock, or one caller has it alone. What a seat has
/// seen at the return is legal, and begins with all that it had seen.
pub trait Desks<N: BoardName> {
    ghost use Rattle.std.specs.Prelude.{IfOk, IfErr};
    ghost use Rattle.ixp_board.specs.Histories.{IsLegal};
    ghost use Rattle.ixp_desk_history.specs.Legal.{Legal};
    ghost use Rattle.ixp_desk_lock.specs.Calls.{Asks, Catches, Grows, OwnTexts, Submits};
    ghost use Rattle.ixp_desk_lock.specs.Published.{IsLow, PubSays, Publishes};

    /// Submits an edit. It is stored before it is answered, or refused; Y1 where the store failed, Y4, Y5.
    /// Where memory runs out, it may have been made: with the same number it may be sent again.
    fn submit<R: Wait>(
        &mut self,
        rt: &R,
        seat: &mut DeskSeat<N>,
        entry: Entry,
    ) -> Result<Reply, SubmitFault>
        ensures grows { Grows seat.old seat.new }
        ensures turns { Submits entry result seat.old seat.new };

    /// Asks a question: X0, X1, X4, Y4 or Y5 where it isn't answered.
    fn ask<R: Wait>(
        &mut self,
        rt: &R,
        seat: &mut DeskSeat<N>,
        secret: &[u8],
        query: Query,
    ) -> Result<Answer, AskFault>
        ensures grows { Grows seat.old seat.new }
        ensures turns { Asks secret.now query result seat.old seat.new };

    /// The text of the router's session at the interface, of the present version, for the staff and the
    /// interface's member.
    fn own_text<R: Wait>(
        &mut self,
        rt: &R,
        seat: &mut DeskSeat<N>,
        secret: &[u8],
        router: &Name,
        interface: u32,
    ) -> Result<Text, AskFault>
        ensures grows { Grows seat.old seat.new }
        ensures turns { OwnTexts secret.now router.now interface result seat.old seat.new };

    /// Makes and installs all texts that are pending, and gives the count of the edits that were accepted,
    /// whose version is shown then.
    fn catch_up<R: Wait>(&mut self, rt: &R, seat: &mut DeskSeat<N>) -> Result<u64, TurnFault>
        ensures grows { Grows seat.old seat.new }
        ensures turns { Catches result seat.old seat.new };

    /// The text of the router with the handle, of a version that has `must` accepted edits and the owner's
    /// edit that was seen; None where that version has no such router. What the seat has seen has at least
    /// `must` accepted edits. [`published`](crate::published) calls it where a look doesn't suffice.
    fn publish<R: Wait>(
        &mut self,
        rt: &R,
        seat: &mut DeskSeat<N>,
        owner: Owner,
        router: &Name,
        must: u64,
        seen: Option<u64>,
    ) -> Result<Option<Text>, PubFault>
        requires must { IsLow seat.old.2 must }
        requires legal { IsLegal Legal seat.old.2 }
        ensures grows { Grows seat.old seat.new }
        ensures ok { IfOk result (λ o. Publishes owner must seen router.now o seat.old seat.new) }
        ensures fault { IfErr result (λ x. PubSays owner seen x seat.old seat.new) };
}

impl<P: Keeper + Drop, N: BoardName, W: Publish<Note<DeskStory, N>>> Desks<N> for Locked<P, N, W> {
    fn submit<R: Wait>(
        &mut self,
        rt: &R,
        seat: &mut DeskSeat<N>,
        entry: Entry,
    ) -> Result<Reply, SubmitFault> {
        let reply = Locked::submit(self, rt, seat, entry);
        seat.is_legal();
        reply
    }

    fn ask<R: Wait>(
        &mut self,
        rt: &R,
        seat: &mut DeskSeat<N>,
        secret: &[u8],
        query: Query,
    ) -> Result<Answer, AskFault> {
        let answer = Locked::ask(self, rt, seat, secret, query);
        seat.is_legal();
        answer
    }

    fn own_text<R: Wait>(
        &mut self,
        rt: &R,
        seat: &mut DeskSeat<N>,
        secret: &[u8],
        router: &Name,
        interface: u32,
    ) -> Result<Text, AskFault> {
        let answer = Locked::own_text(self, rt, seat, secret, router, interface);
        seat.is_legal();
        answer
    }

    fn catch_up<R: Wait>(&mut self, rt: &R, seat: &mut DeskSeat<N>) -> Result<u64, TurnFault> {
        let built = Locked::catch_up(self, rt, seat);
        seat.is_legal();
        built
    }

    fn publish<R: Wait>(
        &mut self,
        rt: &R,
        seat: &mut DeskSeat<N>,
        owner: Owner,
        router: &Name,
        must: u64,
        seen: Option<u64>,
    ) -> Result<Option<Text>, PubFault> {
        let answer = Locked::publish(self, rt, seat, owner, router, must, seen);
        seat.is_legal();
        answer
    }
}

/// Submits an edit, and says whether it was accepted and texts are pending.
fn submit_locked<R: Wait, P: Keeper + Drop, N: BoardName, W: Publish<Note<DeskStory, N>>>(
    rt: &R,
    lock: &Mutex<Locked<P, N, W>>,
    seat: &mut DeskSeat<N>,
    entry: Entry,
) -> (Result<Reply, SubmitFault>, bool)
    ensures grows { Grows seat.old seat.new }
    ensures turns { Submits entry result.0 seat.old seat.new }
{
    let mut desk = lock.lock(rt);
    let reply = desk.submit(rt, seat, entry);
    seat.is_legal();
    let pending = reply.is_ok() && desk.has_pending();
    (reply, pending)
}

/// Each call holds the lock for as long as it takes.
impl<P: Keeper + Drop, N: BoardName, W: Publish<Note<DeskStory, N>>> Desks<N> for &Shared<P, N, W> {
    fn submit<R: Wait>(
        &mut self,
        rt: &R,
        seat: &mut DeskSeat<N>,
        entry: Entry,
    ) -> Result<Reply, SubmitFault> {
        let (reply, pending) = submit_locked(rt, &self.lock, seat, entry);
        if pending {
            self.ring(rt);
        }
        seat.is_legal();
        reply
    }

    fn ask<R: Wait>(
        &mut self,
        rt: &R,
        seat: &mut DeskSeat<N>,
        secret: &[u8],
        query: Query,
    ) -> Result<Answer, AskFault> {
        let answer = self.lock.lock(rt).ask(rt, seat, secret, query);
        seat.is_legal();
        answer
    }

    fn own_text<R: Wait>(
        &mut self,
        rt: &R,
        seat: &mut DeskSeat<N>,
        secret: &[u8],
        router: &Name,
        interface: u32,
    ) -> Result<Text, AskFault> {
        let answer = self
            .lock
            .lock(rt)
            .own_text(rt, seat, secret, router, interface);
        seat.is_legal();
        answer
    }

    fn catch_up<R: Wait>(&mut self, rt: &R, seat: &mut DeskSeat<N>) -> Result<u64, TurnFault> {
        let built = self.lock.lock(rt).catch_up(rt, seat);
        seat.is_legal();
        built
    }

    fn publish<R: Wait>(
        &mut self,
        rt: &R,
        seat: &mut DeskSeat<N>,
        owner: Owner,
        router: &Name,
        must: u64,
        seen: Option<u64>,
    ) -> Result<Option<Text>, PubFault> {
        let answer = self
            .lock
            .lock(rt)
            .publish(rt, seat, owner, router, must, seen);
        seat.is_legal();
        answer
    }
}
