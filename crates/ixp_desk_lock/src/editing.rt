//! Edits of callers.
ghost use Rattle.std.specs.Prelude.{◌≡◌, ◌≢◌, ◌≤◌, ◌<◌, ◌^◌, ◌+◌, ◌-◌, None, OnOk, OnErr, IfOk, IsErrOf};
ghost use mathlib.Core.List.{IsPrefix};
ghost use Rattle.ixp_board.specs.Histories.{turns_of};
ghost use Rattle.ixp_io.specs.declared.keeper.KeepFault.TheVariants.{Failed, NoMemory};
ghost use Rattle.ixp_machine_edits.specs.Edits.{IsLawful};
ghost use Rattle.ixp_desk_history.specs.Turns.{turns_by};
ghost use Rattle.ixp_registry.specs.declared.members.Owner.{Owner as By};
ghost use Rattle.ixp_machine.specs.declared.decision.Decision.TheVariants as outcome;
ghost use Rattle.ixp_desk_lock.specs.Calls.{Came, Fits, Submits, ending_of, reply_of};
ghost use Rattle.ixp_desk_lock.specs.Facts.{
  Accepts,
  HasAccepted,
  HasRoom,
  IsDecided,
  IsEdit,
  IsFault,
  MayAccept,
  Owes,
  all_of,
};
ghost use Rattle.ixp_desk_lock.specs.Sights.{Looks};

use crate::fault::SubmitFault;
use crate::locked::Locked;
use crate::preparing::{
    accepted_event, edit_event, kept_count, make_ready, owe_fault, owe_turn, raise, take_up,
};
use crate::seat::DeskSeat;
use ixp_board::{BoardName, Note, Publish};
use ixp_desk_commits::keep;
use ixp_desk_history::{DeskStory, Turn};
use ixp_io::{KeepFault, Keeper};
use ixp_machine::{Decision, Reply, decide, prepare, read_edit};
use ixp_machine_steps::Entry;
use ixp_registry::{Owner, Refusal};
use std::alloc::AllocError;
use std::sync::Wait;

/// What an edit came to.
#[derive(Debug, Drop)]
pub(crate) enum Ending {
    Done,
    Refused(Refusal),
    /// The store failed.
    Fault,
}

fn ending_of(decision: Decision) -> Ending
    ensures { result ≡ ending_of decision }
{
    match decision {
        Decision::Accepted(_) => Ending::Done,
        Decision::Repeated(_) => Ending::Done,
        Decision::Refused(refusal) => Ending::Refused(refusal),
    }
}

fn replied(ending: Ending, number: u64) -> Result<Reply, SubmitFault>
    ensures { result ≡ reply_of ending number }
{
    match ending {
        Ending::Done => Ok(Reply { number }),
        Ending::Refused(refusal) => Err(SubmitFault::Refused(refusal)),
        Ending::Fault => Err(SubmitFault::KeeperFault),
    }
}

impl<P: Keeper + Drop, N: BoardName, W: Publish<Note<DeskStory, N>>> Locked<P, N, W> {
    /// How many edits were accepted.
    pub(crate) fn accepted(&self) -> u64
        requires none { self.now.1 ≡ None }
        ensures { HasAccepted self.now.0 result }
    {
        self.state.accepted
    }

    /// What is decided of an edit.
    fn decided(&self, entry: &Entry) -> Result<Decision, AllocError>
        requires none { self.now.1 ≡ None }
        ensures { IfOk result (IsDecided self.now.0 entry.now) }
    {
        decide(self.alloc, &self.state, entry)
    }

    /// Makes and stores an edit of a seat, which is accepted. The turn that says so is owed then, or that of
    /// the store's fault.
    fn accept(
        &mut self,
        seat: u64,
        number: u64,
        owner: Owner,
        entry: Entry,
    ) -> Result<(), KeepFault>
        requires none { self.old.1 ≡ None }
        requires number { number ≡ turns_by seat (turns_of self.old.0) }
        requires room { number < 2 ^ 64 - 1 }
        requires accepted { MayAccept self.old.0 owner entry }
        ensures ok { OnOk result (Owes self.old.0 self.new seat number (λ v. Accepts v entry)) }
        ensures failed { IsErrOf result Failed → Owes self.old.0 self.new seat number IsFault }
        ensures memory { IsErrOf result NoMemory → self.new ≡ self.old }
    {
        let Some(_kept) = kept_count(self.counts.as_slice(), seat) else {
            return Err(KeepFault::NoMemory);
        };
        let event = accepted_event(owner, &entry);
        let prepared = prepare(self.alloc, &self.state, owner, entry)?;
        let ready = make_ready(
            self.alloc,
            &self.state,
            self.pen.view(),
            seat,
            number,
            event,
            &prepared.change,
        )?;
        self.export = None;
        match keep(self.alloc, &mut self.state, &mut self.keeper, prepared) {
            Ok(()) => {
                take_up(&mut self.owed, ready);
                raise(&mut self.counts, seat, number);
                Ok(())
            }
            Err(KeepFault::Failed) => {
                owe_fault(&mut self.owed, self.keeper.faults(), ready);
                raise(&mut self.counts, seat, number);
                Err(KeepFault::Failed)
            }
            Err(KeepFault::NoMemory) => Err(KeepFault::NoMemory),
        }
    }

    /// Owes the turn of an edit that changes nothing: it was made before, or it is refused.
    fn owe_answer(
        &mut self,
        seat: u64,
        number: u64,
        entry: &Entry,
        decision: &Decision,
    ) -> Result<(), AllocError>
        requires none { self.old.1 ≡ None }
        requires number { number ≡ turns_by seat (turns_of self.old.0) }
        requires room { number < 2 ^ 64 - 1 }
        requires lawful { IsLawful entry.now.edit }
        requires edits { HasRoom self.old.0 }
        requires decided { IsDecided self.old.0 entry.now decision.now }
        requires other { (by : By) → decision.now ≢ outcome.Accepted by }
        ensures ok { OnOk result
            (Owes self.old.0 self.new seat number (λ v. IsEdit v entry.now decision.now)) }
        ensures err { OnErr result (self.new ≡ self.old) }
    {
        let Some(_kept) = kept_count(self.counts.as_slice(), seat) else {
            return Err(AllocError);
        };
        let turn = Turn {
            seat,
            number,
            event: edit_event(entry, decision),
            view: self.pen.view().shared()?,
        };
        owe_turn(&mut self.owed, turn);
        raise(&mut self.counts, seat, number);
        Ok(())
    }

    /// Makes an edit as it is decided, or answers it. The turn that says so is owed.
    fn owe_edit(
        &mut self,
        seat: u64,
        number: u64,
        entry: Entry,
        decision: Decision,
    ) -> Result<Ending, AllocError>
        requires none { self.old.1 ≡ None }
        requires number { number ≡ turns_by seat (turns_of self.old.0) }
        requires room { number < 2 ^ 64 - 1 }
        requires lawful { IsLawful entry.edit }
        requires edits { HasRoom self.old.0 }
        requires decided { IsDecided self.old.0 entry decision }
        ensures ok { IfOk result (λ o. Owes self.old.0 self.new seat number (Came o entry)) }
        ensures err { OnErr result (self.new ≡ self.old) }
    {
        if let Decision::Accepted(owner) = &decision {
            return match self.accept(seat, number, *owner, entry) {
                Ok(()) => Ok(Ending::Done),
                Err(KeepFault::Failed) => Ok(Ending::Fault),
                Err(KeepFault::NoMemory) => Err(AllocError),
            };
        }
        self.owe_answer(seat, number, &entry, &decision)?;
        Ok(ending_of(decision))
    }

    /// Counts a turn of the seat that is owed, makes it, and shows it to the seat.
    #[tactic(auto, using(crate::proofs::OwnTurns::begins_owed))]
    fn finish<R: Wait>(&mut self, rt: &R, seat: &mut DeskSeat<N>) -> Result<(), AllocError>
        requires seen { IsPrefix seat.old.2 self.old.0 }
        requires room { seat.old.1 < 2 ^ 64 - 1 }
        ensures number { seat.new.0 ≡ seat.old.0 }
        ensures count { seat.new.1 ≡ seat.old.1 + 1 }
        ensures seen { IsPrefix seat.old.2 seat.new.2 }
        ensures whole { OnOk result (self.new ≡ (all_of self.old, None)) }
        ensures shown { OnOk result (seat.new.2 ≡ all_of self.old) }
    {
        seat.count_turn();
        self.settle(rt)?;
        self.show(seat)
    }

    /// An edit of a seat that fits.
    fn edit<R: Wait>(
        &mut self,
        rt: &R,
        seat: &mut DeskSeat<N>,
        entry: Entry,
    ) -> Result<Reply, SubmitFault>
        requires none { self.old.1 ≡ None }
        requires fits { Fits self.old.0 seat.old }
        ensures number { seat.new.0 ≡ seat.old.0 }
        ensures seen { IsPrefix seat.old.2 seat.new.2 }
        ensures turns { Submits entry result seat.old seat.new }
    {
        read_edit(&entry.edit);
        let accepted = self.accepted();
        if accepted == u64::MAX {
            self.show(seat)?;
            return Err(SubmitFault::Ended { count: accepted });
        }
        let decision = self.decided(&entry)?;
        let number = entry.number;
        let ending = self.owe_edit(seat.number(), seat.count(), entry, decision)?;
        self.finish(rt, seat)?;
        replied(ending, number)
    }

    /// An edit of a caller: it is made and stored, and its turn stands in the history, or it is refused, or a
    /// fault of the store is told. Where memory runs out, it may have been made.
    pub fn submit<R: Wait>(
        &mut self,
        rt: &R,
        seat: &mut DeskSeat<N>,
        entry: Entry,
    ) -> Result<Reply, SubmitFault>
        ensures number { seat.new.0 ≡ seat.old.0 }
        ensures seen { IsPrefix seat.old.2 seat.new.2 }
        ensures turns { Submits entry result seat.old seat.new }
    {
        self.settle(rt)?;
        self.compare(seat)?;
        self.edit(rt, seat, entry)
    }
}
