//! The locked value.
ghost use Rattle.std.specs.Prelude.{◌≡◌, ◌<◌, ◌≤◌, None, OnOk, OnErr, IfErr, IsTrue};
ghost use mathlib.Core.List.{IsPrefix};
ghost use Rattle.ixp_machine_steps.specs.States.{ValidState};
ghost use Rattle.ixp_desk_lock.specs.Calls.{FaultSays, Fits};
ghost use Rattle.ixp_desk_lock.specs.Facts.{IsStateAt, KeepsStore, all_of};
ghost use Rattle.ixp_desk_lock.specs.Sights.{Looks};

use crate::exporting::KeptExport;
use crate::fault::TurnFault;
use crate::owed::Owed;
use crate::preparing::{kept_count, note_owed};
use crate::seat::DeskSeat;
use ixp_board::{BoardName, Note, Pen, Publish};
use ixp_build::Pending;
use ixp_desk_history::DeskStory;
use ixp_io::Keeper;
use ixp_machine_steps::State;
use std::alloc::{AllocError, Global};
use std::marker::Model;
use std::sync::Wait;

/// State, what is pending, counts of turns, pen, store, the last member export, and at most one turn that is
/// owed. Contracts see the history and the turn that is owed.
pub struct Locked<P: Keeper + Drop, N: BoardName, W: Publish<Note<DeskStory, N>>> {
    pub(crate) alloc: Global,
    pub(crate) state: State,
    pub(crate) pending: Pending,
    /// That of the present state, where one was asked for.
    pub(crate) export: Option<KeptExport>,
    /// How many turns each seat has made, by the seats' numbers.
    pub(crate) counts: Vec<u64>,
    pub(crate) owed: Option<Owed>,
    pub(crate) pen: Pen<DeskStory, N, W>,
    pub(crate) keeper: P,
}

// It is written out, so that crates above don't prove again how each part is dropped.
impl<P: Keeper + Drop, N: BoardName, W: Publish<Note<DeskStory, N>>> Drop for Locked<P, N, W> {
    fn drop(self) {
        let Locked {
            alloc: _,
            state: _,
            pending: _,
            export: _,
            counts: _,
            owed: _,
            pen: _,
            keeper: _,
        } = self;
    }
}

impl<P: Keeper + Drop, N: BoardName, W: Publish<Note<DeskStory, N>>> Model for Locked<P, N, W> {
    ghost use Rattle.std.specs.Prelude.{List, Option};
    ghost use Rattle.ixp_board.specs.declared.entry.Entry.{Entry};
    ghost use Rattle.ixp_desk_history.specs.declared.turn.First.{First};
    ghost use Rattle.ixp_desk_history.specs.declared.turn.Turn.{Turn};
    ghost use Rattle.ixp_desk_lock.specs.Facts.{Stored, Folds, Counts, KeepsExport, turn_in, reach_in};

    ghost Value = { List (Entry First Turn) × Option Turn };

    ghost view = { λ d. (d.pen, turn_in d.owed) };

    ghost invariant = { λ d. Stored (P.table d.keeper) d.state
        × Folds d.pen (turn_in d.owed) (reach_in d.owed) d.state d.pending
        × Counts d.pen (turn_in d.owed) (P.faults d.keeper) d.counts.items
        × KeepsExport d.state.registry d.export };
}

impl<P: Keeper + Drop, N: BoardName, W: Publish<Note<DeskStory, N>>> Locked<P, N, W> {
    /// Makes the turn that is owed, if there is one, once what its edit touched is noted.
    pub fn settle<R: Wait>(&mut self, rt: &R) -> Result<(), AllocError>
        ensures ok { OnOk result (self.new ≡ (all_of self.old, None)) }
        ensures err { OnErr result (self.new ≡ self.old) }
    {
        note_owed(self.alloc, &self.state, &mut self.pending, &mut self.owed)?;
        let Some(owed) = &self.owed else {
            return Ok(());
        };
        self.pen.put(rt, &owed.turn)?;
        self.owed = None;
        Ok(())
    }

    /// Compares a seat's count of turns with the one that is kept.
    pub(crate) fn compare(&self, seat: &mut DeskSeat<N>) -> Result<(), TurnFault>
        requires none { self.now.1 ≡ None }
        ensures looks { Looks seat.old seat.new }
        ensures ok { OnOk result (Fits self.now.0 seat.new) }
        ensures err { IfErr result (λ x. FaultSays x seat.old seat.new) }
    {
        let Some(kept) = kept_count(self.counts.as_slice(), seat.number()) else {
            return Err(TurnFault::NoMemory);
        };
        if !seat.is_covered(&self.pen) {
            return Err(TurnFault::NoMemory);
        }
        let count = seat.count();
        if count != kept {
            seat.taught(&self.pen)?;
            return Err(TurnFault::SeatCount { seat: count, kept });
        }
        if count >= u64::MAX - 1 {
            seat.taught(&self.pen)?;
            return Err(TurnFault::Ended { count });
        }
        Ok(())
    }

    /// The state after the history.
    pub(crate) fn state(&self) -> &State
        requires none { self.now.1 ≡ None }
        ensures state { IsStateAt self.now.0 result.now }
        ensures valid { ValidState result.now }
    {
        &self.state
    }

    /// Shows the seat the history.
    pub(crate) fn show(&self, seat: &mut DeskSeat<N>) -> Result<(), AllocError>
        requires { IsPrefix seat.old.2 self.now.0 }
        ensures looks { Looks seat.old seat.new }
        ensures ok { OnOk result (seat.new.2 ≡ self.now.0) }
        ensures err { OnErr result (seat.new ≡ seat.old) }
    {
        seat.taught(&self.pen)
    }

    /// Whether the history begins with what the seat has seen. As the pen alone makes turns, it does; but
    /// what is known of a board says nothing of who writes, so that no clause can exclude the answer
    /// `false`.
    pub fn covers(&self, seat: &DeskSeat<N>) -> bool
        ensures { IsTrue result → IsPrefix seat.now.2 self.now.0 }
    {
        seat.is_covered(&self.pen)
    }

    /// Whether edits touched texts that aren't made yet. What is pending isn't part of what contracts see.
    pub fn has_pending(&self) -> bool {
        !self.pending.is_nothing()
    }

    /// Takes the desk apart, and gives the store.
    pub fn into_store(self) -> P
        ensures { KeepsStore self (P.table result) (P.faults result) }
    {
        let Locked {
            alloc: _alloc,
            state: _state,
            pending: _pending,
            export: _export,
            counts: _counts,
            owed: _owed,
            pen: _pen,
            keeper,
        } = self;
        keeper
    }
}
