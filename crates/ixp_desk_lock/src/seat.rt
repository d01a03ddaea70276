//! Seats of a desk.
ghost use Rattle.std.specs.Prelude.{◌≡◌, ◌<◌, ◌^◌, ◌-◌, ◌+◌, OnOk, OnErr, IsTrue};
ghost use mathlib.Core.List.{IsPrefix};
ghost use Rattle.ixp_board.specs.Histories.{IsLegal, IsViewOf};
ghost use Rattle.ixp_desk_history.specs.Legal.{Legal};
ghost use Rattle.ixp_desk_history.specs.Turns.{shown_after};
ghost use Rattle.ixp_desk_lock.specs.Sights.{IsAfter, Looks, counted, shown};

use ixp_board::{BoardName, Note, Pen, Publish, Seat};
use ixp_desk_history::{DeskStory, View};
use std::alloc::AllocError;
use std::marker::Model;

/// A caller's seat. Contracts see its number, how many turns it has made, and what it has seen of the
/// history.
pub struct DeskSeat<N: BoardName> {
    number: u64,
    count: u64,
    seat: Seat<DeskStory, N>,
}

// It is written out, so that crates above don't prove again how each part is dropped.
impl<N: BoardName> Drop for DeskSeat<N> {
    fn drop(self) {
        let DeskSeat {
            number: _,
            count: _,
            seat: _,
        } = self;
    }
}

impl<N: BoardName> Model for DeskSeat<N> {
    ghost use Rattle.std.specs.Prelude.{ℕ, List};
    ghost use Rattle.ixp_board.specs.declared.entry.Entry.{Entry};
    ghost use Rattle.ixp_desk_history.specs.declared.turn.First.{First};
    ghost use Rattle.ixp_desk_history.specs.declared.turn.Turn.{Turn};

    ghost Value = { ℕ × ℕ × List (Entry First Turn) };

    ghost view = { λ s. (s.number, s.count, s.seat) };
}

impl<N: BoardName> DeskSeat<N> {
    /// A seat that has made no turn.
    pub fn new(number: u64, seat: Seat<DeskStory, N>) -> DeskSeat<N>
        ensures { result ≡ (number, 0, seat) }
    {
        DeskSeat {
            number,
            count: 0,
            seat,
        }
    }

    /// The seat's number.
    pub fn number(&self) -> u64
        ensures { result ≡ self.now.0 }
    {
        self.number
    }

    /// How many turns the seat has made.
    pub fn count(&self) -> u64
        ensures { result ≡ self.now.1 }
    {
        self.count
    }

    /// What was seen last.
    pub fn view(&self) -> &View
        ensures { IsViewOf Legal shown_after self.now.2 result.now }
    {
        self.seat.view()
    }

    /// Looks at what was published, without waiting.
    pub fn look(&mut self) -> Result<(), AllocError>
        ensures looks { Looks self.old self.new }
        ensures legal { IsLegal Legal self.new.2 }
        ensures err { OnErr result (self.new ≡ self.old) }
    {
        self.seat.refresh()
    }

    /// What it has seen is legal. It does nothing: it is called for what it ensures.
    #[tactic(auto, using(crate::proofs::OwnTurns::view_legal))]
    pub fn is_legal(&self)
        ensures { IsLegal Legal self.now.2 }
    {
        let _view = self.seat.view();
    }

    /// One turn more.
    pub(crate) fn count_turn(&mut self)
        requires { self.old.1 < 2 ^ 64 - 1 }
        ensures { self.new ≡ counted self.old }
    {
        self.count += 1;
    }

    /// It has made a turn, which the note tells.
    #[tactic(auto, using(crate::proofs::Pubs::note_learnt))]
    pub(crate) fn made(&mut self, note: Note<DeskStory, N>)
        requires room { self.old.1 < 2 ^ 64 - 1 }
        requires note { IsAfter self.old.2 note }
        ensures { self.new ≡ (self.old.0, self.old.1 + 1, note) }
    {
        self.count += 1;
        self.seat.learn(note);
    }

    /// Whether what it has seen begins what the pen has.
    pub(crate) fn is_covered<W: Publish<Note<DeskStory, N>>>(
        &self,
        pen: &Pen<DeskStory, N, W>,
    ) -> bool
        ensures { IsTrue result → IsPrefix self.now.2 pen.now }
    {
        pen.covers(&self.seat)
    }

    /// Sees what the pen has.
    pub(crate) fn taught<W: Publish<Note<DeskStory, N>>>(
        &mut self,
        pen: &Pen<DeskStory, N, W>,
    ) -> Result<(), AllocError>
        requires { IsPrefix self.old.2 pen.now }
        ensures ok { OnOk result (self.new ≡ shown self.old pen.now) }
        ensures err { OnErr result (self.new ≡ self.old) }
    {
        pen.teach(&mut self.seat)
    }
}
