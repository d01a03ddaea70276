//! The one writer of the board.
ghost use Rattle.std.specs.Prelude.{◌≡◌, IsTrue, IfOk, OnOk, OnErr};
ghost use mathlib.Core.List.{IsPrefix};
ghost use Rattle.ixp_board.specs.Histories.{IsLegal, IsViewOf, with_turn};
ghost use Rattle.ixp_board.specs.Books.{head_of};

use crate::front::{BoardName, Head};
use crate::note::Note;
use crate::seat::Seat;
use crate::story::Story;
use crate::writer::{Copies, Publish};
use std::alloc::{AllocError, Global};
use std::marker::Model;
use std::sync::Wait;

/// The one writer of the board. Contracts see it as the history. `W` shows its notes to readers.
#[derive(Drop)]
pub struct Pen<S: Story, N: BoardName, W: Publish<Note<S, N>>> {
    alloc: Global,
    last: Note<S, N>,
    head: Head<S>,
    writer: W,
}

/// The pen that a board opens with.
pub type OpenPen<S, N> = Pen<S, N, Copies<Note<S, N>>>;

impl<S: Story, N: BoardName, W: Publish<Note<S, N>>> Model for Pen<S, N, W> {
    ghost use Rattle.std.specs.Prelude.{◌≡◌, List};
    ghost use Rattle.ixp_board.specs.declared.entry.Entry.{Entry};
    ghost use Rattle.ixp_board.specs.Books.{head_of};

    ghost Value = { List (Entry S.First S.Op) };

    ghost view = { λ p. p.last };

    ghost invariant = { λ p. p.head ≡ head_of N.book };
}

impl<S: Story, N: BoardName, W: Publish<Note<S, N>>> Pen<S, N, W> {
    pub(crate) fn new(alloc: Global, last: Note<S, N>, head: Head<S>, writer: W) -> Pen<S, N, W>
        requires { head ≡ head_of N.book }
        ensures { result ≡ last }
    {
        Pen {
            alloc,
            last,
            head,
            writer,
        }
    }

    /// The view of the history.
    pub fn view(&self) -> &S::View
        ensures { IsViewOf S.legal S.fold self.now result.now }
    {
        self.last.view()
    }

    /// Makes a turn, and publishes its view. It takes its memory first: where memory runs out, the turn isn't
    /// made. It waits for seats that are just looking at the view before the last one.
    pub fn put<R: Wait>(&mut self, rt: &R, op: &S::Op) -> Result<Note<S, N>, AllocError>
        requires { IsLegal S.legal (with_turn self.old op.now) }
        ensures ok { OnOk result (self.new ≡ with_turn self.old op.now) }
        ensures note { IfOk result (λ note. note ≡ self.new) }
        ensures err { OnErr result (self.new ≡ self.old) }
    {
        let (mine, published, note) = next(self.alloc, &self.last, &self.head, op)?;
        self.last = mine;
        self.writer.publish(rt, published);
        Ok(note)
    }

    /// A note of the history, for a seat to learn.
    pub fn tell(&self) -> Result<Note<S, N>, AllocError>
        ensures { IfOk result (λ note. note ≡ self.now) }
    {
        self.last.apart()
    }

    /// Whether the history is all that there is; then it begins with what the seat has seen. As the pen alone
    /// makes turns, it is. But what a book is known to hold says nothing of who writes, so that no clause can
    /// exclude the answer `false`.
    pub fn covers(&self, seat: &Seat<S, N>) -> bool
        ensures { IsTrue result → IsPrefix seat.now self.now }
    {
        self.last.front().is_whole(&self.head, seat.last().front())
    }

    /// Shows the seat the history, by an equal view and no note.
    pub fn teach(&self, seat: &mut Seat<S, N>) -> Result<(), AllocError>
        requires { IsPrefix seat.old self.now }
        ensures ok { OnOk result (seat.new ≡ self.now) }
        ensures err { OnErr result (seat.new ≡ seat.old) }
    {
        let note = self.last.apart()?;
        seat.set_last(note);
        Ok(())
    }
}

/// Takes the memory for the next turn, and then makes it: three notes of the history with the turn.
fn next<S: Story, N: BoardName>(
    alloc: Global,
    last: &Note<S, N>,
    head: &Head<S>,
    op: &S::Op,
) -> Result<(Note<S, N>, Note<S, N>, Note<S, N>), AllocError>
    requires head { head.now ≡ head_of N.book }
    requires legal { IsLegal S.legal (with_turn last.now op.now) }
    ensures mine { IfOk result (λ notes. notes.0 ≡ with_turn last.now op.now) }
    ensures published { IfOk result (λ notes. notes.1 ≡ with_turn last.now op.now) }
    ensures told { IfOk result (λ notes. notes.2 ≡ with_turn last.now op.now) }
{
    let view = last.next_view(op)?;
    let published = S::share(alloc, &view)?;
    let told = S::apart(alloc, &view)?;
    let mut front = last.front().again();
    if !front.add(head, op) {
        return Err(AllocError);
    }
    let published = Note::new(alloc, published, front.again());
    let told = Note::new(alloc, told, front.again());
    Ok((Note::new(alloc, view, front), published, told))
}
