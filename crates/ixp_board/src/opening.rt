//! Opening a board.
ghost use Rattle.std.specs.Prelude.{◌≡◌, ◌<◌, [], length, All, IfOk, IfErr};
ghost use Rattle.ixp_board.specs.Histories.{entries, IsViewOf, turns_of};

use crate::entry::Entry;
use crate::front::{BoardName, Front, Head, Law, Log};
use crate::note::Note;
use crate::pen::{OpenPen, Pen};
use crate::seat::Seat;
use crate::story::Story;
use crate::writer::Copies;
use left_right::writer::Writer;
use logbook::{Opening, Seen, Start, Word};
use std::alloc::{AllocError, Global};
use std::marker::Model;

/// A history begins with its first state.
pub struct Begins;

impl<F, O> Opening<F, Entry<F, O>> for Begins {
    ghost use Rattle.std.specs.Prelude.{[]};
    ghost use Rattle.ixp_board.specs.Histories.{entries};

    ghost log = { λ count first. entries first [] };
}

/// A board that was begun and has no name yet. Contracts see which board it is, and its history.
#[derive(Drop)]
pub struct Opened<S: Story> {
    view: S::View,
    seen: Log<S>,
    head: Head<S>,
}

impl<S: Story> Model for Opened<S> {
    ghost use Rattle.std.specs.Prelude.{◌≡◌, List, []};
    ghost use Rattle.logbook.specs.Pages.{Book};
    ghost use Rattle.ixp_board.specs.declared.entry.Entry.{Entry};
    ghost use Rattle.ixp_board.specs.Histories.{IsViewOf, turns_of};
    ghost use Rattle.ixp_board.specs.Books.{head_of};

    ghost Value = { Book × List (Entry S.First S.Op) };

    ghost view = { λ o. (o.seen.book, o.seen.log) };

    ghost invariant = { λ o. IsViewOf S.legal S.fold o.seen.log o.view × (turns_of o.seen.log ≡ [])
        × (o.head ≡ head_of o.seen.book) };
}

/// Begins a board with a first state, whose view it takes. It does not allocate.
pub fn begin<S: Story>(first: &S::First, view: S::View) -> Opened<S>
    requires legal { S.legal first.now [] }
    requires view { view ≡ S.fold first.now [] }
    ensures { result.1 ≡ entries first.now [] }
{
    let (seen, mut pens): (Log<S>, _) = Seen::open_row::<S::First, Begins>(
        first,
        Start::alone(),
        1,
    );
    let mut pen = pens.take();
    let head = Word::tracked(0, &mut pen);
    Opened { view, seen, head }
}

/// Opens a board: its pen, and its seats, each of which has seen the first state without turns. Where memory
/// runs out the board comes back as it was begun.
pub fn open<S: Story, N: BoardName>(
    alloc: Global,
    opened: Opened<S>,
    seats: u32,
) -> Result<(OpenPen<S, N>, Vec<Seat<S, N>>), (AllocError, Opened<S>)>
    requires seats { 0 < seats }
    requires name { opened.0 ≡ N.book }
    ensures pen { IfOk result (λ board. board.0 ≡ opened.1) }
    ensures count { IfOk result (λ board. length board.1.items ≡ seats) }
    ensures seats { IfOk result (λ board. All (λ seat. seat ≡ opened.1) board.1.items) }
    ensures err { IfErr result (λ fault. fault.1 ≡ opened) }
{
    let made = make(alloc, &opened.view, &opened.seen, seats);
    match made {
        Err(fault) => Err((fault, opened)),
        Ok((last, writer, seats)) => {
            let Opened {
                view: _view,
                seen: _seen,
                head,
            } = opened;
            Ok((Pen::new(alloc, last, head, writer), seats))
        }
    }
}

/// What a board is made of but its word.
fn make<S: Story, N: BoardName>(
    alloc: Global,
    view: &S::View,
    seen: &Log<S>,
    seats: u32,
) -> Result<(Note<S, N>, Copies<Note<S, N>>, Vec<Seat<S, N>>), AllocError>
    requires seats { 0 < seats }
    requires name { seen.now.book ≡ N.book }
    requires turns { turns_of seen.now.log ≡ [] }
    requires view { IsViewOf S.legal S.fold seen.now.log view.now }
    ensures last { IfOk result (λ made. made.0 ≡ seen.now.log) }
    ensures count { IfOk result (λ made. length made.2.items ≡ seats) }
    ensures seats { IfOk result (λ made. All (λ seat. seat ≡ seen.now.log) made.2.items) }
{
    let last = first_note(alloc, view, seen)?;
    let writer = Writer::new(alloc, last.again()?, last.again()?, seats as usize)?;
    let copies = Copies { writer };
    let taken = take_seats(alloc, &last, &copies, seats)?;
    Ok((last, copies, taken))
}

/// The note of the first state.
fn first_note<S: Story, N: BoardName>(
    alloc: Global,
    view: &S::View,
    seen: &Log<S>,
) -> Result<Note<S, N>, AllocError>
    requires name { seen.now.book ≡ N.book }
    requires turns { turns_of seen.now.log ≡ [] }
    requires view { IsViewOf S.legal S.fold seen.now.log view.now }
    ensures { IfOk result (λ note. note ≡ seen.now.log) }
{
    let view = S::share(alloc, view)?;
    Ok(Note::new(alloc, view, Front::at_first(seen)))
}

/// So many seats that have seen what the note tells.
fn take_seats<S: Story, N: BoardName>(
    alloc: Global,
    last: &Note<S, N>,
    copies: &Copies<Note<S, N>>,
    seats: u32,
) -> Result<Vec<Seat<S, N>>, AllocError>
    ensures count { IfOk result (λ taken. length taken.items ≡ seats) }
    ensures seats { IfOk result (λ taken. All (λ seat. seat ≡ last.now) taken.items) }
{
    let mut taken = Vec::new(alloc);
    'each: for _ in 0..seats {
        let reader = copies.writer.factory().reader().ok();
        taken.push(Seat::new(last.apart()?, reader))?;
    }
    Ok(taken)
}
