//! Readers of the board.
ghost use Rattle.std.specs.Prelude.{◌≡◌, ◌⊎◌, IfOk, OnErr, IfSome};
ghost use mathlib.Core.List.{IsPrefix};
ghost use Rattle.ixp_board.specs.Histories.{IsLegal, IsViewOf};

use crate::front::BoardName;
use crate::note::Note;
use crate::story::Story;
use crossbeam_utils::rule::Unruled;
use left_right::reader::Reader;
use std::alloc::AllocError;
use std::marker::Model;

/// A reader of notes, as `left_right` gives it.
type NoteReader<S, N> = Reader<Note<S, N>, (), Unruled>;

/// A reader of the board. Contracts see it as the history that it has seen.
///
/// Each look writes in its seat. So that seats which lie side by side don't slow each other, the next one
/// begins 128 bytes later.
#[derive(Drop)]
#[repr(C)]
pub struct Seat<S: Story, N: BoardName> {
    last: Note<S, N>,
    /// None where `left_right` gave no reader: then the seat sees what it learns.
    reader: Option<NoteReader<S, N>>,
    _room: [u64; 16],
}

impl<S: Story, N: BoardName> Model for Seat<S, N> {
    ghost use Rattle.std.specs.Prelude.{List};
    ghost use Rattle.ixp_board.specs.declared.entry.Entry.{Entry};

    ghost Value = { List (Entry S.First S.Op) };

    ghost view = { λ s. s.last };
}

impl<S: Story, N: BoardName> Seat<S, N> {
    pub(crate) fn new(last: Note<S, N>, reader: Option<NoteReader<S, N>>) -> Seat<S, N>
        ensures { result ≡ last }
    {
        Seat {
            last,
            reader,
            _room: [0; 16],
        }
    }

    pub(crate) fn last(&self) -> &Note<S, N>
        ensures { result.now ≡ self.now }
    {
        &self.last
    }

    pub(crate) fn set_last(&mut self, note: Note<S, N>)
        ensures { self.new ≡ note }
    {
        self.last = note;
    }

    /// The view that was seen last. It doesn't look at what was published since.
    pub fn view(&self) -> &S::View
        ensures { IsViewOf S.legal S.fold self.now result.now }
    {
        self.last.view()
    }

    /// Sees what the note tells, if that is more than what it has seen. It does not allocate, and waits for
    /// nobody.
    pub fn learn(&mut self, note: Note<S, N>)
        ensures one { (self.new ≡ self.old) ⊎ (self.new ≡ note) }
        ensures this { IsPrefix self.old self.new }
        ensures that { IsPrefix note self.new }
    {
        if self.last.front().is_before(note.front()) {
            self.last = note;
        }
    }

    /// Looks at what was published last, and gives its view, or that of what the seat has seen where that is
    /// more. The view is a share of the seat's own, so that its owners are counted in memory that no other
    /// seat writes. It waits for nobody. Where memory runs out nothing was seen.
    pub fn look(&mut self) -> Result<S::View, AllocError>
        ensures view { IfOk result (λ view. IsViewOf S.legal S.fold self.new view) }
        ensures seen { IsPrefix self.old self.new }
        ensures legal { IsLegal S.legal self.new }
        ensures err { OnErr result (self.new ≡ self.old) }
    {
        self.last.front().legal();
        let (reader, published) = enter(self.reader.take(), &self.last);
        self.reader = reader;
        let Some(next) = published? else {
            return self.last.shared_view();
        };
        let view = next.shared_view()?;
        self.last = next;
        Ok(view)
    }

    /// Looks at what was published last without a share of its own: `view` lends it afterwards. Where nothing
    /// is new it writes nothing that readers share, so it doesn't get slower the more they are. It waits for
    /// nobody. Where memory runs out nothing was seen.
    pub fn refresh(&mut self) -> Result<(), AllocError>
        ensures seen { IsPrefix self.old self.new }
        ensures legal { IsLegal S.legal self.new }
        ensures err { OnErr result (self.new ≡ self.old) }
    {
        self.last.front().legal();
        let (reader, published) = enter(self.reader.take(), &self.last);
        self.reader = reader;
        let Some(next) = published? else {
            return Ok(());
        };
        self.last = next;
        Ok(())
    }
}

/// Enters what was published last, and takes a note of it if it goes on from the last note.
fn enter<S: Story, N: BoardName>(
    reader: Option<NoteReader<S, N>>,
    last: &Note<S, N>,
) -> (
    Option<NoteReader<S, N>>,
    Result<Option<Note<S, N>>, AllocError>,
)
    ensures { IfOk result.1 (λ found. IfSome found (λ note. IsPrefix last.now note)) }
{
    let Some(reader) = reader else {
        return (None, Ok(None));
    };
    match reader.enter_as::<Unruled>() {
        Err(reader) => (Some(reader), Ok(None)),
        Ok(reading) => {
            let found = newer(last, reading.get());
            (Some(reading.leave()), found)
        }
    }
}

/// A note of what was published, if it goes on from the last note.
fn newer<S: Story, N: BoardName>(
    last: &Note<S, N>,
    published: &Note<S, N>,
) -> Result<Option<Note<S, N>>, AllocError>
    ensures { IfOk result (λ found. IfSome found (λ note. IsPrefix last.now note)) }
{
    if !last.front().is_before(published.front()) {
        return Ok(None);
    }
    let note = published.apart()?;
    Ok(Some(note))
}
