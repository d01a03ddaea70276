//! Views with the history that they are of.
ghost use Rattle.std.specs.Prelude.{◌≡◌, IfOk};
ghost use Rattle.ixp_board.specs.Histories.{IsLegal, IsViewOf, with_turn};

use crate::front::{BoardName, Front};
use crate::story::Story;
use left_right::Absorb;
use std::alloc::{AllocError, Global};
use std::marker::Model;

/// The view of a history, as the pen publishes it or tells it. Contracts see it as the history. A seat learns
/// it.
#[derive(Drop)]
pub struct Note<S: Story, N: BoardName> {
    alloc: Global,
    view: S::View,
    front: Front<S, N>,
}

impl<S: Story, N: BoardName> Model for Note<S, N> {
    ghost use Rattle.std.specs.Prelude.{List};
    ghost use Rattle.ixp_board.specs.declared.entry.Entry.{Entry};
    ghost use Rattle.ixp_board.specs.Histories.{IsViewOf};

    ghost Value = { List (Entry S.First S.Op) };

    ghost view = { λ n. n.front };

    ghost invariant = { λ n. IsViewOf S.legal S.fold n.front n.view };
}

impl<S: Story, N: BoardName> Note<S, N> {
    pub(crate) fn new(alloc: Global, view: S::View, front: Front<S, N>) -> Note<S, N>
        requires { IsViewOf S.legal S.fold front view }
        ensures { result ≡ front }
    {
        Note { alloc, view, front }
    }

    /// The view.
    pub fn view(&self) -> &S::View
        ensures { IsViewOf S.legal S.fold self.now result.now }
    {
        &self.view
    }

    /// What is known of the history.
    pub(crate) fn front(&self) -> &Front<S, N>
        ensures { result.now ≡ self.now }
    {
        &self.front
    }

    /// A share of the view.
    pub(crate) fn shared_view(&self) -> Result<S::View, AllocError>
        ensures { IfOk result (λ view. IsViewOf S.legal S.fold self.now view) }
    {
        S::share(self.alloc, &self.view)
    }

    /// The view after one turn more.
    pub(crate) fn next_view(&self, op: &S::Op) -> Result<S::View, AllocError>
        requires { IsLegal S.legal (with_turn self.now op.now) }
        ensures { IfOk result (λ view. IsViewOf S.legal S.fold (with_turn self.now op.now) view) }
    {
        let view = S::step(self.alloc, &self.view, op)?;
        Ok(view)
    }

    /// A note of the same history, with a share of the view.
    pub(crate) fn again(&self) -> Result<Note<S, N>, AllocError>
        ensures { IfOk result (λ note. note ≡ self.now) }
    {
        let view = S::share(self.alloc, &self.view)?;
        Ok(Note {
            alloc: self.alloc,
            view,
            front: self.front.again(),
        })
    }

    /// A note of the same history for a seat, with a view whose shares count their owners apart.
    pub(crate) fn apart(&self) -> Result<Note<S, N>, AllocError>
        ensures { IfOk result (λ note. note ≡ self.now) }
    {
        let view = S::apart(self.alloc, &self.view)?;
        Ok(Note {
            alloc: self.alloc,
            view,
            front: self.front.again(),
        })
    }
}

/// An operation of the writer sets the whole.
impl<S: Story, N: BoardName> Absorb<Note<S, N>> for Note<S, N> {
    type State = Front<S, N>;

    ghost state = { λ note. note };

    ghost applied = { λ before operation. operation };

    fn absorb_first(
        &mut self,
        operation: &Note<S, N>,
        _other: &Note<S, N>,
    ) -> Result<(), AllocError> {
        *self = operation.again()?;
        Ok(())
    }

    fn absorb_second(
        &mut self,
        operation: Note<S, N>,
        _other: &Note<S, N>,
    ) -> Result<(), Note<S, N>> {
        *self = operation;
        Ok(())
    }
}
