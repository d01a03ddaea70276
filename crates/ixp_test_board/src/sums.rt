//! A story whose turns are numbers and whose view is their sum.
ghost use Rattle.std.specs.Prelude.{◌≡◌, ℕ, IfOk, OnOk, OnErr};
ghost use Rattle.ixp_board.specs.Histories.{with_turn};
ghost use Rattle.ixp_test_board.specs.Sums.{sum_from, IsSmall};

use ixp_board::{BoardName, Note, Pen, Publish, Story};
use ixp_num_tables::Held;
use std::alloc::{AllocError, Global};
use std::marker::PhantomData;
use std::sync::Wait;

/// A turn that adds a number.
pub trait Adds: Drop {
    ghost number_of: { Self → ℕ };

    /// The number that it adds.
    fn number(&self) -> u64
        ensures { result ≡ number_of self.now };

    /// What is done while the turn is being made.
    fn hold(&self) {}
}

impl Adds for u64 {
    ghost number_of = { λ n. n };

    fn number(&self) -> u64 {
        *self
    }
}

/// The sum of the numbers that turns add. It stays below 2^64.
pub struct Sum<T> {
    of: PhantomData<T>,
}

impl<T: Adds> Story for Sum<T> {
    ghost use Rattle.ixp_test_board.specs.Sums.{sum_from, IsSmall};

    type First = u64;

    type Op = T;

    type View = Held<u64>;

    ghost legal = { IsSmall T.number_of };

    ghost fold = { sum_from T.number_of };

    #[tactic(auto, using(crate::proofs::Adding::sum_with))]
    fn step(alloc: Global, view: &Held<u64>, op: &T) -> Result<Held<u64>, AllocError> {
        op.hold();
        let next = Held::new(alloc, *view.get() + op.number())?;
        Ok(next)
    }

    fn share(_alloc: Global, view: &Held<u64>) -> Result<Held<u64>, AllocError> {
        view.shared()
    }

    fn apart(alloc: Global, view: &Held<u64>) -> Result<Held<u64>, AllocError> {
        Held::new(alloc, *view.get())
    }
}

/// Makes the turn, if the sum stays below 2^64.
pub fn put<T: Adds, N: BoardName, W: Publish<Note<Sum<T>, N>>, R: Wait>(
    rt: &R,
    pen: &mut Pen<Sum<T>, N, W>,
    turn: &T,
) -> Result<Note<Sum<T>, N>, AllocError>
    ensures ok { OnOk result (pen.new ≡ with_turn pen.old turn.now) }
    ensures err { OnErr result (pen.new ≡ pen.old) }
    ensures note { IfOk result (λ note. note ≡ pen.new) }
{
    let Some(_sum) = pen.view().get().checked_add(turn.number()) else {
        return Err(AllocError);
    };
    pen.put(rt, turn)
}
