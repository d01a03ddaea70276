//! A store that is lent to a desk.
ghost use Rattle.std.specs.Prelude.{◌≡◌};

use ixp_io::{Change, KeepFault, Keeper, Row, RowName};
use std::alloc::Global;
use std::marker::{Brand, PhantomData};

/// By which reference a store is lent. The function that lends a store is generic in it and is called at
/// [`Brand`]; so what comes back of the desk is known to be that reference.
pub trait Lending {
    ghost use Rattle.std.specs.Prelude.{ℕ};

    ghost lent: { ℕ };
}

impl Lending for Brand {
    ghost lent = { 0 };
}

/// A reference that its lender gets back.
#[derive(Drop)]
pub(crate) struct Loan<'a, T> {
    pub(crate) it: &'a mut T,
}

/// A store that is lent. A desk takes its store by value.
#[derive(Drop)]
pub(crate) struct Lent<'a, P: Keeper, L: Lending> {
    pub(crate) keeper: &'a mut P,
    pub(crate) of: PhantomData<L>,
    ghost same: { keeper.ghost_name ≡ L.lent },
}

impl<P: Keeper, L: Lending> Keeper for Lent<'_, P, L> {
    ghost table = { λ it. P.table it.keeper.now };

    ghost faults = { λ it. P.faults it.keeper.now };

    fn commit(&mut self, alloc: Global, batch: &[Change]) -> Result<(), KeepFault> {
        self.keeper.commit(alloc, batch)
    }

    fn next_row(
        &mut self,
        alloc: Global,
        after: Option<&RowName>,
    ) -> Result<Option<Row>, KeepFault> {
        self.keeper.next_row(alloc, after)
    }

    fn faults(&self) -> u64 {
        self.keeper.faults()
    }
}

/// Does nothing, but this use of a returned reference ties it, for the borrow checker, to the parameter that
/// lent it.
pub(crate) fn take_back<T>(it: &mut T)
    ensures { it.new ≡ it.old }
{}
