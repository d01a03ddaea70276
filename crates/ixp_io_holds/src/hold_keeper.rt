//! A keeper that can be held inside a commit.
ghost use Rattle.std.specs.Prelude.{◌≡◌, ◌≤◌, Some};
ghost use Rattle.ixp_io.specs.Tables.{table_of};

use crate::Hold;
use ixp_io::{Change, KeepFault, Keeper, MemKeeper, Row, RowName};
use std::alloc::Global;

/// A keeper in memory that is held inside each commit while its hold is closed. A hold that fails is a
/// counted fault, and the batch isn't made.
#[derive(Drop)]
pub struct HoldKeeper<'a> {
    pub keeper: MemKeeper,
    hold: &'a Hold,
}

impl<'a> HoldKeeper<'a> {
    /// This keeper, held at this place.
    pub fn new(keeper: MemKeeper, hold: &'a Hold) -> HoldKeeper<'a>
        ensures { result.keeper ≡ keeper }
    {
        HoldKeeper { keeper, hold }
    }
}

impl Keeper for HoldKeeper<'_> {
    ghost table = { λ it. Some (table_of it.keeper.rows) };

    ghost faults = { λ it. it.keeper.plan.faults };

    fn commit(&mut self, alloc: Global, batch: &[Change]) -> Result<(), KeepFault> {
        if !self.hold.pass() {
            self.keeper.plan.faults = self.keeper.plan.faults.saturating_add(1);
            return Err(KeepFault::Failed);
        }
        self.keeper.commit(alloc, batch)
    }

    fn next_row(
        &mut self,
        alloc: Global,
        after: Option<&RowName>,
    ) -> Result<Option<Row>, KeepFault> {
        self.keeper.next_row(alloc, after)
    }

    fn faults(&self) -> u64 {
        self.keeper.faults()
    }
}
