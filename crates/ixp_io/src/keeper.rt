//! What stores rows.
ghost use Rattle.std.specs.Prelude.{◌≡◌, ◌≤◌, Option, ℕ, OnOk, OnErr, IfOk, IsErrOf, option_map};
ghost use Rattle.std.specs.Option.{option_copied};
ghost use Rattle.std.specs.Cmp.{on_total, partial_order_from_total};
ghost use Rattle.std.specs.Cmp.Lexicographic.{nat_list_cmp_total};
ghost use Rattle.std.specs.Cmp.Rules.{comparing};
ghost use Rattle.std.specs.Ordering.{eq_by_cmp, as_partial_cmp};
ghost use Rattle.std.proofs.Common.{rules};
ghost use Rattle.ixp_io.specs.Faults.{Rose};
ghost use Rattle.ixp_io.specs.Told.{Told, WhereTold};
ghost use Rattle.ixp_io.specs.Tables.{
  Table,
  name_bytes,
  name_cmp,
  changed,
  next_after,
  row_entry,
  RowsInOrder,
};

use crate::Failed;
use ixp_num_tables::Items;
use std::alloc::{AllocError, AllocFailed, Global};
use std::cmp::Ordering;

/// A call of a keeper failed.
#[derive(Clone, Copy, Debug, PartialEq, Eq, Drop)]
pub enum KeepFault {
    /// The keeper failed, and its count of faults rose.
    Failed,
    NoMemory,
}

/// The name of a row: its kind, and its key among the rows of this kind. Names are ordered by kind, then by
/// the bytes of the key.
#[derive(Debug, Drop)]
pub struct RowName {
    pub kind: u8,
    pub key: Items<u8>,
}

/// A row of a keeper.
#[derive(Debug, Drop)]
pub struct Row {
    pub name: RowName,
    pub body: Items<u8>,
}

/// What a batch does to the row of a name: it gets this body, or goes where there is none.
#[derive(Debug, Drop)]
pub struct Change {
    pub name: RowName,
    pub body: Option<Items<u8>>,
}

impl RowName {
    /// An equal name.
    pub fn copied(&self, alloc: Global) -> Result<RowName, AllocError>
        ensures { IfOk result (λ name. name ≡ self.now) }
    {
        let key = self.key.copied(alloc)?;
        Ok(RowName {
            kind: self.kind,
            key,
        })
    }
}

/// What stores rows by their names.
pub trait Keeper {
    /// The rows, where they are told.
    ghost table: { Self → Option Table };

    /// How often a call failed.
    ghost faults: { Self → ℕ };

    /// Makes all the changes, one after the other, or none where it answers a fault.
    fn commit(&mut self, alloc: Global, batch: &[Change]) -> Result<(), KeepFault>
        ensures made { OnOk result (Told (table self.old) (table self.new)
            (λ before now. now ≡ changed before batch.now)) }
        ensures kept { OnErr result (table self.new ≡ table self.old) }
        ensures counts { faults self.old ≤ faults self.new }
        ensures cause { IsErrOf result KeepFault.Failed → Rose (faults self.old) (faults self.new) }
        ensures answered { Rose (faults self.old) (faults self.new) → result ≡ Err KeepFault.Failed };

    /// The row with the least name that is greater than `after`, or the least of all where there is no
    /// `after`; None exactly where there is no such row.
    fn next_row(&mut self, alloc: Global, after: Option<&RowName>) -> Result<Option<Row>, KeepFault>
        ensures row { IfOk result (λ row. WhereTold (table self.old)
            (λ rows. option_map row_entry row ≡ next_after (option_copied after.entry) rows)) }
        ensures kept { table self.new ≡ table self.old }
        ensures counts { faults self.old ≤ faults self.new }
        ensures cause { IsErrOf result KeepFault.Failed → Rose (faults self.old) (faults self.new) }
        ensures answered { Rose (faults self.old) (faults self.new) → result ≡ Err KeepFault.Failed };

    /// The count of faults.
    fn faults(&self) -> u64
        ensures { result ≡ faults self.now };
}

/// A law of the rows: who asks for the row after each one that it was given gets all of them in order.
#[tactic(auto, using(crate::proofs::Rows::rows_in_order))]
pub fn rows_in_order()
    ensures { RowsInOrder }
{}

impl<T: Keeper> Keeper for &mut T {
    ghost table = { λ it. T.table it.now };

    ghost faults = { λ it. T.faults it.now };

    fn commit(&mut self, alloc: Global, batch: &[Change]) -> Result<(), KeepFault> {
        (**self).commit(alloc, batch)
    }

    fn next_row(
        &mut self,
        alloc: Global,
        after: Option<&RowName>,
    ) -> Result<Option<Row>, KeepFault> {
        (**self).next_row(alloc, after)
    }

    fn faults(&self) -> u64 {
        (**self).faults()
    }
}

impl PartialEq for RowName {
    ghost eq = { eq_by_cmp name_cmp };

    ghost laws = { Prim.search (comparing, rules) };

    fn eq(&self, other: &RowName) -> bool {
        self.cmp(other) == Ordering::Equal
    }
}

impl Eq for RowName {
    ghost laws = { Prim.search (comparing, rules) };
}

impl PartialOrd for RowName {
    ghost partial_cmp = { as_partial_cmp name_cmp };

    ghost laws = { partial_order_from_total (on_total name_bytes nat_list_cmp_total) };

    fn partial_cmp(&self, other: &RowName) -> Option<Ordering> {
        Some(self.cmp(other))
    }
}

impl Ord for RowName {
    ghost cmp = { name_cmp };

    ghost total = { on_total name_bytes nat_list_cmp_total };

    ghost matches_partial_cmp = { Prim.search (comparing, rules) };

    ghost matches_eq = { Prim.search (comparing, rules) };

    fn cmp(&self, other: &RowName) -> Ordering {
        self.kind
            .cmp(&other.kind)
            .then(self.key.as_slice().cmp(other.key.as_slice()))
    }
}

impl From<Failed> for KeepFault {
    ghost use Rattle.std.specs.Prelude.{◌≡◌};
    ghost use Rattle.ixp_io.specs.declared.keeper.KeepFault.TheVariants.{Failed as KeeperFailed};

    ghost from_gives = { λ _ e. e ≡ KeeperFailed };

    fn from(_: Failed) -> KeepFault {
        KeepFault::Failed
    }
}

impl From<AllocError> for KeepFault {
    ghost use Rattle.std.specs.Prelude.{◌≡◌};
    ghost use Rattle.ixp_io.specs.declared.keeper.KeepFault.TheVariants.{NoMemory};

    ghost from_gives = { λ _ e. e ≡ NoMemory };

    fn from(_: AllocError) -> KeepFault {
        KeepFault::NoMemory
    }
}

impl<T: Drop> From<AllocFailed<T>> for KeepFault {
    ghost use Rattle.std.specs.Prelude.{◌≡◌};
    ghost use Rattle.ixp_io.specs.declared.keeper.KeepFault.TheVariants.{NoMemory};

    ghost from_gives = { λ _ e. e ≡ NoMemory };

    fn from(_: AllocFailed<T>) -> KeepFault {
        KeepFault::NoMemory
    }
}
