//! A keeper in memory.
ghost use Rattle.std.specs.Prelude.{
  ◌≡◌,
  ◌≤◌,
  ◌↔◌,
  [],
  Some,
  IsTrue,
  IfOk,
  OnOk,
  OnErr,
  IsErrOf,
  option_map,
  slice_get,
};
ghost use Rattle.std.specs.BTreeMap.{IsOrdered};
ghost use Rattle.std.specs.FinMap.{empty, insert, remove};
ghost use Rattle.std.specs.Option.{option_copied};
ghost use Rattle.ixp_io.specs.Tables.{name_cmp, next_after, rows_after, set, changed, row_entry, table_of};
ghost use Rattle.ixp_io.specs.Faults.{Rose};
ghost use Rattle.ixp_io.specs.Plans.{fails_next, after_call};

use crate::{Change, KeepFault, Keeper, Plan, Row, RowName};
use ixp_num_tables::Items;
use std::alloc::{AllocError, Global};
use std::collections::BTreeMap;
use std::ops::Bound;

type Rows = BTreeMap<RowName, Items<u8>>;

/// A keeper that holds its rows in memory. Once its count of faults stands at its last value, each call
/// fails.
#[derive(Drop)]
pub struct MemKeeper {
    pub rows: BTreeMap<RowName, Items<u8>>,
    pub plan: Plan,
}

impl MemKeeper {
    /// A keeper without rows. It does not allocate.
    pub fn new(alloc: Global, plan: Plan) -> MemKeeper
        ensures rows { table_of result.rows ≡ empty }
        ensures plan { result.plan ≡ plan }
    {
        MemKeeper {
            rows: empty_rows(alloc),
            plan,
        }
    }
}

impl Keeper for MemKeeper {
    ghost table = { λ keeper. Some (table_of keeper.rows) };

    ghost faults = { λ keeper. keeper.plan.faults };

    fn commit(&mut self, alloc: Global, batch: &[Change]) -> Result<(), KeepFault>
        ensures fails { IsErrOf result KeepFault.Failed ↔ IsTrue (fails_next self.old.plan) }
        ensures plan { self.new.plan ≡ after_call self.old.plan }
        ensures made { OnOk result (table_of self.new.rows ≡ changed (table_of self.old.rows) batch.now) }
        ensures kept { OnErr result (table_of self.new.rows ≡ table_of self.old.rows) }
        ensures counts { self.old.plan.faults ≤ self.new.plan.faults }
        ensures cause { IsErrOf result KeepFault.Failed → Rose self.old.plan.faults self.new.plan.faults }
        ensures answered { Rose self.old.plan.faults self.new.plan.faults → result ≡ Err KeepFault.Failed }
    {
        self.plan.count_call()?;
        let mut rows = copy_rows(alloc, &self.rows)?;
        for change in batch {
            make(alloc, &mut rows, change)?;
        }
        self.rows = rows;
        Ok(())
    }

    fn next_row(&mut self, alloc: Global, after: Option<&RowName>) -> Result<Option<Row>, KeepFault>
        ensures fails { IsErrOf result KeepFault.Failed ↔ IsTrue (fails_next self.old.plan) }
        ensures plan { self.new.plan ≡ after_call self.old.plan }
        ensures row { IfOk result (λ row.
            option_map row_entry row ≡ next_after (option_copied after.entry) (table_of self.old.rows)) }
        ensures kept { table_of self.new.rows ≡ table_of self.old.rows }
        ensures counts { self.old.plan.faults ≤ self.new.plan.faults }
        ensures cause { IsErrOf result KeepFault.Failed → Rose self.old.plan.faults self.new.plan.faults }
        ensures answered { Rose self.old.plan.faults self.new.plan.faults → result ≡ Err KeepFault.Failed }
    {
        self.plan.count_call()?;
        match find_next(&self.rows, after) {
            None => Ok(None),
            Some((name, body)) => Ok(Some(Row {
                name: name.copied(alloc)?,
                body: body.copied(alloc)?,
            })),
        }
    }

    fn faults(&self) -> u64 {
        self.plan.faults
    }
}

// Sets or deletes one row.
fn make(alloc: Global, rows: &mut Rows, change: &Change) -> Result<(), AllocError>
    ensures { OnOk result (table_of rows.new ≡ set (table_of rows.old) change.now.name change.now.body) }
{
    match &change.body {
        Some(body) => put(alloc, rows, &change.name, body),
        None => {
            take_out(rows, &change.name);
            Ok(())
        }
    }
}

// Deletes a row, where it is there.
fn take_out(rows: &mut Rows, name: &RowName)
    ensures { table_of rows.new ≡ remove (table_of rows.old) name.now }
{
    let _ordered = rows.len(); // whose clause says that the names rise
    rows.remove(name);
}

// Sets a row.
fn put(alloc: Global, rows: &mut Rows, name: &RowName, body: &Items<u8>) -> Result<(), AllocError>
    ensures { OnOk result (table_of rows.new ≡ insert (table_of rows.old) name.now body.now) }
{
    let name = name.copied(alloc)?;
    let body = body.copied(alloc)?;
    rows.insert(name, body)?;
    Ok(())
}

fn empty_rows(alloc: Global) -> Rows
    ensures { table_of result ≡ empty }
{
    BTreeMap::new(alloc)
}

// The same rows once more, from the last on.
fn copy_rows(alloc: Global, rows: &Rows) -> Result<Rows, AllocError>
    ensures { IfOk result (λ copy. table_of copy ≡ table_of rows.now) }
{
    let mut copy = empty_rows(alloc);
    let mut rest = rows.iter();
    while let Some((name, body)) = rest.next_back() {
        put(alloc, &mut copy, name, body)?;
    }
    Ok(copy)
}

// The row with the least name that is greater.
fn find_next<'a>(rows: &'a Rows, after: Option<&RowName>) -> Option<(&'a RowName, &'a Items<u8>)>
    ensures { option_map (λ row. (row.0.now, row.1.now)) result
        ≡ next_after (option_copied after.entry) (table_of rows.now) }
{
    seek(rows, after)
}

// The first entry whose name is greater.
fn seek<'a>(rows: &'a Rows, after: Option<&RowName>) -> Option<(&'a RowName, &'a Items<u8>)>
    ensures first { option_map (λ row. (row.0.now, row.1.now)) result
        ≡ slice_get (rows_after (option_copied after.entry) rows.now.entries) 0 }
    ensures ordered { IsOrdered name_cmp rows.now }
{
    let _ordered = rows.len(); // whose clause says that the names rise
    match after {
        None => rows.first_key_value(),
        Some(name) => rows.range((Bound::Excluded(name), Bound::Unbounded)).next(),
    }
}
