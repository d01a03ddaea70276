//! A walk of the index, which follows its entries in the table.
//!
//! The first cursor stands in the index, the second one in the table. Most rows were added in the order of
//! their names, so that the next row of the table is the next one of the walk. Any other row is looked up.
ghost use Rattle.std.specs.Prelude.{◌≡◌, IsSome, OnOk};
ghost use Rattle.ixp_keeper_sql.specs.Written.{KeepsLast};
ghost use Rattle.sqlite_trees.specs.View.{StayLive};

use crate::audit::number_of_rows;
use crate::trees::{Places, Trees, bytes_at, compare, number_at, write_entry, write_key};
use ixp_io::{Row, RowName};
use ixp_num_tables::Items;
use sqlite::Alter;
use sqlite_trees::error::StoreError;
use sqlite_trees::store::{Direction, Shape, Store};
use sqlite_value::row::Row as Entry;
use sqlite_value::value::ValueRef;
use std::alloc::{AllocError, Global};
use std::cmp::Ordering;

/// How many rows are read at once at most.
const MOST_AHEAD: usize = 256;

/// How many bytes of them are read at once, but for the last row.
const BYTES_AHEAD: usize = 65536;

/// The rowids that the table's cursor and the last look-up passed.
#[derive(Clone, Copy)]
pub struct Passed {
    /// The cursor stands before this rowid.
    next: Option<i64>,
    /// The rowid after the one that was looked up last.
    sought: Option<i64>,
}

pub const NOWHERE: Passed = Passed {
    next: None,
    sought: None,
};

/// Puts the index's cursor before the first entry that is not below the key.
#[tactic(auto, using(crate::proofs::Lasting::placed, crate::proofs::Lasting::unchanged))]
pub fn seek_name<S: Alter>(store: &mut S, names: u32, key: &Entry) -> Result<(), StoreError>
    ensures live { OnOk result (IsSome ((S.Store.view store.new).cursors 0)) }
    ensures stay { OnOk result (StayLive (S.Store.view store.old) (S.Store.view store.new)) }
    ensures last { KeepsLast (S.Store.view store.old) (S.Store.view store.new) }
{
    let Shape::Index(_) = store.shape(names) else {
        return Err(StoreError::Broken);
    };
    store.seek(0, names, key, Direction::Forward)
}

/// Takes the next entry of the index, and says whether there was one.
#[tactic(auto, using(crate::proofs::Lasting::moved))]
pub fn next_name<S: Alter>(store: &mut S, found: &mut Entry) -> Result<bool, StoreError>
    requires { IsSome ((S.Store.view store.old).cursors 0) }
    ensures stay { OnOk result (StayLive (S.Store.view store.old) (S.Store.view store.new)) }
    ensures last { KeepsLast (S.Store.view store.old) (S.Store.view store.new) }
{
    store.next(0, found)
}

/// Puts the table's cursor before the row with the rowid. The row is used to seek.
#[tactic(auto, using(crate::proofs::Lasting::placed, crate::proofs::Lasting::unchanged))]
fn seek_row<S: Alter>(store: &mut S, rows: u32, id: i64, row: &mut Entry) -> Result<(), StoreError>
    ensures live { OnOk result (IsSome ((S.Store.view store.new).cursors 1)) }
    ensures stay { OnOk result (StayLive (S.Store.view store.old) (S.Store.view store.new)) }
    ensures last { KeepsLast (S.Store.view store.old) (S.Store.view store.new) }
{
    let Shape::Table = store.shape(rows) else {
        return Err(StoreError::Broken);
    };
    row.clear();
    row.push(ValueRef::Int(id))?;
    let ValueRef::Int(_) = row.get(0) else {
        return Err(StoreError::Broken);
    };
    if row.len() != 1 {
        return Err(StoreError::Broken);
    }
    store.seek(1, rows, row, Direction::Forward)
}

/// Puts both cursors before the first entry that is not below the key.
#[tactic(auto, using(crate::proofs::Lasting::joined, crate::proofs::Lasting::unchanged))]
pub fn begin<S: Alter>(
    store: &mut S,
    places: Places,
    key: &Entry,
    row: &mut Entry,
) -> Result<(), StoreError>
    ensures names { OnOk result (IsSome ((S.Store.view store.new).cursors 0)) }
    ensures rows { OnOk result (IsSome ((S.Store.view store.new).cursors 1)) }
    ensures last { KeepsLast (S.Store.view store.old) (S.Store.view store.new) }
{
    seek_name(store, places.names, key)?;
    seek_first_row(store, places.rows, row)
}

/// Puts the table's cursor before its first row.
#[tactic(auto, using(crate::proofs::Lasting::joined, crate::proofs::Lasting::unchanged))]
pub fn seek_first_row<S: Alter>(store: &mut S, rows: u32, row: &mut Entry) -> Result<(), StoreError>
    ensures live { OnOk result (IsSome ((S.Store.view store.new).cursors 1)) }
    ensures stay { OnOk result (StayLive (S.Store.view store.old) (S.Store.view store.new)) }
    ensures last { KeepsLast (S.Store.view store.old) (S.Store.view store.new) }
{
    seek_row(store, rows, i64::MIN, row)
}

/// Takes the next row of the table, and says whether there was one.
#[tactic(auto, using(crate::proofs::Lasting::moved))]
pub fn next_row_of<S: Alter>(store: &mut S, row: &mut Entry) -> Result<bool, StoreError>
    requires { IsSome ((S.Store.view store.old).cursors 1) }
    ensures stay { OnOk result (StayLive (S.Store.view store.old) (S.Store.view store.new)) }
    ensures last { KeepsLast (S.Store.view store.old) (S.Store.view store.new) }
{
    store.next(1, row)
}

#[tactic(auto, using(crate::proofs::Lasting::joined, crate::proofs::Lasting::unchanged))]
fn next_row<S: Alter>(store: &mut S, id: i64, row: &mut Entry) -> Result<bool, StoreError>
    requires { IsSome ((S.Store.view store.old).cursors 1) }
    ensures stay { OnOk result (StayLive (S.Store.view store.old) (S.Store.view store.new)) }
    ensures last { KeepsLast (S.Store.view store.old) (S.Store.view store.new) }
{
    if !next_row_of(store, row)? {
        return Ok(false);
    }
    Ok(number_at(row, 0)? == id)
}

#[tactic(auto, using(crate::proofs::Lasting::looked, crate::proofs::Lasting::unchanged))]
fn look_up<S: Alter>(store: &mut S, rows: u32, id: i64, row: &mut Entry) -> Result<bool, StoreError>
    ensures stay { OnOk result (StayLive (S.Store.view store.old) (S.Store.view store.new)) }
    ensures last { KeepsLast (S.Store.view store.old) (S.Store.view store.new) }
{
    let Shape::Table = store.shape(rows) else {
        return Err(StoreError::Broken);
    };
    store.get(rows, id, row)
}

/// Reads the row with the rowid, and says whether there is one.
#[tactic(auto, using(crate::proofs::Lasting::joined, crate::proofs::Lasting::unchanged))]
pub fn follow<S: Alter>(
    store: &mut S,
    rows: u32,
    id: i64,
    passed: &mut Passed,
    row: &mut Entry,
) -> Result<bool, StoreError>
    requires { IsSome ((S.Store.view store.old).cursors 1) }
    ensures stay { OnOk result (StayLive (S.Store.view store.old) (S.Store.view store.new)) }
    ensures last { KeepsLast (S.Store.view store.old) (S.Store.view store.new) }
{
    let after = id.checked_add(1);
    if passed.next == Some(id) {
        passed.next = after;
        return next_row(store, id, row);
    }
    if passed.sought == Some(id) {
        *passed = Passed {
            next: after,
            sought: None,
        };
        seek_row(store, rows, id, row)?;
        return next_row(store, id, row);
    }
    passed.sought = after;
    look_up(store, rows, id, row)
}

/// Takes the next entry of the index with its row, and says whether there was one. An entry without a row of
/// its name is damage.
#[tactic(auto, using(crate::proofs::Lasting::joined, crate::proofs::Lasting::unchanged))]
pub fn next_pair<S: Alter>(
    store: &mut S,
    rows: u32,
    passed: &mut Passed,
    found: &mut Entry,
    row: &mut Entry,
) -> Result<bool, StoreError>
    requires names { IsSome ((S.Store.view store.old).cursors 0) }
    requires rows { IsSome ((S.Store.view store.old).cursors 1) }
    ensures stay { OnOk result (StayLive (S.Store.view store.old) (S.Store.view store.new)) }
    ensures last { KeepsLast (S.Store.view store.old) (S.Store.view store.new) }
{
    if !next_name(store, found)? {
        return Ok(false);
    }
    let id = number_at(found, 2)?;
    if !follow(store, rows, id, passed, row)? || !names_row(found, row)? {
        return Err(StoreError::Corrupt);
    }
    Ok(true)
}

/// Whether the entry has the row's name.
fn names_row(found: &Entry, row: &Entry) -> Result<bool, StoreError> {
    let kind = number_at(found, 0)?;
    let key = bytes_at(found, 1)?;
    Ok(kind == number_at(row, 1)? && key == bytes_at(row, 2)?)
}

/// No name has a kind above 255.
fn row_in(alloc: Global, row: &Entry) -> Result<Row, StoreError> {
    let Ok(kind) = u8::try_from(number_at(row, 1)?) else {
        return Err(StoreError::Corrupt);
    };
    let key = Items::from_slice(alloc, bytes_at(row, 2)?)?;
    let body = Items::from_slice(alloc, bytes_at(row, 3)?)?;
    Ok(Row {
        name: RowName { kind, key },
        body,
    })
}

/// What no entry of this name is above, and all entries of greater names are.
fn write_after(key: &mut Entry, after: Option<&RowName>) -> Result<(), AllocError> {
    match after {
        None => {
            key.clear();
            Ok(())
        }
        Some(name) => write_entry(key, name, i64::MAX),
    }
}

/// Whether the entry has the name of the row that was read last. Then two rows have one name.
fn is_twin(ahead: &[Row], found: &Entry) -> Result<bool, StoreError> {
    match ahead.last() {
        Some(last) => Ok(compare(found, &last.name)? == Ordering::Equal),
        None => Ok(false),
    }
}

/// Adds rows from the place of the cursors on, and says whether there may be more.
#[tactic(auto, using(crate::proofs::Lasting::joined, crate::proofs::Lasting::unchanged))]
fn gather<S: Alter>(
    alloc: Global,
    store: &mut S,
    rows: u32,
    found: &mut Entry,
    row: &mut Entry,
    ahead: &mut Vec<Row>,
) -> Result<bool, StoreError>
    requires names { IsSome ((S.Store.view store.old).cursors 0) }
    requires rows { IsSome ((S.Store.view store.old).cursors 1) }
    ensures last { KeepsLast (S.Store.view store.old) (S.Store.view store.new) }
{
    let mut passed = NOWHERE;
    let mut bytes = 0usize;
    'each: for _ in 0..MOST_AHEAD {
        if bytes >= BYTES_AHEAD {
            return Ok(true);
        }
        if !next_pair(store, rows, &mut passed, found, row)? {
            return Ok(false);
        }
        if is_twin(ahead.as_slice(), found)? {
            return Err(StoreError::Corrupt);
        }
        let read = row_in(alloc, row)?;
        bytes = bytes.saturating_add(read.body.len());
        ahead.push(read)?;
    }
    Ok(true)
}

/// Counts the entries that were read, where the walk began at the first one.
fn count<S: Alter>(trees: &mut Trees<S>, goes_on: bool, is_first: bool)
    ensures { trees.new.store ≡ trees.old.store }
{
    let before = if is_first {
        Some(0)
    } else if goes_on {
        trees.counted
    } else {
        None
    };
    let read = trees.ahead.len() as u64;
    trees.counted = before.map(|count| count.saturating_add(read));
}

/// At the end of the index, tests that the table has as many rows, where all entries were counted.
#[tactic(auto, using(crate::proofs::Lasting::joined, crate::proofs::Lasting::unchanged))]
fn test_count<S: Alter>(trees: &mut Trees<S>) -> Result<(), StoreError>
    ensures last { KeepsLast (S.Store.view trees.old.store) (S.Store.view trees.new.store) }
{
    let Some(count) = trees.counted else {
        return Ok(());
    };
    if trees.is_sound {
        return Ok(());
    }
    if number_of_rows(trees)? != count {
        return Err(StoreError::Corrupt);
    }
    trees.is_sound = true;
    Ok(())
}

/// Reads rows after the name. A fault is left to the call that comes to its row, where one stands before it.
#[tactic(auto, using(crate::proofs::Lasting::joined, crate::proofs::Lasting::unchanged))]
fn read_ahead<S: Alter>(trees: &mut Trees<S>, after: Option<&RowName>) -> Result<(), StoreError>
    ensures last { KeepsLast (S.Store.view trees.old.store) (S.Store.view trees.new.store) }
{
    let goes_on = after.is_some_and(|name| is_given(&trees.given, name));
    trees.ahead.clear();
    write_after(&mut trees.key, after)?;
    begin(&mut trees.store, trees.places, &trees.key, &mut trees.row)?;
    let gathered = gather(
        trees.alloc,
        &mut trees.store,
        trees.places.rows,
        &mut trees.found,
        &mut trees.row,
        &mut trees.ahead,
    );
    trees.ahead.reverse();
    count(trees, goes_on, after.is_none());
    match gathered {
        Ok(true) => Ok(()),
        Ok(false) => match test_count(trees) {
            Ok(()) => Ok(()),
            Err(error) => {
                trees.ahead.clear();
                Err(error)
            }
        },
        Err(error) if trees.ahead.is_empty() => Err(error),
        Err(_) => Ok(()),
    }
}

/// Whether the rows that were read ahead come after this name.
fn goes_on<S: Alter>(trees: &Trees<S>, after: Option<&RowName>) -> bool {
    match after {
        Some(name) if !trees.ahead.is_empty() => is_given(&trees.given, name),
        _ => false,
    }
}

fn is_given(given: &Entry, name: &RowName) -> bool {
    let is_kind = matches!(given.get(0), ValueRef::Int(kind) if kind == i64::from(name.kind));
    is_kind && matches!(given.get(1), ValueRef::Blob(key) if key == name.key.as_slice())
}

/// The row with the least name that is greater, or the first of all.
#[tactic(auto, using(crate::proofs::Lasting::joined, crate::proofs::Lasting::unchanged))]
pub fn row_after<S: Alter>(
    trees: &mut Trees<S>,
    after: Option<&RowName>,
) -> Result<Option<Row>, StoreError>
    ensures last { KeepsLast (S.Store.view trees.old.store) (S.Store.view trees.new.store) }
{
    if !goes_on(trees, after) {
        read_ahead(trees, after)?;
    }
    let Some(row) = trees.ahead.pop() else {
        return Ok(None);
    };
    write_key(&mut trees.given, &row.name)?;
    Ok(Some(row))
}
