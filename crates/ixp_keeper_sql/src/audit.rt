//! Whether the index has one entry for each row of the table and no other, and no two rows have one name.
//!
//! A walk over all rows tests it on its way (`walking.rt`). Where the rows are changed before such a walk has
//! come to its end, it is tested here.
ghost use Rattle.std.specs.Prelude.{◌≡◌, IsSome, OnOk};
ghost use Rattle.ixp_keeper_sql.specs.Written.{KeepsLast};
ghost use Rattle.sqlite_trees.specs.View.{StayLive};

use crate::trees::{Trees, bytes_at, number_at};
use crate::walking::{NOWHERE, begin, next_pair, next_row_of, seek_first_row};
use sqlite::Alter;
use sqlite_trees::error::StoreError;
use sqlite_value::row::Row as Entry;
use std::mem;

/// Whether the name of an entry is greater than that of the one before it.
fn rises(before: &Entry, found: &Entry) -> Result<bool, StoreError> {
    if before.is_empty() {
        return Ok(true);
    }
    let (kind, key) = (number_at(before, 0)?, bytes_at(before, 1)?);
    let (next_kind, next_key) = (number_at(found, 0)?, bytes_at(found, 1)?);
    Ok(kind < next_kind || (kind == next_kind && key < next_key))
}

/// How many entries the index has from the cursors on. None where a name isn't greater than the one before.
#[tactic(auto, using(crate::proofs::Lasting::joined, crate::proofs::Lasting::unchanged))]
fn count_names<S: Alter>(
    store: &mut S,
    rows: u32,
    found: &mut Entry,
    before: &mut Entry,
    row: &mut Entry,
) -> Result<Option<u64>, StoreError>
    requires names { IsSome ((S.Store.view store.old).cursors 0) }
    requires rows { IsSome ((S.Store.view store.old).cursors 1) }
    ensures last { KeepsLast (S.Store.view store.old) (S.Store.view store.new) }
{
    let mut passed = NOWHERE;
    let mut count = 0u64;
    before.clear();
    'names: for _ in 0..u64::MAX {
        if !next_pair(store, rows, &mut passed, found, row)? {
            return Ok(Some(count));
        }
        if !rises(before, found)? {
            return Ok(None);
        }
        count = count.saturating_add(1);
        mem::swap(before, found);
    }
    Ok(None)
}

/// How many rows the table has from its cursor on.
#[tactic(auto, using(crate::proofs::Lasting::joined, crate::proofs::Lasting::unchanged))]
fn count_rows<S: Alter>(store: &mut S, row: &mut Entry) -> Result<u64, StoreError>
    requires { IsSome ((S.Store.view store.old).cursors 1) }
    ensures last { KeepsLast (S.Store.view store.old) (S.Store.view store.new) }
{
    let mut count = 0u64;
    'rows: for _ in 0..u64::MAX {
        if !next_row_of(store, row)? {
            return Ok(count);
        }
        count = count.saturating_add(1);
    }
    Ok(count)
}

#[tactic(auto, using(crate::proofs::Lasting::joined, crate::proofs::Lasting::unchanged))]
fn number_of_names<S: Alter>(trees: &mut Trees<S>) -> Result<Option<u64>, StoreError>
    ensures last { KeepsLast (S.Store.view trees.old.store) (S.Store.view trees.new.store) }
{
    trees.key.clear();
    begin(&mut trees.store, trees.places, &trees.key, &mut trees.row)?;
    count_names(
        &mut trees.store,
        trees.places.rows,
        &mut trees.found,
        &mut trees.given,
        &mut trees.row,
    )
}

/// How many rows the table has.
#[tactic(auto, using(crate::proofs::Lasting::joined, crate::proofs::Lasting::unchanged))]
pub fn number_of_rows<S: Alter>(trees: &mut Trees<S>) -> Result<u64, StoreError>
    ensures last { KeepsLast (S.Store.view trees.old.store) (S.Store.view trees.new.store) }
{
    seek_first_row(&mut trees.store, trees.places.rows, &mut trees.row)?;
    count_rows(&mut trees.store, &mut trees.row)
}

/// Tests that the table and its index agree, where that isn't known: each entry of the index has a row of its
/// name, no two of them have one name, and there are as many of the ones as of the others.
#[tactic(auto, using(crate::proofs::Lasting::joined, crate::proofs::Lasting::unchanged))]
pub fn test<S: Alter>(trees: &mut Trees<S>) -> Result<(), StoreError>
    ensures last { KeepsLast (S.Store.view trees.old.store) (S.Store.view trees.new.store) }
{
    if trees.is_sound {
        return Ok(());
    }
    let names = number_of_names(trees)?;
    trees.given.clear();
    if names != Some(number_of_rows(trees)?) {
        return Err(StoreError::Corrupt);
    }
    trees.is_sound = true;
    Ok(())
}
