//! Makes the changes of a batch in the two trees.
//!
//! The changes are put into the order of their names. Of several of one name the last one counts. One walk of
//! the index tells which rows there are, and a row that has its new body already is left alone. So a list
//! that is put again with one change writes the pages of that change.
ghost use Rattle.std.specs.Prelude.{◌≡◌, IsSome, OnErr, OnOk};
ghost use Rattle.sqlite_trees.specs.Tree.{order_of, put_row, without_rowid, insert_entry, remove_entry};
ghost use Rattle.sqlite_trees.specs.View.{IsClean, SetsTree, StayLive};
ghost use Rattle.ixp_keeper_sql.specs.Written.{KeepsLast, SetsRow, AddsRow, TakesRow};

use crate::audit::test;
use crate::trees::{
    Trees, bytes_at, commit, compare, number_at, undo, write_entry, write_key, write_row,
};
use crate::walking::{NOWHERE, Passed, begin, follow, next_name, seek_name};
use ixp_io::{Change, RowName};
use sqlite::Alter;
use sqlite_trees::error::StoreError;
use sqlite_trees::store::{Direction, Shape, Store};
use sqlite_value::row::Row as Entry;
use sqlite_value::value::ValueRef;
use std::alloc::{AllocError, Global};
use std::cmp::Ordering;

/// A change, and where it stands in its batch.
#[derive(Clone, Copy)]
struct Place<'a> {
    /// The kind and the first 15 bytes of the key, by which most names are compared.
    prefix: u128,
    at: usize,
    change: &'a Change,
}

/// A change that makes a difference, and the rowid of the row that it changes.
#[derive(Clone, Copy)]
struct Step<'a> {
    change: &'a Change,
    id: Option<i64>,
}

/// What stands in `found`.
#[derive(Clone, Copy, PartialEq, Eq)]
enum Ahead {
    /// Nothing that was read.
    Unread,
    /// The entry that the index's cursor gave last.
    Entry,
    /// Nothing: the cursor is at the end.
    End,
}

/// Rowids that the batch took out. The rows that are added get them, and stand in pages that change anyway.
#[derive(Drop)]
struct Freed {
    ids: Vec<i64>,
    used: usize,
}

fn prefix_of(name: &RowName) -> u128 {
    let mut bytes = [0u8; 16];
    bytes[0] = name.kind;
    let key = name.key.as_slice();
    let len = key.len().min(15);
    bytes[1..len + 1].copy_from_slice(&key[..len]);
    u128::from_be_bytes(bytes)
}

fn order_of(a: &Place, b: &Place) -> Ordering {
    match a.prefix.cmp(&b.prefix) {
        Ordering::Equal => a.change.name.cmp(&b.change.name).then(a.at.cmp(&b.at)),
        order => order,
    }
}

/// The changes in the order of their names, and those of one name as the batch has them.
fn in_order<'a>(alloc: Global, batch: &'a [Change]) -> Result<Vec<Place<'a>>, AllocError> {
    let mut places = Vec::with_capacity(alloc, batch.len())?;
    for at in 0..batch.len() {
        let change = &batch[at];
        places.push(Place {
            prefix: prefix_of(&change.name),
            at,
            change,
        })?;
    }
    places.sort_unstable_by(order_of);
    Ok(places)
}

/// Whether the next change has the same name, so that this one makes no difference.
fn is_void(change: &Change, later: &[Place]) -> bool {
    match later.first() {
        Some(next) => next.change.name == change.name,
        None => false,
    }
}

#[tactic(auto, using(crate::proofs::Lasting::joined, crate::proofs::Lasting::unchanged))]
fn advance<S: Alter>(store: &mut S, ahead: &mut Ahead, found: &mut Entry) -> Result<(), StoreError>
    requires { IsSome ((S.Store.view store.old).cursors 0) }
    ensures stay { OnOk result (StayLive (S.Store.view store.old) (S.Store.view store.new)) }
    ensures last { KeepsLast (S.Store.view store.old) (S.Store.view store.new) }
{
    *ahead = if next_name(store, found)? {
        Ahead::Entry
    } else {
        Ahead::End
    };
    Ok(())
}

fn is_below(ahead: Ahead, found: &Entry, name: &RowName) -> Result<bool, StoreError> {
    match ahead {
        Ahead::Unread => Ok(true),
        Ahead::Entry => Ok(compare(found, name)? == Ordering::Less),
        Ahead::End => Ok(false),
    }
}

/// The rowid of the row with the name, which is greater than any that was asked for before.
#[tactic(auto, using(crate::proofs::Lasting::joined, crate::proofs::Lasting::unchanged))]
fn find<S: Alter>(
    store: &mut S,
    names: u32,
    name: &RowName,
    ahead: &mut Ahead,
    key: &mut Entry,
    found: &mut Entry,
) -> Result<Option<i64>, StoreError>
    requires { IsSome ((S.Store.view store.old).cursors 0) }
    ensures stay { OnOk result (StayLive (S.Store.view store.old) (S.Store.view store.new)) }
    ensures last { KeepsLast (S.Store.view store.old) (S.Store.view store.new) }
{
    if is_below(*ahead, found, name)? {
        advance(store, ahead, found)?;
    }
    if is_below(*ahead, found, name)? {
        write_key(key, name)?;
        seek_name(store, names, key)?;
        advance(store, ahead, found)?;
    }
    id_of(*ahead, found, name)
}

fn id_of(ahead: Ahead, found: &Entry, name: &RowName) -> Result<Option<i64>, StoreError> {
    if ahead != Ahead::Entry || compare(found, name)? != Ordering::Equal {
        return Ok(None);
    }
    Ok(Some(number_at(found, 2)?))
}

/// Whether the change makes a difference where there is this row.
#[tactic(auto, using(crate::proofs::Lasting::joined, crate::proofs::Lasting::unchanged))]
fn changes<S: Alter>(
    store: &mut S,
    rows: u32,
    change: &Change,
    id: Option<i64>,
    passed: &mut Passed,
    row: &mut Entry,
) -> Result<bool, StoreError>
    requires { IsSome ((S.Store.view store.old).cursors 1) }
    ensures stay { OnOk result (StayLive (S.Store.view store.old) (S.Store.view store.new)) }
    ensures last { KeepsLast (S.Store.view store.old) (S.Store.view store.new) }
{
    let (Some(body), Some(id)) = (&change.body, id) else {
        return Ok(change.body.is_some() || id.is_some());
    };
    if !follow(store, rows, id, passed, row)? {
        return Err(StoreError::Corrupt);
    }
    Ok(bytes_at(row, 3)? != body.as_slice())
}

/// The changes that make a difference, from the places of the cursors on.
#[tactic(auto, using(crate::proofs::Lasting::joined, crate::proofs::Lasting::unchanged))]
fn steps_of<'a, S: Alter>(
    trees: &mut Trees<S>,
    ordered: &[Place<'a>],
) -> Result<Vec<Step<'a>>, StoreError>
    requires names { IsSome ((S.Store.view trees.old.store).cursors 0) }
    requires rows { IsSome ((S.Store.view trees.old.store).cursors 1) }
    ensures last { KeepsLast (S.Store.view trees.old.store) (S.Store.view trees.new.store) }
{
    let mut steps = Vec::new(trees.alloc);
    let mut ahead = Ahead::Unread;
    let mut passed = NOWHERE;
    'places: for at in 0..ordered.len() {
        let change = ordered[at].change;
        if is_void(change, &ordered[at + 1..]) {
            continue;
        }
        let id = find(
            &mut trees.store,
            trees.places.names,
            &change.name,
            &mut ahead,
            &mut trees.key,
            &mut trees.found,
        )?;
        if changes(
            &mut trees.store,
            trees.places.rows,
            change,
            id,
            &mut passed,
            &mut trees.row,
        )? {
            steps.push(Step { change, id })?;
        }
    }
    Ok(steps)
}

#[tactic(auto, using(crate::proofs::Lasting::joined, crate::proofs::Lasting::unchanged, crate::proofs::Lasting::placed, crate::proofs::Lasting::moved))]
fn last_in<S: Alter>(store: &mut S, tree: u32, row: &mut Entry) -> Result<bool, StoreError>
    ensures last { KeepsLast (S.Store.view store.old) (S.Store.view store.new) }
{
    row.clear();
    store.seek(0, tree, row, Direction::Backward)?;
    store.next(0, row)
}

#[tactic(auto, using(crate::proofs::Lasting::written, crate::proofs::Lasting::unchanged))]
fn put<S: Alter>(store: &mut S, tree: u32, row: &Entry) -> Result<(), StoreError>
    ensures edit { OnOk result (IsClean (S.Store.view store.new)
        → SetsTree (S.Store.view store.old) (S.Store.view store.new) tree (put_row row.now)) }
    ensures last { KeepsLast (S.Store.view store.old) (S.Store.view store.new) }
{
    let Shape::Table = store.shape(tree) else {
        return Err(StoreError::Broken);
    };
    let ValueRef::Int(_) = row.get(0) else {
        return Err(StoreError::Broken);
    };
    store.put(tree, row)
}

#[tactic(auto, using(crate::proofs::Lasting::written, crate::proofs::Lasting::unchanged))]
fn delete<S: Alter>(store: &mut S, tree: u32, id: i64) -> Result<(), StoreError>
    ensures edit { OnOk result (IsClean (S.Store.view store.new)
        → SetsTree (S.Store.view store.old) (S.Store.view store.new) tree (without_rowid id)) }
    ensures clean { IsClean (S.Store.view store.new) → IsClean (S.Store.view store.old) }
    ensures last { KeepsLast (S.Store.view store.old) (S.Store.view store.new) }
{
    let Shape::Table = store.shape(tree) else {
        return Err(StoreError::Broken);
    };
    store.delete(tree, id)
}

#[tactic(auto, using(crate::proofs::Lasting::written, crate::proofs::Lasting::unchanged))]
fn insert<S: Alter>(store: &mut S, tree: u32, entry: &Entry) -> Result<(), StoreError>
    ensures edit { OnOk result (IsClean (S.Store.view store.new)
        → SetsTree (S.Store.view store.old) (S.Store.view store.new) tree
        (insert_entry (order_of ((S.Store.view store.old).shape tree)) entry.now)) }
    ensures clean { IsClean (S.Store.view store.new) → IsClean (S.Store.view store.old) }
    ensures last { KeepsLast (S.Store.view store.old) (S.Store.view store.new) }
{
    let Shape::Index(_) = store.shape(tree) else {
        return Err(StoreError::Broken);
    };
    store.insert(tree, entry)
}

#[tactic(auto, using(crate::proofs::Lasting::written, crate::proofs::Lasting::unchanged))]
fn remove<S: Alter>(store: &mut S, tree: u32, entry: &Entry) -> Result<(), StoreError>
    ensures edit { OnOk result (IsClean (S.Store.view store.new)
        → SetsTree (S.Store.view store.old) (S.Store.view store.new) tree
        (remove_entry (order_of ((S.Store.view store.old).shape tree)) entry.now)) }
    ensures last { KeepsLast (S.Store.view store.old) (S.Store.view store.new) }
{
    let Shape::Index(_) = store.shape(tree) else {
        return Err(StoreError::Broken);
    };
    store.remove(tree, entry)
}

/// The greatest rowid, and 0 where there is no row.
#[tactic(auto, using(crate::proofs::Lasting::joined, crate::proofs::Lasting::unchanged))]
fn greatest<S: Alter>(trees: &mut Trees<S>) -> Result<i64, StoreError>
    ensures last { KeepsLast (S.Store.view trees.old.store) (S.Store.view trees.new.store) }
{
    if let Some(last) = trees.last {
        return Ok(last);
    }
    if !last_in(&mut trees.store, trees.places.rows, &mut trees.row)? {
        return Ok(0);
    }
    number_at(&trees.row, 0)
}

fn take_freed(freed: &mut Freed) -> Option<i64> {
    let id = *freed.ids.get(freed.used)?;
    freed.used = freed.used.saturating_add(1);
    Some(id)
}

/// A rowid that no row has.
#[tactic(auto, using(crate::proofs::Lasting::joined, crate::proofs::Lasting::unchanged))]
fn free_rowid<S: Alter>(trees: &mut Trees<S>, freed: &mut Freed) -> Result<i64, StoreError>
    ensures last { KeepsLast (S.Store.view trees.old.store) (S.Store.view trees.new.store) }
{
    if let Some(id) = take_freed(freed) {
        return Ok(id);
    }
    let Some(id) = greatest(trees)?.checked_add(1) else {
        return Err(StoreError::Full);
    };
    trees.last = Some(id);
    Ok(id)
}

/// Sets the row with the rowid.
#[tactic(auto, using(crate::proofs::Lasting::joined, crate::proofs::Lasting::unchanged))]
fn put_row<S: Alter>(
    trees: &mut Trees<S>,
    id: i64,
    name: &RowName,
    body: &[u8],
) -> Result<(), StoreError>
    ensures row { OnOk result (IsClean (S.Store.view trees.new.store)
        → SetsRow trees.old.places id name.now body.now (S.Store.view trees.old.store)
        (S.Store.view trees.new.store)) }
    ensures places { trees.new.places ≡ trees.old.places }
    ensures last { KeepsLast (S.Store.view trees.old.store) (S.Store.view trees.new.store) }
{
    write_row(&mut trees.row, id, name, body)?;
    put(&mut trees.store, trees.places.rows, &trees.row)
}

/// Adds a row, with its entry in the index.
#[tactic(auto, using(crate::proofs::Lasting::joined, crate::proofs::Lasting::unchanged))]
fn add<S: Alter>(
    trees: &mut Trees<S>,
    id: i64,
    name: &RowName,
    body: &[u8],
) -> Result<(), StoreError>
    ensures edit { OnOk result (IsClean (S.Store.view trees.new.store)
        → AddsRow trees.old.places id name.now body.now (S.Store.view trees.old.store)
        (S.Store.view trees.new.store)) }
    ensures last { KeepsLast (S.Store.view trees.old.store) (S.Store.view trees.new.store) }
{
    put_row(trees, id, name, body)?;
    write_entry(&mut trees.found, name, id)?;
    insert(&mut trees.store, trees.places.names, &trees.found)
}

/// Takes out a row and its entry in the index.
#[tactic(auto, using(crate::proofs::Lasting::joined, crate::proofs::Lasting::unchanged))]
fn take_out<S: Alter>(trees: &mut Trees<S>, id: i64, name: &RowName) -> Result<(), StoreError>
    ensures edit { OnOk result (IsClean (S.Store.view trees.new.store)
        → TakesRow trees.old.places id name.now (S.Store.view trees.old.store)
        (S.Store.view trees.new.store)) }
    ensures last { KeepsLast (S.Store.view trees.old.store) (S.Store.view trees.new.store) }
{
    write_entry(&mut trees.found, name, id)?;
    remove(&mut trees.store, trees.places.names, &trees.found)?;
    delete(&mut trees.store, trees.places.rows, id)
}

/// Takes out the rows that go.
#[tactic(auto, using(crate::proofs::Lasting::joined, crate::proofs::Lasting::unchanged))]
fn take_all<S: Alter>(
    trees: &mut Trees<S>,
    steps: &[Step],
    freed: &mut Freed,
) -> Result<(), StoreError>
    ensures last { KeepsLast (S.Store.view trees.old.store) (S.Store.view trees.new.store) }
{
    for step in steps {
        let (None, Some(id)) = (&step.change.body, step.id) else {
            continue;
        };
        take_out(trees, id, &step.change.name)?;
        freed.ids.push(id)?;
    }
    Ok(())
}

/// Sets the rows that have a body.
#[tactic(auto, using(crate::proofs::Lasting::joined, crate::proofs::Lasting::unchanged))]
fn set_all<S: Alter>(
    trees: &mut Trees<S>,
    steps: &[Step],
    freed: &mut Freed,
) -> Result<(), StoreError>
    ensures last { KeepsLast (S.Store.view trees.old.store) (S.Store.view trees.new.store) }
{
    for step in steps {
        let Some(body) = &step.change.body else {
            continue;
        };
        match step.id {
            Some(id) => put_row(trees, id, &step.change.name, body.as_slice())?,
            None => {
                let id = free_rowid(trees, freed)?;
                add(trees, id, &step.change.name, body.as_slice())?;
            }
        }
    }
    Ok(())
}

/// Finds out which changes make a difference.
#[tactic(auto, using(crate::proofs::Lasting::joined, crate::proofs::Lasting::unchanged))]
fn planned<'a, S: Alter>(
    trees: &mut Trees<S>,
    batch: &'a [Change],
) -> Result<Vec<Step<'a>>, StoreError>
    ensures last { KeepsLast (S.Store.view trees.old.store) (S.Store.view trees.new.store) }
{
    let ordered = in_order(trees.alloc, batch)?;
    let Some(first) = ordered.first() else {
        return Ok(Vec::new(trees.alloc));
    };
    write_key(&mut trees.key, &first.change.name)?;
    begin(&mut trees.store, trees.places, &trees.key, &mut trees.row)?;
    steps_of(trees, ordered.as_slice())
}

#[tactic(auto, using(crate::proofs::Lasting::joined, crate::proofs::Lasting::unchanged))]
fn make_all<S: Alter>(trees: &mut Trees<S>, batch: &[Change]) -> Result<(), StoreError>
    ensures last { KeepsLast (S.Store.view trees.old.store) (S.Store.view trees.new.store) }
{
    test(trees)?;
    let steps = planned(trees, batch)?;
    let mut freed = Freed {
        ids: Vec::new(trees.alloc),
        used: 0,
    };
    take_all(trees, steps.as_slice(), &mut freed)?;
    set_all(trees, steps.as_slice(), &mut freed)
}

/// Makes the changes of a batch in one transaction, which is rolled back where one of them fails.
#[tactic(auto, using(crate::proofs::Lasting::joined, crate::proofs::Lasting::unchanged))]
pub fn change_rows<S: Alter>(trees: &mut Trees<S>, batch: &[Change]) -> Result<(), StoreError>
    ensures made { OnOk result (IsClean (S.Store.view trees.new.store)
        → (S.Store.view trees.new.store).committed ≡ (S.Store.view trees.new.store).trees) }
    ensures undone { OnErr result (KeepsLast (S.Store.view trees.old.store) (S.Store.view trees.new.store)) }
{
    trees.ahead.clear();
    trees.counted = None;
    let made = make_all(trees, batch);
    if made.is_err() {
        undo(&mut trees.store);
        return made;
    }
    commit(&mut trees.store)
}
