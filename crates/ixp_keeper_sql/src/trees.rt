//! The two trees of the table: the rows by their rowids, and the index of their names.
//!
//! A statement of SQL is bound, marked, planned and checked anew for each row, and most of what it does has
//! nothing to do with the row. Where a database has the table, the index of its key and no other object,
//! nothing but the two trees has to change with a row, and they are changed as the statement would change
//! them. The file is the same.
ghost use Rattle.std.specs.Prelude.{◌≡◌, ◌++◌, OnOk, OnErr};
ghost use Rattle.sqlite_trees.specs.View.{IsClean, Commits, IsRolledBack};
ghost use Rattle.ixp_keeper_sql.specs.Written.{KeepsLast, name_of, entry_of, row_of};

use ixp_io::{Row, RowName};
use sqlite::{Alter, Connection};
use sqlite_trees::error::StoreError;
use sqlite_trees::store::Store;
use sqlite_value::row::Row as Entry;
use sqlite_value::value::ValueRef;
use std::alloc::{AllocError, Global};
use std::cmp::Ordering;

/// The numbers of the trees.
#[derive(Clone, Copy)]
pub struct Places {
    pub rows: u32,
    pub names: u32,
}

/// The store, and what is used again from row to row.
pub struct Trees<S: Alter> {
    pub store: S,
    pub places: Places,
    /// The greatest rowid, once a new one was given.
    pub last: Option<i64>,
    /// What is looked for.
    pub key: Entry,
    /// What was found: the name of a row, and its rowid.
    pub found: Entry,
    /// A row with its rowid.
    pub row: Entry,
    /// The name of the row that was given last.
    pub given: Entry,
    /// The rows after that one that were read with it, the next one last.
    pub ahead: Vec<Row>,
    /// How many entries of the index were read from the first one on, where none was left out.
    pub counted: Option<u64>,
    /// The table and its index agree.
    pub is_sound: bool,
    pub alloc: Global,
}

// It is written out, so that a caller doesn't prove again how each part is dropped.
impl<S: Alter + Drop> Drop for Trees<S> {
    fn drop(self) {
        let Trees {
            store: _,
            places: _,
            last: _,
            key: _,
            found: _,
            row: _,
            given: _,
            ahead: _,
            counted: _,
            is_sound: _,
            alloc: _,
        } = self;
    }
}

/// The trees of a database that has one table and the index of its key, and no other object.
pub fn places_in<S: Alter>(conn: &Connection<S>) -> Option<Places> {
    let schema = conn.schema();
    let [table] = schema.tables.as_slice() else {
        return None;
    };
    let [index] = schema.indexes.as_slice() else {
        return None;
    };
    if !schema.views.is_empty() || index.table != table.tree {
        return None;
    }
    if index.columns.as_slice() != [1, 2].as_slice() {
        return None;
    }
    Some(Places {
        rows: table.tree,
        names: index.tree,
    })
}

impl<S: Alter> Trees<S> {
    /// It does not allocate. Whether the table and its index agree is known where a connection has tested it.
    pub fn over(alloc: Global, store: S, places: Places, is_sound: bool) -> Trees<S> {
        Trees {
            store,
            places,
            last: None,
            key: Entry::new(alloc),
            found: Entry::new(alloc),
            row: Entry::new(alloc),
            given: Entry::new(alloc),
            ahead: Vec::new(alloc),
            counted: None,
            is_sound,
            alloc,
        }
    }

    /// The store.
    pub fn into_store(self) -> S {
        let Trees {
            store,
            places: _,
            last: _,
            key: _,
            found: _,
            row: _,
            given: _,
            ahead: _,
            counted: _,
            is_sound: _,
            alloc: _,
        } = self;
        store
    }
}

fn push_name(entry: &mut Entry, name: &RowName) -> Result<(), AllocError>
    ensures { OnOk result (entry.new ≡ entry.old ++ name_of name.now) }
{
    entry.push(ValueRef::Int(i64::from(name.kind)))?;
    entry.push(ValueRef::Blob(name.key.as_slice()))
}

/// Writes the name as the beginning of an entry of the index.
pub fn write_key(key: &mut Entry, name: &RowName) -> Result<(), AllocError>
    ensures { OnOk result (key.new ≡ name_of name.now) }
{
    key.clear();
    push_name(key, name)
}

/// Writes the entry of the index for the row with the rowid.
pub fn write_entry(entry: &mut Entry, name: &RowName, id: i64) -> Result<(), AllocError>
    ensures { OnOk result (entry.new ≡ entry_of name.now id) }
{
    entry.clear();
    push_name(entry, name)?;
    entry.push(ValueRef::Int(id))
}

/// Writes a row of the table.
pub fn write_row(row: &mut Entry, id: i64, name: &RowName, body: &[u8]) -> Result<(), AllocError>
    ensures { OnOk result (row.new ≡ row_of id name.now body.now) }
{
    row.clear();
    row.push(ValueRef::Int(id))?;
    push_name(row, name)?;
    row.push(ValueRef::Blob(body))
}

pub fn number_at(entry: &Entry, at: usize) -> Result<i64, StoreError> {
    match entry.get(at) {
        ValueRef::Int(number) => Ok(number),
        _ => Err(StoreError::Corrupt),
    }
}

pub fn bytes_at(entry: &Entry, at: usize) -> Result<&[u8], StoreError> {
    match entry.get(at) {
        ValueRef::Blob(bytes) => Ok(bytes),
        _ => Err(StoreError::Corrupt),
    }
}

/// Where the name of an entry of the index stands to this name.
pub fn compare(entry: &Entry, name: &RowName) -> Result<Ordering, StoreError> {
    let kind = number_at(entry, 0)?;
    let key = bytes_at(entry, 1)?;
    Ok(
        kind.cmp(&i64::from(name.kind))
            .then(key.cmp(name.key.as_slice())),
    )
}

#[tactic(auto, using(crate::proofs::Lasting::undone))]
pub fn undo<S: Alter>(store: &mut S)
    ensures back { IsRolledBack (S.Store.view store.old) (S.Store.view store.new) }
    ensures last { KeepsLast (S.Store.view store.old) (S.Store.view store.new) }
{
    store.rollback();
}

#[tactic(auto, using(crate::proofs::Lasting::undone))]
pub fn commit<S: Alter>(store: &mut S) -> Result<(), StoreError>
    ensures made { OnOk result (IsClean (S.Store.view store.new)
        → Commits (S.Store.view store.old) (S.Store.view store.new)) }
    ensures undone { OnErr result (KeepsLast (S.Store.view store.old) (S.Store.view store.new)) }
{
    store.commit()
}
