//! Opens the files of a store.
//!
//! A connection over a file tests each row by two searches of the index, before the first one is read. A
//! file that has this crate's table alone is opened without one. Its pages and trees are checked here too,
//! and `walking.rt` or `audit.rt` tests that the table and its index agree. Any other file is opened by a
//! connection.
ghost use Rattle.std.specs.Prelude.{◌≡◌, IsTrue, IfOk, IfErr};
ghost use Rattle.sqlite_store.specs.Unopened.{files_of, AreUsable};

use crate::statements::TABLE;
use crate::trees::Places;
use sqlite::{Error, ErrorCode, FileStore};
use sqlite_disk::{Disk, Files};
use sqlite_pager::{Options, PageSize, Pager};
use sqlite_pool::probe_blank;
use sqlite_store::Unopened;
use sqlite_trees::store::Shape;
use sqlite_value::keys::Order;
use sqlite_value::row::Row as Entry;
use sqlite_value::value::ValueRef;
use sqlite_wal::{probe_first_page, probe_page_size};
use std::alloc::{AllocError, AllocFailed, Global};

/// The page size of a file that is made.
const NEW_SIZE: usize = 4096;

/// Bytes 20 to 23 of the header of a file whose pages end in sums.
const WITH_SUMS: u32 = 0x0840_2020;

/// Where the two trees stand in a file that this crate made.
pub const OWN: Places = Places { rows: 0, names: 1 };

/// The size of the pages of two files that hold a database without sums. It writes nothing.
fn page_size_of<D: Disk>(alloc: Global, files: &mut Files<D>) -> Option<PageSize>
    requires log { IsTrue (D.Disk.is_usable files.old.log) }
    requires db { IsTrue (D.Disk.is_usable files.old.db) }
    ensures log { IsTrue (D.Disk.is_usable files.new.log) }
    ensures db { IsTrue (D.Disk.is_usable files.new.db) }
{
    let new_size = PageSize::new(NEW_SIZE)?;
    let Ok(false) = probe_blank(alloc, files, new_size, false) else {
        return None;
    };
    let Ok(false) = probe_blank(alloc, files, new_size, true) else {
        return None;
    };
    let Ok(Some(size)) = probe_page_size(files) else {
        return None;
    };
    match probe_first_page(alloc, files, size) {
        Ok((b'S', reserved)) if reserved != WITH_SUMS => Some(size),
        _ => None,
    }
}

fn unopened<D: Disk>(
    alloc: Global,
    files: Files<D>,
    size: PageSize,
    options: Options,
) -> Result<Unopened<D>, Files<D>>
    ensures back { IfErr result (λ left. (left.log ≡ files.log) × (left.db ≡ files.db)) }
    ensures files { IfOk result (λ it. files_of it ≡ (files.log, files.db)) }
{
    let pager = match Pager::new(alloc, files, size, options) {
        Ok(pager) => pager,
        Err(AllocFailed { value }) => return Err(value),
    };
    match Unopened::with_sums(alloc, pager, &[], false) {
        Ok(fresh) => Ok(fresh),
        Err(AllocFailed { value }) => Err(value.close()),
    }
}

fn is_text(entry: &Entry, at: usize, text: &str) -> bool {
    matches!(entry.get(at), ValueRef::Text(bytes) if bytes == text.as_bytes())
}

fn is_null(entry: &Entry, at: usize) -> bool {
    matches!(entry.get(at), ValueRef::Null)
}

fn is_number(entry: &Entry, at: usize, number: i64) -> bool {
    matches!(entry.get(at), ValueRef::Int(found) if found == number)
}

/// Whether the row of the list of objects is that of the table, at the rowid 1.
fn is_own_table(entry: &Entry) -> bool {
    let named = is_text(entry, 1, "table")
        && is_text(entry, 2, "entry")
        && is_text(entry, 3, "entry");
    entry.len() == 6 && is_number(entry, 0, 1) && named && is_text(entry, 5, TABLE)
}

/// Whether it is that of the index of the table's key, at the rowid 2.
fn is_own_index(entry: &Entry) -> bool {
    let named = is_text(entry, 1, "index")
        && is_text(entry, 2, "sqlite_autoindex_entry_1")
        && is_text(entry, 3, "entry");
    entry.len() == 6 && is_number(entry, 0, 2) && named && is_null(entry, 5)
}

/// Whether the objects are the table and its index alone, as this crate makes them.
fn are_own(listed: &[Entry]) -> bool {
    match listed {
        [table, index] => is_own_table(table) && is_own_index(index),
        _ => false,
    }
}

/// A row of the list without its root.
fn without_root(alloc: Global, entry: &Entry) -> Result<Entry, AllocError> {
    let mut row = Entry::new(alloc);
    row.push(entry.get(0))?;
    row.push(entry.get(1))?;
    row.push(entry.get(2))?;
    row.push(entry.get(3))?;
    row.push(entry.get(5))?;
    Ok(row)
}

/// The two rows of the list without their roots.
fn without_roots(alloc: Global, listed: &[Entry]) -> Result<Option<[Entry; 2]>, AllocError> {
    let [table, index] = listed else {
        return Ok(None);
    };
    Ok(Some([without_root(alloc, table)?, without_root(alloc, index)?]))
}

/// Tells the files their objects, where these are the table and its index alone.
fn list_own<D: Disk>(alloc: Global, files: &mut Unopened<D>) -> bool
    requires { AreUsable files.old }
    ensures { IsTrue result → AreUsable files.new }
{
    let Ok(listed) = files.read_catalog() else {
        return false;
    };
    if !are_own(listed.as_slice()) {
        return false;
    }
    let Ok(Some(rows)) = without_roots(alloc, listed.as_slice()) else {
        return false;
    };
    let layouts = [(Shape::Table, 0), (Shape::Index(Order::PLAIN), 0)];
    matches!(files.list_schema(&rows, &layouts), Ok(true))
}

/// The store of files that have this crate's table alone, whose pages and trees are checked. Any other files
/// are given back, as are these where they can't be read.
pub fn open_own<D: Disk>(
    alloc: Global,
    mut files: Files<D>,
    options: Options,
) -> Result<FileStore<D>, Files<D>>
    requires log { IsTrue (D.Disk.is_usable files.log) }
    requires db { IsTrue (D.Disk.is_usable files.db) }
{
    let Some(size) = page_size_of(alloc, &mut files) else {
        return Err(files);
    };
    let mut fresh = unopened(alloc, files, size, options)?;
    if !list_own(alloc, &mut fresh) {
        return Err(fresh.close());
    }
    match fresh.open_numbered() {
        Ok(store) => Ok(store),
        Err((_, left)) => Err(left.close()),
    }
}
