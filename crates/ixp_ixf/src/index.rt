//! Rows by the number of the row that they belong to.
//!
//! An index is made by one pass over all rows, and finds those of one owner without going over the others.
ghost use Rattle.std.specs.Prelude.{◌≡◌, ◌++◌, OnOk};
ghost use Rattle.ixp_ixf.specs.Rows.{rows_of};
ghost use Rattle.ixp_ixf.specs.Texts.{list_member};

use crate::lists::{Shows, put_shown_member};
use std::alloc::{AllocError, Global};
use std::collections::BTreeMap;

/// A row that belongs to a row of another table.
pub(crate) trait Owned {
    ghost use Rattle.std.specs.Prelude.{◌≡◌, ℕ};

    ghost owner: { Self → ℕ };

    /// The number of the row that it belongs to.
    fn owner(&self) -> u32
        ensures { result ≡ owner self.now };
}

/// Rows by their owners' numbers, each owner's in the order in which they were added.
#[derive(Drop)]
pub(crate) struct Index<'a, T> {
    by_owner: BTreeMap<u32, Vec<&'a T>>,
}

impl<'a, T: Owned> Index<'a, T> {
    ghost use Rattle.std.specs.Prelude.{◌≡◌, ℕ, [], ◌∷◌, ◌++◌, ◌==◌, IfOk, OnOk, filter, map, if◌then◌else◌};
    ghost use Rattle.ixp_ixf.specs.Rows.{rows_of, shown};

    /// No rows.
    fn new(alloc: Global) -> Index<'a, T>
        ensures { (n : ℕ) → rows_of result n ≡ [] }
    {
        Index {
            by_owner: BTreeMap::new(alloc),
        }
    }

    /// Takes an owner's rows out.
    fn take(&mut self, alloc: Global, owner: u32) -> Vec<&'a T>
        ensures rows { shown result.items ≡ rows_of self.old owner }
        ensures others { (n : ℕ) → rows_of self.new n ≡ (if owner == n then [] else rows_of self.old n) }
    {
        match self.by_owner.remove(&owner) {
            Some(rows) => rows,
            None => Vec::new(alloc),
        }
    }

    /// Adds a row behind the others of its owner.
    fn add(&mut self, alloc: Global, row: &'a T) -> Result<(), AllocError>
        ensures { OnOk result
            ((n : ℕ) → rows_of self.new n
            ≡ (if T.owner row.now == n then rows_of self.old n ++ row.now ∷ [] else rows_of self.old n)) }
    {
        let owner = row.owner();
        let mut rows = self.take(alloc, owner);
        rows.push(row)?;
        let _ = self.by_owner.insert(owner, rows)?;
        Ok(())
    }

    /// All rows, by one pass over them.
    pub(crate) fn of(alloc: Global, rows: &'a [T]) -> Result<Index<'a, T>, AllocError>
        ensures { IfOk result
            (λ index. (n : ℕ) → rows_of index n ≡ filter (λ row. T.owner row == n) rows.now) }
    {
        let mut index = Index::new(alloc);
        for row in rows {
            index.add(alloc, row)?;
        }
        Ok(index)
    }
}

/// Adds a member that is the list of an owner's rows.
pub(crate) fn put_owned_member<S: Shows>(
    out: &mut Vec<u8>,
    mark: &[u8],
    name: &[u8],
    shows: &S,
    index: &Index<S::Item>,
    owner: u32,
) -> Result<(), AllocError>
    ensures { OnOk result
        (out.new.items ≡ out.old.items
        ++ list_member mark.now name.now (S.text_of shows.now) (rows_of index.now owner)) }
{
    match index.by_owner.get(&owner) {
        Some(rows) => put_shown_member(out, mark, name, shows, rows.as_slice()),
        None => put_shown_member(out, mark, name, shows, &[]),
    }
}
