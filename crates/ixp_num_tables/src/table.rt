//! Rows in the order of their keys, each key once.
ghost use Rattle.std.specs.Prelude.{
  ◌≡◌,
  ◌↔◌,
  List,
  [],
  length,
  IfOk,
  OnOk,
  OnErr,
  IsSome,
  IsTrue,
  option_map,
};
ghost use Rattle.ixp_num_tables.specs.Tables.{Ascends, find, put, without};

use crate::row::{Copied, Row};
use crate::search::{ByKey, ByRow, place_of};
use std::alloc::{AllocError, Global};
use std::marker::Model;

/// Rows in ascending order of their keys.
#[derive(Drop)]
pub struct Table<R: Row> {
    rows: Vec<R>,
}

impl<R: Row> Model for Table<R> {
    ghost use Rattle.std.specs.Prelude.{List};
    ghost use Rattle.std.specs.Coded.{coded_list};
    ghost use Rattle.ixp_num_tables.specs.Tables.{Ascends};

    ghost Value = { List R };

    ghost coded = { coded_list R.code };

    ghost view = { λ t. t.rows.items };

    ghost invariant = { λ t. Ascends R.key_of t.rows.items };
}

impl<R: Row> Table<R> {
    /// A table without rows. It does not allocate.
    pub fn new(alloc: Global) -> Table<R>
        ensures { result ≡ [] }
    {
        Table {
            rows: Vec::new(alloc),
        }
    }

    /// The table of rows that ascend. It does not allocate.
    pub fn from_ascending(rows: Vec<R>) -> Table<R>
        requires { Ascends R.key_of rows.items }
        ensures { result ≡ rows.items }
    {
        Table { rows }
    }

    /// The rows, in the order of their keys.
    pub fn as_slice(&self) -> &[R]
        ensures rows { result.now ≡ self.now }
        ensures ascends { Ascends R.key_of self.now }
    {
        self.rows.as_slice()
    }

    /// The rows, in the order of their keys. It does not allocate.
    pub fn into_rows(self) -> Vec<R>
        ensures rows { result.items ≡ self }
        ensures ascends { Ascends R.key_of self }
    {
        self.rows
    }

    /// How many rows there are.
    pub fn len(&self) -> usize
        ensures { result ≡ length self.now }
    {
        self.rows.len()
    }

    /// Whether there is no row.
    pub fn is_empty(&self) -> bool
        ensures { IsTrue result ↔ (self.now ≡ []) }
    {
        self.rows.is_empty()
    }

    /// The row that has the key.
    pub fn find(&self, key: &R::Key) -> Option<&R>
        ensures { option_map (λ r. r.now) result ≡ find R.key_of (R.named key.now) self.now }
    {
        let rows = self.rows.as_slice();
        match place_of(rows, &ByKey { key }) {
            Ok(at) => Some(&rows[at]),
            Err(_) => None,
        }
    }
}

impl<R: Row + Drop> Table<R> {
    /// Puts a row in, instead of the one that has its key if there is one. Where memory runs out the table is
    /// as before.
    pub fn put(&mut self, row: R) -> Result<(), AllocError>
        ensures ok { OnOk result (self.new ≡ put R.key_of row self.old) }
        ensures err { OnErr result (self.new ≡ self.old) }
    {
        match place_of(self.rows.as_slice(), &ByRow { row: &row }) {
            Ok(at) => self.rows[at] = row,
            Err(at) => self.rows.insert(at, row)?,
        }
        Ok(())
    }

    /// Takes the row that has the key out, if there is one.
    pub fn take_out(&mut self, key: &R::Key)
        ensures { self.new ≡ without R.key_of (R.named key.now) self.old }
    {
        if let Ok(at) = place_of(self.rows.as_slice(), &ByKey { key }) {
            let _row = self.rows.remove(at);
        }
    }

    /// Takes the row that has the key out and gives it, if there is one.
    pub fn take(&mut self, key: &R::Key) -> Option<R>
        ensures row { result ≡ find R.key_of (R.named key.now) self.old }
        ensures rest { self.new ≡ without R.key_of (R.named key.now) self.old }
    {
        match place_of(self.rows.as_slice(), &ByKey { key }) {
            Ok(at) => Some(self.rows.remove(at)),
            Err(_) => None,
        }
    }

    /// Puts a row in the place of the one that has its key. It does not allocate.
    pub fn replace(&mut self, row: R)
        requires { IsSome (find R.key_of (R.key_of row) self.old) }
        ensures { self.new ≡ put R.key_of row self.old }
    {
        if let Ok(at) = place_of(self.rows.as_slice(), &ByRow { row: &row }) {
            self.rows[at] = row;
        }
    }
}

fn copies<R: Copied>(alloc: Global, rows: &[R]) -> Result<Vec<R>, AllocError>
    ensures { IfOk result (λ copies. copies.items ≡ rows.now) }
{
    let mut copies = Vec::new(alloc);
    let mut left = rows;
    'each: while let Some((row, others)) = left.split_first() {
        copies.push(row.copied(alloc)?)?;
        left = others;
    }
    Ok(copies)
}

impl<R: Row + Copied> Table<R> {
    /// An equal table.
    pub fn copied(&self, alloc: Global) -> Result<Table<R>, AllocError>
        ensures { IfOk result (λ table. table ≡ self.now) }
    {
        let rows = copies(alloc, self.as_slice())?;
        Ok(Table::from_ascending(rows))
    }
}
