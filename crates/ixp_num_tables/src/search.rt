//! Where a key stands among ascending rows.
ghost use Rattle.std.specs.Prelude.{◌≡◌, ◌<◌, ◌≤◌, ℕ, List, length, IfOk, IfErr};
ghost use Rattle.ixp_num_tables.specs.Tables.{Ascends, order, place};

use crate::row::Row;
use std::cmp::Ordering;

/// What is looked for: its `aim` is a key.
pub(crate) trait Aim<R: Row> {
    ghost aim: { Self → List ℕ };

    /// How a row's key compares with the key that is looked for.
    fn side_of(&self, row: &R) -> Ordering
        ensures { result ≡ order (R.key_of row.now) (aim self.now) };
}

/// A key is looked for.
#[derive_where(Clone, Copy)]
pub(crate) struct ByKey<'a, R: Row> {
    pub key: &'a R::Key,
}

impl<'a, R: Row> Aim<R> for ByKey<'a, R> {
    ghost aim = { λ a. R.named a.key.now };

    fn side_of(&self, row: &R) -> Ordering {
        row.compare(self.key)
    }
}

/// The key of a row is looked for.
#[derive_where(Clone, Copy)]
pub(crate) struct ByRow<'a, R> {
    pub row: &'a R,
}

impl<'a, R: Row> Aim<R> for ByRow<'a, R> {
    ghost aim = { λ a. R.key_of a.row.now };

    fn side_of(&self, row: &R) -> Ordering {
        row.order(self.row)
    }
}

/// The index of the row that has the key, else where a row with it would stand.
pub(crate) fn place_of<R: Row, A: Aim<R>>(rows: &[R], aim: &A) -> Result<usize, usize>
    requires { Ascends R.key_of rows.now }
    ensures place { result ≡ place R.key_of (A.aim aim.now) rows.now }
    ensures here { IfOk result (λ i. i < length rows.now) }
    ensures gap { IfErr result (λ i. i ≤ length rows.now) }
{
    let count = rows.len();
    let mut left = rows;
    let mut before = 0;
    'halves: loop {
        let (front, from) = left.split_at(left.len() / 2);
        let Some((row, behind)) = from.split_first() else {
            return Err(before);
        };
        match aim.side_of(row) {
            Ordering::Less => {
                before += front.len() + 1;
                left = behind;
            }
            Ordering::Equal => return Ok(before + front.len()),
            Ordering::Greater => left = front,
        }
    }
}
