//! Rows that are numbered from 1 on.
ghost use Rattle.std.specs.Prelude.{◌≡◌, ◌≤◌, ℕ, List, ◌∷◌, IfOk};
ghost use Rattle.ixp_registry_demo.specs.Demo.{each};

use ixp_num_tables::{Row, Table};
use std::alloc::{AllocError, Global};

/// A row that each member of the demo exchange has, with the member's number.
pub(crate) trait Numbered: Row + Drop {
    /// The row of a number.
    ghost row_of: { ℕ → Self };

    /// What stands behind the number in its key.
    ghost behind: { List ℕ };

    /// The row of this number.
    fn numbered(alloc: Global, number: u32) -> Result<Self, AllocError>
        requires { number ≤ 4000 }
        ensures { IfOk result (λ row. row ≡ row_of number) };

    /// A row's key begins with its number.
    ghost keyed: { (k : ℕ) → Self.Row.key_of (row_of k) ≡ k ∷ behind };
}

/// The rows of the numbers from 1 to `n`.
#[tactic(auto, using(crate::proofs::Numbering::one_more))]
pub(crate) fn one_each<R: Numbered>(alloc: Global, n: u32) -> Result<Table<R>, AllocError>
    requires { n ≤ 4000 }
    ensures { IfOk result (λ table. table ≡ each R.row_of n) }
{
    let mut rows = Vec::with_capacity(alloc, n as usize)?;
    for before in 0..n {
        rows.push(R::numbered(alloc, before + 1)?)?;
    }
    Ok(Table::from_ascending(rows))
}
