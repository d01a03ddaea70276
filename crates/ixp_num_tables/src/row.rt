//! What has a key.
ghost use Rattle.std.specs.Prelude.{◌≡◌, ℕ, List, IfOk};
ghost use Rattle.ixp_num_tables.specs.Tables.{order};

use std::alloc::{AllocError, Global};
use std::cmp::Ordering;

/// A row of a table. Its key names it: `key_of` is the key of a row, and `named` what a value of `Key` names.
/// Keys are lists of numbers, ordered as the words of a dictionary.
pub trait Row {
    type Key;

    ghost key_of: { Self → List ℕ };

    ghost named: { Self.Key → List ℕ };

    /// How this row's key compares with another key.
    fn compare(&self, key: &Self::Key) -> Ordering
        ensures { result ≡ order (Self.key_of self.now) (named key.now) };

    /// How this row's key compares with another row's.
    fn order(&self, other: &Self) -> Ordering
        ensures { result ≡ order (Self.key_of self.now) (Self.key_of other.now) };
}

/// A row that can be copied.
pub trait Copied: Drop {
    /// An equal row.
    fn copied(&self, alloc: Global) -> Result<Self, AllocError>
        ensures { IfOk result (λ row. row ≡ self.now) };
}
