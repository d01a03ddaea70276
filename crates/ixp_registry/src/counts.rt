//! Where a key stands too often.
ghost use Rattle.std.specs.Prelude.{◌≡◌, ◌+◌, ◌<◌, ◌^◌, ℕ, List, map, length, IfOk};
ghost use Rattle.ixp_registry.specs.Places.{first_beyond};

use crate::keys::Key;
use std::alloc::{AllocError, Global};
use std::collections::BTreeMap;

/// Rows whose keys are counted.
pub trait Counted {
    type Row;

    type Key: Key;

    ghost numbers_of: { Self.Row → List ℕ };

    fn key_of(alloc: Global, row: &Self::Row) -> Result<Self::Key, AllocError>
        ensures { IfOk result (λ k. Self.Key.numbers k ≡ numbers_of row.now) };
}

/// The first row whose key stands more than `most` times in the rows up to it.
pub fn first_beyond<C: Counted>(
    alloc: Global,
    most: usize,
    start: usize,
    rows: &[C::Row],
) -> Result<Option<usize>, AllocError>
    requires { start + length rows.now < 2 ^ 64 }
    ensures { IfOk result (λ place. place ≡ first_beyond most start (map C.numbers_of rows.now)) }
{
    let mut counts: BTreeMap<C::Key, usize> = BTreeMap::new(alloc);
    let mut left = rows;
    let mut at = start;
    'rows: while let Some((row, others)) = left.split_first() {
        let key = C::key_of(alloc, row)?;
        let count = counts.get(&key).copied().unwrap_or(0);
        if most <= count {
            return Ok(Some(at));
        }
        counts.insert(key, count + 1)?;
        left = others;
        at += 1;
    }
    Ok(None)
}
