//! Whether two values are one and the same.
//!
//! These have clauses that a definition can be written in, which the derived comparisons lack.
ghost use Rattle.std.specs.Prelude.{◌≡◌};
ghost use Rattle.ixp_num.specs.Prefixes as spec;

use crate::{Addr, Prefix};

/// Whether the addresses are the same one.
pub fn same_addr(one: &Addr, other: &Addr) -> bool
    ensures { result ≡ spec.same_addr one.now other.now }
{
    one.family == other.family && one.value == other.value
}

/// Whether the prefixes are the same one.
pub fn same_prefix(one: &Prefix, other: &Prefix) -> bool
    ensures { result ≡ spec.same_prefix one.now other.now }
{
    one.family == other.family && one.value == other.value && one.len == other.len
}
