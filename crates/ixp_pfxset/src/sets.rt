//! Which prefixes a set of patterns matches.
ghost use Rattle.std.specs.Prelude.{◌≡◌};
ghost use Rattle.ixp_num.specs.Prefixes.{is_in_set};

use ixp_num::{Pattern, Prefix};

/// Whether a pattern of the set matches the prefix (BIRD 2 User's Guide, prefix sets).
pub fn matches(set: &[Pattern], net: &Prefix) -> bool
    ensures { result ≡ is_in_set set.now net.now }
{
    set.iter().any(|t| t.matches(net))
}
