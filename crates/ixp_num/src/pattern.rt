//! Patterns of prefixes.
use crate::Prefix;
use crate::bits::first_bits;

/// The prefixes that agree with `prefix` as far as both go, of a length from `low` to `high`
/// (BIRD 2 User's Guide, prefix sets). A pattern whose bounds are not within the family, or whose low
/// bound is above the high one, can be read; rows and filter texts refuse it.
#[derive(Clone, Copy, Debug, PartialEq, Eq, PartialOrd, Ord)]
pub struct Pattern {
    pub prefix: Prefix,
    pub low: u8,
    pub high: u8,
}

impl Pattern {
    ghost use Rattle.std.specs.Prelude.{◌≡◌};
    ghost use Rattle.ixp_num.specs.Prefixes.{matches};

    /// Whether the pattern matches the prefix.
    pub fn matches(&self, net: &Prefix) -> bool
        ensures { result ≡ matches self.now net.now }
    {
        let shared = self.prefix.len.min(net.len);
        self.prefix.family == net.family
            && first_bits(net.family, shared, net.value)
                == first_bits(net.family, shared, self.prefix.value)
            && self.low <= net.len
            && net.len <= self.high
    }
}
