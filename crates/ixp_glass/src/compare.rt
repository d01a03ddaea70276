//! Whether values are the same.
ghost use Rattle.std.specs.Prelude.{◌≡◌, Bool};
ghost use Rattle.std.specs.Cmp.Lexicographic.{pointwise};

use ixp_lang::Route;
use ixp_num::{Asn, Roa, same_addr, same_prefix};

/// A value that can be compared with others. `same` is true exactly of two that are the same.
pub(crate) trait Same {
    ghost same: { Self → Self → Bool };

    /// Whether the other one is the same.
    fn is_same(&self, other: &Self) -> bool
        ensures { result ≡ same self.now other.now };
}

impl Same for Asn {
    ghost use Rattle.ixp_glass.specs.Same.{same_asn};

    ghost same = { same_asn };

    fn is_same(&self, other: &Asn) -> bool {
        self.0 == other.0
    }
}

impl Same for (u32, u32) {
    ghost use Rattle.ixp_glass.specs.Same.{same_pair};

    ghost same = { same_pair };

    fn is_same(&self, other: &(u32, u32)) -> bool {
        self.0 == other.0 && self.1 == other.1
    }
}

impl Same for (u32, u32, u32) {
    ghost use Rattle.ixp_glass.specs.Same.{same_triple};

    ghost same = { same_triple };

    fn is_same(&self, other: &(u32, u32, u32)) -> bool {
        self.0 == other.0 && self.1 == other.1 && self.2 == other.2
    }
}

impl Same for Roa {
    ghost use Rattle.ixp_glass.specs.Same.{same_roa};

    ghost same = { same_roa };

    fn is_same(&self, other: &Roa) -> bool {
        same_prefix(&self.prefix, &other.prefix)
            && self.max == other.max
            && self.asn.0 == other.asn.0
    }
}

impl Same for Route {
    ghost use Rattle.ixp_glass.specs.Same.{same_route};

    ghost same = { same_route };

    fn is_same(&self, other: &Route) -> bool {
        same_prefix(&self.net, &other.net)
            && same_addr(&self.next_hop, &other.next_hop)
            && are_same(self.path.as_slice(), other.path.as_slice())
            && are_same(self.pairs.as_slice(), other.pairs.as_slice())
            && are_same(self.triples.as_slice(), other.triples.as_slice())
    }
}

/// Whether these are the same values in the same order.
pub(crate) fn are_same<T: Same>(one: &[T], other: &[T]) -> bool
    ensures { result ≡ pointwise T.same one.now other.now }
{
    let mut left = other;
    'each: for value in one {
        let Some((next, rest)) = left.split_first() else {
            return false;
        };
        if !value.is_same(next) {
            return false;
        }
        left = rest;
    }
    left.is_empty()
}
