//! The order of prefixes.
ghost use Rattle.std.specs.Cmp.{po};
ghost use Rattle.std.specs.Cmp.Rules.{comparing};
ghost use Rattle.std.specs.Ordering.{as_partial_cmp};
ghost use Rattle.std.proofs.Common.{rules};
ghost use Rattle.ixp_num.specs.Orders.{prefix_cmp, prefix_cmp_eq, prefix_cmp_total};

use crate::Prefix;
use std::cmp::Ordering;

impl PartialOrd for Prefix {
    ghost partial_cmp = { as_partial_cmp prefix_cmp };

    ghost laws = { po prefix_cmp_total prefix_cmp_eq };

    fn partial_cmp(&self, other: &Prefix) -> Option<Ordering> {
        Some(self.cmp(other))
    }
}

impl Ord for Prefix {
    ghost cmp = { prefix_cmp };

    ghost total = { prefix_cmp_total };

    ghost matches_partial_cmp = { Prim.search (comparing, rules) };

    ghost matches_eq = { prefix_cmp_eq };

    fn cmp(&self, other: &Prefix) -> Ordering {
        self.family
            .cmp(&other.family)
            .then(self.value.cmp(&other.value))
            .then(self.len.cmp(&other.len))
    }
}
