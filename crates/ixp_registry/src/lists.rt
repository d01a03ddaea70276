//! The lists that filters are made of.
ghost use Rattle.std.specs.Prelude.{[], ◌∷◌};
ghost use Rattle.ixp_registry.specs.Keys.{irr_key, origins_key, member_prefix_key, member_origin_key};
ghost use Rattle.ixp_num_sorted.specs.Keys.{prefix_key};
ghost use Rattle.ixp_num.specs.AddressForms.{version_of};

use ixp_num::{Asn, Family, Items, Pattern, Prefix, Roa};
use ixp_num_sorted::Sorted;
use ixp_num_tables::Row;
use std::cmp::Ordering;

/// The prefixes that a member may announce in a family, ascending.
#[derive(Debug, Drop)]
pub struct IrrList {
    pub member: u32,
    pub family: Family,
    pub prefixes: Items<Prefix>,
}

impl Row for IrrList {
    type Key = (u32, Family);

    ghost key_of = { irr_key };

    ghost named = { λ k. k.0 ∷ version_of k.1 ∷ [] };

    fn compare(&self, key: &(u32, Family)) -> Ordering {
        self.member.cmp(&key.0).then(self.family.cmp(&key.1))
    }

    fn order(&self, other: &IrrList) -> Ordering {
        self.member
            .cmp(&other.member)
            .then(self.family.cmp(&other.family))
    }
}

/// The AS numbers in which a member's announcements of a family may begin, ascending.
#[derive(Debug, Drop)]
pub struct OriginList {
    pub member: u32,
    pub family: Family,
    pub asns: Items<Asn>,
}

impl Row for OriginList {
    type Key = (u32, Family);

    ghost key_of = { origins_key };

    ghost named = { λ k. k.0 ∷ version_of k.1 ∷ [] };

    fn compare(&self, key: &(u32, Family)) -> Ordering {
        self.member.cmp(&key.0).then(self.family.cmp(&key.1))
    }

    fn order(&self, other: &OriginList) -> Ordering {
        self.member
            .cmp(&other.member)
            .then(self.family.cmp(&other.family))
    }
}

/// One prefix of a member's list, as a dump has it.
#[derive(Clone, Copy, Debug)]
pub struct MemberPrefix {
    pub member: u32,
    pub prefix: Prefix,
}

impl Row for MemberPrefix {
    type Key = (u32, Prefix);

    ghost key_of = { member_prefix_key };

    ghost named = { λ k. k.0 ∷ prefix_key k.1 };

    fn compare(&self, key: &(u32, Prefix)) -> Ordering {
        self.member.cmp(&key.0).then(self.prefix.cmp(&key.1))
    }

    fn order(&self, other: &MemberPrefix) -> Ordering {
        self.member
            .cmp(&other.member)
            .then(self.prefix.cmp(&other.prefix))
    }
}

/// One AS number of a member's list, as a dump has it.
#[derive(Clone, Copy, Debug)]
pub struct MemberOrigin {
    pub member: u32,
    pub family: Family,
    pub asn: Asn,
}

impl Row for MemberOrigin {
    type Key = (u32, Family, Asn);

    ghost key_of = { member_origin_key };

    ghost named = { λ k. k.0 ∷ version_of k.1 ∷ k.2.0 ∷ [] };

    fn compare(&self, key: &(u32, Family, Asn)) -> Ordering {
        self.member
            .cmp(&key.0)
            .then(self.family.cmp(&key.1))
            .then(self.asn.cmp(&key.2))
    }

    fn order(&self, other: &MemberOrigin) -> Ordering {
        self.member
            .cmp(&other.member)
            .then(self.family.cmp(&other.family))
            .then(self.asn.cmp(&other.asn))
    }
}

/// The lists that all route servers share, each ascending and without doubles.
#[derive(Debug)]
pub struct PublicLists {
    /// Nets that nobody may announce.
    pub bogons: Sorted<Pattern>,
    /// Ranges of AS numbers, first and last, that may stand in no path.
    pub bogon_as: Sorted<(Asn, Asn)>,
    /// AS numbers that buy no transit, and so stand in no other member's paths.
    pub transit: Sorted<Asn>,
    pub roas: Sorted<Roa>,
}

// It is written out, so that crates above don't prove again how each part is dropped.
impl Drop for PublicLists {
    fn drop(self) {
        let PublicLists {
            bogons: _,
            bogon_as: _,
            transit: _,
            roas: _,
        } = self;
    }
}
