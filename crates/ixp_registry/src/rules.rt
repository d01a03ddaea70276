//! The members' own rules.
ghost use Rattle.std.specs.Prelude.{[], ◌∷◌};
ghost use Rattle.ixp_registry.specs.Keys.{rules_key, rule_key};

use ixp_num::{Asn, Items, Prefix};
use ixp_num_tables::Row;
use std::cmp::Ordering;

/// Which routes a rule is about: those that the member announces, or those that it gets.
#[derive(Clone, Copy, Debug, PartialEq, Eq)]
pub enum Way {
    Advertise,
    Receive,
}

impl Way {
    ghost use Rattle.std.specs.Prelude.{◌≡◌};
    ghost use Rattle.ixp_registry.specs.Sessions.{is_advertise};

    /// Whether the rule is about what the member announces.
    pub fn is_advertise(self) -> bool
        ensures { result ≡ is_advertise self }
    {
        match self {
            Way::Advertise => true,
            Way::Receive => false,
        }
    }
}

/// What a rule does with a route. A rule of the way `Receive` has no prepends.
#[derive(Clone, Copy, Debug, PartialEq, Eq)]
pub enum Action {
    AsIs,
    /// The member's AS number is put in front so many times more, 1 to 3.
    Prepend(u8),
    Stop,
}

impl Action {
    ghost use Rattle.std.specs.Prelude.{◌≡◌};
    ghost use Rattle.ixp_registry.specs.Sessions.{is_stop};

    /// Whether the route isn't sent.
    pub fn is_stop(self) -> bool
        ensures { result ≡ is_stop self }
    {
        match self {
            Action::Stop => true,
            Action::AsIs | Action::Prepend(_) => false,
        }
    }
}

/// A rule of a member, at its place in the member's list.
#[derive(Clone, Copy, Debug)]
pub struct MemberRule {
    pub member: u32,
    /// From 1 on.
    pub place: u32,
    pub way: Way,
    /// The other network, or any.
    pub peer: Option<Asn>,
    /// The nets that it is about, those that lie in this prefix, or any.
    pub prefix: Option<Prefix>,
    pub action: Action,
}

impl Row for MemberRule {
    type Key = (u32, u32);

    ghost key_of = { rule_key };

    ghost named = { λ k. k.0 ∷ k.1 ∷ [] };

    fn compare(&self, key: &(u32, u32)) -> Ordering {
        self.member.cmp(&key.0).then(self.place.cmp(&key.1))
    }

    fn order(&self, other: &MemberRule) -> Ordering {
        self.member
            .cmp(&other.member)
            .then(self.place.cmp(&other.place))
    }
}

/// The rules of a member, in their order: the places are 1, 2 and so on.
#[derive(Debug, Drop)]
pub struct RuleList {
    pub member: u32,
    pub rules: Items<MemberRule>,
}

impl Row for RuleList {
    type Key = u32;

    ghost key_of = { rules_key };

    ghost named = { λ n. n ∷ [] };

    fn compare(&self, key: &u32) -> Ordering {
        self.member.cmp(key)
    }

    fn order(&self, other: &RuleList) -> Ordering {
        self.member.cmp(&other.member)
    }
}
