//! Members, their contacts, and API keys.
ghost use Rattle.std.specs.Prelude.{[], ◌∷◌};
ghost use Rattle.ixp_registry.specs.Keys.{member_key, contact_key, api_key_key};

use ixp_num::{Asn, Items};
use ixp_num_tables::Row;
use std::cmp::Ordering;

/// How far a member is in its life at the exchange. Only a connected one has sessions; one that has left has
/// no interface and stays so.
#[derive(Clone, Copy, Debug, PartialEq, Eq)]
pub enum Status {
    Noted,
    Connected,
    Suspended,
    Left,
}

/// A network at the exchange.
#[derive(Debug, Drop)]
pub struct Member {
    pub number: u32,
    pub asn: Asn,
    pub status: Status,
    /// The AS-SET or AS of its announcements (RFC 2622); may be empty.
    pub as_macro: Items<u8>,
    /// UTF-8 of 1 to 128 bytes.
    pub name: Items<u8>,
}

impl Row for Member {
    type Key = u32;

    ghost key_of = { member_key };

    ghost named = { λ n. n ∷ [] };

    fn compare(&self, key: &u32) -> Ordering {
        self.number.cmp(key)
    }

    fn order(&self, other: &Member) -> Ordering {
        self.number.cmp(&other.number)
    }
}

/// Whom to ask at a member.
#[derive(Debug, Drop)]
pub struct Contact {
    pub member: u32,
    pub place: u32,
    pub role: Items<u8>,
    pub mail: Items<u8>,
    /// UTF-8 of 1 to 128 bytes.
    pub name: Items<u8>,
}

impl Row for Contact {
    type Key = (u32, u32);

    ghost key_of = { contact_key };

    ghost named = { λ k. k.0 ∷ k.1 ∷ [] };

    fn compare(&self, key: &(u32, u32)) -> Ordering {
        self.member.cmp(&key.0).then(self.place.cmp(&key.1))
    }

    fn order(&self, other: &Contact) -> Ordering {
        self.member
            .cmp(&other.member)
            .then(self.place.cmp(&other.place))
    }
}

/// Who acts with an API key: one of the exchange's staff, 1 to 16, or the member with a number.
#[derive(Clone, Copy, Debug, PartialEq, Eq, PartialOrd, Ord)]
pub enum Owner {
    Staff(u32),
    Member(u32),
}

/// A secret that opens the registry to its owner.
#[derive(Debug, Drop)]
pub struct ApiKey {
    pub number: u32,
    pub owner: Owner,
    /// 16 to 64 letters and digits.
    pub secret: Items<u8>,
}

impl Row for ApiKey {
    type Key = u32;

    ghost key_of = { api_key_key };

    ghost named = { λ n. n ∷ [] };

    fn compare(&self, key: &u32) -> Ordering {
        self.number.cmp(key)
    }

    fn order(&self, other: &ApiKey) -> Ordering {
        self.number.cmp(&other.number)
    }
}
