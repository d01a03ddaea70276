//! Route servers.
ghost use Rattle.ixp_registry.specs.Keys.{router_key};

use ixp_num::{Addr, Asn, Family, Name};
use ixp_num_tables::Row;
use std::cmp::Ordering;

/// A route server of one family in a VLAN (RFC 7947).
#[derive(Debug, Drop)]
pub struct Router {
    /// A lower-case letter, then letters a to z, digits, `_` or `-`; 1 to 32 bytes.
    pub handle: Name,
    pub vlan: u32,
    pub family: Family,
    pub addr: Addr,
    pub asn: Asn,
    /// Its BGP identifier, an IPv4 address's number (RFC 6286).
    pub id: u32,
    /// The least length of a net that it takes.
    pub low: u32,
    /// The greatest length of a net that it takes.
    pub high: u32,
    /// Whether it tests the origin of routes (RFC 6811).
    pub rpki: bool,
    /// The next hop of routes to be dropped (RFC 7999), where it has one.
    pub blackhole: Option<Addr>,
    /// How many communities a route may have; 0 is no limit.
    pub max_comms: u32,
}

impl Row for Router {
    type Key = Name;

    ghost key_of = { router_key };

    ghost named = { λ n. n };

    fn compare(&self, key: &Name) -> Ordering {
        self.handle.as_bytes().cmp(key.as_bytes())
    }

    fn order(&self, other: &Router) -> Ordering {
        self.handle.as_bytes().cmp(other.handle.as_bytes())
    }
}
