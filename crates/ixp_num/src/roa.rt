//! Route origin authorizations.
use crate::{Asn, Prefix};

/// A ROA (RFC 6482): `asn` may originate `prefix` and its longer ones up to the length `max`.
#[derive(Clone, Copy, Debug, PartialEq, Eq, PartialOrd, Ord)]
pub struct Roa {
    pub prefix: Prefix,
    pub max: u8,
    pub asn: Asn,
}

/// What the ROAs say of a route (RFC 6811 section 2).
#[derive(Clone, Copy, Debug, PartialEq, Eq, PartialOrd, Ord)]
pub enum Validity {
    Valid,
    Invalid,
    Unknown,
}
