//! AS numbers.

/// An autonomous system's number, of four octets (RFC 6793).
#[derive(Clone, Copy, Debug, PartialEq, Eq, PartialOrd, Ord)]
pub struct Asn(pub u32);
