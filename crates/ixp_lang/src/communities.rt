//! Communities that have a meaning of their own.

/// The second part of the large communities in which a route server tells what it found of a route's origin
/// by ROAs: `rs:1000:state`, as IXP Manager's.
pub const ORIGIN_STATE: u32 = 1000;

/// The second part of those in which it tells what it found otherwise: `rs:1001:finding`, as IXP Manager's.
pub const FINDING: u32 = 1001;

/// The second part of those in which it tells why it refuses a route: `rs:1101:reason`, as IXP Manager's.
pub const REFUSED: u32 = 1101;

/// The second part of a large community that asks not to send to a peer, or to none: `rs:0:peer`, `rs:0:0`.
pub const KEEP_FROM: u32 = 0;

/// The second part of one that asks to send to a peer, or to all: `rs:1:peer`, `rs:1:0`.
pub const SEND_TO: u32 = 1;

/// The second part of one that asks for the sender's number once more in front of the path.
pub const PREPEND_ONCE: u32 = 101;

/// The same, twice more.
pub const PREPEND_TWICE: u32 = 102;

/// The same, three times more.
pub const PREPEND_THRICE: u32 = 103;

/// BLACKHOLE, 65535:666 (RFC 7999 section 5).
pub const BLACKHOLE: (u32, u32) = (65535, 666);
