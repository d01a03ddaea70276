//! The versions of the format.

/// A version of the dump. They differ in the router's line alone: version 1 has no blackhole address and no
/// bound on communities.
#[derive(Clone, Copy, Debug, PartialEq, Eq)]
pub enum Version {
    One,
    Two,
}
