//! What is answered to a request.
use ixp_registry::{Owner, Refusal};

/// What a request that was accepted is answered.
#[derive(Clone, Copy, Debug, PartialEq, Eq)]
pub struct Reply {
    /// The request's number.
    pub number: u64,
}

/// What is decided of a request.
#[derive(Debug, Drop)]
pub enum Decision {
    /// The edit may be made, for this owner of the request's API key.
    Accepted(Owner),
    /// It was accepted before, and isn't made again.
    Repeated(Reply),
    Refused(Refusal),
}
