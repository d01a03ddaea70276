//! What is answered to who asks what becomes of a route.
use ixp_num::Items;
use ixp_registry::Refusal;

/// What becomes of a route, or why it isn't said.
#[derive(Debug, Drop)]
pub enum Explanation {
    /// What becomes of the route.
    Text(Items<u8>),
    /// The route is of the other family, or the caller may not ask.
    Refused(Refusal),
    /// No router has the handle.
    NoRouter,
    /// The interface has no session with the router.
    NoSession,
}
