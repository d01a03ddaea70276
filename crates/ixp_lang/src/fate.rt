//! What becomes of a route.
use crate::Route;
use ixp_num::{Items, Name};

/// What a configuration does with a route that a session brings.
#[derive(Debug, Drop)]
pub struct Fate {
    /// The route in the session's own table; None where the session's import filter rejects it.
    pub table: Option<Route>,
    /// Whether the pipe from that table lets it pass.
    pub passed: bool,
    /// For each other session, in the order of the text, the route that it is sent, if it is sent one.
    pub sent: Items<(Name, Option<Route>)>,
}
