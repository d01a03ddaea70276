//! Calls.
use ixp_api_bodies::RouteAsked;
use ixp_lang::Route;
use ixp_machine::Query;
use ixp_machine_steps::Entry;
use ixp_num::{Items, Name};

/// What a request calls for.
#[derive(Debug, Drop)]
pub enum Call {
    Edit(Entry),
    /// A question, by who has the secret.
    Ask(Items<u8>, Query),
    /// The configuration of a router, for who has the secret, which is to show the reader's edit of that
    /// number.
    Published(Items<u8>, Name, Option<u64>),
    Explain(ExplainCall),
    /// These routes are to be held of the interface's session with the router.
    Hold(Items<u8>, Name, u32, Items<Route>),
    /// What becomes of the routes that are held of the interface's session with the router.
    Glass(Items<u8>, Name, u32),
    /// What becomes of that one of them at the place, which is counted from 1.
    GlassPlace(Items<u8>, Name, u32, u32),
}

/// What becomes of a route that the interface's session with the router brings.
#[derive(Debug, Drop)]
pub struct ExplainCall {
    pub secret: Items<u8>,
    pub router: Name,
    pub interface: u32,
    /// The number of a request of the staff's that the answer is to show.
    pub seen: Option<u64>,
    pub asked: RouteAsked,
}
