//! The calls of the HTTP interface: which call a request is, or why it is none, and the replies.
//!
//! [`route`] reads a request. `specs/Calls.antt` says which call a request is: its path is tested first, then
//! its method, its number or what it has seen, and its body last.
#![tactic(auto)]

mod call;
mod heads;
mod routing;
mod seen;

pub use call::{Call, ExplainCall};
pub use ixp_api_bodies::RouteAsked;
pub use ixp_api_json::{CallFault, Field, Pointer};
pub use ixp_api_paths::Paths;
pub use ixp_api_replies::{Outcome, reply_of};
pub use routing::route;
