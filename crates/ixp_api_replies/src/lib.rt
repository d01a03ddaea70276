//! The replies of the HTTP interface: the status and the bytes that say how a request ended.
//!
//! [`Outcome`] is how a request ended, [`reply_of`] its reply. `specs/Replies.antt` says which reply each
//! outcome has, and `specs/Details.antt` the rule, the status and the detail of each refusal.
#![tactic(auto)]

mod details;
mod outcome;
mod reply;

pub use outcome::Outcome;
pub use reply::reply_of;
