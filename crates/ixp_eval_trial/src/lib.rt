//! Inputs that end with the line of a route.
//!
//! The input of a trial is a filter text, and after the line `%%` the ROAs and the route that it is tried
//! with: [`filter_text`] is the text, [`read_trial`] reads what follows: lines `roa <table> <prefix> <max>
//! <asn>`, and then `route <session> <route>`. [`tables_of`] makes the tables of the ROAs. A dump is followed
//! by `route <handle> <interface> <route>`, the route that a session of a route server brings:
//! [`read_session_route`] reads it.
#![tactic(auto)]

mod cutting;
mod divide;
mod fault;
mod laws;
mod number;
mod roa_line;
mod route_line;
mod session_route;
mod tables;
mod trial;

pub use divide::filter_text;
pub use fault::{RouteCode, TrialFault};
pub use laws::one_answer;
pub use session_route::{SessionRoute, read_session_route};
pub use tables::tables_of;
pub use trial::{Trial, read_trial};
