//! The bodies of requests: which edit a body says, or what is wrong with it.
//!
//! [`edit_of`] reads a body for a kind of edits, [`route_asked`] the body of who asks what becomes of a route
//! (`specs/Asked.antt`), and [`routes_of`] the routes that a session is known to announce
//! (`specs/Routes.antt`). `specs/Edits.antt` says which fields each kind has, in which order they are tested,
//! and what a body says; `specs/Values.antt` what a field's value says. A JSON body above [`JSON_LIMIT`] isn't
//! parsed, but that of routes.
#![tactic(auto)]

mod asked;
mod each;
mod edits;
mod json;
mod lists;
mod members;
mod network;
mod routers;
mod routes;
mod rules;
mod texts;
mod values;

pub use asked::{RouteAsked, route_asked};
pub use edits::edit_of;
pub use json::JSON_LIMIT;
pub use routers::router_of;
pub use routes::routes_of;
