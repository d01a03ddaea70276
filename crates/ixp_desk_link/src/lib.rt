//! A link of the HTTP interface, served by seats of a desk and of a looking glass.
//!
//! [`serve_link`] reads the requests of a link, has desk and glass answer them by its seats, and writes the
//! replies. `specs/Turns.antt` says how each call is answered, and which turns of the seats stand in the
//! two histories for it. The headline is a clause of it: a configuration that a link hands out is the full
//! generation from one version, which contains every edit that the link's seat had seen, and does what that
//! version's rules say.
#![tactic(auto)]

mod answering;
mod caller;
mod clock;
mod configurations;
mod serving;

pub use serving::serve_link;
