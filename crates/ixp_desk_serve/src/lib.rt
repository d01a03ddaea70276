//! A desk over a store that is lent, with a looking glass: it serves one link, or the links of a door by
//! threads.
//!
//! [`serve_session`] serves one link by a desk of one seat. [`serve_door`] serves the links of a door by
//! worker threads, each with seats of its own, while a thread beside them makes the texts that edits
//! touched; and those of routers, which ask for ROAs at a further door ([`RtrDoor`]). Both load the store
//! first, and begin with a looking glass of which nothing is held. `specs/Sessions.antt` and
//! `specs/Servers.antt` say how they end, and what is known of the store then.
#![tactic(auto)]

mod hosting;
mod lent;
mod line;
mod server;
mod session;

pub use lent::Lending;
pub use server::{RtrDoor, ServerEnd, serve_door};
pub use session::{SessionEnd, serve_session};
