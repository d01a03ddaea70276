//! The member export of an exchange: who is connected, at which ports and with which addresses, as compact
//! JSON (IX-F Member Export 1.0).
//!
//! [`ixf_text`] adds exactly the compact text of the tree that `specs/Export.antt` makes of a registry's
//! rows, and nothing where memory runs out.
#![tactic(auto)]

mod export;
mod fabric;
mod index;
mod lists;
mod members;
mod moment;

pub use export::ixf_text;
pub use moment::LAST_SECOND;
