//! What an accepted edit changes, and how a change is made.
//!
//! Each edit changes one table of a registry, by a row that is put in or taken out ([`change_of`], `change`
//! of `ixp_machine_edits`). A change is made in place, and its batch is stored with it, or neither is done
//! ([`make`]). No registry is copied, and no other row than the one that changes.
#![tactic(auto)]

mod lists;
mod making;
mod members;
mod network;
mod of_edits;

pub use making::make;
pub use of_edits::change_of;
