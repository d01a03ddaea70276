//! The upgrade of a store of the first version.
//!
//! In the first version routers have no blackhole address and no bound on communities, and the row of the
//! version says `1`. [`upgrade`] makes a store of today's version of it in one commit, which sets the row
//! of the version and the row of each router. `specs/Versions.antt` says what a store of the first version
//! holds.
//!
//! Proved are the rows after an upgrade; that it is done where the rows are those of a state, in either
//! version; that the rows stay as they were wherever the answer is a fault; and which row is told to be
//! damaged, as a load of the rows would tell it once they were raised.
#![tactic(auto)]

mod changing;
mod raising;
mod upgrading;

pub use ixp_store_words::{Damage, LoadFault};
pub use upgrading::upgrade;
