//! Whois data of several registries: which of their objects count, and what is passed by.
//!
//! An object counts where its `source` is one of those that are listed, and a set of a name only where no
//! source that comes earlier has one. `specs/Said.antt` says what an object says, and when it is passed by;
//! `specs/Counting.antt` says which sets count. What counts is given as the objects of `ixp_rpsl`, so that a
//! set is expanded as by one registry's data.
#![tactic(auto)]

mod best;
mod claims;
mod counting;
mod expansion;
mod gleaned;
mod laws;
mod names;
mod objects;
mod parts;
mod reading;
mod sources;
mod standing;

pub use counting::{Counted, read_counted};
pub use expansion::{origins_from, prefixes_from, sets_from};
pub use laws::{one_reading, strangers_change_nothing};
pub use names::read_member;
pub use sources::read_sources;
