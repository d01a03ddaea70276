//! Lists that are supplied: the prefixes that a member has registered (IRR) and the AS numbers that may
//! originate them, and the public lists of bogons and of transit-free networks.
//!
//! A list has one item on each line. `specs/Lists.antt` says which items a text lists, and which line of one
//! that isn't a list is reported. What is read is in the order of its items' keys, as a registry keeps it.
#![tactic(auto)]

mod asns;
mod fault;
mod items;
mod laws;
mod lines;
mod lists;

pub use fault::ListFault;
pub use laws::one_answer;
pub use lists::{read_bogon_ranges, read_bogons, read_list, read_origins, read_transit_free};
