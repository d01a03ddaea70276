//! The demo exchange: a registry of as many members as are asked for, to try the program on and to measure it
//! by.
//!
//! [`demo_registry`] makes it, and `specs/Demo.antt` says which one it is: one VLAN, one switch, one route
//! server, and for each member a port, an interface, four prefixes and the origin of its own AS number.
//! `demo_is_valid` says that it is valid, and `no_address_is_cut` that its addresses are those that the
//! definition adds up.
#![tactic(auto)]

mod laws;
mod numbered;
mod registry;
mod rows;

pub use laws::{demo_is_valid, no_address_is_cut};
pub use registry::demo_registry;
