//! The address plan: which addresses of a VLAN are taken, which is free, and whether an interface may get
//! one.
//!
//! An address is taken where an interface or a router has it, or a router for its blackhole
//! (`specs/Holders.antt`). [`check_address`] and [`first_free`] do not allocate. The time of a look at one
//! address is that of a look at all interfaces and routers; [`first_free`] looks at as many addresses as are
//! taken, and at a few more, and [`use_report`] at those that are taken.
#![tactic(auto)]

mod checks;
mod free;
mod holders;
mod laws;
mod report;
mod uses;

pub use checks::check_address;
pub use free::first_free;
pub use laws::{
    accepted_addresses_keep_the_rules, addresses_that_keep_the_rules_are_accepted,
    free_addresses_are_accepted,
};
pub use report::use_report;
pub use uses::UsedAddr;
