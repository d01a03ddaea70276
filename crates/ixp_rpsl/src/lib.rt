//! RPSL objects, and the expansion of sets of autonomous systems.
#![tactic(auto)]

pub mod ahead;
pub mod attributes;
mod check;
pub mod entries;
mod fault;
mod found;
pub mod gathered;
mod growth;
mod index;
mod laws;
pub mod lines;
mod objects;
mod origins;
mod reading;
pub mod values;

pub use check::check_reach;
pub use fault::RpslFault;
pub use growth::expand;
pub use laws::{least_closed, one_answer};
pub use objects::{Item, Objects, Reach, SetRow};
pub use origins::{origins_of, prefixes_of};
pub use reading::read_objects;
pub use values::read_set_name;
