//! Sorted lists without doubles.
//!
//! Lists that are supplied, such as prefixes, AS numbers, patterns and ROAs, are kept in the order of their
//! items' keys (`specs/Keys.antt`), which is the order of a dump's lines. [`Sorted`] is such a list, whose
//! type keeps the order: contracts see it as the list of its items.
#![tactic(auto)]

mod keyed;
mod order;
mod sorted;

pub use keyed::Keyed;
pub use sorted::Sorted;
