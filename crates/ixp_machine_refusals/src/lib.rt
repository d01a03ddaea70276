//! Why an edit of a registry is refused, and what an accepted one does to the counts of the registry.
//!
//! Each kind of edits has a function with its tests, in the order of their codes; the first that fails says
//! why. No test looks at the lists of other members: the weight of the registry and its number of prefixes
//! are supplied.
//!
//! The weight is how many rows of prefix lists all sessions read together. It is kept as a count, as the
//! number of prefixes is: [`weight_after`] and [`prefixes_after`] give them after a change of one table from
//! those that there are, and look only at the interfaces that the change is about.
#![tactic(auto)]

mod after;
mod api_keys;
mod by_change;
mod change;
mod counts;
mod interfaces;
mod lists;
mod members;
mod of_edits;
mod parts;
mod ports;
mod refusing;
mod routers;

pub use by_change::{prefixes_after, weight_after};
pub use of_edits::refusal;
