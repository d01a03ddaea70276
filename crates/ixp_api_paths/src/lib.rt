//! The paths of the HTTP interface: what a method and a path call for.
//!
//! [`TABLE`] has every path once, with what each method of it calls for. `specs/Table.antt` says what a
//! method and a path name by it: no path, no method of the path, or a call with what stands in the path's
//! open parts. [`Paths`] answers so by a `matchit` router of the same paths.
#![tactic(auto)]

pub mod laws;
mod reading;
mod served;
mod table;
mod words;

pub use served::{Found, Paths};
pub use table::{Args, Entry, Kind, ListName, PATHS, Part, Question, TABLE, Word};
