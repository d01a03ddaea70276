//! The filter language, run: what a filter makes of a route, what a function gives, and a route's way through
//! a whole configuration.
//!
//! [`run_filter`], [`call_function`] and [`walk`] give exactly what the meaning of the trees says
//! (`ixp_lang`, `specs/Meaning.antt` and `specs/Walks.antt`), faults included, for every tree. Nothing
//! recurses: a chain of calls as long as the text costs no host stack. A set that stands in the text isn't
//! copied when it is evaluated.
#![tactic(auto)]

mod act;
mod attributes;
mod begin;
mod changes;
mod compare;
mod env;
mod fault;
mod find;
mod frames;
mod index;
mod names;
mod run;
mod search;
mod sets;
mod tasks;
mod val;
mod walks;

pub use env::Env;
pub use fault::{CallFault, EvalFault};
pub use ixp_lang::Verdict;
pub use run::{call_function, run_filter};
pub use walks::{session_named, walk};
