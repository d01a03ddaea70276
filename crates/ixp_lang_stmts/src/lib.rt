//! The reader of statements of filter texts (BIRD 2 User's Guide, chapter "Filters", control structures).
//!
//! [`block_end`] reads the statements of a block up to its closing brace, for the function or filter that a
//! [`Frame`] tells, and notes in [`Returned`] what it returns. A fault says how many tokens are left at its
//! place.
#![tactic(auto)]

mod body;
mod change;
mod label;
mod room;
mod stmt;

pub use body::{Frame, Returned};
pub use stmt::block_end;
