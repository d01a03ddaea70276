//! The reader of expressions of filter texts (BIRD 2 User's Guide, chapter "Filters").
//!
//! [`expression`] reads the expression at the front of some tokens, with its type. [`Env`] holds the names
//! that are declared so far. Every reader takes tokens and gives what it read and the tokens behind it; a
//! fault says how many tokens are left at its place. Depth is handed on as what is left of it.
#![tactic(auto)]

mod chain;
mod context;
mod elements;
mod env;
mod group;
mod leaf;
mod operator;
mod parts;
mod set;
mod tree;
mod types;
mod wanted;

pub use chain::{arguments, expression};
pub use context::{Context, Scope};
pub use env::{Declared, Env, Signature, Table, defined_number, own_name_at};
pub use leaf::state_of;
pub use types::{Typed, ValueType, fits, settled, type_of};
pub use wanted::{Expected, Wanted};
