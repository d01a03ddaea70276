//! What a store has to change when a request is accepted.
//!
//! [`batch_of`] makes the batch that turns the rows of a state into those of the next one. Rows of what the
//! request replaces or takes out are dropped, and rows of what it puts in are set, and no others, however
//! many rows the store has (`specs/Batches.antt`): for most requests a batch has eight changes at most.
#![tactic(auto)]

mod batch;
mod kept;
mod registry;

pub use batch::batch_of;
