//! Edits that are stored as they are made.
//!
//! [`keep`] makes a request that was made ready and stores it, or does neither: afterwards the store's rows
//! are those of the state, so that it is loaded as this state again. [`keys_after`] gives the API keys
//! after a change, which readers see, before it is made.
#![tactic(auto)]

mod keeping;
mod keys;

pub use keeping::keep;
pub use keys::keys_after;
