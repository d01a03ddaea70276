//! The state that a store holds.
//!
//! [`load`] reads all rows of a keeper. It answers the valid state whose rows they are (`specs/States.antt`
//! of ixp_store_rows), or why there is none: the first row, in the keeper's order, that is no row of a
//! state, or the lowest rule of a registry that the rows break and the row that breaks it.
//!
//! Proved are the state that is answered; that the rows of each state that requests lead to are loaded
//! (`specs/Storing.antt` of ixp_store_words), as are those of an empty store; that an older version is
//! reported exactly where the row of the version says so; that a keeper's fault is reported exactly where
//! one came; and which row is reported as damaged (`specs/Damages.antt` of ixp_store_damage). So damage is
//! reported only where the rows are those of no such state.
#![tactic(auto)]

mod checking;
mod keeper;
mod laws;
mod opened;

pub use ixp_store_words::{Damage, LoadFault};
pub use laws::{
    requests_keep_states_storable, stores_are_loaded_as_their_states, stores_tell_their_states,
    valid_states_have_few_rows,
};
pub use opened::load;
