//! Requests to change a registry: which are accepted, and what they do to the state.
//!
//! `specs/Steps.antt` says what is decided of a request and which state comes after it. The laws say that the
//! state stays valid, that a request acts once however often it is sent, and that a member's answers depend
//! on what it sees alone. [`first_state`] is the state before all requests: nothing is kept of any, none was
//! accepted, and the counts are those of the registry's rows.
#![tactic(auto)]

mod copies;
mod kept;
mod laws;
mod opening;
mod state;
mod subject;
mod weighing;

pub use kept::{KeptNumber, KeptOwner};
pub use laws::{
    members_are_apart, members_change_their_own, repeats_change_nothing, requests_act_once,
    requests_keep_states_valid, the_registry_is_that_of_accepted_edits, used_numbers_stay_used,
};
pub use opening::first_state;
pub use state::{Entry, State};
pub use subject::Subject;
