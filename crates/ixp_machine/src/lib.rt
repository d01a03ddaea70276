//! The machine of edits: what is decided of a request, the state after one that is accepted, after how many
//! accepted ones one stands, and what questions are answered.
//!
//! `specs/Steps.antt` of `ixp_machine_steps` says what is decided of a request and which state comes after
//! it, `specs/Questions.antt` here what a question is answered. [`apply`] changes a state in place. Where
//! requests are stored, [`prepare`] and [`carry_out`] do so, with the store's batch between them: it is
//! stored and the state changed, or neither. [`prepare`] gives the change of one table that the edit comes
//! to; nothing that is done with it later reads the edit. [`request`] decides requests to a valid state one
//! after the other, makes each that is accepted, and leaves a valid state.
#![tactic(auto)]

mod applying;
mod asking;
mod deciding;
mod decision;
mod keeping;
mod kept;
mod lawful;
mod laws;
mod preparing;
mod question;
mod rights;
mod subjects;
mod turn;
mod widths;

pub use applying::{apply, apply_prepared};
pub use asking::ask;
pub use deciding::decide;
pub use decision::{Decision, Reply};
pub use kept::place_of;
pub use lawful::read_edit;
pub use laws::{members_ask_of_their_own, members_leave_others};
pub use preparing::{Prepared, carry_out, prepare};
pub use question::{Answer, AskFault, Query};
pub use turn::request;
