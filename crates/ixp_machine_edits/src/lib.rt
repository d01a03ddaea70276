//! Edits of a registry: why each is refused, what each does, and that an accepted one leaves the registry
//! valid.
//!
//! `specs/` has a file for each subject: for each kind of edits of it the tests, in the order of their codes,
//! and what an accepted edit makes of the table. `specs/Edits.antt` puts them together: the refusal of an
//! edit is what the first test that fails says, `next` is the registry after an edit that isn't refused, and
//! `change` is the change of one table that makes it.
#![tactic(auto)]

mod edit;
mod laws;

pub use edit::{Edit, NewRule, RouterSettings};
pub use laws::{edits_are_changes, edits_keep_validity};
