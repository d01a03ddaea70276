//! What members may do: how their status changes, and who acts with a secret.
#![tactic(auto)]

mod owners;
mod statuses;

pub use owners::{owner_in, rights};
pub use statuses::may_move;
