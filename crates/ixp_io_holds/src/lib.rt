//! Objects in memory that hold a thread at a call until another thread lets it go on, so that a test can say
//! which of two things comes first.
//!
//! A [`Hold`] is the place; [`HoldKeeper`] is held inside a commit, [`HoldGate`] where the compile worker
//! passes, [`HoldLink`] at a read. A hold is a bounded loop, each turn of which yields the processor: a hold
//! that nobody ends fails. Nothing is proved of what other threads do meanwhile; the objects keep the
//! contracts of their traits.
#![tactic(auto)]

mod hold;
mod hold_door;
mod hold_gate;
mod hold_keeper;
mod hold_link;

pub use hold::{Hold, TURNS};
pub use hold_door::HoldDoor;
pub use hold_gate::HoldGate;
pub use hold_keeper::HoldKeeper;
pub use hold_link::HoldLink;
