//! Links in threads: a door's links go through a queue to workers, and work in the background runs beside
//! them.
//!
//! What is done with a link, and what the background's work is, is a [`Host`]'s affair. Each thread has a
//! seat of its own for it, a value of the host's. All threads end before [`serve`] does. It answers Ok only
//! where the door gave as many links as were asked for, a fault only where the door's count of faults rose,
//! and runs out of memory only where the door wasn't asked for a link. That a link reaches its worker, and
//! that anything ends, isn't claimed.
#![tactic(auto)]

mod background;
mod helping;
mod host;
mod queue;
mod seats;
mod serving;
mod shared_clock;
mod working;

pub use helping::{HELPERS, Help, Helpers};
pub use host::{Background, Host};
pub use queue::{PLACES, Queue};
pub use serving::{serve, serve_helped};
pub use shared_clock::SharedClock;
