//! What lies under a desk's lock.
//!
//! A [`Locked`] holds the state of the registry, the store that keeps it, what is pending of the route
//! servers' texts, the pen of the desk's history, each seat's count of turns, and the member export that was
//! made last. Its methods are what
//! callers do while they hold the lock: an edit, a question, an installation of texts. Each makes turns of
//! the caller's seat in the history, and says which (`specs/Calls.antt`).
//!
//! An edit is stored before it stands in the history. Where memory runs out between the two, its turn is
//! owed, and every later call makes it first. `specs/Facts.antt` says what the type keeps at every moment at
//! which the lock is free.
#![tactic(auto)]

mod answering;
mod crossing;
mod editing;
mod exporting;
mod fault;
mod installing;
mod locked;
mod opening;
mod owed;
mod preparing;
mod publishing;
mod seat;

pub use crossing::locks_cross_threads;
pub use fault::{AskFault, PubFault, SubmitFault, TurnFault};
pub use installing::{Put, Taken};
pub use locked::Locked;
pub use publishing::text_shown;
pub use seat::DeskSeat;
