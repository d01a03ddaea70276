//! The desk: one registry with its store, which many callers share.
//!
//! [`open_desk`] loads a store, and begins a history with the state that it holds. Every call of [`Desks`]
//! makes turns of its seat in one history; the seat has seen that history at the return, and it is known
//! that it is legal and begins with all that the seat had seen before. Threads share a desk by a lock
//! ([`Shared`]). [`published`] hands out the route servers' configurations: mostly by a look at what was
//! published, without the lock. [`worker_turn`] makes texts while the lock is free.
//!
//! The headline is a clause of [`published`]: a text is byte for byte the full generation from one version,
//! which contains every edit that its reader had seen, and the text does what that version's rules say.
#![tactic(auto)]

mod calls;
mod opening;
mod publishing;
mod shared;
mod sharing;
mod working;

pub use calls::Desks;
pub use ixp_desk_history::Text;
pub use ixp_desk_lock::{AskFault, DeskSeat, Locked, PubFault, SubmitFault, TurnFault};
pub use opening::{Desk, open_desk};
pub use publishing::published;
pub use shared::Shared;
pub use sharing::{AloneDesk, SharedDesk};
pub use working::{WorkTurn, worker_turn};
