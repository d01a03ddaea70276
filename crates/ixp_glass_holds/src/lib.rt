//! The routes that sessions of route servers are known to announce, as the staff holds them: what a looking
//! glass shows is made of these.
//!
//! They are held in memory and end with the program. [`open_glass`] begins a history of holds, which a board
//! publishes: each turn says which routes one session holds from then on, and an empty list says that it
//! holds none any more (`specs/Holds.antt`). [`GlassDesks`] has the call that makes turns, for one caller or
//! for threads that share a lock ([`GlassDesk`]); [`held`] looks at what a session holds, without the lock.
#![tactic(auto)]

mod calls;
mod crossing;
mod fault;
mod hold;
mod holding;
mod laws;
mod looking;
mod opening;
mod refusing;
mod sharing;
mod story;

pub use calls::GlassDesks;
pub use crossing::glass_crosses_threads;
pub use fault::HoldFault;
pub use hold::{Hold, HoldView, MOST_ROUTES, MOST_SESSIONS, Routes, SessionKey};
pub use laws::{read_routes_are_well_formed, sessions_hold_what_was_said_last};
pub use looking::held;
pub use opening::{Holds, open_glass};
pub use sharing::{AloneGlass, GlassDesk, GlassSeat, SharedGlass};
pub use story::HoldStory;
