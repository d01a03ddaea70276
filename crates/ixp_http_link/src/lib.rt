//! The loop of one link: it reads requests, has a desk answer them, and writes the replies.
//!
//! [`serve`] is generic over the desk and the link. `specs/Turns.antt` says how a request is answered,
//! `specs/Links.antt` what is written and how the link ends.
#![tactic(auto)]

mod answering;
mod desk;
mod ends;
mod serving;
mod telling;

pub use desk::Desk;
pub use ends::{LinkEnd, Served};
pub use serving::serve;
