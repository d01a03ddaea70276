//! To whom a route server sends a route, and how often the sender's number is put in front.
//!
//! [`sends`] and [`prepends`] read what a route's communities ask (`specs/Steering.antt` of ixp_lang),
//! [`asked`] and [`receives`] what members' rules say (`specs/Sessions.antt` of ixp_registry). None of them
//! takes memory.
#![tactic(auto)]

mod communities;
mod rules;

pub use communities::{prepends, sends};
pub use rules::{asked, receives};
