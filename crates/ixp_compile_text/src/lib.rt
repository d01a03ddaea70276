//! The texts of a route server, made of the rows of a registry.
//!
//! [`generate`] makes the text of a router, a head, a part for each of its sessions and a foot, and [`part`]
//! that of one session alone. Each text is the printed tree of `ixp_compile`'s definitions, byte for byte. By
//! their types [`fragment`] depends on a session's `Inputs` alone, and [`header_of`] on a router's
//! `HeaderInputs`: what [`inputs`] and [`header_inputs`] take from the rows. [`texts_by_session`] gives the
//! parts of all sessions one by one, and [`inputs_of_each`] what those of some sessions depend on.
#![tactic(auto)]

mod addresses;
mod fault;
mod parts;
mod texts;
mod values;

pub use fault::GenFault;
pub use parts::{SessionText, inputs_of_each, texts_by_session};
pub use texts::{footer, fragment, generate, header, header_of, part};
pub use values::{header_inputs, header_inputs_of, inputs};
