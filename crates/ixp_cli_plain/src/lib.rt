//! The commands that read and write, and wait for nobody, over the objects of the outside that the caller
//! supplies.
//!
//! [`run_command`] runs the command that words are, unless it is one that waits: `ixp_cli` runs those. A run
//! ends in one way ([`End`]), which its status and a line on the errors tell. `specs/Runs.antt` says how each
//! command ends.
#![tactic(auto)]

mod check;
mod command;
mod demo;
mod dump;
mod end;
mod eval;
mod expansion;
mod export;
mod fate;
mod generation;
mod input;
pub mod laws;
mod restore;
mod unloading;
mod upgrading;

pub use command::{Command, INPUT_LIMIT, Question, RtrPort, Waiting, run_command, run_plain};
pub use end::{End, LinkCode, report, write_counted};
pub use unloading::unloaded;
