//! The program's commands, over the objects of the outside that the caller supplies.
//!
//! [`run`] runs the command that words are: `session` over the input and the output as one link, `serve`
//! over the links of a door, and all others as `ixp_cli_plain` does. `specs/Waits.antt` says how those two
//! end.
#![tactic(auto)]

pub mod laws;
mod running;
mod server;
mod session;

pub use ixp_cli_plain::{
    Command, End, INPUT_LIMIT, LinkCode, Question, RtrPort, Waiting, run_plain,
};
pub use running::run;
