//! The network and the clock of the system: TCP links of the machine itself, and its seconds.
//!
//! The adapters keep the contracts of `ixp_io`'s traits: a call fails only where its object's count of faults
//! rose. They tell no content and no number of links: what the system gives can't be said in a contract.
#![tactic(auto)]

mod pace;
mod system_clock;
mod tcp_door;
mod tcp_link;

pub use system_clock::SystemClock;
pub use tcp_door::TcpDoor;
pub use tcp_link::TcpLink;
