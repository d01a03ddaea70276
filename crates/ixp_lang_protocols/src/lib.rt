//! The reader of protocols of filter texts (BIRD 2 User's Guide, chapter "Protocols": BGP, Device and Pipe).
//!
//! [`protocol_at`] reads what follows the word `protocol`, declares the protocol's name, and notes whose
//! table is whose. A fault says how many tokens are left at its place.
#![tactic(auto)]

mod pipe;
mod protocol;
mod session;
mod tables;
mod ways;

pub use protocol::protocol_at;
