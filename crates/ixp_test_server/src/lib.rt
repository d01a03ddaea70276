//! Tests of what a server stands on: holds, links in threads, the network and the clock of the system.
//!
//! They stand here and not in the crates that they test, so that each of those is proved once and not once
//! more with its tests.
#![tactic(auto)]

#[cfg(test)]
mod holds;
#[cfg(test)]
mod links;
#[cfg(test)]
mod network;
