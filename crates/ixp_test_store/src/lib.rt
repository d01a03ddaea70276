//! Tests of the store: keepers over files, and over disks in memory that stop at a call.
//!
//! They stand here and not in the crate that they test, so that it is proved once and not once more with its
//! tests.
#![tactic(auto)]

#[cfg(test)]
mod batches;
#[cfg(test)]
mod crashes;
#[cfg(test)]
mod files;
