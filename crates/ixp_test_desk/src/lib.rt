//! Tests of a desk that threads share: what no clause says, that a lock is free while texts are made, and
//! that a configuration is read without it.
//!
//! The registry is the demo exchange. Each test runs on seats of one desk, whose calls in two threads are
//! held against each other (`pairs.rt`).
#![tactic(auto)]

#[cfg(test)]
mod boards;
mod held;
#[cfg(test)]
mod pairs;
#[cfg(test)]
mod routers;
#[cfg(test)]
mod samples;
#[cfg(test)]
mod turns;
#[cfg(test)]
mod workers;
