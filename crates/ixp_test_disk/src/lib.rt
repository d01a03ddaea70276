//! Tests of edits over a store whose disk stops at a call: what was answered Ok is there when the machine
//! comes back, and the registry is that after so many edits or one more.
//!
//! `edits.rt` has the edits, made over any store; `disk.rt` the files that stop; `stops.rt` tries each stop
//! in turn.
#![tactic(auto)]

#[cfg(test)]
mod disk;
#[cfg(test)]
mod edits;
#[cfg(test)]
mod stops;
