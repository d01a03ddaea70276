//! Tests of the board.
//!
//! They show what no clause says: that a seat which has learnt nothing looks at what was published last, that
//! looks go on while a turn is being made, and that a desk (a lock round a pen and a turn that is owed) can
//! meet what the pen asks of its caller.
#![tactic(auto)]

#[cfg(test)]
mod desk;
#[cfg(test)]
mod holding;
#[cfg(test)]
mod looks;
#[cfg(test)]
mod sums;
