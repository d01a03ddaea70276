//! Tests of replies that no request of a session gets, and of a link over a desk that has no memory.
//!
//! What requests call for, all other replies, and all else that a link shows is told by the cases of
//! `ixp_cases`.
#![tactic(auto)]

#[cfg(test)]
mod links;
#[cfg(test)]
mod replies;
