//! Tests of the machine of edits that no command shows: what edits touch of the routers' texts, after which
//! number a kept one stands, and edits that no request can be.
//!
//! The registry is read from the text of a dump (`samples.rt`), and what is told is compared with values
//! worked out by hand from the rules' sentences. What each kind of edits does, and why each is refused, is
//! told by the cases of `ixp_cases`.
#![tactic(auto)]

#[cfg(test)]
mod builds;
#[cfg(test)]
mod changes;
#[cfg(test)]
mod details;
#[cfg(test)]
mod lists;
#[cfg(test)]
mod refused;
#[cfg(test)]
mod requests;
#[cfg(test)]
mod samples;
#[cfg(test)]
mod sending;
