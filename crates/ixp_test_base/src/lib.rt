//! Tests of the lowest layer: lists, tables of rows, texts, the numbers of the trade, whois data and what
//! sets expand to, a table of a million ROAs, the outside, and an RTR cache over it.
//!
//! They stand here and not in the crates that they test, so that each of those is proved once and not once
//! more with its tests. Each calls what allocates on its happy path, compares with values from outside, or
//! makes a read or a write fail.
#![tactic(auto)]

#[cfg(test)]
mod keepers;
#[cfg(test)]
mod lists;
#[cfg(test)]
mod many_roas;
#[cfg(test)]
mod numbers;
#[cfg(test)]
mod outside;
#[cfg(test)]
mod rpsl;
#[cfg(test)]
mod rpsl_sources;
#[cfg(test)]
mod rtr;
#[cfg(test)]
mod streams;
#[cfg(test)]
mod tables;
