//! Tests of filters and routes that no command shows: the tokens of filter texts and how trees are printed,
//! the places of faults in routes' texts, what functions of filters return, the numbers and wishes of the
//! slow programs that the rules of the trade are, and merged sets.
//!
//! Filters and configurations are read from texts, registries from dumps (`samples.rt`). What is told is
//! compared with cases worked out by hand from the standards and from the rules' sentences. Fates of routes
//! are told by the cases of `ixp_cases`.
#![tactic(auto)]

#[cfg(test)]
mod fates;
#[cfg(test)]
mod filters;
#[cfg(test)]
mod printed;
#[cfg(test)]
mod routes;
#[cfg(test)]
mod samples;
#[cfg(test)]
mod sets;
#[cfg(test)]
mod tokens;
