//! Tests of explanations.
//!
//! The text of a route server is generated from a small exchange's rows, which are read from a dump, altered
//! by hand, and a route is explained by it; or a text is written by hand. What is told was worked out from
//! the rules. What the program tells by its own texts is told by the cases of `ixp_cases`.
#![tactic(auto)]

#[cfg(test)]
mod samples;
#[cfg(test)]
mod shapes;
#[cfg(test)]
mod staff;
