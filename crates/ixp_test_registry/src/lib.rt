//! Tests of registries that no command shows: dumps that are to be of one version, a VLAN that isn't there,
//! and the demo exchange.
//!
//! All else that the rules on rows, dumps, the address plan and members' statuses say is told by the cases of
//! `ixp_cases`.
#![tactic(auto)]

#[cfg(test)]
mod demo;
#[cfg(test)]
mod dumps;
#[cfg(test)]
mod plan;
#[cfg(test)]
mod samples;
