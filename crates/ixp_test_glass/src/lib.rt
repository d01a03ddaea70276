//! Tests of the looking glass: what two seats of a board hold and see, which holds are refused, what is shown
//! of the routes that a session holds, and whose reports are made anew.
#![tactic(auto)]

#[cfg(test)]
mod dues;
#[cfg(test)]
mod holds;
#[cfg(test)]
mod reports;
#[cfg(test)]
mod routes;
#[cfg(test)]
mod samples;
