//! What a looking glass shows: what a route server's text does with the routes that a session announces.
//!
//! A [`Glass`] has a report for each route of a session, which is what `explain_member` of `ixp_explain` says
//! of it with no peers to ask, by the text and the ROAs that are supplied (`specs/Reports.antt`). It reads a
//! text once for all routes of a session, and keeps the reports of 16 sessions: where a session's routes, its
//! text and the ROAs are those that its reports were made from, these are given again. Its type keeps that
//! each report is right.
//!
//! One caller has a glass alone, or threads share it by a lock ([`SharedReports`]): either is a [`Glasses`].
#![tactic(auto)]

mod compare;
mod crossing;
mod forms;
mod glass;
mod kept;
mod reports;
mod roas;
mod session;
mod sharing;

pub use crossing::reports_cross_threads;
pub use glass::Glass;
pub use kept::{KeptReports, MOST_KEPT, Reports};
pub use roas::GlassRoas;
pub use sharing::{Glasses, SharedReports};
