//! What a configuration text says of a route: its fate, why it is stopped, and, for a member's own route, to
//! which peers it is to be sent.
//!
//! [`explain`] and [`explain_member`] read the text and run it. What they answer is the outcome by the
//! configuration that the text spells (`specs/Explained.antt`), so a text that was altered by hand is
//! explained as it stands. [`explain_text`] gives the fate as a text, [`print_own`] writes what a member
//! gets to read. A [`Reading`] is a text that is read once for many routes, and [`session`] has the steps of an
//! explanation for those who read a text themselves. What the texts of a valid registry explain is said in
//! `ixp_explain_member`.
#![tactic(auto)]

mod fates;
mod kinds;
mod member;
mod peers;
mod print;
mod reading;
mod report;
pub mod session;
mod shapes;
mod tables;

pub use fates::{explain, explain_text};
pub use member::explain_member;
pub use print::print_own;
pub use reading::Reading;
pub use report::{ExplainFault, OwnReport, Report};
pub use tables::tables_of;
