//! Which texts of route servers are to be regenerated.
//!
//! A [`Touch`] lists texts that an edit touched: headers of routers, parts of sessions, and the ROAs.
//! [`Pending`] gathers what edits touched since texts were made, each text with the count of the last edit
//! that touched it, so that it grows with the texts and not with the edits. A call that notes a touch notes
//! all of it or nothing. What a call does to the counts is said by look-up (`specs/Pendings.antt`).
#![tactic(auto)]

mod name;
mod pending;
mod rows;
mod touch;

pub use name::TextName;
pub use pending::Pending;
pub use rows::{PendingText, PendingTexts};
pub use touch::Touch;
