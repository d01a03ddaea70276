//! What is written of the expansion of a set: its sets, the AS numbers among their members, or the prefixes
//! of the routes that these originate.
//!
//! `specs/Listings.antt` says which text an input of whois data gives, and why it gives none. The texts of AS
//! numbers and of prefixes are lists as a member's lists are supplied.
#![tactic(auto)]

mod expansion;
mod fault;
pub mod laws;
mod listing;
mod texts;

pub use expansion::expansion_text;
pub use fault::{ExpandCause, ExpandFault};
pub use listing::Listing;
