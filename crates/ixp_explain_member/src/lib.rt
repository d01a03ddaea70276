//! What is answered to who asks what becomes of a route at the exchange.
//!
//! [`staff_explanation`] gives the staff the route's fate by the router's text, [`member_explanation`] gives
//! a member what its session's own text says of its own route. `specs/Explanations.antt` says what each is
//! answered by the rows, and when it is refused.
//!
//! [`staff_told`] and [`member_told`] answer the same of texts that were handed out: they have the bytes, or
//! a text that was read, and the ROAs of that version, and no registry.
//!
//! That what the texts of a valid registry explain is what the rules over its rows say, `specs/Rows.antt`
//! has: the reports by the rows, and when a text explains them. The laws' functions do nothing: each is
//! called for what it ensures.
#![tactic(auto)]

mod by_text;
mod explanation;
mod laws;
mod member;
mod sessions;
mod staff;

pub use by_text::{member_told, staff_told};
pub use explanation::Explanation;
pub use laws::{
    generated_text_explains, members_are_told_the_rules, own_text_explains,
    staff_are_told_the_rules,
};
pub use member::member_explanation;
pub use staff::staff_explanation;
