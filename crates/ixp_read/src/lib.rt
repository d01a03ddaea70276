//! The reader of filter texts: this profile of BIRD 2's language (User's Guide, chapters "Configuration" and
//! "Filters").
//!
//! [`read_config`] gives the tree that the text's tokens spell by the grammar of `specs/Items.antt`, or the
//! place where the reading of the tokens stops, and why (`ConfigAnswer` of `specs/Answers.antt`). A text has
//! one such answer ([`laws::one_answer`]); where syntax stops a reading no configuration goes on, and where a
//! check refuses it none begins so ([`laws::none_goes_on`]).
#![tactic(auto)]

mod fault;
mod function;
mod item;
pub mod laws;
mod params;
mod read;
mod ty;

pub use fault::ReadFault;
pub use read::read_config;
