//! Routers of the first version of the registry have no blackhole address and no bound on communities. The
//! rules and the texts of today treat them as the rules of that version did.
//!
//! `specs/Tables.antt`, `specs/Fates.antt` and `specs/Texts.antt` have the rules and the text of that
//! version: what today's have of blackhole routes (RFC 7999) and of the bound isn't there, and the rest is
//! today's. `IsOlder` says of a registry that it may have been of that version. A dump of that version is
//! read as such a registry. The laws' functions do nothing: each is called for what it ensures.
#![tactic(auto)]

mod laws;

pub use laws::{fates_are_the_older_ones, older_text_is_right, texts_are_the_older_ones};
