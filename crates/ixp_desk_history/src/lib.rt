//! Histories of a desk: what its callers did, one turn after the other.
//!
//! A history begins with a state, the store's count of faults and what readers see, and goes on with turns:
//! edits, questions, installations of texts, and faults of the store. `specs/Turns.antt` says what turns make
//! of a state, `specs/Legal.antt` which histories are legal: each edit is decided and each question answered
//! by the state at its place, and what readers see after each turn is right. [`DeskStory`] publishes them on
//! a board.
//!
//! The functions of `laws` say what legal histories are worth: a version is one registry, readers see its
//! full texts, and texts that were ordered at one place may be installed at a later one.
#![tactic(auto)]

mod laws;
mod story;
mod turn;

pub use laws::{
    legal_histories_go_on, ordered_texts_may_be_installed, readers_see_one_version,
    versions_are_one,
};
pub use story::DeskStory;
pub use turn::{Answered, Asked, Event, First, Shown, Text, Turn, View};
