//! Merged sets of prefixes.
//!
//! A member's list of prefixes says what it may announce. A [`Mode`] says how far the list goes, and a bound
//! says how long an announced prefix may be. What is allowed is written as a set of patterns (BIRD 2 User's
//! Guide, prefix sets) in which neighbours are merged: `specs/Blocks.antt` says which patterns these are.
#![tactic(auto)]

mod derived;
mod full;
mod groups;
mod laws;
mod mode;
mod ordered;
mod plain;
mod rows;
mod sets;
mod tops;
mod trie;

pub use laws::{
    allowed_by_rows, blocks_are, blocks_follow_from_allowed, bounds_of_blocks,
    empty_without_short_rows, matches_where_allowed, no_pattern_within_another,
    no_siblings_with_equal_bounds,
};
pub use mode::Mode;
pub use plain::blocks_plain;
pub use sets::matches;
pub use trie::blocks_trie;
