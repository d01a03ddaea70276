//! What callers of a desk may rely on, whatever others do, and however often they send their edits.
//!
//! The laws are about legal histories of `ixp_desk_history`. What a member is answered depends on what it
//! sees alone, and its edits change nothing of anybody else's (`members`). An edit is made once, however
//! often it is sent (`repeats`). The same is said of the calls of `ixp_desk_lock`, whose turns stand in
//! such a history (`calls`), and of those of links (`links`). The functions do nothing: each is called for
//! what it ensures.
#![tactic(auto)]

mod calls;
mod links;
mod members;
mod repeats;

pub use calls::{
    answered_calls_have_places, desks_answer_members_of_their_own, desks_answer_repeats_again,
};
pub use links::{links_answer_members_of_their_own, links_answer_repeats_again};
pub use members::{
    members_are_answered_of_their_own, members_are_explained_their_own, members_calls_leave_others,
};
pub use repeats::{
    edits_are_made_once, edits_made_give_the_registry, repeats_change_nothing,
    resent_edits_are_known,
};
