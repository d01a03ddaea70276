//! Laws of the filter language: which configurations some text spells, and by which tokens.
//!
//! A tree may say what no text does: a pair with a part above 65535, a call of a function that isn't there, a
//! `return` in a filter. `is_sound` (`specs/SoundItems.antt`) is the test: names are declared before their
//! use, types and levels fit, sets have elements of their kind. It goes down the tree once and asks no text.
//! What some text spells is sound, and each sound tree is spelt by its canonical tokens: so the test is
//! neither narrower nor wider than the grammar of the crates `ixp_lang_exprs` to `ixp_read`.
//!
//! The canonical tokens of a tree (`specs/CanonicalItems.antt`) spell it wherever some tokens do, so what is
//! left out, parentheses for example, changes nothing. The functions do nothing: each is called for what it
//! ensures.
#![tactic(auto)]

mod canonical;
mod sound;
mod spelt;

pub use canonical::{
    canonical_tokens_spell_their_configuration, canonical_tokens_spell_their_expression,
    printed_text_has_the_canonical_tokens, printed_text_spells_its_configuration,
    sound_trees_are_spelt, what_a_text_spells_is_written,
};
pub use sound::nothing_is_sound;
pub use spelt::spelt_trees_are_sound;
