//! What some text spells is sound: the test `is_sound` of the crate `ixp_lang_laws` refuses no tree that
//! tokens spell.
//!
//! The grammar of the crates `ixp_lang_exprs` to `ixp_read` says when tokens spell a tree, the test says the
//! same of the tree alone. Here stands that the test is no narrower than the grammar; that it is no wider, so
//! that each sound tree is spelt by some tokens, is a law of the crate `ixp_lang_laws`. The function does
//! nothing: it is called for what it ensures.
ghost use Rattle.std.specs.Prelude.{◌≡◌, ℕ, true, List, []};
ghost use Rattle.ixp_lang.specs.Trees.{ItemTree};
ghost use Rattle.ixp_lang_tokens.specs.declared.token.Kind.{Kind};
ghost use Rattle.ixp_lang_tokens.specs.Grammars.{Took};
ghost use Rattle.ixp_read.specs.Answers.{SpellsText};
ghost use Rattle.ixp_read.specs.Items.{config_form};
ghost use Rattle.ixp_lang_laws.specs.SoundItems.{is_sound};

/// The configuration that tokens spell, with nothing behind them, is sound; so is the one that a text spells.
pub fn spelt_trees_are_sound()
    ensures tokens { (configuration : List ItemTree) (tokens : List Kind)
        → Took config_form configuration tokens [] → is_sound configuration ≡ true }
    ensures text { (text : List ℕ) (configuration : List ItemTree) → SpellsText text configuration
        → is_sound configuration ≡ true }
{}
