//! Which configurations some text spells, as a test on trees.
//!
//! A tree may say what no text does: a pair with a part above 65535, a call of a function that isn't there, a
//! `return` in a filter. `is_sound` (`specs/SoundItems.antt`) is the test: names are declared before their
//! use, types and levels fit, sets have elements of their kind. It goes down the tree once and asks no text.
//! That a sound tree is spelt by its canonical tokens is a law of the crate `ixp_lang_laws`; this crate has
//! the definitions alone, so that those who make trees and those who read them can both name it.
ghost use Rattle.std.specs.Prelude.{◌≡◌, true, []};
ghost use Rattle.ixp_lang_laws.specs.SoundItems.{is_sound};

/// A configuration without items is sound.
pub fn nothing_is_sound()
    ensures { is_sound [] ≡ true }
{}
