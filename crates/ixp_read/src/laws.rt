//! Laws of configurations. The functions do nothing: each is called for what it ensures.
ghost use Rattle.std.specs.Prelude.{◌≡◌, ◌⊎◌, ℕ, List, [], length, Result, Ok, Err};
ghost use Rattle.ixp_lang.specs.Trees.{ItemTree};
ghost use Rattle.ixp_lang.specs.declared.item.Config.{Config};
ghost use Rattle.ixp_lang_tokens.specs.declared.fault.Cause.{Cause};
ghost use Rattle.ixp_lang_tokens.specs.declared.token.Kind.{Kind};
ghost use Rattle.ixp_lang_tokens.specs.Grammars.{Took};
ghost use Rattle.ixp_lang_tokens.specs.Reading.{read};
ghost use Rattle.ixp_read.specs.declared.fault.ReadFault.{ReadFault};
ghost use Rattle.ixp_read.specs.declared.fault.ReadFault.TheVariants.{NoMemory};
ghost use Rattle.ixp_read.specs.Answers.{ConfigAnswer, IsTold, SameAnswer, SpellsText};
ghost use Rattle.ixp_read.specs.Items.{config_form};
ghost use Rattle.ixp_read.specs.Stops.{IsLawful, IsRefused, NoneGoesOn};

/// A text is the configuration of one tree at most: its tokens are of the grammar in one way.
pub fn one_tree()
    ensures { (tokens : List Kind) (c d : List ItemTree) → Took config_form c tokens []
        → Took config_form d tokens [] → c ≡ d }
{}

/// What is a configuration is read as its tree, with nothing left behind it.
pub fn spelt_is_read()
    ensures { (tokens : List Kind) (c : List ItemTree) → Took config_form c tokens []
        → read config_form tokens ≡ Ok (c, []) }
{}

/// What is read to the end is a configuration, and nothing is left behind it.
pub fn read_is_spelt()
    ensures whole { (tokens : List Kind) (c : List ItemTree) (rest : List Kind)
        → read config_form tokens ≡ Ok (c, rest) → rest ≡ [] }
    ensures spelt { (tokens : List Kind) (c : List ItemTree) (rest : List Kind)
        → read config_form tokens ≡ Ok (c, rest) → Took config_form c tokens [] }
{}

/// A reading that fails ends at a check, of a name, a type, a range or a level: then no configuration begins
/// with the tokens before the place where the check is made and the one that is next there, whatever is
/// behind them (its places numbered as in this text). Or syntax ends it, at the first place where no
/// configuration goes on: some configuration, with a level more perhaps, begins with the tokens before it,
/// none with these and the one that is there.
pub fn none_goes_on()
    ensures { (tokens : List Kind) (cause : Cause) (left : ℕ) → read config_form tokens ≡ Err (cause, left)
        → IsRefused tokens ⊎ NoneGoesOn tokens cause left }
{}

/// With places that are numbered by its own tokens a text is lawful where it is a configuration, and only
/// there.
pub fn lawful_is_spelt()
    ensures spelt { (tokens : List Kind) → IsLawful (length tokens) tokens → (c : List ItemTree)
        × Took config_form c tokens [] }
    ensures lawful { (tokens : List Kind) (c : List ItemTree) → Took config_form c tokens []
        → IsLawful (length tokens) tokens }
{}

/// A text has one answer: one configuration, or one fault at one place. So what [`crate::read_config`]
/// ensures says exactly what it answers, running out of memory left aside.
pub fn one_answer()
    ensures { (text : List ℕ) (one other : Result Config ReadFault) → IsTold one → IsTold other
        → ConfigAnswer text one → ConfigAnswer text other → SameAnswer one other }
{}

/// A text that spells a configuration is refused for running out of memory alone.
pub fn spelt_texts_are_read()
    ensures { (text : List ℕ) (c : List ItemTree) (fault : ReadFault) → SpellsText text c
        → ConfigAnswer text (Err fault) → fault ≡ NoMemory }
{}
