//! The canonical tokens of a tree, and the laws that they spell it wherever some tokens do: so what is left
//! out, parentheses for example, changes nothing. The functions do nothing: they are called for what they
//! ensure.
ghost use Rattle.std.specs.Prelude.{◌≡◌, ℕ, ◌≤◌, true, List, []};
ghost use Rattle.ixp_lang.specs.Trees.{ExprTree, ItemTree};
ghost use Rattle.ixp_lang_tokens.specs.declared.token.Kind.{Kind};
ghost use Rattle.ixp_lang_tokens.specs.Grammars.{Took};
ghost use Rattle.ixp_lang_tokens.specs.Tokens.{HasTokens};
ghost use Rattle.ixp_lang_exprs.specs.declared.types.ValueType.{ValueType};
ghost use Rattle.ixp_lang_exprs.specs.declared.context.Scope.{Scope};
ghost use Rattle.ixp_lang_exprs.specs.declared.wanted.Wanted.{Wanted};
ghost use Rattle.ixp_lang_exprs.specs.Types.{is_expected};
ghost use Rattle.ixp_lang_exprs.specs.Names.{Names};
ghost use Rattle.ixp_read.specs.Items.{config_form};
ghost use Rattle.ixp_print.specs.Texts.{config_text as printed};
ghost use Rattle.ixp_lang_laws.specs.Canonical.{expr_tokens};
ghost use Rattle.ixp_lang_laws.specs.CanonicalItems.{config_tokens};
ghost use Rattle.ixp_read.specs.Answers.{SpellsText};
ghost use Rattle.ixp_lang_laws.specs.Printed.{AreWritten};
ghost use Rattle.ixp_lang_laws.specs.Spelling.{Spells, EndsChains};
ghost use Rattle.ixp_lang_laws.specs.SoundItems.{is_sound};

/// An expression's canonical tokens spell its tree, with its type, wherever some tokens do: in any statement,
/// and with as many levels or more, and wherever its type is wanted. Behind them neither `&&` nor `||` may
/// stand, which would go on with a chain.
pub fn canonical_tokens_spell_their_expression()
    ensures { (names : Names) (scope : Scope) (e : ExprTree) (t : ValueType) (levels more statement other : ℕ)
        (wanted needed : Wanted) (tokens rest behind : List Kind) →
        levels ≤ more → is_expected needed.expected t ≡ true →
        Spells names scope levels statement wanted e t tokens rest → EndsChains behind →
        Spells names scope more other needed e t (expr_tokens e behind) behind }
{}

/// The canonical tokens of a configuration spell it whole, with nothing behind them, wherever some tokens do.
/// They have braces round each branch, parentheses only where they are needed, no types that functions
/// return, and no `else` that does nothing.
pub fn canonical_tokens_spell_their_configuration()
    ensures { (configuration : List ItemTree) (tokens : List Kind) → Took config_form configuration tokens []
        → Took config_form configuration (config_tokens configuration) [] }
{}

/// A sound configuration is spelt by its canonical tokens. If its names, numbers and strings are such as
/// texts have, the text that is printed of it spells it.
pub fn sound_trees_are_spelt()
    ensures tokens { (configuration : List ItemTree) → is_sound configuration ≡ true
        → Took config_form configuration (config_tokens configuration) [] }
    ensures printed { (configuration : List ItemTree) → is_sound configuration ≡ true
        → AreWritten (config_tokens configuration) →
        SpellsText (printed configuration) configuration }
{}

/// The text of a configuration that [`ixp_print`] writes has the configuration's canonical tokens, if names,
/// numbers and strings in it are such as texts have: a name that is a keyword, for example, would be read as
/// that keyword.
pub fn printed_text_has_the_canonical_tokens()
    ensures { (configuration : List ItemTree) → AreWritten (config_tokens configuration)
        → HasTokens (printed configuration) (config_tokens configuration) }
{}

/// What a text spells has names, numbers and strings such as texts have, and so have its canonical tokens.
pub fn what_a_text_spells_is_written()
    ensures { (text : List ℕ) (configuration : List ItemTree) → SpellsText text configuration
        → AreWritten (config_tokens configuration) }
{}

/// Where some text spells a configuration, the text that is printed of it spells that configuration whole,
/// and no other.
pub fn printed_text_spells_its_configuration()
    ensures spelt { (configuration : List ItemTree) (text : List ℕ) → SpellsText text configuration
        → SpellsText (printed configuration) configuration }
    ensures alone { (configuration other : List ItemTree) (text : List ℕ) → SpellsText text configuration
        → SpellsText (printed configuration) other → other ≡ configuration }
{}
