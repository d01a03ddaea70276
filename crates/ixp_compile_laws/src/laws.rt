//! The laws.
ghost use Rattle.std.specs.Prelude.{◌≡◌, ℕ, List, [], Some, true};
ghost use Rattle.ixp_num_tables.specs.Tables.{find};
ghost use Rattle.ixp_lang_tokens.specs.Grammars.{Took};
ghost use Rattle.ixp_lang.specs.Trees.{ItemTree};
ghost use Rattle.ixp_registry.specs.declared.registry.Registry.{Registry};
ghost use Rattle.ixp_registry.specs.declared.router.Router.{Router};
ghost use Rattle.ixp_registry.specs.Keys.{router_key};
ghost use Rattle.ixp_registry.specs.Sessions.{Session, session};
ghost use Rattle.ixp_registry.specs.Valid.{Valid};
ghost use Rattle.ixp_compile.specs.Generated.{generated, own_part};
ghost use Rattle.ixp_read.specs.Answers.{SpellsText};
ghost use Rattle.ixp_read.specs.Items.{config_form};
ghost use Rattle.ixp_lang_laws.specs.CanonicalItems.{config_tokens};
ghost use Rattle.ixp_lang_laws.specs.SoundItems.{is_sound};
ghost use Rattle.ixp_compile_laws.specs.Right.{Gen, Part, Right, RightOwn};

/// The text of a router of a valid registry is sound, and so is each session's own text.
pub fn generated_text_is_sound()
    ensures whole { (r : Registry) (handle : List ℕ) (router : Router) → Valid r
        → find router_key handle r.routers ≡ Some router → is_sound (generated r router) ≡ true }
    ensures own { (r : Registry) (handle : List ℕ) (router : Router) (n : ℕ) (s : Session) → Valid r
        → find router_key handle r.routers ≡ Some router → session r router n ≡ Some s →
        is_sound (own_part r router s) ≡ true }
{}

/// The canonical tokens of these texts spell them, with nothing left over.
pub fn generated_text_is_spelt()
    ensures whole { (r : Registry) (handle : List ℕ) (router : Router) → Valid r
        → find router_key handle r.routers ≡ Some router →
        Took config_form (generated r router) (config_tokens (generated r router)) [] }
    ensures own { (r : Registry) (handle : List ℕ) (router : Router) (n : ℕ) (s : Session) → Valid r
        → find router_key handle r.routers ≡ Some router → session r router n ≡ Some s →
        Took config_form (own_part r router s) (config_tokens (own_part r router s)) [] }
{}

/// What is printed of these texts spells them, and nothing else.
pub fn generated_text_is_read_back()
    ensures whole { (r : Registry) (handle : List ℕ) (router : Router) → Valid r
        → find router_key handle r.routers ≡ Some router →
        SpellsText (Gen r router) (generated r router) }
    ensures own { (r : Registry) (handle : List ℕ) (router : Router) (n : ℕ) (s : Session) → Valid r
        → find router_key handle r.routers ≡ Some router → session r router n ≡ Some s →
        SpellsText (Part r router s) (own_part r router s) }
    ensures alone { (r : Registry) (handle : List ℕ) (router : Router) (other : List ItemTree) → Valid r
        → find router_key handle r.routers ≡ Some router →
        SpellsText (Gen r router) other → other ≡ generated r router }
{}

/// The text of a router does what the rules over the rows say, for every session and every route; so does a
/// session's own text.
pub fn generated_text_is_right()
    ensures whole { (r : Registry) (handle : List ℕ) (router : Router) → Valid r
        → find router_key handle r.routers ≡ Some router → Right (Gen r router) r router }
    ensures own { (r : Registry) (handle : List ℕ) (router : Router) (n : ℕ) (s : Session) → Valid r
        → find router_key handle r.routers ≡ Some router → session r router n ≡ Some s →
        RightOwn (Part r router s) r router n s }
{}
