//! The laws.
ghost use Rattle.std.specs.Prelude.{◌≡◌, ℕ, List, Some, Ok};
ghost use Rattle.ixp_num_tables.specs.Tables.{find};
ghost use Rattle.ixp_lang.specs.declared.route.Route.{Route};
ghost use Rattle.ixp_lang.specs.Walks.{walk};
ghost use Rattle.ixp_print.specs.Texts.{config_text};
ghost use Rattle.ixp_registry.specs.declared.registry.Registry.{Registry};
ghost use Rattle.ixp_registry.specs.declared.router.Router.{Router};
ghost use Rattle.ixp_registry.specs.Keys.{router_key};
ghost use Rattle.ixp_registry.specs.Sessions.{Session, session};
ghost use Rattle.ixp_registry.specs.Valid.{Valid};
ghost use Rattle.ixp_policy.specs.Fates.{ask, fate, fate_of, number};
ghost use Rattle.ixp_compile.specs.Fragment.{bgp_name};
ghost use Rattle.ixp_compile.specs.Generated.{
  generated,
  header_inputs,
  inputs,
  own_part,
  roa_tables,
  session_part,
};
ghost use Rattle.ixp_compile.specs.Header.{header};
ghost use Rattle.ixp_compile_older.specs.Fates.{older_ask, older_fate, older_fate_of, older_number};
ghost use Rattle.ixp_compile_older.specs.Registries.{IsOlder};
ghost use Rattle.ixp_compile_older.specs.Texts.{older_generated, older_header, older_own_part, older_part};

/// A route of a registry that may be of the first version has the fate of that version's rules: what the
/// session's table holds, whether it passes, and what each other session gets. So have the number of its
/// refusal and the wish for each receiver.
pub fn fates_are_the_older_ones()
    ensures fate { (r : Registry) (handle : List ℕ) (n : ℕ) (route : Route) → IsOlder r →
        fate r handle n route ≡ older_fate r handle n route }
    ensures number { (r : Registry) (handle : List ℕ) (n : ℕ) (route : Route) → IsOlder r →
        number r handle n route ≡ older_number r handle n route }
    ensures ask { (r : Registry) (handle : List ℕ) (n : ℕ) (route : Route) (to : ℕ) → IsOlder r →
        ask r handle n route to ≡ older_ask r handle n route to }
    ensures session { (r : Registry) (handle : List ℕ) (router : Router) (s : Session) (route : Route)
        → IsOlder r → find router_key handle r.routers ≡ Some router →
        fate_of r router route s ≡ older_fate_of r router route s }
{}

/// The text of a router of such a registry is byte for byte that of the first version, and so is a session's
/// own text: the head, each session's part, and the whole of both are the trees of that version.
pub fn texts_are_the_older_ones()
    ensures head { (r : Registry) (handle : List ℕ) (router : Router) → IsOlder r
        → find router_key handle r.routers ≡ Some router →
        header (header_inputs r router) ≡ older_header (header_inputs r router) }
    ensures part { (r : Registry) (handle : List ℕ) (router : Router) (s : Session) → IsOlder r
        → find router_key handle r.routers ≡ Some router →
        session_part (inputs r router s) ≡ older_part (inputs r router s) }
    ensures whole { (r : Registry) (handle : List ℕ) (router : Router) → IsOlder r
        → find router_key handle r.routers ≡ Some router →
        generated r router ≡ older_generated r router }
    ensures own { (r : Registry) (handle : List ℕ) (router : Router) (s : Session) → IsOlder r
        → find router_key handle r.routers ≡ Some router →
        own_part r router s ≡ older_own_part r router s }
    ensures printed { (r : Registry) (handle : List ℕ) (router : Router) → IsOlder r
        → find router_key handle r.routers ≡ Some router →
        config_text (generated r router) ≡ config_text (older_generated r router) }
    ensures own_printed { (r : Registry) (handle : List ℕ) (router : Router) (s : Session) → IsOlder r
        → find router_key handle r.routers ≡ Some router →
        config_text (own_part r router s) ≡ config_text (older_own_part r router s) }
{}

/// The first version's text of a valid registry of that kind does what that version's rules say.
pub fn older_text_is_right()
    ensures { (r : Registry) (handle : List ℕ) (router : Router) (n : ℕ) (s : Session) (route : Route)
        → IsOlder r → Valid r → find router_key handle r.routers ≡ Some router
        → session r router n ≡ Some s → route.net.family ≡ router.family →
        walk (older_generated r router) (roa_tables r) (bgp_name n) route
        ≡ Ok (older_fate_of r router route s) }
{}
