//! The texts of a valid registry, walked and asked, do what the rules over its rows say.
ghost use Rattle.std.specs.Prelude.{◌≡◌, ◌<◌, ◌^◌, ℕ, true, List, [], Some, Ok, codes, reverse};
ghost use Rattle.std.specs.Option.{is_some};
ghost use Rattle.ixp_num_tables.specs.Tables.{find};
ghost use Rattle.ixp_lang.specs.declared.route.Route.{Route};
ghost use Rattle.ixp_lang.specs.declared.route.Verdict.TheVariants.{Accept};
ghost use Rattle.ixp_lang.specs.declared.value.Value.TheVariants.{Bool, Int};
ghost use Rattle.ixp_lang.specs.Meaning.{Environment, filter_end, function_end};
ghost use Rattle.ixp_lang.specs.Walks.{walk};
ghost use Rattle.ixp_registry.specs.declared.registry.Registry.{Registry};
ghost use Rattle.ixp_registry.specs.declared.router.Router.{Router};
ghost use Rattle.ixp_registry.specs.Keys.{router_key};
ghost use Rattle.ixp_registry.specs.Sessions.{Session, session};
ghost use Rattle.ixp_policy.specs.Export.{wish};
ghost use Rattle.ixp_policy.specs.Fates.{fate_of, passes};
ghost use Rattle.ixp_policy.specs.Tags.{tagged};
ghost use Rattle.ixp_registry.specs.Valid.{Valid};
ghost use Rattle.ixp_compile.specs.Fragment.{bgp_name, up_name};
ghost use Rattle.ixp_compile.specs.Generated.{generated, own_part, roa_tables};
ghost use Rattle.ixp_compile.specs.Rewriting.{rewritten};
ghost use Rattle.ixp_compile.specs.Whole.{own_fate};

/// The walk of a router's text from a session is the route's fate, for every session of every router of a
/// valid registry and every route of the router's family, and never a fault.
pub fn walk_is_fate()
    ensures { (r : Registry) (handle : List ℕ) (router : Router) (n : ℕ) (s : Session) (route : Route) →
        Valid r → find router_key handle r.routers ≡ Some router → session r router n ≡ Some s →
        route.net.family ≡ router.family →
        walk (generated r router) (roa_tables r) (bgp_name n) route ≡ Ok (fate_of r router route s) }
{}

/// A session's own text, walked from it, has the table's route and whether it passes; where it does, the
/// filter up accepts the table's route as one of which `ixp_sends` and `ixp_count` give the wish for every
/// receiver.
pub fn own_part_tells()
    ensures walk { (r : Registry) (handle : List ℕ) (router : Router) (n : ℕ) (s : Session) (route : Route) →
        Valid r → find router_key handle r.routers ≡ Some router → session r router n ≡ Some s →
        route.net.family ≡ router.family →
        walk (own_part r router s) (roa_tables r) (bgp_name n) route ≡ Ok (own_fate r router s route) }
    ensures up { (r : Registry) (handle : List ℕ) (router : Router) (n : ℕ) (s : Session) (env : Environment)
        (route : Route) →
        Valid r → find router_key handle r.routers ≡ Some router → session r router n ≡ Some s →
        route.net.family ≡ router.family → passes r router s route ≡ true →
        filter_end env (reverse (own_part r router s)) (up_name n) (tagged r router s route)
        ≡ Ok (Accept (rewritten router.asn.0 s.rules (tagged r router s route))) }
    ensures sends { (r : Registry) (handle : List ℕ) (router : Router) (n : ℕ) (s : Session)
        (env : Environment) (t : Route) (to : ℕ) →
        Valid r → find router_key handle r.routers ≡ Some router → session r router n ≡ Some s →
        function_end env (reverse (own_part r router s)) (codes "ixp_sends") to
        (rewritten router.asn.0 s.rules t)
        ≡ Ok (Bool (is_some (wish router s t to))) }
    ensures counts { (r : Registry) (handle : List ℕ) (router : Router) (n : ℕ) (s : Session)
        (env : Environment) (t : Route) (to times : ℕ) →
        Valid r → find router_key handle r.routers ≡ Some router → session r router n ≡ Some s →
        wish router s t to ≡ Some times →
        function_end env (reverse (own_part r router s)) (codes "ixp_count") to
        (rewritten router.asn.0 s.rules t)
        ≡ Ok (Int times) }
{}
