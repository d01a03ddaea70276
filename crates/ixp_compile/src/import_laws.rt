//! What a session's import filter does.
ghost use Rattle.std.specs.Prelude.{◌≡◌, List, []};
ghost use Rattle.ixp_num.specs.declared.pattern.Pattern.{Pattern};
ghost use Rattle.ixp_lang.specs.declared.route.Route.{Route};
ghost use Rattle.ixp_lang.specs.Meaning.{Environment, Known, accepts, body_of};
ghost use Rattle.ixp_lang.specs.Trees.{stmts};
ghost use Rattle.ixp_registry.specs.declared.registry.Registry.{Registry};
ghost use Rattle.ixp_registry.specs.declared.router.Router.{Router};
ghost use Rattle.ixp_registry.specs.Sessions.{Session};
ghost use Rattle.ixp_policy.specs.Tags.{tagged};
ghost use Rattle.ixp_compile.specs.Fragment.{in_body};
ghost use Rattle.ixp_compile.specs.Generated.{inputs};
ghost use Rattle.ixp_compile.specs.Imports.{Allows, Names, Sees};
ghost use Rattle.ixp_compile.specs.Shared.{Shared};

/// `in_N` accepts every route of the router's family, with the tags of the rules over rows.
pub fn import_tags()
    ensures { (env : Environment) (k : Known) (r : Registry) (router : Router) (s : Session)
        (irr blackholes : List Pattern) (route : Route) →
        Shared r router k → Sees r router s env → Allows router s irr blackholes →
        Names router s irr blackholes k →
        route.net.family ≡ router.family →
        body_of env k [] (stmts (in_body (inputs r router s) irr blackholes)) route
        ≡ accepts (tagged r router s route) }
{}
