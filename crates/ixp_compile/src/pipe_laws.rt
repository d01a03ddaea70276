//! What stands between a session's table and the one that all share, and what members' rules do there.
ghost use Rattle.std.specs.Prelude.{◌≡◌, ℕ, [], if◌then◌else◌};
ghost use Rattle.ixp_num.specs.declared.family.Family.{Family};
ghost use Rattle.ixp_lang.specs.declared.route.Route.{Route};
ghost use Rattle.ixp_lang.specs.declared.value.Value.TheVariants.{Bool};
ghost use Rattle.ixp_lang.specs.Attributes.{first_of};
ghost use Rattle.ixp_lang.specs.Meaning.{Environment, Known, accepts, body_of, rejects, returns};
ghost use Rattle.ixp_lang.specs.Trees.{stmts};
ghost use Rattle.ixp_registry.specs.declared.registry.Registry.{Registry};
ghost use Rattle.ixp_registry.specs.declared.router.Router.{Router};
ghost use Rattle.ixp_registry.specs.Sessions.{Session, receives};
ghost use Rattle.ixp_policy.specs.Export.{steered, wish};
ghost use Rattle.ixp_policy.specs.Fates.{passes};
ghost use Rattle.ixp_policy.specs.Tags.{tagged};
ghost use Rattle.ixp_compile.specs.Exports.{LetsIn, passed_on, times_down};
ghost use Rattle.ixp_compile.specs.Fragment.{down_body, up_body};
ghost use Rattle.ixp_compile.specs.Generated.{inputs};
ghost use Rattle.ixp_compile.specs.MemberRules.{receive_body};
ghost use Rattle.ixp_compile.specs.Rewriting.{AreLawful, rewritten};
ghost use Rattle.ixp_compile.specs.Shared.{Shared};

/// `up_N` rejects a route of the session's table where the import table refused it, and else accepts it with
/// what the member's advertise rules write on it.
pub fn up_passes()
    ensures { (env : Environment) (k : Known) (r : Registry) (router : Router) (s : Session) (route : Route)
        → route.net.family ≡ router.family →
        body_of env k [] (stmts (up_body (inputs r router s))) (tagged r router s route)
        ≡ (if passes r router s route then accepts (rewritten router.asn.0 s.rules (tagged r router s route))
        else rejects) }
{}

/// What advertise rules write, the last one first, asks for every receiver what the first one about it says.
pub fn rules_decide()
    ensures { (router : Router) (s : Session) (route : Route) (to : ℕ) → AreLawful s.rules →
        steered router.asn.0 (rewritten router.asn.0 s.rules route) to ≡ wish router s route to }
{}

/// `rx_N` is whether the receiver's rules let the route in.
pub fn receive_is_receives()
    ensures { (env : Environment) (k : Known) (receiver : Session) (family : Family) (route : Route)
        → route.net.family ≡ family →
        body_of env k [] (stmts (receive_body family receiver.rules)) route
        ≡ returns (Bool (receives receiver.rules route.net (first_of route.path))) route }
{}

/// `down_N` passes a route on where the receiver's rules let it in and its communities send it, with the
/// sender's number in front as often as they ask.
pub fn down_passes_on()
    ensures { (env : Environment) (k : Known) (r : Registry) (router : Router) (receiver : Session)
        (route : Route) →
        Shared r router k → LetsIn router receiver k → route.net.family ≡ router.family →
        body_of env k [] (stmts (down_body (inputs r router receiver))) route
        ≡ passed_on (times_down router receiver route) route }
{}
