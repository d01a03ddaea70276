//! What each function of a route server's head does, by what stands before it.
ghost use Rattle.std.specs.Prelude.{◌≡◌, ◌≤◌, ℕ, List, [], ◌∷◌, codes, reverse, true};
ghost use Rattle.std.specs.Option.{is_some};
ghost use Rattle.ixp_lang.specs.declared.route.Route.{Route};
ghost use Rattle.ixp_lang.specs.declared.value.SetLit.TheVariants.{Prefixes, Ints};
ghost use Rattle.ixp_lang.specs.declared.value.Value.TheVariants.{Int, Bool};
ghost use Rattle.ixp_lang.specs.Meaning.{Environment, Known, accepts, body_of, falls, known, returns};
ghost use Rattle.ixp_lang.specs.Steering.{sends, prepends};
ghost use Rattle.ixp_lang.specs.Trees.{stmts};
ghost use Rattle.ixp_registry.specs.declared.registry.Registry.{Registry};
ghost use Rattle.ixp_registry.specs.declared.router.Router.{Router};
ghost use Rattle.ixp_policy.specs.Blackholes.{is_blackhole};
ghost use Rattle.ixp_compile.specs.Generated.{header_inputs};
ghost use Rattle.ixp_compile.specs.Header.{
  blackhole_body,
  bogon_as_body,
  bogons_of,
  count_body,
  drop_body,
  header,
  joined_ranges,
  net_body,
  out_body,
  pad_body,
  sends_body,
  transit_body,
};
ghost use Rattle.ixp_compile.specs.Pieces.{numbers};
ghost use Rattle.ixp_compile.specs.Shared.{
  Drops,
  HasNoReports,
  HeadStands,
  IsNamed,
  Shared,
  TellsBlackholes,
  bogon_as_refusal,
  cleaned,
  net_refusal,
  padded,
  refused_with,
  stops,
  transit_refusal,
};

/// `ixp_drop` tells the number on the route, and ends the filter.
pub fn drop_refuses()
    ensures { (env : Environment) (k : Known) (rs n : ℕ) (route : Route) →
        body_of env k ((codes "n", Int n) ∷ []) (stmts (drop_body rs)) route ≡ refused_with rs n route }
{}

/// `ixp_bh` is whether the route is a blackhole route of a router that has an address for such ones.
pub fn blackhole_is_blackhole()
    ensures { (env : Environment) (k : Known) (router : Router) (route : Route)
        → is_some router.blackhole ≡ true → route.net.family ≡ router.family →
        body_of env k [] (stmts (blackhole_body router.family)) route
        ≡ returns (Bool (is_blackhole router route)) route }
{}

/// `ixp_net` refuses by the first of the lines on the net and on lengths.
pub fn net_refuses()
    ensures { (env : Environment) (k : Known) (r : Registry) (router : Router) (route : Route)
        → HeadStands r router →
        Drops router.asn.0 k → TellsBlackholes router k →
        IsNamed k (codes "ixp_bogons") Prefixes (bogons_of (header_inputs r router)) →
        route.net.family ≡ router.family → HasNoReports router.asn.0 route →
        body_of env k [] (stmts (net_body (header_inputs r router))) route
        ≡ stops router.asn.0 (net_refusal r router route) route }
{}

/// `ixp_as` refuses a path with a number that may stand in none.
pub fn bogon_as_refuses()
    ensures { (env : Environment) (k : Known) (r : Registry) (router : Router) (route : Route)
        → HeadStands r router →
        Drops router.asn.0 k → IsNamed k (codes "ixp_bogon_as") Ints (joined_ranges r.public.bogon_as) →
        body_of env k [] (stmts (bogon_as_body (header_inputs r router))) route
        ≡ stops router.asn.0 (bogon_as_refusal r route) route }
{}

/// `ixp_transit` refuses a path with a network that buys no transit.
pub fn transit_refuses()
    ensures { (env : Environment) (k : Known) (r : Registry) (router : Router) (route : Route) →
        Drops router.asn.0 k → IsNamed k (codes "ixp_transit_as") numbers r.public.transit →
        body_of env k [] (stmts (transit_body (header_inputs r router))) route
        ≡ stops router.asn.0 (transit_refusal r route) route }
{}

/// `ixp_sends` is whether the route's communities send it to the peer.
pub fn sends_is_sends()
    ensures { (env : Environment) (k : Known) (rs p : ℕ) (route : Route) →
        body_of env k ((codes "p", Int p) ∷ []) (stmts (sends_body rs)) route
        ≡ returns (Bool (sends rs route p)) route }
{}

/// `ixp_count` is how often the route's communities put the sender's number in front for the peer.
pub fn count_is_prepends()
    ensures { (env : Environment) (k : Known) (rs p : ℕ) (route : Route) →
        body_of env k ((codes "p", Int p) ∷ []) (stmts (count_body rs)) route
        ≡ returns (Int (prepends rs route p)) route }
{}

/// `ixp_pad` puts the path's first number in front up to three times.
pub fn pad_pads()
    ensures { (env : Environment) (k : Known) (n : ℕ) (route : Route) → n ≤ 3 →
        body_of env k ((codes "n", Int n) ∷ []) (stmts pad_body) route ≡ falls (padded n route) }
{}

/// `ixp_out` takes away what no receiver gets, and gives a blackhole route its next hop.
pub fn out_cleans()
    ensures { (env : Environment) (k : Known) (router : Router) (route : Route) → TellsBlackholes router k
        → route.net.family ≡ router.family →
        body_of env k [] (stmts (out_body router.asn.0 router.blackhole)) route
        ≡ accepts (cleaned router route) }
{}

/// The head of a text gives its functions these meanings.
pub fn head_is_shared()
    ensures { (env : Environment) (r : Registry) (router : Router) → HeadStands r router →
        Shared r router (known env (reverse (header (header_inputs r router)))) }
{}
