//! The sentences of the import table on origins and registered prefixes.
ghost use Rattle.std.specs.Prelude.{◌≡◌};
ghost use Rattle.ixp_lang.specs.Attributes.{same_state};
ghost use Rattle.ixp_num.specs.Prefixes.{same_prefix};
ghost use Rattle.ixp_policy.specs.Import.{
  origin_not_registered,
  is_registered,
  is_covered_by,
  is_found,
  is_found_to_be,
  is_in_list,
  origin_invalid,
  prefix_not_registered,
  state_of,
};
ghost use Rattle.ixp_policy.specs.Views.{session_of};

use crate::blackholes::is_blackhole;
use crate::places::is_listed;
use crate::session_rows::SessionRows;
use ixp_lang::Route;
use ixp_num::{Asn, Prefix, Validity, same_prefix};
use ixp_registry::{Registry, Router};
use ixp_roa::validity;

pub(crate) fn origin_not_registered(session: &SessionRows<'_>, route: &Route) -> bool
    ensures { result ≡ origin_not_registered (session_of session.now) route.now }
{
    session.address.irr && !is_listed(session.origins, route.origin())
}

fn state_of(registry: &Registry, route: &Route) -> Validity
    ensures { result ≡ state_of registry.now route.now }
{
    let origin = Asn(route.origin());
    validity(registry.public.roas.as_slice(), &route.net, origin)
}

fn same_state(one: Validity, other: Validity) -> bool
    ensures { result ≡ same_state one other }
{
    one == other
}

/// Whether the router tests origins, and finds the route in this state.
pub(crate) fn is_found(registry: &Registry, router: &Router, route: &Route, state: Validity) -> bool
    ensures { result ≡ is_found registry.now router.now route.now state }
{
    router.rpki && same_state(state_of(registry, route), state)
}

/// Whether the route, no blackhole route, is found in this state.
pub(crate) fn is_found_to_be(
    state: Validity,
    registry: &Registry,
    router: &Router,
    route: &Route,
) -> bool
    ensures { result ≡ is_found_to_be state registry.now router.now route.now }
{
    !is_blackhole(router, route) && is_found(registry, router, route, state)
}

pub(crate) fn origin_invalid(registry: &Registry, router: &Router, route: &Route) -> bool
    ensures { result ≡ origin_invalid registry.now router.now route.now }
{
    is_found_to_be(Validity::Invalid, registry, router, route)
}

fn is_in_list(net: &Prefix, prefixes: &[Prefix]) -> bool
    ensures { result ≡ is_in_list net.now prefixes.now }
{
    prefixes.iter().any(|p| same_prefix(p, net))
}

fn is_covered_by(net: &Prefix, prefixes: &[Prefix]) -> bool
    ensures { result ≡ is_covered_by net.now prefixes.now }
{
    prefixes.iter().any(|p| p.covers(net))
}

fn is_registered(session: &SessionRows<'_>, route: &Route) -> bool
    ensures { result ≡ is_registered (session_of session.now) route.now }
{
    if session.address.more {
        is_covered_by(&route.net, session.prefixes)
    } else {
        is_in_list(&route.net, session.prefixes)
    }
}

pub(crate) fn prefix_not_registered(
    registry: &Registry,
    router: &Router,
    session: &SessionRows<'_>,
    route: &Route,
) -> bool
    ensures { result ≡ prefix_not_registered registry.now router.now (session_of session.now) route.now }
{
    if is_blackhole(router, route) {
        !session.address.irr || !is_covered_by(&route.net, session.prefixes)
    } else {
        session.address.irr
            && !is_found(registry, router, route, Validity::Valid)
            && !is_registered(session, route)
    }
}
