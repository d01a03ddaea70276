//! The sentences of the import table on nets, paths, next hops and communities.
ghost use Rattle.std.specs.Prelude.{◌≡◌, ◌<◌, length};
ghost use Rattle.std.specs.List.{list_any};
ghost use Rattle.ixp_num.specs.Prefixes.{is_in_set};
ghost use Rattle.ixp_registry.specs.Sessions.{address_of};
ghost use Rattle.ixp_policy.specs.Import.{
  brought_triples,
  has_address,
  bogon_as_in_path,
  path_too_long,
  too_many_communities,
  path_empty,
  first_as_not_peer_as,
  next_hop_not_peer,
  transit_free_as_in_path,
  prefix_is_bogon,
  is_bogon_as,
  is_hop_at,
  is_listed,
  is_own_hop,
  is_report,
  prefix_too_long,
  prefix_too_short,
};
ghost use Rattle.ixp_policy.specs.Views.{session_of};

use crate::blackholes::is_blackhole;
use crate::session_rows::SessionRows;
use ixp_lang::Route;
use ixp_lang::communities::{FINDING, ORIGIN_STATE, REFUSED};
use ixp_num::{Addr, Asn, Pattern, Prefix, same_addr};
use ixp_registry::{IfAddr, Interface, Registry, Router, address_of};

/// The most numbers of a path.
const LONGEST_PATH: usize = 64;

pub(crate) fn prefix_too_long(router: &Router, route: &Route) -> bool
    ensures { result ≡ prefix_too_long router.now route.now }
{
    router.high < u32::from(route.net.len) && !is_blackhole(router, route)
}

pub(crate) fn prefix_too_short(router: &Router, route: &Route) -> bool
    ensures { result ≡ prefix_too_short router.now route.now }
{
    u32::from(route.net.len) < router.low
}

fn is_in_set(patterns: &[Pattern], net: &Prefix) -> bool
    ensures { result ≡ is_in_set patterns.now net.now }
{
    patterns.iter().any(|t| t.matches(net))
}

pub(crate) fn prefix_is_bogon(registry: &Registry, route: &Route) -> bool
    ensures { result ≡ prefix_is_bogon registry.now route.now }
{
    is_in_set(registry.public.bogons.as_slice(), &route.net)
}

pub(crate) fn path_empty(route: &Route) -> bool
    ensures { result ≡ path_empty route.now }
{
    route.path.len() == 0
}

pub(crate) fn path_too_long(route: &Route) -> bool
    ensures { result ≡ path_too_long route.now }
{
    LONGEST_PATH < route.path.len()
}

/// Whether the large community is one with which the server tells what it found.
pub(crate) fn is_report(rs: Asn, triple: (u32, u32, u32)) -> bool
    ensures { result ≡ is_report rs.0 triple }
{
    triple.0 == rs.0 && (triple.1 == ORIGIN_STATE || triple.1 == FINDING || triple.1 == REFUSED)
}

fn brought_count(rs: Asn, route: &Route) -> usize
    ensures { result ≡ length (brought_triples rs.0 route.now) }
{
    route
        .triples
        .as_slice()
        .iter()
        .filter(|t| !is_report(rs, **t))
        .count()
}

pub(crate) fn too_many_communities(router: &Router, route: &Route) -> bool
    ensures { result ≡ too_many_communities router.now route.now }
{
    let most = router.max_comms as usize;
    most != 0 && (most < route.pairs.len() || most < brought_count(router.asn, route))
}

pub(crate) fn first_as_not_peer_as(session: &SessionRows<'_>, route: &Route) -> bool
    ensures { result ≡ first_as_not_peer_as (session_of session.now) route.now }
{
    route.first() != session.member.asn.0
}

/// Whether the next hop is the session's own address.
pub(crate) fn is_own_hop(session: &SessionRows<'_>, route: &Route) -> bool
    ensures { result ≡ is_own_hop (session_of session.now) route.now }
{
    same_addr(&route.next_hop, &session.address.addr)
}

fn has_address(router: &Router, interface: &Interface, addr: &Addr) -> bool
    ensures { result ≡ has_address addr.now (address_of router.now.family interface.now) }
{
    match address_of(router.family, interface) {
        Some(address) => same_addr(addr, &address.addr),
        None => false,
    }
}

fn is_hop_at(
    router: &Router,
    session: &SessionRows<'_>,
    route: &Route,
    interface: &Interface,
) -> bool
    ensures { result ≡ is_hop_at router.now (session_of session.now) route.now interface.now }
{
    interface.member == session.interface.member
        && interface.vlan == session.interface.vlan
        && has_address(router, interface, &route.next_hop)
}

fn is_members_hop(
    interfaces: &[Interface],
    router: &Router,
    session: &SessionRows<'_>,
    route: &Route,
) -> bool
    ensures { result ≡ list_any (is_hop_at router.now (session_of session.now) route.now) interfaces.now }
{
    interfaces
        .iter()
        .any(|i| is_hop_at(router, session, route, i))
}

pub(crate) fn next_hop_not_peer(
    registry: &Registry,
    router: &Router,
    session: &SessionRows<'_>,
    route: &Route,
) -> bool
    ensures { result ≡ next_hop_not_peer registry.now router.now (session_of session.now) route.now }
{
    !is_own_hop(session, route)
        && !is_members_hop(registry.interfaces.as_slice(), router, session, route)
}

fn is_bogon_as(registry: &Registry, asn: Asn) -> bool
    ensures { result ≡ is_bogon_as registry.now asn }
{
    let ranges = registry.public.bogon_as.as_slice();
    ranges
        .iter()
        .any(|range| range.0.0 <= asn.0 && asn.0 <= range.1.0)
}

pub(crate) fn bogon_as_in_path(registry: &Registry, route: &Route) -> bool
    ensures { result ≡ bogon_as_in_path registry.now route.now }
{
    let path = route.path.as_slice();
    path.iter().any(|a| is_bogon_as(registry, *a))
}

pub(crate) fn is_listed(asns: &[Asn], number: u32) -> bool
    ensures { result ≡ is_listed asns.now number }
{
    asns.iter().any(|a| a.0 == number)
}

fn passes_transit_free(transit: &[Asn], path: &[Asn]) -> bool
    ensures { result ≡ list_any (λ a. is_listed transit.now a.0) path.now }
{
    path.iter().any(|a| is_listed(transit, a.0))
}

pub(crate) fn transit_free_as_in_path(
    registry: &Registry,
    session: &SessionRows<'_>,
    route: &Route,
) -> bool
    ensures { result ≡ transit_free_as_in_path registry.now (session_of session.now) route.now }
{
    let transit = registry.public.transit.as_slice();
    passes_transit_free(transit, route.path.as_slice()) && !is_listed(transit, session.member.asn.0)
}
