//! What the server writes on a route.
ghost use Rattle.std.specs.Prelude.{◌≡◌, ◌++◌, [], IfOk, OnOk};
ghost use Rattle.ixp_policy.specs.Import.{brought_triples, import_table};
ghost use Rattle.ixp_policy.specs.Tags.{
  chosen,
  findings,
  goes_by_prefixes,
  is_empty,
  is_untested,
  refusal_told,
  tagged,
  tags,
};
ghost use Rattle.ixp_policy.specs.Views.{session_of};

use crate::blackholes::is_blackhole;
use crate::line::{Line, Reason};
use crate::places::{is_own_hop, is_report};
use crate::registered::{is_found, is_found_to_be};
use crate::session_rows::SessionRows;
use crate::table::{first_that_holds, import_table, is_got_past, is_reached};
use ixp_lang::Route;
use ixp_lang::communities::{FINDING, ORIGIN_STATE, REFUSED};
use ixp_num::{Asn, Items, Validity};
use ixp_registry::{Registry, Router};
use std::alloc::{AllocError, Global};

/// A large community (RFC 8092).
type Triple = (u32, u32, u32);

fn is_empty(asns: &[Asn]) -> bool
    ensures { result ≡ is_empty asns.now }
{
    match asns.split_first() {
        Some(_) => false,
        None => true,
    }
}

fn is_untested(router: &Router, route: &Route) -> bool
    ensures { result ≡ is_untested router.now route.now }
{
    !router.rpki || is_blackhole(router, route)
}

fn goes_by_prefixes(
    registry: &Registry,
    router: &Router,
    session: &SessionRows<'_>,
    route: &Route,
) -> bool
    ensures { result ≡ goes_by_prefixes registry.now router.now (session_of session.now) route.now }
{
    session.address.irr
        && (is_blackhole(router, route) || !is_found(registry, router, route, Validity::Valid))
}

#[tactic(auto, unfolding(crate::specs::Tags::findings))]
fn findings(
    registry: &Registry,
    router: &Router,
    session: &SessionRows<'_>,
    route: &Route,
    lines: &[Line],
) -> [(bool, Triple); 7]
    ensures { result ≡ findings registry.now router.now (session_of session.now) route.now lines.now }
{
    let rs = router.asn.0;
    let irr = session.address.irr;
    let hop_passed = is_got_past(Reason::NextHopNotPeer, lines);
    let passed = is_got_past(Reason::PrefixNotRegistered, lines);
    let asked = is_reached(Reason::OriginNotRegistered, lines);
    let tested = is_reached(Reason::OriginInvalid, lines);
    let valid = is_found_to_be(Validity::Valid, registry, router, route);
    let unknown = is_found_to_be(Validity::Unknown, registry, router, route);
    let by_prefixes = goes_by_prefixes(registry, router, session, route);
    [
        (
            hop_passed && !is_own_hop(session, route),
            (rs, FINDING, 1200),
        ),
        (asked && !irr, (rs, FINDING, 2)),
        (
            asked && irr && is_empty(session.origins),
            (rs, FINDING, 1002),
        ),
        (tested && is_untested(router, route), (rs, ORIGIN_STATE, 3)),
        (tested && valid, (rs, ORIGIN_STATE, 1)),
        (tested && unknown, (rs, ORIGIN_STATE, 2)),
        (passed && by_prefixes, (rs, FINDING, 1)),
    ]
}

fn push_chosen(lines: &[(bool, Triple)], out: &mut Vec<Triple>) -> Result<(), AllocError>
    ensures { OnOk result (out.new.items ≡ out.old.items ++ chosen lines.now) }
{
    let mut left = lines;
    'lines: while let Some((line, rest)) = left.split_first() {
        if line.0 {
            out.push(line.1)?;
        }
        left = rest;
    }
    Ok(())
}

fn push_refusal(
    router: &Router,
    refused: Option<Line>,
    out: &mut Vec<Triple>,
) -> Result<(), AllocError>
    ensures { OnOk result (out.new.items ≡ out.old.items ++ refusal_told router.now refused) }
{
    if let Some(line) = refused {
        out.push((router.asn.0, REFUSED, line.reason.number()))?;
    }
    Ok(())
}

fn brought_triples(alloc: Global, rs: Asn, route: &Route) -> Result<Vec<Triple>, AllocError>
    ensures { IfOk result (λ v. v.items ≡ brought_triples rs.0 route.now) }
{
    route
        .triples
        .as_slice()
        .iter()
        .copied()
        .filter(|t| !is_report(rs, *t))
        .collect(alloc)
}

/// Adds what the server writes on the route.
fn push_tags(
    registry: &Registry,
    router: &Router,
    session: &SessionRows<'_>,
    route: &Route,
    out: &mut Vec<Triple>,
) -> Result<(), AllocError>
    ensures { OnOk result
        (out.new.items ≡ out.old.items
        ++ tags registry.now router.now (session_of session.now) route.now
        (import_table registry.now router.now (session_of session.now) route.now)) }
{
    let lines = import_table(registry, router, session, route);
    let told = findings(registry, router, session, route, lines.as_slice());
    push_chosen(told.as_slice(), out)?;
    push_refusal(router, first_that_holds(lines.as_slice()), out)
}

/// The route as the server holds it.
pub(crate) fn tagged(
    alloc: Global,
    registry: &Registry,
    router: &Router,
    session: &SessionRows<'_>,
    route: &Route,
) -> Result<Route, AllocError>
    ensures { IfOk result (λ t. t ≡ tagged registry.now router.now (session_of session.now) route.now) }
{
    let mut triples = brought_triples(alloc, router.asn, route)?;
    push_tags(registry, router, session, route, &mut triples)?;
    Ok(Route {
        net: route.net,
        path: route.path.copied(alloc)?,
        next_hop: route.next_hop,
        pairs: route.pairs.copied(alloc)?,
        triples: Items::from_vec(triples),
    })
}
