//! What a receiver gets of a route.
ghost use Rattle.std.specs.Prelude.{◌≡◌, ◌++◌, ◌==◌, IfOk, filter, not, replicate};
ghost use Rattle.ixp_policy.specs.Export.{
  hop_of,
  is_for_server,
  is_of_server,
  lets_in,
  received,
  sent_route,
  server_actions,
  steered,
  times_of,
  wish,
};
ghost use Rattle.ixp_num_tables.specs.Tables.{if_there};
ghost use Rattle.ixp_registry.specs.Sessions.{asked};
ghost use Rattle.std.specs.List.{list_any};
ghost use Rattle.ixp_policy.specs.Views.{session_of};

use crate::blackholes::is_blackhole;
use crate::session_rows::SessionRows;
use ixp_lang::Route;
use ixp_lang::communities::{
    FINDING, KEEP_FROM, ORIGIN_STATE, PREPEND_ONCE, PREPEND_THRICE, PREPEND_TWICE, REFUSED, SEND_TO,
};
use ixp_num::{Addr, Asn, Items};
use ixp_registry::{Action, MemberRule, Router};
use ixp_steer::{asked, prepends, receives, sends};
use std::alloc::{AllocError, Global};

/// The second parts of a server's own large communities.
const SERVER_ACTIONS: [u32; 8] = [
    KEEP_FROM,
    SEND_TO,
    PREPEND_ONCE,
    PREPEND_TWICE,
    PREPEND_THRICE,
    ORIGIN_STATE,
    FINDING,
    REFUSED,
];

fn times_of(action: Action) -> Option<u8>
    ensures { result ≡ times_of action }
{
    match action {
        Action::AsIs => Some(0),
        Action::Prepend(times) => Some(times),
        Action::Stop => None,
    }
}

fn steered(rs: Asn, route: &Route, to: Asn) -> Option<u8>
    ensures { result ≡ steered rs.0 route.now to.0 }
{
    if sends(rs, route, to) {
        Some(prepends(rs, route, to))
    } else {
        None
    }
}

fn wish_by(rules: &[MemberRule], rs: Asn, route: &Route, to: Asn) -> Option<u8>
    ensures { result ≡ if_there (asked rules.now rs.0 route.now.net to.0)
        (steered rs.0 route.now to.0) times_of }
{
    match asked(rules, rs, &route.net, to) {
        Some(action) => times_of(action),
        None => steered(rs, route, to),
    }
}

/// How often the sender's number is put in front for the receiver `to`, None where the route isn't to be
/// sent.
pub(crate) fn wish(router: &Router, sender: &SessionRows<'_>, route: &Route, to: Asn) -> Option<u8>
    ensures { result ≡ wish router.now (session_of sender.now) route.now to.0 }
{
    wish_by(sender.rules, router.asn, route, to)
}

fn lets_in(receiver: &SessionRows<'_>, sender: &SessionRows<'_>, route: &Route) -> bool
    ensures { result ≡ lets_in (session_of receiver.now) (session_of sender.now) route.now }
{
    receives(receiver.rules, &route.net, sender.member.asn)
}

fn hop_of(router: &Router, route: &Route) -> Addr
    ensures { result ≡ hop_of router.now route.now }
{
    if !is_blackhole(router, route) {
        return route.next_hop;
    }
    match router.blackhole {
        Some(addr) => addr,
        None => route.next_hop,
    }
}

fn is_for_server(rs: Asn, pair: (u32, u32)) -> bool
    ensures { result ≡ is_for_server rs.0 pair }
{
    rs.0 <= 65535 && (pair.0 == 0 || pair.0 == rs.0)
}

fn is_server_action(number: u32) -> bool
    ensures { result ≡ list_any (λ a. a == number) server_actions }
{
    SERVER_ACTIONS.iter().any(|a| *a == number)
}

fn is_of_server(rs: Asn, triple: (u32, u32, u32)) -> bool
    ensures { result ≡ is_of_server rs.0 triple }
{
    triple.0 == rs.0 && is_server_action(triple.1)
}

fn sent_path(alloc: Global, sender: Asn, times: u8, path: &[Asn]) -> Result<Items<Asn>, AllocError>
    ensures { IfOk result (λ p. p ≡ replicate times sender ++ path.now) }
{
    let mut items = Vec::new(alloc);
    items.resize(usize::from(times), sender)?;
    items.extend_from_slice(path)?;
    Ok(Items::from_vec(items))
}

fn sent_pairs(alloc: Global, rs: Asn, pairs: &[(u32, u32)]) -> Result<Vec<(u32, u32)>, AllocError>
    ensures { IfOk result (λ v. v.items ≡ filter (λ p. not (is_for_server rs.0 p)) pairs.now) }
{
    pairs
        .iter()
        .copied()
        .filter(|p| !is_for_server(rs, *p))
        .collect(alloc)
}

fn sent_triples(
    alloc: Global,
    rs: Asn,
    triples: &[(u32, u32, u32)],
) -> Result<Vec<(u32, u32, u32)>, AllocError>
    ensures { IfOk result (λ v. v.items ≡ filter (λ t. not (is_of_server rs.0 t)) triples.now) }
{
    triples
        .iter()
        .copied()
        .filter(|t| !is_of_server(rs, *t))
        .collect(alloc)
}

fn sent_route(
    alloc: Global,
    router: &Router,
    sender: &SessionRows<'_>,
    route: &Route,
    times: u8,
) -> Result<Route, AllocError>
    ensures { IfOk result (λ q. q ≡ sent_route router.now (session_of sender.now) route.now times) }
{
    let pairs = sent_pairs(alloc, router.asn, route.pairs.as_slice())?;
    let triples = sent_triples(alloc, router.asn, route.triples.as_slice())?;
    Ok(Route {
        net: route.net,
        path: sent_path(alloc, sender.member.asn, times, route.path.as_slice())?,
        next_hop: hop_of(router, route),
        pairs: Items::from_vec(pairs),
        triples: Items::from_vec(triples),
    })
}

/// What the receiver gets of the sender's route, if anything.
pub(crate) fn received(
    alloc: Global,
    router: &Router,
    sender: &SessionRows<'_>,
    route: &Route,
    receiver: &SessionRows<'_>,
) -> Result<Option<Route>, AllocError>
    ensures { IfOk result
        (λ x. x ≡ received router.now (session_of sender.now) route.now (session_of receiver.now)) }
{
    if !lets_in(receiver, sender, route) {
        return Ok(None);
    }
    match wish(router, sender, route, receiver.member.asn) {
        Some(times) => Ok(Some(sent_route(alloc, router, sender, route, times)?)),
        None => Ok(None),
    }
}
