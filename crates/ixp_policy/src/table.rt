//! The import table.
ghost use Rattle.std.specs.Prelude.{◌≡◌};
ghost use Rattle.ixp_policy.specs.Import.{
  first_that_holds,
  import_table,
  is_got_past,
  is_reached,
  line,
  refusal,
  refusal_number,
};
ghost use Rattle.ixp_policy.specs.Views.{session_of};

use crate::line::{Line, Reason, same_reason};
use crate::places::{
    bogon_as_in_path, first_as_not_peer_as, next_hop_not_peer, path_empty, path_too_long,
    prefix_is_bogon, prefix_too_long, prefix_too_short, too_many_communities,
    transit_free_as_in_path,
};
use crate::registered::{origin_invalid, origin_not_registered, prefix_not_registered};
use crate::session_rows::SessionRows;
use ixp_lang::Route;
use ixp_registry::{Registry, Router};

fn line(reason: Reason, holds: bool) -> Line
    ensures { result ≡ line reason holds }
{
    Line { reason, holds }
}

/// The sentences in the order in which they count, of this route.
#[tactic(auto, unfolding(crate::specs::Import::import_table))]
pub(crate) fn import_table(
    registry: &Registry,
    router: &Router,
    session: &SessionRows<'_>,
    route: &Route,
) -> [Line; 13]
    ensures { result ≡ import_table registry.now router.now (session_of session.now) route.now }
{
    [
        line(Reason::PrefixTooLong, prefix_too_long(router, route)),
        line(Reason::PrefixTooShort, prefix_too_short(router, route)),
        line(Reason::Bogon, prefix_is_bogon(registry, route)),
        line(Reason::PathEmpty, path_empty(route)),
        line(Reason::PathTooLong, path_too_long(route)),
        line(
            Reason::TooManyCommunities,
            too_many_communities(router, route),
        ),
        line(
            Reason::FirstAsNotPeerAs,
            first_as_not_peer_as(session, route),
        ),
        line(
            Reason::NextHopNotPeer,
            next_hop_not_peer(registry, router, session, route),
        ),
        line(Reason::BogonAsInPath, bogon_as_in_path(registry, route)),
        line(
            Reason::TransitFreeAsInPath,
            transit_free_as_in_path(registry, session, route),
        ),
        line(
            Reason::OriginNotRegistered,
            origin_not_registered(session, route),
        ),
        line(
            Reason::OriginInvalid,
            origin_invalid(registry, router, route),
        ),
        line(
            Reason::PrefixNotRegistered,
            prefix_not_registered(registry, router, session, route),
        ),
    ]
}

pub(crate) fn first_that_holds(lines: &[Line]) -> Option<Line>
    ensures { result ≡ first_that_holds lines.now }
{
    let mut left = lines;
    'lines: while let Some((line, rest)) = left.split_first() {
        if line.holds {
            return Some(*line);
        }
        left = rest;
    }
    None
}

/// The line by which the router refuses the route, if it does.
pub(crate) fn refusal(
    registry: &Registry,
    router: &Router,
    session: &SessionRows<'_>,
    route: &Route,
) -> Option<Line>
    ensures { result ≡ refusal registry.now router.now (session_of session.now) route.now }
{
    let lines = import_table(registry, router, session, route);
    first_that_holds(lines.as_slice())
}

/// Whether no line before the one of the reason refuses.
pub(crate) fn is_reached(reason: Reason, lines: &[Line]) -> bool
    ensures { result ≡ is_reached reason lines.now }
{
    let mut left = lines;
    'lines: while let Some((line, rest)) = left.split_first() {
        if same_reason(line.reason, reason) {
            return true;
        }
        if line.holds {
            return false;
        }
        left = rest;
    }
    true
}

/// Whether no line up to the one of the reason refuses.
pub(crate) fn is_got_past(reason: Reason, lines: &[Line]) -> bool
    ensures { result ≡ is_got_past reason lines.now }
{
    let mut left = lines;
    'lines: while let Some((line, rest)) = left.split_first() {
        if line.holds {
            return false;
        }
        if same_reason(line.reason, reason) {
            return true;
        }
        left = rest;
    }
    true
}

pub(crate) fn refusal_number(refused: Option<Line>) -> Option<u32>
    ensures { result ≡ refusal_number refused }
{
    match refused {
        Some(line) => Some(line.reason.number()),
        None => None,
    }
}
