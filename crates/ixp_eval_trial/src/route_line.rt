//! The line of a route.
ghost use Rattle.std.specs.Prelude.{◌≡◌, List, ℕ, MatchOption, true};
ghost use Rattle.ixp_eval_trial.specs.Trials.{IsRouteLine};
ghost use Rattle.ixp_eval_trial.specs.Readings.{RouteLineAnswer, RouteTextAnswer};

use crate::cutting::{after_front, cut};
use crate::fault::{Misfit, RouteCode};
use ixp_lang::{Route, RouteFault, read_route};
use ixp_num::Name;
use std::alloc::Global;

/// The route of a text.
pub(crate) fn route_in(alloc: Global, text: &[u8]) -> Result<Route, Misfit>
    ensures { RouteTextAnswer text.now result }
{
    match read_route(alloc, text) {
        Ok(route) => Ok(route),
        Err(RouteFault::Text { .. }) => Err(Misfit::Bad(RouteCode::Text)),
        Err(RouteFault::Family) => Err(Misfit::Bad(RouteCode::Family)),
        Err(RouteFault::Set { .. }) => Err(Misfit::Bad(RouteCode::Set)),
        Err(RouteFault::TooLong { .. }) => Err(Misfit::Bad(RouteCode::TooLong)),
        Err(RouteFault::NoMemory) => Err(Misfit::NoMemory),
    }
}

/// The session's name and the route's text in a line.
fn session_and_text(line: &[u8]) -> Option<(&[u8], &[u8])>
    ensures { MatchOption result ((session text : List ℕ) → ¬ (IsRouteLine line.now session text))
        (λ p. IsRouteLine line.now p.0.now p.1.now) }
{
    let Some(rest) = after_front(b"route ", line) else {
        return None;
    };
    let Some((session, text)) = cut(b' ', rest) else {
        return None;
    };
    if Name::is_name(session) {
        Some((session, text))
    } else {
        None
    }
}

/// The session's name and the route of a line.
pub(crate) fn route_of(alloc: Global, line: &[u8]) -> Result<(Name, Route), Misfit>
    ensures { RouteLineAnswer line.now result }
{
    let Some((session, text)) = session_and_text(line) else {
        return Err(Misfit::Bad(RouteCode::Text));
    };
    let route = match route_in(alloc, text) {
        Ok(route) => route,
        Err(misfit) => return Err(misfit),
    };
    match Name::new(alloc, session) {
        Ok(session) => Ok((session, route)),
        Err(_) => Err(Misfit::NoMemory),
    }
}
