//! The line of a route that a session of a route server brings.
ghost use Rattle.std.specs.Prelude.{◌≡◌, ◌<◌, ◌≤◌, ◌^◌, ◌+◌, ℕ, List, IfOk, MatchOption, length};
ghost use Rattle.ixp_eval_trial.specs.Cutting.{AreParts};
ghost use Rattle.ixp_eval_trial.specs.Lines.{lines};
ghost use Rattle.ixp_eval_trial.specs.Readings.{IsUpTo, SessionLineAnswer};
ghost use Rattle.ixp_eval_trial.specs.SessionRoutes.{IsSessionLine, SessionRouteAnswer};

use crate::cutting::{after_front, cut, first_line};
use crate::fault::{Misfit, RouteCode, TrialFault};
use crate::number::number_up_to;
use crate::route_line::route_in;
use ixp_lang::Route;
use ixp_num::Name;
use ixp_registry::is_handle;
use std::alloc::Global;

/// A route, and the session of a route server that brings it.
#[derive(Debug, Drop)]
pub struct SessionRoute {
    /// The router's handle.
    pub router: Name,
    /// The number of the session's interface.
    pub interface: u32,
    pub route: Route,
    /// The number of the route's line in the input.
    pub line: u64,
}

/// The parts of a line: a handle, a number, and the text of a route.
#[derive(Clone, Copy)]
struct Parts<'a> {
    handle: &'a [u8],
    number: &'a [u8],
    text: &'a [u8],
}

/// What follows the first word of a line, cut at its blanks.
#[tactic(auto, using(crate::proofs::Parts::no_handle_cut, crate::proofs::Parts::no_number_cut, crate::proofs::Parts::parts_are))]
fn parts_of(line: &[u8]) -> Option<Parts<'_>>
    ensures { MatchOption result ((handle number text : List ℕ) → ¬ (AreParts line.now handle number text))
        (λ p. AreParts line.now p.handle.now p.number.now p.text.now) }
{
    let rest = after_front(b"route ", line)?;
    let (handle, rest) = cut(b' ', rest)?;
    let (number, text) = cut(b' ', rest)?;
    Some(Parts {
        handle,
        number,
        text,
    })
}

/// The number of an interface.
fn interface_of(field: &[u8]) -> Option<u32>
    ensures { MatchOption result ((n : ℕ) → ¬ (IsUpTo 4294967295 field.now n))
        (λ n. IsUpTo 4294967295 field.now n) }
{
    match number_up_to(field, 4_294_967_295) {
        Some(number) => Some(number as u32),
        None => None,
    }
}

/// A line that is of the form.
#[derive(Clone, Copy)]
struct SessionLine<'a> {
    handle: &'a [u8],
    interface: u32,
    text: &'a [u8],
}

/// What a line says, where it is of the form.
#[tactic(auto, using(crate::proofs::Parts::no_parts, crate::proofs::Parts::no_router, crate::proofs::Parts::no_interface, crate::proofs::Parts::is_line))]
fn session_line(line: &[u8]) -> Option<SessionLine<'_>>
    ensures { MatchOption result
        ((handle : List ℕ) (interface : ℕ) (text : List ℕ) → ¬ (IsSessionLine line.now handle interface text))
        (λ l. IsSessionLine line.now l.handle.now l.interface l.text.now) }
{
    let Some(parts) = parts_of(line) else {
        return None;
    };
    if !is_handle(parts.handle) {
        return None;
    }
    let Some(interface) = interface_of(parts.number) else {
        return None;
    };
    Some(SessionLine {
        handle: parts.handle,
        interface,
        text: parts.text,
    })
}

/// The route of a line, which has the number, and who brings it.
#[tactic(auto, using(ixp_registry::proofs::HandleNames::handle_is_name))]
fn session_route_of(alloc: Global, line: &[u8], number: u64) -> Result<SessionRoute, Misfit>
    ensures route { SessionLineAnswer line.now result }
    ensures line { IfOk result (λ s. s.line ≡ number) }
{
    let Some(said) = session_line(line) else {
        return Err(Misfit::Bad(RouteCode::Text));
    };
    let route = match route_in(alloc, said.text) {
        Ok(route) => route,
        Err(misfit) => return Err(misfit),
    };
    match Name::new(alloc, said.handle) {
        Ok(router) => Ok(SessionRoute {
            router,
            interface: said.interface,
            route,
            line: number,
        }),
        Err(_) => Err(Misfit::NoMemory),
    }
}

/// How many lines a text has.
fn lines_count(text: &[u8]) -> u64
    ensures count { result ≡ length (lines text.now) }
    ensures within { result ≤ length text.now }
{
    let mut rest = text;
    let mut count = 0u64;
    'each: while let Some((_, after)) = first_line(rest) {
        rest = after;
        count += 1;
    }
    count
}

/// Reads what follows a dump in an input: one line, `route <handle> <interface> <route>`. The number of that
/// line is told by the lines of what stands before it.
pub fn read_session_route(
    alloc: Global,
    before: &[u8],
    behind: &[u8],
) -> Result<SessionRoute, TrialFault>
    ensures { SessionRouteAnswer (lines behind.now) (length (lines before.now) + 1) result }
{
    let number = lines_count(before) + 1;
    let Some((line, after)) = first_line(behind) else {
        return Err(TrialFault::BadRoute {
            line: number,
            code: RouteCode::Text,
        });
    };
    let route = match session_route_of(alloc, line, number) {
        Ok(route) => route,
        Err(Misfit::Bad(code)) => return Err(TrialFault::BadRoute { line: number, code }),
        Err(Misfit::NoMemory) => return Err(TrialFault::NoMemory),
    };
    match first_line(after) {
        Some(_) => Err(TrialFault::BadRoute {
            line: number + 1,
            code: RouteCode::Text,
        }),
        None => Ok(route),
    }
}
