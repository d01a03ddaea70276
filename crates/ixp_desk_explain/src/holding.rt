//! The routes that sessions are to hold.
ghost use Rattle.std.specs.Prelude.{◌≡◌, ℕ, List, length, All, IfOk};
ghost use mathlib.Core.List.{IsPrefix};
ghost use Rattle.ixp_board.specs.Histories.{IsLegal};
ghost use Rattle.ixp_glass_holds.specs.Holds.{IsWellFormed};
ghost use Rattle.ixp_desk_history.specs.Legal.{Legal};
ghost use Rattle.ixp_desk_lock.specs.Calls.{Grows};
ghost use Rattle.ixp_desk_lock.specs.Facts.{Log};
ghost use Rattle.ixp_desk_explain.specs.Explanations.{OwnTextIn};
ghost use Rattle.ixp_desk_explain.specs.Glass.{HoldTurn, Holds, HoldsAt, IsFamilyFor, ToldFamily, hold_outcome};

use crate::faults::{fault_outcome, session_fault};
use crate::glass::LookingGlass;
use ixp_api_replies::Outcome;
use ixp_board::{BoardName, Note, Publish};
use ixp_desk::{DeskSeat, Desks, Text, published};
use ixp_explain_member::{Explanation, member_told};
use ixp_glass_holds::{GlassDesk, GlassDesks, GlassSeat, HoldFault, HoldStory};
use ixp_lang::Route;
use ixp_num::{Family, Items, Name};
use ixp_registry::Refusal;
use std::alloc::{AllocError, Global};
use std::sync::Wait;

fn hold_outcome(number: u64, held: Result<(), HoldFault>) -> Outcome
    ensures { result ≡ hold_outcome number held }
{
    match held {
        Ok(()) => Outcome::Held(number),
        Err(HoldFault::TooMany { have, limit }) => Outcome::TooManyHeld { have, limit },
        Err(HoldFault::Family { place }) => Outcome::HeldFamily { place },
        Err(HoldFault::NoMemory) => Outcome::NoMemory,
    }
}

/// The family of a router, by what is told of a route at one of its sessions.
fn family_told(told: Result<Explanation, AllocError>, route: &Route) -> Result<Family, AllocError>
    ensures { ToldFamily told route.now result }
{
    match told {
        Ok(Explanation::Refused(Refusal::Family { family })) => Ok(family),
        Ok(Explanation::Text(_)) => Ok(route.net.family),
        _ => Err(AllocError),
    }
}

/// The family of the session's router, by what the session's own text says of the first of the routes.
/// Where there are none, any family does.
fn family_for(
    alloc: Global,
    text: &Text,
    interface: u32,
    routes: &[Route],
) -> Result<Family, AllocError>
    ensures { (log : Log) (handle : List ℕ) (x : OwnTextIn log handle interface text.now)
        → IsLegal Legal log → IfOk result (IsFamilyFor routes.now x.own.router) }
{
    let Some(route) = routes.first() else {
        return Ok(Family::V4);
    };
    let told = member_told(
        alloc,
        text.bytes.as_slice(),
        &text.roas,
        interface,
        route,
        &[],
    );
    family_told(told, route)
}

/// The routes are to be held of the session, whose own text this is.
fn hold_at<R: Wait, M: BoardName, V: Publish<Note<HoldStory, M>>>(
    rt: &R,
    alloc: Global,
    holds: &GlassDesk<M, V>,
    seat: &mut GlassSeat<M>,
    text: &Text,
    router: &Name,
    interface: u32,
    routes: Items<Route>,
) -> Outcome
    requires formed { All IsWellFormed routes }
    ensures begins { IsPrefix seat.old seat.new }
    ensures holds { (log : Log) (x : OwnTextIn log router.now interface text.now) → IsLegal Legal log
        → Holds routes x.own result seat.old seat.new }
{
    let Ok(family) = family_for(alloc, text, interface, routes.as_slice()) else {
        return Outcome::NoMemory;
    };
    let number = routes.as_slice().len() as u64;
    let mut holds = holds;
    hold_outcome(
        number,
        holds.hold(rt, alloc, seat, router, interface, family, routes),
    )
}

/// The routes are to be held of the session, of which the staff has the router's configuration.
fn hold_session<R: Wait, N: BoardName, M: BoardName, D: Desks<N>, V: Publish<Note<HoldStory, M>>>(
    rt: &R,
    alloc: Global,
    desk: &mut D,
    glass: &LookingGlass<M, V>,
    seat: &mut DeskSeat<N>,
    holds: &mut GlassSeat<M>,
    secret: &[u8],
    router: &Name,
    interface: u32,
    routes: Items<Route>,
) -> Outcome
    requires formed { All IsWellFormed routes }
    ensures grows { Grows seat.old seat.new }
    ensures begins { IsPrefix holds.old holds.new }
    ensures turn { HoldsAt secret.now router.now interface routes result (seat.old, holds.old)
        (seat.new, holds.new) }
{
    match desk.own_text(rt, seat, secret, router, interface) {
        Ok(text) => hold_at(
            rt,
            alloc,
            &glass.holds,
            holds,
            &text,
            router,
            interface,
            routes,
        ),
        Err(fault) => session_fault(fault),
    }
}

/// The router's session at the interface is to hold these routes from now on, and no others; without routes
/// it holds nothing. This is the staff's to say.
pub fn hold<R: Wait, N: BoardName, M: BoardName, D: Desks<N>, V: Publish<Note<HoldStory, M>>>(
    rt: &R,
    alloc: Global,
    desk: &mut D,
    glass: &LookingGlass<M, V>,
    seat: &mut DeskSeat<N>,
    holds: &mut GlassSeat<M>,
    secret: &[u8],
    router: &Name,
    interface: u32,
    routes: Items<Route>,
) -> Outcome
    requires formed { All IsWellFormed routes }
    ensures grows { Grows seat.old seat.new }
    ensures begins { IsPrefix holds.old holds.new }
    ensures turn { HoldTurn secret.now router.now interface routes result (seat.old, holds.old)
        (seat.new, holds.new) }
{
    match published(rt, alloc, desk, seat, secret, router, None) {
        Ok(_text) => hold_session(
            rt, alloc, desk, glass, seat, holds, secret, router, interface, routes,
        ),
        Err(fault) => fault_outcome(fault),
    }
}
