//! What becomes of the routes that a session holds.
ghost use Rattle.std.specs.Prelude.{◌≡◌, ℕ, List};
ghost use mathlib.Core.List.{IsPrefix};
ghost use Rattle.ixp_board.specs.Histories.{IsLegal};
ghost use Rattle.ixp_desk_history.specs.Legal.{Legal};
ghost use Rattle.ixp_desk_lock.specs.Calls.{Grows};
ghost use Rattle.ixp_desk_lock.specs.Facts.{Log};
ghost use Rattle.ixp_desk_explain.specs.Explanations.{OrNoMemory, OwnTextIn};
ghost use Rattle.ixp_desk_explain.specs.Glass.{GlassTurn, IsShown, routes_say, text_outcome, unshown};

use crate::faults::own_fault;
use crate::glass::LookingGlass;
use crate::printing::reports_text;
use ixp_api_replies::Outcome;
use ixp_board::{BoardName, Note, Publish};
use ixp_desk::{DeskSeat, Desks, Text};
use ixp_explain::ExplainFault;
use ixp_glass::{GlassRoas, Glasses, SharedReports};
use ixp_glass_holds::{GlassSeat, HoldStory, Routes, held};
use ixp_num::{Items, Name};
use ixp_registry::Refusal;
use std::alloc::{AllocError, Global};
use std::sync::Wait;

fn text_outcome(text: Result<Items<u8>, AllocError>) -> Outcome
    ensures { result ≡ text_outcome text }
{
    match text {
        Ok(text) => Outcome::Text(text),
        Err(_) => Outcome::NoMemory,
    }
}

/// How a request ends where a route isn't explained: it is of the other family, or memory ran out.
fn unshown(fault: ExplainFault) -> Outcome
    ensures { result ≡ unshown fault }
{
    match fault {
        ExplainFault::Family { family } => Outcome::Refused(Refusal::Family { family }),
        _ => Outcome::NoMemory,
    }
}

/// What a session's own text says of the routes.
fn told_routes<R: Wait>(
    rt: &R,
    alloc: Global,
    reports: &SharedReports,
    text: &Text,
    router: &Name,
    interface: u32,
    routes: &Routes,
) -> Outcome
    ensures { (log : Log) (x : OwnTextIn log router.now interface text.now) → IsLegal Legal log
        → OrNoMemory (routes_say routes.now x.own) result }
{
    let Ok(roas) = GlassRoas::of(alloc, &text.roas) else {
        return Outcome::NoMemory;
    };
    let mut reports = reports;
    match reports.reports(rt, router, interface, routes, text.bytes.as_slice(), &roas) {
        Ok(reports) => text_outcome(reports_text(
            alloc,
            routes.get().as_slice(),
            reports.get().as_slice(),
        )),
        Err(fault) => unshown(fault),
    }
}

/// What a session's own text says of the routes that the session holds.
fn told_held<R: Wait, M: BoardName>(
    rt: &R,
    alloc: Global,
    reports: &SharedReports,
    seat: &mut GlassSeat<M>,
    text: &Text,
    router: &Name,
    interface: u32,
) -> Outcome
    ensures begins { IsPrefix seat.old seat.new }
    ensures shows { (log : Log) (x : OwnTextIn log router.now interface text.now) → IsLegal Legal log
        → IsShown seat.new x.own result }
{
    match held(alloc, seat, router, interface) {
        Ok(Some(routes)) => told_routes(rt, alloc, reports, text, router, interface, &routes),
        Ok(None) => Outcome::NotHeld,
        Err(_) => Outcome::NoMemory,
    }
}

/// What becomes of each route that the router's session at the interface holds, for the staff and the
/// interface's member: by the session's own text of the present version.
pub fn shown<R: Wait, N: BoardName, M: BoardName, D: Desks<N>, V: Publish<Note<HoldStory, M>>>(
    rt: &R,
    alloc: Global,
    desk: &mut D,
    glass: &LookingGlass<M, V>,
    seat: &mut DeskSeat<N>,
    holds: &mut GlassSeat<M>,
    secret: &[u8],
    router: &Name,
    interface: u32,
) -> Outcome
    ensures grows { Grows seat.old seat.new }
    ensures begins { IsPrefix holds.old holds.new }
    ensures turn { GlassTurn secret.now router.now interface result (seat.old, holds.old) (
      seat.new,
      holds.new,
    ) }
{
    match desk.own_text(rt, seat, secret, router, interface) {
        Ok(text) => told_held(rt, alloc, &glass.reports, holds, &text, router, interface),
        Err(fault) => own_fault(fault),
    }
}
