//! What becomes of routes.
ghost use Rattle.std.specs.Prelude.{◌≡◌, IfOk};
ghost use Rattle.ixp_explain_member.specs.declared.explanation.Explanation.{Explanation as Said};
ghost use Rattle.ixp_board.specs.Histories.{IsLegal};
ghost use Rattle.ixp_desk_history.specs.Legal.{Legal};
ghost use Rattle.ixp_desk_lock.specs.Calls.{Grows};
ghost use Rattle.ixp_desk_lock.specs.Facts.{Log};
ghost use Rattle.ixp_desk.specs.Publications.{IsPublished};
ghost use Rattle.ixp_desk_explain.specs.Explanations.{
  ExplainTurn,
  OrNoMemory,
  OwnTextIn,
  OwnTurn,
  explanation_outcome,
  is_denied,
  member_says,
  staff_says,
};

use crate::faults::{fault_outcome, own_fault};
use crate::glass::LookingGlass;
use crate::readings::Readings;
use ixp_api::ExplainCall;
use ixp_api_replies::Outcome;
use ixp_board::{BoardName, Note, Publish};
use ixp_desk::{DeskSeat, Desks, PubFault, Text, published};
use ixp_explain_member::{Explanation, member_told, staff_told};
use ixp_glass_holds::HoldStory;
use ixp_registry::Refusal;
use std::alloc::{AllocError, Global};
use std::sync::Wait;

/// How a request for an explanation ends.
fn outcome_of(explanation: Result<Explanation, AllocError>) -> Outcome
    ensures { (says : Said) → IfOk explanation (λ e. e ≡ says)
        → OrNoMemory (explanation_outcome says) result }
{
    match explanation {
        Ok(Explanation::Text(text)) => Outcome::Text(text),
        Ok(Explanation::Refused(refusal)) => Outcome::Refused(refusal),
        Ok(Explanation::NoRouter) => Outcome::NoRouter,
        Ok(Explanation::NoSession) => Outcome::NoSession,
        Err(_) => Outcome::NoMemory,
    }
}

/// X1: who asks is a member.
fn is_denied(fault: &PubFault) -> bool
    ensures { result ≡ is_denied fault.now }
{
    match fault {
        PubFault::Refused(Refusal::Denied { .. }) => true,
        _ => false,
    }
}

/// What the staff is told of a route by a configuration.
fn told<R: Wait>(
    rt: &R,
    alloc: Global,
    readings: &Readings,
    text: &Text,
    call: &ExplainCall,
) -> Outcome
    ensures { (before now : Log) (p : IsPublished before now call.now.router text.now)
        → OrNoMemory (staff_says call.now p) result }
{
    let Ok(reading) = readings.of(rt, alloc, &call.router, text) else {
        return Outcome::NoMemory;
    };
    outcome_of(staff_told(
        alloc,
        reading.get(),
        &text.roas,
        call.interface,
        &call.asked.route,
    ))
}

/// What a member is told of its own route by its session's own text.
fn told_own(alloc: Global, text: &Text, call: &ExplainCall) -> Outcome
    ensures { (log : Log) (x : OwnTextIn log call.now.router call.now.interface text.now)
        → IsLegal Legal log → OrNoMemory (member_says call.now x.own) result }
{
    outcome_of(member_told(
        alloc,
        text.bytes.as_slice(),
        &text.roas,
        call.interface,
        &call.asked.route,
        call.asked.peers.as_slice(),
    ))
}

/// What a member is told of its own route, whose session's own text is asked for.
fn own_told<R: Wait, N: BoardName, D: Desks<N>>(
    rt: &R,
    alloc: Global,
    desk: &mut D,
    seat: &mut DeskSeat<N>,
    call: &ExplainCall,
) -> Outcome
    ensures grows { Grows seat.old seat.new }
    ensures turn { OwnTurn call.now result seat.old seat.new }
{
    match desk.own_text(
        rt,
        seat,
        call.secret.as_slice(),
        &call.router,
        call.interface,
    ) {
        Ok(text) => told_own(alloc, &text, call),
        Err(fault) => own_fault(fault),
    }
}

/// What is told to who asks what becomes of a route: the staff its fate by the configuration that is handed
/// out, a member what its session's own text says of its own route.
pub fn explained<R: Wait, N: BoardName, M: BoardName, D: Desks<N>, V: Publish<Note<HoldStory, M>>>(
    rt: &R,
    alloc: Global,
    desk: &mut D,
    glass: &LookingGlass<M, V>,
    seat: &mut DeskSeat<N>,
    call: &ExplainCall,
) -> Outcome
    ensures grows { Grows seat.old seat.new }
    ensures turn { ExplainTurn call.now result seat.old seat.new }
{
    match published(
        rt,
        alloc,
        desk,
        seat,
        call.secret.as_slice(),
        &call.router,
        call.seen,
    ) {
        Ok(text) => told(rt, alloc, &glass.readings, &text, call),
        Err(fault) => {
            if is_denied(&fault) {
                own_told(rt, alloc, desk, seat, call)
            } else {
                fault_outcome(fault)
            }
        }
    }
}
