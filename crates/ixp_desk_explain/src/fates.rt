//! The fate of one of the routes that a session holds.
ghost use Rattle.std.specs.Prelude.{◌≡◌, ◌++◌, IfOk, OnOk, option_copied};
ghost use mathlib.Core.List.{IsPrefix};
ghost use Rattle.ixp_explain_member.specs.declared.explanation.Explanation.{Explanation as Said};
ghost use Rattle.ixp_desk_lock.specs.Calls.{Grows};
ghost use Rattle.ixp_desk_lock.specs.Facts.{Log};
ghost use Rattle.ixp_desk.specs.Publications.{IsPublished};
ghost use Rattle.ixp_api_replies.specs.declared.outcome.Outcome.TheVariants.{Text as Says};
ghost use Rattle.ixp_desk_explain.specs.Explanations.{OrNoMemory};
ghost use Rattle.ixp_desk_explain.specs.Glass.{
  IsFateShown,
  PlaceTurn,
  SessionTurn,
  at_place,
  fate_outcome,
  fate_says,
  place_says,
  version_line,
};

use crate::faults::{fault_outcome, session_fault};
use crate::glass::LookingGlass;
use crate::readings::Readings;
use ixp_api_replies::Outcome;
use ixp_board::{BoardName, Note, Publish};
use ixp_desk::{DeskSeat, Desks, Text, published};
use ixp_explain_member::{Explanation, staff_told};
use ixp_glass_holds::{GlassSeat, HoldStory, held};
use ixp_lang::Route;
use ixp_num::{Items, Name};
use ixp_num_tables::{put, put_number};
use std::alloc::{AllocError, Global};
use std::sync::Wait;

/// The route at a place that is counted from 1.
fn at_place(routes: &[Route], place: u32) -> Option<&Route>
    ensures { option_copied result ≡ at_place place routes.entry.now }
{
    if place == 0 {
        return None;
    }
    routes.get(place as usize - 1)
}

/// Adds the line of a version.
fn put_version(out: &mut Vec<u8>, built: u64) -> Result<(), AllocError>
    ensures { OnOk result (out.new.items ≡ out.old.items ++ version_line built) }
{
    put(out, b"version ")?;
    put_number(out, built)?;
    put(out, b"\n")?;
    Ok(())
}

/// A fate's text under the line of its version.
fn versioned(alloc: Global, built: u64, fate: &[u8]) -> Result<Items<u8>, AllocError>
    ensures { IfOk result (λ text. text ≡ version_line built ++ fate.now) }
{
    let mut text = Vec::new(alloc);
    put_version(&mut text, built)?;
    put(&mut text, fate)?;
    Ok(Items::from_vec(text))
}

fn fate_text(alloc: Global, built: u64, fate: &[u8]) -> Outcome
    ensures { OrNoMemory (Says (version_line built ++ fate.now)) result }
{
    match versioned(alloc, built, fate) {
        Ok(text) => Outcome::Text(text),
        Err(_) => Outcome::NoMemory,
    }
}

/// How a request for the fate of a route ends, which is that of a version.
fn fate_outcome(alloc: Global, built: u64, explanation: Result<Explanation, AllocError>) -> Outcome
    ensures { (says : Said) → IfOk explanation (λ e. e ≡ says)
        → OrNoMemory (fate_outcome built says) result }
{
    match explanation {
        Ok(Explanation::Text(text)) => fate_text(alloc, built, text.as_slice()),
        Ok(Explanation::Refused(refusal)) => Outcome::Refused(refusal),
        Ok(Explanation::NoRouter) => Outcome::NoRouter,
        Ok(Explanation::NoSession) => Outcome::NoSession,
        Err(_) => Outcome::NoMemory,
    }
}

/// The fate of a route by a configuration.
fn told_fate<R: Wait>(
    rt: &R,
    alloc: Global,
    readings: &Readings,
    router: &Name,
    text: &Text,
    interface: u32,
    route: &Route,
) -> Outcome
    ensures { (before now : Log) (p : IsPublished before now router.now text.now)
        → OrNoMemory (fate_says interface p route.now) result }
{
    let Ok(reading) = readings.of(rt, alloc, router, text) else {
        return Outcome::NoMemory;
    };
    fate_outcome(
        alloc,
        text.built,
        staff_told(alloc, reading.get(), &text.roas, interface, route),
    )
}

/// The fate of that one of the routes at the place.
fn told_place<R: Wait>(
    rt: &R,
    alloc: Global,
    readings: &Readings,
    router: &Name,
    text: &Text,
    interface: u32,
    routes: &[Route],
    place: u32,
) -> Outcome
    ensures { (before now : Log) (p : IsPublished before now router.now text.now)
        → OrNoMemory (place_says interface p (at_place place routes.now)) result }
{
    match at_place(routes, place) {
        Some(route) => told_fate(rt, alloc, readings, router, text, interface, route),
        None => Outcome::NotHeld,
    }
}

/// The fate of that one of the routes that the session holds.
fn told_held<R: Wait, M: BoardName>(
    rt: &R,
    alloc: Global,
    readings: &Readings,
    seat: &mut GlassSeat<M>,
    text: &Text,
    router: &Name,
    interface: u32,
    place: u32,
) -> Outcome
    ensures begins { IsPrefix seat.old seat.new }
    ensures shows { (before now : Log) (p : IsPublished before now router.now text.now)
        → IsFateShown interface place seat.new p result }
{
    match held(alloc, seat, router, interface) {
        Ok(Some(routes)) => told_place(
            rt,
            alloc,
            readings,
            router,
            text,
            interface,
            routes.get().as_slice(),
            place,
        ),
        Ok(None) => Outcome::NotHeld,
        Err(_) => Outcome::NoMemory,
    }
}

/// The fate by a configuration that was handed out, where the interface has a session with the router now.
fn told_session<R: Wait, N: BoardName, M: BoardName, D: Desks<N>>(
    rt: &R,
    alloc: Global,
    desk: &mut D,
    readings: &Readings,
    seat: &mut DeskSeat<N>,
    holds: &mut GlassSeat<M>,
    text: &Text,
    secret: &[u8],
    router: &Name,
    interface: u32,
    place: u32,
) -> Outcome
    ensures grows { Grows seat.old seat.new }
    ensures begins { IsPrefix holds.old holds.new }
    ensures turn { (before now : Log) (p : IsPublished before now router.now text.now)
        → SessionTurn secret.now interface place p result (seat.old, holds.old) (seat.new, holds.new) }
{
    match desk.own_text(rt, seat, secret, router, interface) {
        Ok(_own) => told_held(rt, alloc, readings, holds, text, router, interface, place),
        Err(fault) => session_fault(fault),
    }
}

/// The whole fate of that one of the routes that the router's session at the interface holds which stands
/// at the place, counted from 1; for the staff, by the configuration that is handed out.
pub fn fate_shown<R: Wait, N: BoardName, M: BoardName, D: Desks<N>, V: Publish<Note<HoldStory, M>>>(
    rt: &R,
    alloc: Global,
    desk: &mut D,
    glass: &LookingGlass<M, V>,
    seat: &mut DeskSeat<N>,
    holds: &mut GlassSeat<M>,
    secret: &[u8],
    router: &Name,
    interface: u32,
    place: u32,
) -> Outcome
    ensures grows { Grows seat.old seat.new }
    ensures begins { IsPrefix holds.old holds.new }
    ensures turn { PlaceTurn secret.now router.now interface place result (seat.old, holds.old)
        (seat.new, holds.new) }
{
    match published(rt, alloc, desk, seat, secret, router, None) {
        Ok(text) => told_session(
            rt,
            alloc,
            desk,
            &glass.readings,
            seat,
            holds,
            &text,
            secret,
            router,
            interface,
            place,
        ),
        Err(fault) => fault_outcome(fault),
    }
}
