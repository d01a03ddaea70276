//! Edits, one after the other, and the texts that follow them.
ghost use Rattle.std.specs.Prelude.{◌≡◌, ◌≤◌, ◌<◌, ◌-◌, ◌^◌, true, length, IfOk, OnOk, Some};
ghost use Rattle.ixp_build.specs.Bundles.{AgreesBut, IsOf};
ghost use Rattle.ixp_registry_demo.specs.Demo.{demo};
ghost use Rattle.ixp_build_demo.specs.Builds.{
  demo_requests,
  parts_made,
  parts_touched,
  rebuilt,
  requests_from,
};
ghost use Rattle.ixp_registry.specs.Valid.{Valid};
ghost use Rattle.ixp_machine_steps.specs.States.{ValidState};
ghost use Rattle.ixp_machine_edits.specs.Edits.{IsLawful};
ghost use Rattle.ixp_machine_steps.specs.Steps.{Accepted, step, verdict};
ghost use Rattle.ixp_members.specs.Owners.{owner_of};

use crate::build_figures::Builds;
use crate::comparing::is_equal;
use crate::requests::request_of;
use ixp_build::{Bundle, make};
use ixp_build_touches::{Touch, reached_by};
use ixp_machine::{Decision, apply_prepared, decide, prepare, read_edit};
use ixp_machine_steps::{Entry, State, first_state};
use ixp_registry::{Owner, Registry};
use std::alloc::{AllocError, Global};

/// The edits are at most so many.
const MOST_EDITS: u32 = 100;

/// Makes the touched texts anew, and puts them in their places. It tells how many parts these are.
fn rebuild(
    alloc: Global,
    state: &State,
    bundle: &mut Bundle,
    touch: &Touch,
) -> Result<u64, AllocError>
    requires valid { Valid state.now.registry }
    requires touched { AgreesBut touch.now bundle.old state.now.registry }
    ensures parts { IfOk result (λ n. n ≡ length touch.now.sessions) }
    ensures whole { OnOk result (IsOf bundle.new state.now.registry) }
{
    let order = bundle.order(alloc, &state.registry, state.accepted, touch)?;
    let parts = order.sessions.len() as u64;
    let made = make(alloc, order)?;
    match bundle.install(alloc, made) {
        Ok(()) => Ok(parts),
        Err(_) => Err(AllocError),
    }
}

/// Makes a request of the owner that is accepted, and after it the texts that it touches. It tells how many
/// parts these are.
fn follow_accepted(
    alloc: Global,
    state: &mut State,
    bundle: &mut Bundle,
    owner: Owner,
    entry: Entry,
) -> Result<u64, AllocError>
    requires valid { ValidState state.old }
    requires owner { owner_of state.old.registry entry.secret ≡ Some owner }
    requires lawful { IsLawful entry.edit }
    requires accepted { verdict state.old entry ≡ Accepted }
    requires room { state.old.accepted < 2 ^ 64 - 1 }
    requires whole { IsOf bundle.old state.old.registry }
    ensures parts { IfOk result (λ n. n ≡ parts_touched state.old entry) }
    ensures step { OnOk result (state.new ≡ step state.old entry) }
    ensures valid { ValidState state.new }
    ensures whole { OnOk result (IsOf bundle.new state.new.registry) }
{
    let prepared = prepare(alloc, state, owner, entry)?;
    let reached = reached_by(alloc, &state.registry, &prepared.change)?;
    apply_prepared(alloc, state, prepared)?;
    let touch = reached.touch_after(alloc, &state.registry)?;
    rebuild(alloc, state, bundle, &touch)
}

/// Makes a request, and after it the texts that it touches. It tells how many parts these are.
fn follow(
    alloc: Global,
    state: &mut State,
    bundle: &mut Bundle,
    entry: Entry,
) -> Result<u64, AllocError>
    requires valid { ValidState state.old }
    requires room { state.old.accepted < 2 ^ 64 - 1 }
    requires whole { IsOf bundle.old state.old.registry }
    ensures parts { IfOk result (λ n. n ≡ parts_touched state.old entry) }
    ensures step { OnOk result (state.new ≡ step state.old entry) }
    ensures valid { ValidState state.new }
    ensures whole { OnOk result (IsOf bundle.new state.new.registry) }
{
    read_edit(&entry.edit);
    match decide(alloc, state, &entry)? {
        Decision::Accepted(owner) => follow_accepted(alloc, state, bundle, owner, entry),
        Decision::Repeated(_) => Ok(0),
        Decision::Refused(_) => Ok(0),
    }
}

/// Makes so many requests. It tells how many parts they touch together.
fn follow_all(
    alloc: Global,
    state: &mut State,
    bundle: &mut Bundle,
    count: u32,
) -> Result<u64, AllocError>
    requires few { count ≤ 100 }
    requires first { state.old.accepted ≡ 0 }
    requires valid { ValidState state.old }
    requires whole { IsOf bundle.old state.old.registry }
    ensures parts { IfOk result (λ n. n ≡ parts_made state.old (requests_from 0 count)) }
    ensures valid { ValidState state.new }
    ensures whole { OnOk result (IsOf bundle.new state.new.registry) }
{
    let mut parts: u64 = 0;
    let mut done = 0;
    let mut left = count;
    'each: while left != 0 {
        let entry = request_of(alloc, done)?;
        let more = follow(alloc, state, bundle, entry)?;
        parts = parts.checked_add(more).ok_or(AllocError)?;
        done += 1;
        left -= 1;
    }
    Ok(parts)
}

/// Makes all texts of the demo exchange with so many members, and edits it.
pub fn builds(alloc: Global, registry: Registry, members: u32) -> Result<Builds, AllocError>
    requires demo { registry ≡ demo members }
    requires valid { Valid registry }
    ensures rebuilt { IfOk result (λ b. b.rebuilt ≡ rebuilt members) }
    ensures equal { IfOk result (λ b. b.is_equal ≡ true) }
{
    let mut state = first_state(alloc, registry);
    let mut bundle = Bundle::open(alloc, &state.registry, state.accepted)?;
    let count = members.min(MOST_EDITS);
    let rebuilt = follow_all(alloc, &mut state, &mut bundle, count)?;
    let is_equal = is_equal(alloc, &bundle, &state.registry)?;
    Ok(Builds { rebuilt, is_equal })
}
