//! What is decided of a request.
ghost use Rattle.std.specs.Prelude.{◌≡◌, IfOk, Option, Some};
ghost use Rattle.ixp_machine_steps.specs.States.{ValidState};
ghost use Rattle.ixp_machine_steps.specs.Steps.{kept_says, verdict, verdict_of};
ghost use Rattle.ixp_machine.specs.Decisions.{IsFor, Says};
ghost use Rattle.ixp_members.specs.Owners.{owner_of};
ghost use Rattle.ixp_registry.specs.declared.members.Owner.{Owner as By};

use crate::decision::{Decision, Reply};
use crate::kept::{floor_of, kept_number};
use crate::rights::{has_right, right_of};
use crate::subjects::{is_repeat, key_of};
use ixp_machine_refusals::refusal;
use ixp_machine_steps::{Entry, KeptNumber, State};
use ixp_members::rights;
use ixp_registry::{Owner, Refusal};
use std::alloc::{AllocError, Global};

/// Of a request whose number is kept.
fn repeated(kept: &KeptNumber, entry: &Entry) -> Decision
    ensures decision { Says entry.now.number (kept_says entry.now.edit kept.now) result }
    ensures unmade { (owner : Option By) → IsFor owner result }
{
    if is_repeat(kept, &entry.edit) {
        return Decision::Repeated(Reply {
            number: entry.number,
        });
    }
    Decision::Refused(Refusal::KeyReused {
        kind: kept.kind,
        subject: key_of(&kept.subject),
    })
}

/// Of an owner's request.
fn decide_of(
    alloc: Global,
    state: &State,
    owner: Owner,
    entry: &Entry,
) -> Result<Decision, AllocError>
    requires { ValidState state.now }
    ensures decision { IfOk result
        (Says entry.now.number (verdict_of state.now owner entry.now.number entry.now.edit)) }
    ensures owner { IfOk result (IsFor (Some owner)) }
{
    let right = right_of(&entry.edit);
    if !has_right(owner, right) {
        return Ok(Decision::Refused(Refusal::Denied { right }));
    }
    if let Some(kept) = kept_number(&state.kept, &owner, entry.number) {
        return Ok(repeated(kept, entry));
    }
    let floor = floor_of(&state.kept, &owner);
    if entry.number < floor {
        return Ok(Decision::Refused(Refusal::KeyOld { floor }));
    }
    match refusal(
        alloc,
        &state.registry,
        state.weight,
        state.prefixes,
        &entry.edit,
    )? {
        Some(refusal) => Ok(Decision::Refused(refusal)),
        None => Ok(Decision::Accepted(owner)),
    }
}

/// What is decided of a request. It changes nothing; its only error is that memory runs out.
pub fn decide(alloc: Global, state: &State, entry: &Entry) -> Result<Decision, AllocError>
    requires { ValidState state.now }
    ensures decision { IfOk result (Says entry.now.number (verdict state.now entry.now)) }
    ensures owner { IfOk result (IsFor (owner_of state.now.registry entry.now.secret)) }
{
    match rights(&state.registry, entry.secret.as_slice()) {
        Some(owner) => decide_of(alloc, state, owner, entry),
        None => Ok(Decision::Refused(Refusal::NoKey)),
    }
}
