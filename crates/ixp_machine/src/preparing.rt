//! Requests that are accepted, ready to be made.
ghost use Rattle.std.specs.Prelude.{◌≡◌, ◌≤◌, ◌<◌, ◌-◌, ◌^◌, IfOk, OnOk, OnErr, Some, true};
ghost use Rattle.ixp_machine_edits.specs.Edits.{change};
ghost use Rattle.ixp_machine_effects.specs.Names.{has_name};
ghost use Rattle.ixp_machine_effects.specs.Saving.{Saves};
ghost use Rattle.ixp_machine.specs.Prepared as spec;
ghost use Rattle.ixp_members.specs.Owners.{owner_of};
ghost use Rattle.ixp_machine_steps.specs.States.{ValidState};
ghost use Rattle.ixp_machine_steps.specs.Steps.{Accepted, verdict, kept_entry, step};

use crate::decision::Reply;
use crate::keeping::carry;
use crate::subjects::said_of;
use ixp_io::{Change, KeepFault, Keeper};
use ixp_machine_effects::change_of;
use ixp_machine_refusals::{prefixes_after, weight_after};
use ixp_machine_steps::{Entry, KeptNumber, State};
use ixp_registry::Owner;
use ixp_registry_change::RegistryChange;
use std::alloc::{AllocError, Global};

/// What becomes of the state by a request that is accepted.
#[derive(Debug, Drop)]
pub struct Prepared {
    pub owner: Owner,
    /// What is kept of the request.
    pub kept: KeptNumber,
    pub change: RegistryChange,
    /// The rows of prefix lists that all sessions read together, after the change.
    pub weight: u64,
    /// The prefixes of all members' lists together, after the change.
    pub prefixes: u64,
}

fn kept_entry(alloc: Global, entry: &Entry, place: u64) -> Result<KeptNumber, AllocError>
    requires { has_name entry.now.edit ≡ true }
    ensures { IfOk result (λ k. k ≡ kept_entry entry.now place) }
{
    let (kind, subject) = said_of(alloc, &entry.edit)?;
    Ok(KeptNumber {
        number: entry.number,
        kind,
        subject,
        place,
    })
}

/// Makes a request of the owner ready that is accepted: all that takes memory but a place in a table, with
/// the state as it is.
pub fn prepare(
    alloc: Global,
    state: &State,
    owner: Owner,
    entry: Entry,
) -> Result<Prepared, AllocError>
    requires valid { ValidState state.now }
    requires owner { owner_of state.now.registry entry.secret ≡ Some owner }
    requires accepted { verdict state.now entry ≡ Accepted }
    requires room { state.now.accepted < 2 ^ 64 - 1 }
    ensures step { IfOk result (λ p. spec.prepared state.now p ≡ step state.now entry) }
    ensures change { IfOk result (λ p. p.change ≡ change state.now.registry entry.edit) }
    ensures number { IfOk result (λ p. p.kept.number ≡ entry.number) }
    ensures fresh { IfOk result (spec.IsFresh state.now) }
{
    let kept = kept_entry(alloc, &entry, state.accepted + 1)?;
    let change = change_of(alloc, &state.registry, entry.into_edit())?;
    let weight = weight_after(&state.registry, state.weight, &change);
    let prefixes = prefixes_after(&state.registry, state.prefixes, &change);
    Ok(Prepared {
        owner,
        kept,
        change,
        weight,
        prefixes,
    })
}

/// Makes a request that was made ready, in place, and stores the batch; or does neither.
pub fn carry_out<P: Keeper>(
    alloc: Global,
    state: &mut State,
    prepared: Prepared,
    keeper: &mut P,
    batch: &[Change],
) -> Result<Reply, KeepFault>
    requires room { state.old.accepted < 2 ^ 64 - 1 }
    requires fresh { spec.IsFresh state.old prepared }
    ensures ok { OnOk result (state.new ≡ spec.prepared state.old prepared) }
    ensures reply { IfOk result (λ r. r.number ≡ prepared.kept.number) }
    ensures err { OnErr result (state.new ≡ state.old) }
    ensures saved { Saves batch.now (P.table keeper.old) (P.table keeper.new) (P.faults keeper.old)
        (P.faults keeper.new) result }
    ensures counts { P.faults keeper.old ≤ P.faults keeper.new }
{
    let number = prepared.kept.number;
    let weight = prepared.weight;
    let prefixes = prepared.prefixes;
    carry(
        alloc,
        &mut state.registry,
        &mut state.kept,
        prepared,
        keeper,
        batch,
    )?;
    state.accepted += 1;
    state.weight = weight;
    state.prefixes = prefixes;
    Ok(Reply { number })
}
