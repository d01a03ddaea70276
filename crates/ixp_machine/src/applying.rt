//! Accepted requests are made.
ghost use Rattle.std.specs.Prelude.{◌≡◌, ◌<◌, ◌-◌, ◌^◌, IfOk, OnOk, OnErr, Some};
ghost use Rattle.ixp_members.specs.Owners.{owner_of};
ghost use Rattle.ixp_machine_steps.specs.States.{ValidState};
ghost use Rattle.ixp_machine_steps.specs.Steps.{Accepted, verdict, step};
ghost use Rattle.ixp_machine.specs.Prepared as spec;

use crate::decision::Reply;
use crate::preparing::{Prepared, carry_out, prepare};
use ixp_io::{Change, KeepFault, Keeper, Row, RowName};
use ixp_machine_steps::{Entry, State};
use ixp_members::rights;
use ixp_registry::Owner;
use std::alloc::{AllocError, Global};

/// Stores nothing, and never fails.
#[derive(Drop)]
struct NoStore;

impl Keeper for NoStore {
    ghost use Rattle.std.specs.Prelude.{None};

    ghost table = { λ _. None };

    ghost faults = { λ _. 0 };

    fn commit(&mut self, _alloc: Global, _batch: &[Change]) -> Result<(), KeepFault> {
        Ok(())
    }

    fn next_row(
        &mut self,
        _alloc: Global,
        _after: Option<&RowName>,
    ) -> Result<Option<Row>, KeepFault> {
        Ok(None)
    }

    fn faults(&self) -> u64 {
        0
    }
}

/// Makes a request that was made ready, without a store. Where memory runs out, the state is as before.
pub fn apply_prepared(
    alloc: Global,
    state: &mut State,
    prepared: Prepared,
) -> Result<Reply, AllocError>
    requires room { state.old.accepted < 2 ^ 64 - 1 }
    requires fresh { spec.IsFresh state.old prepared }
    ensures ok { OnOk result (state.new ≡ spec.prepared state.old prepared) }
    ensures reply { IfOk result (λ r. r.number ≡ prepared.kept.number) }
    ensures err { OnErr result (state.new ≡ state.old) }
{
    match carry_out(alloc, state, prepared, &mut NoStore, &[]) {
        Ok(reply) => Ok(reply),
        Err(_) => Err(AllocError),
    }
}

/// Makes the edit of an owner's request that is accepted, and keeps its number. Where memory runs out, the
/// state is as before.
pub(crate) fn apply_for(
    alloc: Global,
    state: &mut State,
    owner: Owner,
    entry: Entry,
) -> Result<Reply, AllocError>
    requires valid { ValidState state.old }
    requires owner { owner_of state.old.registry entry.secret ≡ Some owner }
    requires accepted { verdict state.old entry ≡ Accepted }
    requires room { state.old.accepted < 2 ^ 64 - 1 }
    ensures ok { OnOk result (state.new ≡ step state.old entry) }
    ensures reply { IfOk result (λ r. r.number ≡ entry.number) }
    ensures err { OnErr result (state.new ≡ state.old) }
{
    let prepared = prepare(alloc, state, owner, entry)?;
    apply_prepared(alloc, state, prepared)
}

/// Makes the edit of a request that is accepted, and keeps its number. Where memory runs out, the state is as
/// before.
pub fn apply(alloc: Global, state: &mut State, entry: Entry) -> Result<Reply, AllocError>
    requires valid { ValidState state.old }
    requires accepted { verdict state.old entry ≡ Accepted }
    requires room { state.old.accepted < 2 ^ 64 - 1 }
    ensures ok { OnOk result (state.new ≡ step state.old entry) }
    ensures reply { IfOk result (λ r. r.number ≡ entry.number) }
    ensures err { OnErr result (state.new ≡ state.old) }
{
    let Some(owner) = rights(&state.registry, entry.secret.as_slice()) else {
        unreachable!();
    };
    apply_for(alloc, state, owner, entry)
}
