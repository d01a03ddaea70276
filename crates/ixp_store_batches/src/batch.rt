//! The batch of a request.
ghost use Rattle.std.specs.Prelude.{◌≡◌, ◌++◌, ◌<◌, ◌-◌, ◌^◌, OnOk, IfOk, map};
ghost use Rattle.ixp_store_batches.specs.Batches.{old_rows, new_rows, batch as batch_for, IsShort};
ghost use Rattle.ixp_io.specs.Tables.{changed};
ghost use Rattle.ixp_machine.specs.Prepared.{prepared as becomes, IsFresh};
ghost use Rattle.ixp_machine_steps.specs.States.{ValidState};
ghost use Rattle.ixp_store_rows.specs.States.{drop_row, set_row, tables};

use crate::kept::{clear_kept, set_number};
use crate::registry::{clear_entries, set_entries};
use ixp_io::Change;
use ixp_machine::Prepared;
use ixp_machine_steps::State;
use ixp_store_rows::{drop_count, set_count};
use std::alloc::{AllocError, Global};

fn clear_rows(
    alloc: Global,
    state: &State,
    prepared: &Prepared,
    batch: &mut Vec<Change>,
) -> Result<(), AllocError>
    ensures { OnOk result
        (batch.new.items ≡ batch.old.items ++ map drop_row (old_rows state.now prepared.now)) }
{
    clear_entries(alloc, &state.registry, &prepared.change, batch)?;
    clear_kept(alloc, &state.kept, &prepared.owner, &prepared.kept, batch)?;
    batch.push(drop_count(alloc, state.accepted))?;
    Ok(())
}

fn set_rows(
    alloc: Global,
    state: &State,
    prepared: &Prepared,
    batch: &mut Vec<Change>,
) -> Result<(), AllocError>
    requires { state.now.accepted < 2 ^ 64 - 1 }
    ensures { OnOk result
        (batch.new.items ≡ batch.old.items ++ map set_row (new_rows state.now prepared.now)) }
{
    set_entries(alloc, &prepared.change, batch)?;
    set_number(alloc, &state.kept, &prepared.owner, &prepared.kept, batch)?;
    batch.push(set_count(alloc, state.accepted + 1)?)?;
    Ok(())
}

/// The batch that turns the rows of a state into those of the state after a request that was made ready. It
/// has the rows that the request is about and no others, however many the store has.
#[tactic(auto, using(crate::proofs::States::batch_makes, crate::proofs::Sizes::batch_is_short))]
pub fn batch_of(
    alloc: Global,
    state: &State,
    prepared: &Prepared,
) -> Result<Vec<Change>, AllocError>
    requires valid { ValidState state.now }
    requires next { ValidState (becomes state.now prepared.now) }
    requires fresh { IsFresh state.now prepared.now }
    requires room { state.now.accepted < 2 ^ 64 - 1 }
    ensures makes { IfOk result
        (λ batch. changed (tables state.now) batch.items ≡ tables (becomes state.now prepared.now)) }
    ensures changes { IfOk result (λ batch. batch.items ≡ batch_for state.now prepared.now) }
    ensures short { IfOk result (λ batch. IsShort state.now prepared.now batch.items) }
{
    let mut batch = Vec::new(alloc);
    clear_rows(alloc, state, prepared, &mut batch)?;
    set_rows(alloc, state, prepared, &mut batch)?;
    Ok(batch)
}
