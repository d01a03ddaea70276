//! Edits that are stored.
ghost use Rattle.std.specs.Prelude.{◌≡◌, ◌≢◌, ◌≤◌, ◌<◌, ◌-◌, ◌^◌, Err, OnOk, OnErr, IsErrOf};
ghost use Rattle.ixp_io.specs.Faults.{Rose};
ghost use Rattle.ixp_io.specs.Told.{WhereTold};
ghost use Rattle.ixp_io.specs.declared.keeper.KeepFault.TheVariants.{Failed};
ghost use Rattle.ixp_store_words.specs.Answers.{IsStoreOf};
ghost use Rattle.ixp_store_words.specs.Storing.{IsStorable};
ghost use Rattle.ixp_machine_steps.specs.States.{ValidState};
ghost use Rattle.ixp_machine.specs.Prepared.{prepared as becomes, IsFresh};
ghost use Rattle.ixp_desk_commits.specs.Ready.{IsReady};

use ixp_io::{KeepFault, Keeper};
use ixp_machine::{Prepared, carry_out};
use ixp_machine_steps::State;
use ixp_store_batches::batch_of;
use std::alloc::Global;

/// Makes a request that was made ready and stores it, or does neither.
#[tactic(auto, using(crate::proofs::StoredEdits::kept))]
pub fn keep<P: Keeper>(
    alloc: Global,
    state: &mut State,
    keeper: &mut P,
    prepared: Prepared,
) -> Result<(), KeepFault>
    requires valid { ValidState state.old }
    requires storable { IsStorable state.old }
    requires ready { IsReady state.old prepared }
    requires fresh { IsFresh state.old prepared }
    requires room { state.old.accepted < 2 ^ 64 - 1 }
    requires stored { WhereTold (P.table keeper.old) (IsStoreOf state.old) }
    ensures ok { OnOk result (state.new ≡ becomes state.old prepared) }
    ensures err { OnErr result (state.new ≡ state.old) }
    ensures valid { ValidState state.new }
    ensures storable { IsStorable state.new }
    ensures stored { WhereTold (P.table keeper.new) (IsStoreOf state.new) }
    ensures cause { IsErrOf result Failed → Rose (P.faults keeper.old) (P.faults keeper.new) }
    ensures still { result ≢ Err Failed → P.faults keeper.new ≡ P.faults keeper.old }
    ensures counts { P.faults keeper.old ≤ P.faults keeper.new }
{
    let batch = batch_of(alloc, state, &prepared)?;
    let _reply = carry_out(alloc, state, prepared, keeper, batch.as_slice())?;
    Ok(())
}
