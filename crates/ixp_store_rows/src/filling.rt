//! Filling an empty store.
ghost use Rattle.std.specs.Prelude.{◌≡◌, ◌≢◌, ◌≤◌, OnOk, OnErr, IsErrOf};
ghost use Rattle.std.specs.FinMap.{empty};
ghost use Rattle.ixp_io.specs.Faults.{Rose};
ghost use Rattle.ixp_io.specs.Told.{Told, WhereTold};
ghost use Rattle.ixp_store_rows.specs.States.{tables};
ghost use Rattle.ixp_store_rows.specs.declared.filling.FillFault.TheVariants.{Failed, NotEmpty as SomeRow};

use crate::whole::whole_batch;
use ixp_io::{KeepFault, Keeper};
use ixp_machine_steps::State;
use std::alloc::{AllocError, Global};

/// Why a store isn't filled.
#[derive(Clone, Copy, Debug, PartialEq, Eq, Drop)]
pub enum FillFault {
    /// The keeper failed, and its count of faults rose.
    Failed,
    /// The store has a row.
    NotEmpty,
    NoMemory,
}

impl From<KeepFault> for FillFault {
    ghost use Rattle.std.specs.Prelude.{◌≡◌};
    ghost use Rattle.ixp_store_rows.specs.Fills.{fault_of};

    ghost from_gives = { λ fault e. e ≡ fault_of fault };

    fn from(fault: KeepFault) -> FillFault {
        match fault {
            KeepFault::Failed => FillFault::Failed,
            KeepFault::NoMemory => FillFault::NoMemory,
        }
    }
}

impl From<AllocError> for FillFault {
    ghost use Rattle.std.specs.Prelude.{◌≡◌};
    ghost use Rattle.ixp_store_rows.specs.declared.filling.FillFault.TheVariants.{NoMemory};

    ghost from_gives = { λ _ e. e ≡ NoMemory };

    fn from(_error: AllocError) -> FillFault {
        FillFault::NoMemory
    }
}

/// Puts all rows of a state into a keeper without rows, or leaves it as it was.
pub fn fill<P: Keeper>(alloc: Global, keeper: &mut P, state: &State) -> Result<(), FillFault>
    ensures filled { OnOk result
        (Told (P.table keeper.old) (P.table keeper.new)
        (λ before now. (before ≡ empty) × (now ≡ tables state.now))) }
    ensures kept { OnErr result (P.table keeper.new ≡ P.table keeper.old) }
    ensures full { IsErrOf result SomeRow → WhereTold (P.table keeper.old) (λ rows. rows ≢ empty) }
    ensures counts { P.faults keeper.old ≤ P.faults keeper.new }
    ensures cause { IsErrOf result Failed → Rose (P.faults keeper.old) (P.faults keeper.new) }
    ensures answered { Rose (P.faults keeper.old) (P.faults keeper.new) → IsErrOf result Failed }
{
    match keeper.next_row(alloc, None)? {
        Some(_) => return Err(FillFault::NotEmpty),
        None => {}
    }
    let batch = whole_batch(alloc, state)?;
    keeper.commit(alloc, batch.as_slice())?;
    Ok(())
}
