//! Why a store can't be loaded.
use ixp_io::{KeepFault, RowName};
use std::alloc::{AllocError, AllocFailed};

/// What is wrong with a row.
#[derive(Clone, Copy, Debug, PartialEq, Eq)]
pub enum Damage {
    /// It is no row of a state, or one that has to be there is missing.
    Row,
    /// The rows break the rule with this number, 1 to 15, at this row.
    Rule(u32),
}

/// Why a keeper's rows are no state's.
#[derive(Debug, Drop)]
pub enum LoadFault {
    /// The keeper failed, and its count of faults rose.
    KeeperFault,
    /// The row with this name is damaged.
    Damaged { name: RowName, damage: Damage },
    /// The rows are of an older version of the store's form.
    OldVersion { found: u64 },
    NoMemory,
}

/// Why rows are no state's.
#[derive(Debug, Drop)]
pub enum NoState {
    Damaged { name: RowName, damage: Damage },
    NoMemory,
}

impl From<AllocError> for NoState {
    ghost use Rattle.std.specs.Prelude.{◌≡◌};
    ghost use Rattle.ixp_store_words.specs.declared.fault.NoState.TheVariants.{NoMemory};

    ghost from_gives = { λ _ e. e ≡ NoMemory };

    fn from(_error: AllocError) -> NoState {
        NoState::NoMemory
    }
}

impl<T: Drop> From<AllocFailed<T>> for NoState {
    ghost use Rattle.std.specs.Prelude.{◌≡◌};
    ghost use Rattle.ixp_store_words.specs.declared.fault.NoState.TheVariants.{NoMemory};

    ghost from_gives = { λ _ e. e ≡ NoMemory };

    fn from(_error: AllocFailed<T>) -> NoState {
        NoState::NoMemory
    }
}

impl From<AllocError> for LoadFault {
    ghost use Rattle.std.specs.Prelude.{◌≡◌};
    ghost use Rattle.ixp_store_words.specs.declared.fault.LoadFault.TheVariants.{NoMemory};

    ghost from_gives = { λ _ e. e ≡ NoMemory };

    fn from(_error: AllocError) -> LoadFault {
        LoadFault::NoMemory
    }
}

impl<T: Drop> From<AllocFailed<T>> for LoadFault {
    ghost use Rattle.std.specs.Prelude.{◌≡◌};
    ghost use Rattle.ixp_store_words.specs.declared.fault.LoadFault.TheVariants.{NoMemory};

    ghost from_gives = { λ _ e. e ≡ NoMemory };

    fn from(_error: AllocFailed<T>) -> LoadFault {
        LoadFault::NoMemory
    }
}

impl From<KeepFault> for LoadFault {
    ghost use Rattle.std.specs.Prelude.{◌≡◌, ⊤};
    ghost use Rattle.ixp_io.specs.declared.keeper.KeepFault.{KeepFault as Of};
    ghost use Rattle.ixp_store_words.specs.Faults.{fault_of};

    ghost from_gives = { λ fault e. e ≡ fault_of fault };

    fn from(fault: KeepFault) -> LoadFault {
        match fault {
            KeepFault::Failed => LoadFault::KeeperFault,
            KeepFault::NoMemory => LoadFault::NoMemory,
        }
    }
}
