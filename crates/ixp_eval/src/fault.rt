//! What can go wrong while a filter runs.
use ixp_num::Name;
use std::alloc::{AllocError, AllocFailed};

/// Why a filter or a walk has no outcome.
#[derive(Debug, Drop)]
pub enum EvalFault {
    /// V1: a part of a pair is above 65535; `value` is the first such part.
    PairRange { value: u32 },
    /// V2: a function was called for its value and ended without `return`.
    NoReturn { name: Name },
    /// V3: a filter ended without `accept` or `reject`.
    NoVerdict { name: Name },
    /// V4: no filter, function or session has the name.
    NoFilter { name: Name },
    /// Memory ran out.
    NoMemory,
}

impl From<AllocError> for EvalFault {
    ghost use Rattle.std.specs.Prelude.{◌≡◌};
    ghost use Rattle.ixp_eval.specs.declared.fault.EvalFault.TheVariants.{NoMemory};

    ghost from_gives = { λ _ e. e ≡ NoMemory };

    fn from(_error: AllocError) -> EvalFault {
        EvalFault::NoMemory
    }
}

impl<T: Drop> From<AllocFailed<T>> for EvalFault {
    ghost use Rattle.std.specs.Prelude.{◌≡◌};
    ghost use Rattle.ixp_eval.specs.declared.fault.EvalFault.TheVariants.{NoMemory};

    ghost from_gives = { λ _ e. e ≡ NoMemory };

    fn from(_error: AllocFailed<T>) -> EvalFault {
        EvalFault::NoMemory
    }
}

/// Why a function that is called for its value has none.
#[derive(Debug, Drop)]
pub enum CallFault {
    /// It fails.
    Failed { fault: EvalFault },
    /// V5: it accepts or rejects the route.
    Ended,
}

impl From<EvalFault> for CallFault {
    ghost use Rattle.std.specs.Prelude.{◌≡◌};
    ghost use Rattle.ixp_eval.specs.declared.fault.CallFault.TheVariants.{Failed};

    ghost from_gives = { λ fault e. e ≡ Failed fault };

    fn from(fault: EvalFault) -> CallFault {
        CallFault::Failed { fault }
    }
}

impl From<AllocError> for CallFault {
    ghost use Rattle.std.specs.Prelude.{◌≡◌};
    ghost use Rattle.ixp_eval.specs.declared.fault.CallFault.TheVariants.{Failed};
    ghost use Rattle.ixp_eval.specs.declared.fault.EvalFault.TheVariants.{NoMemory};

    ghost from_gives = { λ _ e. e ≡ Failed NoMemory };

    fn from(_error: AllocError) -> CallFault {
        CallFault::Failed {
            fault: EvalFault::NoMemory,
        }
    }
}

impl<T: Drop> From<AllocFailed<T>> for CallFault {
    ghost use Rattle.std.specs.Prelude.{◌≡◌};
    ghost use Rattle.ixp_eval.specs.declared.fault.CallFault.TheVariants.{Failed};
    ghost use Rattle.ixp_eval.specs.declared.fault.EvalFault.TheVariants.{NoMemory};

    ghost from_gives = { λ _ e. e ≡ Failed NoMemory };

    fn from(_error: AllocFailed<T>) -> CallFault {
        CallFault::Failed {
            fault: EvalFault::NoMemory,
        }
    }
}
