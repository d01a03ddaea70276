//! Why there is no text.
use std::alloc::AllocError;
use thiserror::Error;

/// Why a call made no text.
#[derive(Debug, Drop, PartialEq, Error)]
pub enum GenFault {
    /// No router has the handle.
    #[error("there is no such router")]
    NoRouter,
    /// The interface has no session with the router.
    #[error("there is no such session")]
    NoSession,
    /// Memory ran out.
    #[error("memory ran out")]
    NoMemory,
}

impl From<AllocError> for GenFault {
    ghost use Rattle.std.specs.Prelude.{◌≡◌};
    ghost use Rattle.ixp_compile_text.specs.declared.fault.GenFault.TheVariants.{NoMemory};

    ghost from_gives = { λ _ e. e ≡ NoMemory };

    fn from(_error: AllocError) -> GenFault {
        GenFault::NoMemory
    }
}
