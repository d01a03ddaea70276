//! Why a reader of tokens stops.
ghost use Rattle.std.specs.Prelude.{◌≡◌};
ghost use Rattle.ixp_lang_tokens.specs.declared.fault.Fault.TheVariants.{NoMemory};

use std::alloc::{AllocError, AllocFailed};

/// Why a reader stops, as far as the reader can tell.
#[derive(Clone, Copy)]
pub enum Cause {
    /// A number above its bound.
    Number,
    /// What it is called depends on the token that stands there.
    Unexpected,
    /// No item or parameter of the wanted sort has the name.
    Unknown,
    /// The name is taken.
    Twice,
    /// `&&` and `||` side by side.
    Mixed,
    /// Types don't fit.
    Misfit,
    /// Too many levels.
    Deep,
    /// The profile leaves it out.
    Foreign,
}

/// Why a reader gives no tree.
#[derive(Clone, Copy)]
pub enum Fault {
    NoMemory,
    /// The cause, and how many tokens are left at its place.
    Stop(Cause, usize),
}

impl From<AllocError> for Fault {
    ghost from_gives = { λ _ e. e ≡ NoMemory };

    fn from(_error: AllocError) -> Fault {
        Fault::NoMemory
    }
}

impl<T: Drop> From<AllocFailed<T>> for Fault {
    ghost from_gives = { λ _ e. e ≡ NoMemory };

    fn from(_error: AllocFailed<T>) -> Fault {
        Fault::NoMemory
    }
}
