//! Where the reading of a dump stops.
use std::alloc::AllocError;

/// Why a text is no dump: how many bytes are left at the first line that can't stand there.
#[derive(Clone, Copy, Debug, PartialEq, Eq)]
pub(crate) enum Misread {
    /// It is no line of the format.
    Bad { left: usize },
    /// It belongs before the line before it.
    Order { left: usize },
    /// It has the key of the line before it.
    Twice { left: usize },
    NoMemory,
}

impl From<AllocError> for Misread {
    ghost use Rattle.std.specs.Prelude.{◌≡◌};
    ghost use Rattle.ixp_rows.specs.declared.misread.Misread.TheVariants.{NoMemory};

    ghost from_gives = { λ _ e. e ≡ NoMemory };

    fn from(_error: AllocError) -> Misread {
        Misread::NoMemory
    }
}
