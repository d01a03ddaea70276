//! Why there is no answer.
use std::alloc::AllocError;
use thiserror::Error;

/// Why objects aren't read, or a set isn't expanded.
#[derive(Debug, Drop, PartialEq, Error)]
pub enum RpslFault {
    /// J1: the line isn't of its form, or a value or an object that begins in it. Lines are counted from 1.
    #[error("line {n} is not of its form")]
    Line { n: usize },
    /// J2: no object has the set's name.
    #[error("no object has the name of the set")]
    NoSet,
    /// J3: there are so many, more than 300,000.
    #[error("there are {have}")]
    TooMany { have: usize },
    /// Memory ran out.
    #[error("memory ran out")]
    NoMemory,
}

/// Why an object says nothing.
#[derive(Debug, Drop)]
pub(crate) enum ObjectFault {
    /// The line isn't of its form, or the value or the object that begins in it.
    Line(usize),
    /// Memory ran out.
    NoMemory,
}

impl From<AllocError> for ObjectFault {
    ghost use Rattle.std.specs.Prelude.{◌≡◌};
    ghost use Rattle.ixp_rpsl.specs.declared.fault.ObjectFault.TheVariants.{NoMemory};

    ghost from_gives = { λ _ e. e ≡ NoMemory };

    fn from(_: AllocError) -> ObjectFault {
        ObjectFault::NoMemory
    }
}
