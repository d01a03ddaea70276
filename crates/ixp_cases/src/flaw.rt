//! Why a file of cases can't be run.
use std::alloc::{AllocError, AllocFailed};

/// A fault of a field.
#[derive(Clone, Copy, Debug, PartialEq, Eq, Drop)]
pub enum Flaw {
    /// It isn't of the form.
    Form,
    NoMemory,
}

impl From<AllocError> for Flaw {
    fn from(_: AllocError) -> Flaw {
        Flaw::NoMemory
    }
}

impl<T: Drop> From<AllocFailed<T>> for Flaw {
    fn from(_: AllocFailed<T>) -> Flaw {
        Flaw::NoMemory
    }
}
