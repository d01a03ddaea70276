//! Why a text is no list.
use thiserror::Error;

/// Why a text is no list. Lines are counted from 1, also those that are empty or comments.
#[derive(Debug, Drop, PartialEq, Error)]
pub enum ListFault {
    /// I1: the line is no item of the list.
    #[error("line {n} is no item of the list")]
    Line { n: usize },
    /// I2: the line is a prefix of the other family.
    #[error("line {n} is a prefix of the other family")]
    Family { n: usize },
    /// I3: there are so many distinct items, more than 300,000.
    #[error("there are {have} items")]
    TooLong { have: usize },
    /// Memory ran out.
    #[error("memory ran out")]
    NoMemory,
}

/// Why a line is no item.
#[derive(Clone, Copy, Debug)]
pub(crate) enum Misfit {
    Form,
    Family,
}
