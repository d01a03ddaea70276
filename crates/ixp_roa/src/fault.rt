//! Why a CSV text is no list of ROAs.
use thiserror::Error;

/// Why a CSV text is no list of ROAs. Rows are counted from 1, the header row included.
#[derive(Debug, Drop, PartialEq, Error)]
pub enum RoaFault {
    /// O1: the row has fewer than three fields, or one of them isn't of its form: an AS number, a prefix, and
    /// a decimal number or nothing.
    #[error("row {n} is no ROA")]
    Row { n: usize },
    /// O2: the row's max length is below the prefix's length or above the family's.
    #[error("the max length of row {n} is out of its bounds")]
    MaxLength { n: usize },
    /// O3: there are so many distinct ROAs, more than 1,000,000.
    #[error("there are {have} ROAs")]
    TooMany { have: usize },
    /// Memory ran out.
    #[error("memory ran out")]
    NoMemory,
}

/// Why a row is no ROA.
#[derive(Clone, Copy, Debug)]
pub(crate) enum Misfit {
    Form,
    MaxLength,
}
