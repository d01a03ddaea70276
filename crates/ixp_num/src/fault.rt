//! Why a text of numbers isn't read.

use thiserror::Error;

/// Why bytes are no address, prefix, pattern or AS number. Places are counted in bytes, from 0.
#[derive(Clone, Copy, Debug, PartialEq, Eq, Error)]
pub enum NumFault {
    /// The bytes are no such text, of either family, however large its numbers. The byte at `at` is the first
    /// with which none goes on; where the bytes end too early `at` is their number. So a leading zero is a
    /// fault at the digit behind it, but for the first of four numbers with dots, since `01` is a group of an
    /// IPv6 address.
    #[error("no such text goes on at byte {at}")]
    Text { at: usize },
    /// The number that begins at `at` is the first one above its bound: 255 between dots and braces, the
    /// family's bits for a length, 4294967295 for an AS number.
    #[error("the number at byte {at} is too large")]
    Range { at: usize },
    /// Bits behind the prefix's length aren't 0.
    #[error("bits behind the prefix's length are set")]
    HostBits,
}
