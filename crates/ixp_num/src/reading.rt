//! What a text of an address, a prefix or a pattern says.
ghost use Rattle.std.specs.Prelude.{◌<◌, ◌≤◌, ◌^◌, ℕ};
ghost use Rattle.ixp_num.specs.Families.{bits_of};

use crate::{Family, NumFault};

/// What stands behind an address: nothing, its length, or its length and perhaps a pattern's bounds.
#[derive(Clone, Copy, Debug, PartialEq, Eq)]
pub(crate) enum Tail {
    Nothing,
    Length,
    Bounds,
}

/// What a text says. Where a number is above its bound, the bound stands in its place, and `over` is how
/// many bytes are left at the first such number.
#[derive(Clone, Copy, Debug)]
pub(crate) struct Reading {
    pub(crate) family: Family,
    pub(crate) value: u128,
    pub(crate) len: u8,
    pub(crate) low: u8,
    pub(crate) high: u8,
    pub(crate) over: Option<usize>,
    pub(crate) ghost short: { len ≤ bits_of family },
    pub(crate) ghost fits: { value < 2 ^ bits_of family },
}

impl Reading {
    ghost use Rattle.std.specs.Prelude.{◌≡◌};
    ghost use Rattle.ixp_num.specs.Forms.{bounded};
    ghost use Rattle.ixp_num.specs.Reading.{said_of, SameNumbers};

    /// The reading with a number before it, at which so many bytes were left.
    pub(crate) fn after(self, number: u64, bound: u8, left: usize) -> Reading
        ensures says { said_of result ≡ bounded bound number left (said_of self) }
        ensures numbers { SameNumbers self result }
    {
        let over = if number <= u64::from(bound) {
            self.over
        } else {
            Some(left)
        };
        Reading {
            family: self.family,
            value: self.value,
            len: self.len,
            low: self.low,
            high: self.high,
            over,
        }
    }
}
