//! Addresses.
ghost use Rattle.std.specs.Prelude.{◌<◌, ◌^◌, ℕ};
ghost use Rattle.ixp_num.specs.Families.{bits_of};

use crate::Family;
use crate::bits::fits;

/// An address: its number is the text's bytes in network order.
#[derive(Clone, Copy, Debug, PartialEq, Eq, PartialOrd, Ord)]
pub struct Addr {
    pub family: Family,
    pub value: u128,
    pub ghost fits: { value < 2 ^ bits_of family },
}

impl Addr {
    ghost use Rattle.std.specs.Prelude.{◌≡◌, ◌≤◌, IfSome, IfNone};

    /// The address with this number, or None where the number is too large for the family.
    pub fn new(family: Family, value: u128) -> Option<Addr>
        ensures some { IfSome result (λ a. (a.family ≡ family) × (a.value ≡ value)) }
        ensures none { IfNone result (2 ^ bits_of family ≤ value) }
    {
        if fits(family, value) {
            Some(Addr { family, value })
        } else {
            None
        }
    }
}
