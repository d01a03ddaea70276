//! Prefixes, and which addresses and prefixes lie in one.
ghost use Rattle.std.specs.Prelude.{◌≡◌, ◌<◌, ◌≤◌, ◌^◌, ◌-◌, ◌/◌, ◌%◌, ℕ};
ghost use Rattle.ixp_num.specs.Families.{bits_of};

use crate::bits::{first_bits, fits, host_bits, without_host_bits};
use crate::{Addr, Family};

/// An address prefix (RFC 4632 section 3.1): the first `len` bits of `value`; all its other bits are 0.
/// Prefixes are in the order of their families, then of their numbers, then of their lengths. The number
/// stands first, so that a prefix takes 32 bytes and not 48.
#[derive(Clone, Copy, Debug, PartialEq, Eq)]
pub struct Prefix {
    pub value: u128,
    pub family: Family,
    pub len: u8,
    pub ghost short: { len ≤ bits_of family },
    pub ghost fits: { value < 2 ^ bits_of family },
    pub ghost no_host_bits: { value % 2 ^ (bits_of family - len) ≡ 0 },
}

impl Prefix {
    ghost use Rattle.std.specs.Prelude.{◌≡◌, ◌↔◌, true, IfSome, IfNone, IsNone};
    ghost use Rattle.ixp_num.specs.Families.{IsPrefix};
    ghost use Rattle.ixp_num.specs.Prefixes.{covers, contains, IsParent};

    /// The prefix with this number and length, or None where there is none: where it is too long, or the
    /// number is too large or has host bits.
    pub fn new(family: Family, value: u128, len: u8) -> Option<Prefix>
        ensures some { IfSome result (λ p. (p.family ≡ family) × (p.value ≡ value) × (p.len ≡ len)) }
        ensures none { IfNone result (¬ (IsPrefix family value len)) }
    {
        if len <= family.bits() && fits(family, value) && host_bits(family, len, value) == 0 {
            Some(Prefix { family, value, len })
        } else {
            None
        }
    }

    /// The prefix of this length in which the address lies.
    pub fn truncated(addr: &Addr, len: u8) -> Prefix
        requires { len ≤ bits_of addr.now.family }
        ensures len { result.len ≡ len }
        ensures contains { contains result addr.now ≡ true }
    {
        Prefix {
            family: addr.family,
            value: without_host_bits(addr.family, len, addr.value),
            len,
        }
    }

    /// The prefix that is one bit shorter and covers this one; None exactly at length 0.
    pub fn parent(&self) -> Option<Prefix>
        ensures some { IfSome result (λ q. IsParent self.now q) }
        ensures none { IsNone result ↔ (self.now.len ≡ 0) }
    {
        let len = self.len.checked_sub(1)?;
        Some(Prefix {
            family: self.family,
            value: without_host_bits(self.family, len, self.value),
            len,
        })
    }

    /// Whether the other prefix lies in this one. A prefix covers itself.
    pub fn covers(&self, other: &Prefix) -> bool
        ensures { result ≡ covers self.now other.now }
    {
        self.family == other.family
            && self.len <= other.len
            && first_bits(self.family, self.len, other.value)
                == first_bits(self.family, self.len, self.value)
    }

    /// Whether the address lies in the prefix.
    pub fn contains(&self, addr: &Addr) -> bool
        ensures { result ≡ contains self.now addr.now }
    {
        self.family == addr.family
            && first_bits(self.family, self.len, addr.value)
                == first_bits(self.family, self.len, self.value)
    }
}
