//! The leading bits of an address.
ghost use Rattle.std.specs.Prelude.{◌≡◌, ◌<◌, ◌-◌, ◌%◌, ◌^◌, ◌≤◌, ◌↔◌, ℕ, IsTrue};
ghost use Rattle.ixp_num.specs.Families.{bits_of};
ghost use Rattle.ixp_num.specs.Prefixes.{first_bits};

use crate::Family;

/// The first `len` bits of an address, as a number.
pub fn first_bits(family: Family, len: u8, value: u128) -> u128
    ensures { result ≡ first_bits family len value }
{
    let rest = family.bits().saturating_sub(len);
    if rest == 128 { 0 } else { value >> rest }
}

/// The bits behind the first `len`, as a number.
pub fn host_bits(family: Family, len: u8, value: u128) -> u128
    requires { value < 2 ^ bits_of family }
    ensures { result ≡ value % 2 ^ (bits_of family - len) }
{
    let rest = family.bits().saturating_sub(len);
    if rest == 128 {
        value
    } else {
        value % (1 << rest)
    }
}

/// Whether the number is an address of the family.
pub fn fits(family: Family, value: u128) -> bool
    ensures { IsTrue result ↔ (value < 2 ^ bits_of family) }
{
    match family {
        Family::V4 => value < 1 << 32,
        Family::V6 => true,
    }
}

/// The number with 0 in place of the bits behind the first `len`.
pub fn without_host_bits(family: Family, len: u8, value: u128) -> u128
    requires { value < 2 ^ bits_of family }
    ensures rest { result % 2 ^ (bits_of family - len) ≡ 0 }
    ensures first { first_bits family len result ≡ first_bits family len value }
    ensures below { result ≤ value }
{
    value - host_bits(family, len, value)
}
