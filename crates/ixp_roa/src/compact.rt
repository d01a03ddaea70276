//! ROAs in little room.
ghost use Rattle.std.specs.Prelude.{◌≡◌, ◌<◌, ◌≤◌, ◌+◌, ◌-◌, ◌*◌, ◌%◌, ◌^◌};
ghost use Rattle.ixp_num.specs.Families.{bits_of};

use ixp_num::{Asn, Family, Prefix, Roa};

/// A ROA in 32 bytes, half of what a `Roa` takes: its prefix's number is in two halves.
#[derive(Clone, Copy, Debug)]
pub(crate) struct CompactRoa {
    family: Family,
    upper: u64,
    lower: u64,
    len: u8,
    max: u8,
    asn: Asn,
    ghost short: { len ≤ bits_of family },
    ghost fits: { upper * 2 ^ 64 + lower < 2 ^ bits_of family },
    ghost no_host_bits: { (upper * 2 ^ 64 + lower) % 2 ^ (bits_of family - len) ≡ 0 },
}

impl CompactRoa {
    ghost use Rattle.std.specs.Prelude.{◌≡◌};
    ghost use Rattle.ixp_roa.specs.Compacts.{roa_of};

    /// The ROA in little room.
    pub(crate) fn of(roa: &Roa) -> CompactRoa
        ensures { roa_of result ≡ roa.now }
    {
        let upper = (roa.prefix.value >> 64) as u64;
        let lower = (roa.prefix.value % (1 << 64)) as u64;
        CompactRoa {
            family: roa.prefix.family,
            upper,
            lower,
            len: roa.prefix.len,
            max: roa.max,
            asn: roa.asn,
        }
    }

    /// The ROA.
    pub(crate) fn roa(&self) -> Roa
        ensures { result ≡ roa_of self.now }
    {
        Roa {
            prefix: Prefix {
                family: self.family,
                value: (u128::from(self.upper) << 64) + u128::from(self.lower),
                len: self.len,
            },
            max: self.max,
            asn: self.asn,
        }
    }
}
