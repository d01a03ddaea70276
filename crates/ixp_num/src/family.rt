//! The two address families.
ghost use Rattle.std.specs.Prelude.{◌≡◌};
ghost use Rattle.ixp_num.specs.Families.{bits_of};

/// An address family: IPv4 (RFC 791) or IPv6 (RFC 8200). IPv4 comes first.
#[derive(Clone, Copy, Debug, PartialEq, Eq, PartialOrd, Ord, Hash)]
pub enum Family {
    V4,
    V6,
}

impl Family {
    /// The bits of an address: 32 or 128. No prefix of the family is longer.
    pub fn bits(self) -> u8
        ensures { result ≡ bits_of self }
    {
        match self {
            Family::V4 => 32,
            Family::V6 => 128,
        }
    }
}
