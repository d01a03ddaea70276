//! What the lines of a list say.
ghost use Rattle.std.specs.Prelude.{◌≡◌, ◌↔◌, ℕ, List, Result, IsTrue};
ghost use Rattle.ixp_irr.specs.declared.fault.Misfit.{Misfit};
ghost use Rattle.ixp_irr.specs.Items.{IsPatternText, IsAsnText, IsRangeText, Says, SaysPrefixOf};

use crate::asns::{asn_of, range_of};
use crate::fault::Misfit;
use ixp_num::{Asn, Family, Pattern, Prefix, read_pattern, read_prefix};
use ixp_num_sorted::Keyed;

/// A kind of lists.
pub(crate) trait Reads {
    type Item: Keyed;

    /// Which item a line is, or why it is none.
    ghost says: { Self → List ℕ → Result Self.Item Misfit → Type 0 };

    /// The item of a line.
    fn item_of(&self, line: &[u8]) -> Result<Self::Item, Misfit>
        ensures { says self.now line.now result };
}

/// Whether the prefix is of the family.
fn is_of(prefix: &Prefix, family: Family) -> bool
    ensures { IsTrue result ↔ (prefix.now.family ≡ family) }
{
    match (prefix.family, family) {
        (Family::V4, Family::V4) | (Family::V6, Family::V6) => true,
        (Family::V4, Family::V6) | (Family::V6, Family::V4) => false,
    }
}

/// Prefixes of a family.
#[derive(Clone, Copy)]
pub(crate) struct Prefixes {
    pub family: Family,
}

impl Reads for Prefixes {
    type Item = Prefix;

    ghost says = { λ s. SaysPrefixOf s.family };

    fn item_of(&self, line: &[u8]) -> Result<Prefix, Misfit> {
        match read_prefix(line) {
            Ok(prefix) => {
                if is_of(&prefix, self.family) {
                    Ok(prefix)
                } else {
                    Err(Misfit::Family)
                }
            }
            Err(_) => Err(Misfit::Form),
        }
    }
}

/// Patterns of both families.
#[derive(Clone, Copy)]
pub(crate) struct Patterns {}

impl Reads for Patterns {
    type Item = Pattern;

    ghost says = { λ s. Says IsPatternText };

    fn item_of(&self, line: &[u8]) -> Result<Pattern, Misfit> {
        match read_pattern(line) {
            Ok(pattern) => Ok(pattern),
            Err(_) => Err(Misfit::Form),
        }
    }
}

/// AS numbers.
#[derive(Clone, Copy)]
pub(crate) struct Asns {}

impl Reads for Asns {
    type Item = Asn;

    ghost says = { λ s. Says IsAsnText };

    fn item_of(&self, line: &[u8]) -> Result<Asn, Misfit> {
        match asn_of(line) {
            Some(asn) => Ok(asn),
            None => Err(Misfit::Form),
        }
    }
}

/// Ranges of AS numbers.
#[derive(Clone, Copy)]
pub(crate) struct Ranges {}

impl Reads for Ranges {
    type Item = (Asn, Asn);

    ghost says = { λ s. Says IsRangeText };

    fn item_of(&self, line: &[u8]) -> Result<(Asn, Asn), Misfit> {
        match range_of(line) {
            Some(range) => Ok(range),
            None => Err(Misfit::Form),
        }
    }
}
