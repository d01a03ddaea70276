//! Items of lists, at the front of a text.
//!
//! A reader that fails says how many bytes are left where no item goes on.
ghost use Rattle.std.specs.Prelude.{◌≡◌, ℕ, List, Result};
ghost use Rattle.ixp_num.specs.Reading.{Gives};
ghost use Rattle.ixp_lang.specs.RouteReading.{number, asn_item, pair_item, triple_item};

use ixp_num::{Asn, mark_of, number_of};

/// One kind of items.
pub(crate) trait Reads {
    type Item: Drop;

    /// The item at the front of a text, and what is behind it.
    ghost item_of: { List ℕ → Result (Self.Item × List ℕ) ℕ };

    /// The item at the front, and what is behind it.
    fn read(t: &[u8]) -> Result<(Self::Item, &[u8]), usize>
        ensures { Gives (λ x. (x.0, x.1.now)) result (item_of t.now) };
}

/// The number at the front, of at most `bound`, and what is behind it.
fn number_within(bound: u32, t: &[u8]) -> Result<(u32, &[u8]), usize>
    ensures { Gives (λ x. (x.0, x.1.now)) result (number bound t.now) }
{
    let (number, rest) = number_of(t)?;
    if number > u64::from(bound) {
        return Err(t.len());
    }
    Ok((number as u32, rest))
}

/// AS numbers.
pub(crate) struct Asns;

impl Reads for Asns {
    type Item = Asn;

    ghost item_of = { asn_item };

    fn read(t: &[u8]) -> Result<(Asn, &[u8]), usize> {
        let (number, rest) = number_within(u32::MAX, t)?;
        Ok((Asn(number), rest))
    }
}

/// Communities: two numbers of 16 bits, joined by a colon.
pub(crate) struct Pairs;

impl Reads for Pairs {
    type Item = (u32, u32);

    ghost item_of = { pair_item };

    fn read(t: &[u8]) -> Result<((u32, u32), &[u8]), usize> {
        let (first, rest) = number_within(65535, t)?;
        let rest = mark_of(b':', rest)?;
        let (second, rest) = number_within(65535, rest)?;
        Ok(((first, second), rest))
    }
}

/// Large communities: three numbers, joined by colons.
pub(crate) struct Triples;

impl Reads for Triples {
    type Item = (u32, u32, u32);

    ghost item_of = { triple_item };

    fn read(t: &[u8]) -> Result<((u32, u32, u32), &[u8]), usize> {
        let (first, rest) = number_within(u32::MAX, t)?;
        let rest = mark_of(b':', rest)?;
        let (second, rest) = number_within(u32::MAX, rest)?;
        let rest = mark_of(b':', rest)?;
        let (third, rest) = number_within(u32::MAX, rest)?;
        Ok(((first, second, third), rest))
    }
}
