//! Reading of addresses, prefixes, patterns and AS numbers.
ghost use Rattle.std.specs.Prelude.{◌≡◌, [], ◌∷◌, length, min, IfOk};
ghost use Rattle.ixp_num.specs.Forms.{bounded};
ghost use Rattle.ixp_num.specs.AddressForms.{address_form, asn_form};
ghost use Rattle.ixp_num.specs.Answers.{AddrAnswer, PrefixAnswer, PatternAnswer, AsnAnswer};
ghost use Rattle.ixp_num.specs.Reading.{
  read,
  Gives,
  said_of,
  IsWhole,
  placed,
  IsAddrOf,
  IsPrefixOf,
  IsPatternOf,
  IsAsnOf,
};

use crate::bits::host_bits;
use crate::reading::{Reading, Tail};
use crate::texts::{dotted_text, farther_of, number_of, placed_in};
use crate::texts6::text6;
use crate::{Addr, Asn, Family, NumFault, Pattern, Prefix};

fn addr_of(t: &[u8], reading: Result<Reading, usize>) -> Result<Addr, NumFault>
    ensures { IsAddrOf (placed (length t.now) reading) result }
{
    let reading = placed_in(t, reading)?;
    Ok(Addr {
        family: reading.family,
        value: reading.value,
    })
}

fn prefix_of(t: &[u8], reading: Result<Reading, usize>) -> Result<Prefix, NumFault>
    ensures { IsPrefixOf (placed (length t.now) reading) result }
{
    let reading = placed_in(t, reading)?;
    if host_bits(reading.family, reading.len, reading.value) != 0 {
        return Err(NumFault::HostBits);
    }
    Ok(Prefix {
        family: reading.family,
        value: reading.value,
        len: reading.len,
    })
}

fn pattern_of(t: &[u8], reading: Result<Reading, usize>) -> Result<Pattern, NumFault>
    ensures { IsPatternOf (placed (length t.now) reading) result }
{
    let prefix = prefix_of(t, reading)?;
    let reading = placed_in(t, reading)?;
    Ok(Pattern {
        prefix,
        low: reading.low,
        high: reading.high,
    })
}

/// An address of either family, and what stands behind it.
fn address_text(tail: Tail, bytes: &[u8]) -> Result<Reading, usize>
    ensures says { Gives said_of result (read (address_form tail) bytes.now) }
    ensures whole { IfOk result (λ r. IsWhole tail r) }
{
    farther_of(dotted_text(tail, Family::V4, 0, bytes), text6(tail, bytes))
}

/// Reads an IPv4 address, four decimal numbers with dots, or an IPv6 address in any spelling of RFC 4291
/// section 2.2. `Range` is at a number with dots above 255.
pub fn read_addr(t: &[u8]) -> Result<Addr, NumFault>
    ensures { AddrAnswer t.now result }
{
    addr_of(t, address_text(Tail::Nothing, t))
}

/// Reads a prefix: an address, a slash, and a length of at most 32 or 128. `HostBits` comes only of a text
/// in which all is within its bounds.
pub fn read_prefix(t: &[u8]) -> Result<Prefix, NumFault>
    ensures { PrefixAnswer t.now result }
{
    prefix_of(t, address_text(Tail::Length, t))
}

/// Reads a pattern: a prefix, and perhaps `{low,high}`, each at most 255; without them both bounds are the
/// prefix's length. A low bound above the high one, or bounds above the family's length, are read.
pub fn read_pattern(t: &[u8]) -> Result<Pattern, NumFault>
    ensures { PatternAnswer t.now result }
{
    pattern_of(t, address_text(Tail::Bounds, t))
}

fn asn_text(t: &[u8]) -> Result<u64, usize>
    ensures { Gives (λ n. bounded 4294967295 n (length t.now) (Ok (min n 4294967295 ∷ []))) result
        (read asn_form t.now) }
{
    let (number, rest) = number_of(t)?;
    if !rest.is_empty() {
        return Err(rest.len());
    }
    Ok(number)
}

fn asn_of(t: &[u8], number: Result<u64, usize>) -> Result<Asn, NumFault>
    ensures { IsAsnOf (length t.now) number result }
{
    match number {
        Ok(number) => match u32::try_from(number) {
            Ok(number) => Ok(Asn(number)),
            Err(_) => Err(NumFault::Range { at: 0 }),
        },
        Err(left) => Err(NumFault::Text {
            at: t.len().saturating_sub(left),
        }),
    }
}

/// Reads an AS number: decimal, without a leading zero, at most 4294967295.
pub fn read_asn(t: &[u8]) -> Result<Asn, NumFault>
    ensures { AsnAnswer t.now result }
{
    asn_of(t, asn_text(t))
}
