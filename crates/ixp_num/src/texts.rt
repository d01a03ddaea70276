//! Readers of texts from the front.
//!
//! A reader that fails says how many bytes are left where no text of its form goes on.
ghost use Rattle.std.specs.Prelude.{◌≡◌, ◌+◌, ◌*◌, ◌^◌, ◌≤◌, ◌<◌, ℕ, min, length, IfOk, IfSome, option_map};
ghost use Rattle.ixp_num.specs.Families.{bits_of};
ghost use Rattle.ixp_num.specs.Forms.{End};
ghost use Rattle.ixp_num.specs.AddressForms.{numbers, bounds_form, tail_form, dotted_form};
ghost use Rattle.ixp_num.specs.Reading.{
  Gives,
  digits_after,
  number_at,
  hex_at,
  group_at,
  mark_at,
  end_at,
  farther,
  read,
  said_of,
  IsWhole,
  placed,
};

use crate::reading::{Reading, Tail};
use crate::{Family, NumFault};

/// A number from here on is above every bound.
const CAP: u64 = 1 << 32;

fn digits_of(first: u64, bytes: &[u8]) -> (u64, &[u8])
    requires { first ≤ 2 ^ 32 }
    ensures { (result.0, result.1.now) ≡ digits_after first bytes.now }
{
    let mut number = first;
    let mut rest = bytes;
    'digits: while let [digit, after @ ..] = rest {
        if !digit.is_ascii_digit() {
            break;
        }
        number = CAP.min(number * 10 + u64::from(*digit - b'0'));
        rest = after;
    }
    (number, rest)
}

/// The decimal number at the front, without a leading zero, or 4294967296 where it is greater, and what is
/// behind it. Where no number stands there, `Err` has the number of bytes.
#[tactic(auto, unfolding(crate::specs::Reading::number_at))]
pub fn number_of(bytes: &[u8]) -> Result<(u64, &[u8]), usize>
    ensures { Gives (λ x. (x.0, x.1.now)) result (number_at bytes.now) }
{
    match bytes {
        [] => Err(0),
        [b'0', rest @ ..] => Ok((0, rest)),
        [digit @ b'1'..=b'9', rest @ ..] => Ok(digits_of(u64::from(*digit - b'0'), rest)),
        [_, ..] => Err(bytes.len()),
    }
}

/// What follows this byte at the front. Where another byte or none stands there, `Err` has the number of
/// bytes.
#[tactic(auto, unfolding(crate::specs::Reading::mark_at))]
pub fn mark_of(mark: u8, bytes: &[u8]) -> Result<&[u8], usize>
    ensures { Gives (λ x. x.now) result (mark_at mark bytes.now) }
{
    match bytes {
        [first, rest @ ..] if *first == mark => Ok(rest),
        _ => Err(bytes.len()),
    }
}

/// The reading that came to the end, else how far the one that came farther did.
pub(crate) fn farther_of(
    one: Result<Reading, usize>,
    other: Result<Reading, usize>,
) -> Result<Reading, usize>
    ensures { result ≡ farther one other }
{
    match (one, other) {
        (Ok(reading), _) | (Err(_), Ok(reading)) => Ok(reading),
        (Err(left), Err(less)) => Err(left.min(less)),
    }
}

/// The numbers, where the text ends.
fn end_of(
    family: Family,
    value: u128,
    len: u8,
    low: u8,
    high: u8,
    bytes: &[u8],
) -> Result<Reading, usize>
    requires short { len ≤ bits_of family }
    requires fits { value < 2 ^ bits_of family }
    ensures says { Gives said_of result (end_at (numbers family value len low high) bytes.now) }
    ensures whole { IfOk result (λ r. (r.family ≡ family) × (r.len ≡ len) × (r.low ≡ low) × (r.high ≡ high)) }
{
    if bytes.is_empty() {
        Ok(Reading {
            family,
            value,
            len,
            low,
            high,
            over: None,
        })
    } else {
        Err(bytes.len())
    }
}

/// A pattern's bounds in braces, and the end.
fn bounds_text(family: Family, value: u128, len: u8, bytes: &[u8]) -> Result<Reading, usize>
    requires short { len ≤ bits_of family }
    requires fits { value < 2 ^ bits_of family }
    ensures says { Gives said_of result
        (read (bounds_form (λ low high. End (numbers family value len low high))) bytes.now) }
    ensures whole { IfOk result (λ r. IsWhole Tail.Bounds r) }
{
    let at_low = mark_of(b'{', bytes)?;
    let (low, rest) = number_of(at_low)?;
    let at_high = mark_of(b',', rest)?;
    let (high, rest) = number_of(at_high)?;
    let rest = mark_of(b'}', rest)?;
    let reading = end_of(
        family,
        value,
        len,
        low.min(255) as u8,
        high.min(255) as u8,
        rest,
    )?;
    Ok(
        reading
            .after(high, 255, at_high.len())
            .after(low, 255, at_low.len()),
    )
}

fn length_text(family: Family, value: u128, bytes: &[u8]) -> Result<Reading, usize>
    requires { value < 2 ^ bits_of family }
    ensures says { Gives said_of result (read (tail_form Tail.Length family value) bytes.now) }
    ensures whole { IfOk result (λ r. IsWhole Tail.Length r) }
{
    let at_len = mark_of(b'/', bytes)?;
    let (number, rest) = number_of(at_len)?;
    let len = number.min(u64::from(family.bits())) as u8;
    let reading = end_of(family, value, len, len, len, rest)?;
    Ok(reading.after(number, family.bits(), at_len.len()))
}

fn pattern_text(family: Family, value: u128, bytes: &[u8]) -> Result<Reading, usize>
    requires { value < 2 ^ bits_of family }
    ensures says { Gives said_of result (read (tail_form Tail.Bounds family value) bytes.now) }
    ensures whole { IfOk result (λ r. IsWhole Tail.Bounds r) }
{
    let at_len = mark_of(b'/', bytes)?;
    let (number, rest) = number_of(at_len)?;
    let len = number.min(u64::from(family.bits())) as u8;
    let reading = farther_of(
        end_of(family, value, len, len, len, rest),
        bounds_text(family, value, len, rest),
    )?;
    Ok(reading.after(number, family.bits(), at_len.len()))
}

/// What stands behind an address.
pub(crate) fn tail_text(
    tail: Tail,
    family: Family,
    value: u128,
    bytes: &[u8],
) -> Result<Reading, usize>
    requires { value < 2 ^ bits_of family }
    ensures says { Gives said_of result (read (tail_form tail family value) bytes.now) }
    ensures whole { IfOk result (λ r. IsWhole tail r) }
{
    match tail {
        Tail::Nothing => {
            let bits = family.bits();
            end_of(family, value, bits, bits, bits, bytes)
        }
        Tail::Length => length_text(family, value, bytes),
        Tail::Bounds => pattern_text(family, value, bytes),
    }
}

fn octet_of(number: u64) -> u128
    ensures { result ≡ min number 255 }
{
    u128::from(number.min(255))
}

/// Four decimal numbers with dots, whose value is added to `base`, and what stands behind an address.
pub(crate) fn dotted_text(
    tail: Tail,
    family: Family,
    base: u128,
    bytes: &[u8],
) -> Result<Reading, usize>
    requires { base + 2 ^ 32 ≤ 2 ^ bits_of family }
    ensures says { Gives said_of result (read (dotted_form base (tail_form tail family)) bytes.now) }
    ensures whole { IfOk result (λ r. IsWhole tail r) }
{
    let (a, rest) = number_of(bytes)?;
    let at_b = mark_of(b'.', rest)?;
    let (b, rest) = number_of(at_b)?;
    let at_c = mark_of(b'.', rest)?;
    let (c, rest) = number_of(at_c)?;
    let at_d = mark_of(b'.', rest)?;
    let (d, rest) = number_of(at_d)?;
    let value = ((octet_of(a) * 256 + octet_of(b)) * 256 + octet_of(c)) * 256 + octet_of(d);
    let reading = tail_text(tail, family, base + value, rest)?;
    let reading = reading.after(d, 255, at_d.len()).after(c, 255, at_c.len());
    Ok(reading.after(b, 255, at_b.len()).after(a, 255, bytes.len()))
}

/// The value of the hexadecimal digit at the front, in either case, and what is behind it.
#[tactic(auto, unfolding(crate::specs::Reading::hex_at))]
fn hex_of(bytes: &[u8]) -> Option<(u16, &[u8])>
    ensures reads { option_map (λ x. (x.0, x.1.now)) result ≡ hex_at bytes.now }
    ensures small { IfSome result (λ x. x.0 < 16) }
{
    match bytes {
        [digit @ b'0'..=b'9', rest @ ..] => Some((u16::from(*digit - b'0'), rest)),
        [digit @ b'a'..=b'f', rest @ ..] => Some((u16::from(*digit - b'a') + 10, rest)),
        [digit @ b'A'..=b'F', rest @ ..] => Some((u16::from(*digit - b'A') + 10, rest)),
        _ => None,
    }
}

/// The value of the one to four hexadecimal digits at the front, and what is behind them.
#[tactic(auto, unfolding(crate::specs::Reading::group_at))]
pub(crate) fn group_of(bytes: &[u8]) -> Result<(u16, &[u8]), usize>
    ensures reads { Gives (λ x. (x.0, x.1.now)) result (group_at bytes.now) }
    ensures small { IfOk result (λ x. x.0 < 65536) }
{
    let Some((first, rest)) = hex_of(bytes) else {
        return Err(bytes.len());
    };
    let Some((second, more)) = hex_of(rest) else {
        return Ok((first, rest));
    };
    let group = first * 16 + second;
    let Some((third, rest)) = hex_of(more) else {
        return Ok((group, more));
    };
    let group = group * 16 + third;
    match hex_of(rest) {
        Some((fourth, more)) => Ok((group * 16 + fourth, more)),
        None => Ok((group, rest)),
    }
}

/// A reading of the whole text, or where and why there is none.
pub(crate) fn placed_in(t: &[u8], reading: Result<Reading, usize>) -> Result<Reading, NumFault>
    ensures { result ≡ placed (length t.now) reading }
{
    match reading {
        Ok(reading) => match reading.over {
            None => Ok(reading),
            Some(left) => Err(NumFault::Range {
                at: t.len().saturating_sub(left),
            }),
        },
        Err(left) => Err(NumFault::Text {
            at: t.len().saturating_sub(left),
        }),
    }
}
