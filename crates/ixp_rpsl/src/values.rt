//! The values of attributes.
ghost use Rattle.std.specs.Prelude.{
  ◌≡◌,
  ◌↔◌,
  ◌<◌,
  ◌∷◌,
  [],
  ◌++◌,
  ◌==◌,
  ◌&&◌,
  ◌||◌,
  not,
  Some,
  map,
  reverse,
  length,
  IfOk,
  IfErr,
  OnOk,
  IfSome,
  MatchOption,
  true,
  IsTrue,
};
ghost use Rattle.std.specs.Option.{option_map};
ghost use Rattle.std.specs.List.{list_all, list_any, slice_split};
ghost use Rattle.std.specs.Char.{to_ascii_uppercase};
ghost use Rattle.ixp_num.specs.Families.{same_family};
ghost use Rattle.ixp_rpsl.specs.Attributes.{is_blank, is_empty, is_letter_or_digit};
ghost use Rattle.ixp_rpsl.specs.Values as spec;
ghost use Rattle.ixp_rpsl.specs.Puts.{Puts, parts_of};

use crate::lines::parted;
use crate::objects::Item;
use arrayvec::ArrayVec;
use ixp_num::{Asn, Family, Items, Name, Prefix, read_prefix};
use ixp_num_tables::number_upto;
use std::alloc::{AllocError, Global};

fn is_blank(byte: u8) -> bool
    ensures { result ≡ is_blank byte }
{
    byte == b' ' || byte == b'\t'
}

/// A text without the blanks before it.
pub fn trimmed_start(t: &[u8]) -> &[u8]
    ensures { result.now ≡ spec.trimmed_start t.now }
{
    let mut left = t;
    'bytes: while let [first, rest @ ..] = left {
        if !is_blank(*first) {
            return left;
        }
        left = rest;
    }
    left
}

/// A text without the blanks behind it.
fn trimmed_end(t: &[u8]) -> &[u8]
    ensures { result.now ≡ reverse (spec.trimmed_start (reverse t.now)) }
{
    let mut left = t;
    'bytes: while let [front @ .., last] = left {
        if !is_blank(*last) {
            return left;
        }
        left = front;
    }
    left
}

/// A text without the blanks before and behind it.
pub fn trimmed(t: &[u8]) -> &[u8]
    ensures { result.now ≡ spec.trimmed t.now }
{
    trimmed_end(trimmed_start(t))
}

/// Whether the prefix is of the family.
pub(crate) fn is_of(prefix: &Prefix, family: Family) -> bool
    ensures same { result ≡ same_family prefix.now.family family }
    ensures equal { IsTrue result ↔ (prefix.now.family ≡ family) }
{
    match (prefix.family, family) {
        (Family::V4, Family::V4) | (Family::V6, Family::V6) => true,
        (Family::V4, Family::V6) | (Family::V6, Family::V4) => false,
    }
}

/// The prefix of this family that a text is.
pub fn prefix_of(t: &[u8], family: Family) -> Option<Prefix>
    ensures { spec.SaysPrefix family t.now result }
{
    match read_prefix(t) {
        Ok(prefix) => {
            if is_of(&prefix, family) {
                Some(prefix)
            } else {
                None
            }
        }
        Err(_) => None,
    }
}

/// The AS number that a text is: `AS` in any case, and a decimal number.
pub fn as_number(t: &[u8]) -> Option<Asn>
    ensures { result ≡ spec.as_number t.now }
{
    match t {
        [a, s, digits @ ..] => {
            if a.to_ascii_uppercase() == b'A' && s.to_ascii_uppercase() == b'S' {
                match number_upto(u64::from(u32::MAX), digits) {
                    Some(number) => Some(Asn(number as u32)),
                    None => None,
                }
            } else {
                None
            }
        }
        _ => None,
    }
}

/// Whether a text is empty.
pub fn is_nothing(t: &[u8]) -> bool
    ensures { result ≡ is_empty t.now }
{
    match t {
        [] => true,
        _ => false,
    }
}

fn is_set_byte(byte: u8) -> bool
    ensures { result ≡ (is_letter_or_digit byte || byte == 45 || byte == 95) }
{
    byte.is_ascii_alphanumeric() || byte == b'-' || byte == b'_'
}

fn are_set_bytes(bytes: &[u8]) -> bool
    ensures { result ≡ list_all (λ b. is_letter_or_digit b || b == 45 || b == 95) bytes.now }
{
    bytes.iter().all(|b| is_set_byte(*b))
}

/// Whether a part of a name is a set's.
fn is_set_part(part: &[u8]) -> bool
    ensures { result ≡ spec.is_set_part part.now }
{
    match part {
        [b'A', b'S', b'-', rest @ ..] => !is_nothing(rest) && are_set_bytes(rest),
        _ => false,
    }
}

/// What is before the first such byte, and what is behind it where there is one.
pub fn first_part(mark: u8, t: &[u8]) -> (&[u8], Option<&[u8]>)
    ensures parts { slice_split (λ b. b == mark) t.now
        ≡ result.0.now ∷ parts_of mark (option_map (λ r. r.now) result.1) }
    ensures shorter { IfSome result.1 (λ r. length r.now < length t.now) }
{
    match parted(mark, t) {
        Some((part, rest)) => (part, Some(rest)),
        None => (t, None),
    }
}

/// Whether the parts of a name are names of sets or AS numbers, and one is a set's.
pub fn are_name_parts(t: &[u8]) -> bool
    ensures { result ≡ (list_all spec.is_name_part
        (slice_split (λ b. b == 58) t.now) && list_any spec.is_set_part
        (slice_split (λ b. b == 58) t.now)) }
{
    let mut left = Some(t);
    let mut has_set = false;
    'parts: while let Some(rest) = left {
        let (part, more) = first_part(b':', rest);
        if is_set_part(part) {
            has_set = true;
        } else if as_number(part).is_none() {
            return false;
        }
        left = more;
    }
    has_set
}

fn is_set_name(t: &[u8]) -> bool
    ensures { result ≡ spec.is_set_name t.now }
{
    Name::is_name(t) && are_name_parts(t)
}

/// The most bytes of a set name.
const MOST: usize = 64;

/// A text in upper case, if it isn't longer than a name.
pub fn upper(t: &[u8]) -> Option<ArrayVec<u8, MOST>>
    ensures { MatchOption result (64 < length t.now) (λ u. u.items ≡ map to_ascii_uppercase t.now) }
{
    if MOST < t.len() {
        return None;
    }
    let mut upper = ArrayVec::new();
    let mut left = t;
    'bytes: while let Some((byte, rest)) = left.split_first() {
        upper.push(byte.to_ascii_uppercase());
        left = rest;
    }
    Some(upper)
}

/// The set name that a text is in any case: names of sets, each `AS-` and letters, digits, `-` or `_`, and AS
/// numbers with colons between them, at least one of them a set's. It is kept in upper case. Memory runs out
/// only where the text is a set name.
#[tactic(auto, using(crate::proofs::LongNames::no_long_name))]
pub fn read_set_name(alloc: Global, t: &[u8]) -> Result<Option<Name>, AllocError>
    ensures ok { IfOk result (λ name. name ≡ spec.set_name t.now) }
    ensures err { IfErr result (λ e. spec.is_set_name (map to_ascii_uppercase t.now) ≡ true) }
{
    let Some(upper) = upper(t) else {
        return Ok(None);
    };
    if is_set_name(upper.as_slice()) {
        let name = Name::new(alloc, upper.as_slice())?;
        Ok(Some(name))
    } else {
        Ok(None)
    }
}

/// The member that a text is.
fn item_of(alloc: Global, t: &[u8]) -> Result<Option<Item>, AllocError>
    ensures { IfOk result (λ i. i ≡ spec.item_of t.now) }
{
    if let Some(asn) = as_number(t) {
        return Ok(Some(Item::As(asn)));
    }
    match read_set_name(alloc, t)? {
        Some(name) => Ok(Some(Item::Set(name))),
        None => Ok(None),
    }
}

/// Adds the member that a part of a value is, if it isn't empty, and tells whether it is one.
fn put_item(alloc: Global, items: &mut Items<Item>, part: &[u8]) -> Result<bool, AllocError>
    ensures { IfOk result (λ fine. Puts (spec.items_in (part.now ∷ [])) fine items.old items.new) }
{
    let part = trimmed(part);
    if is_nothing(part) {
        return Ok(true);
    }
    match item_of(alloc, part)? {
        Some(item) => {
            items.push(item)?;
            Ok(true)
        }
        None => Ok(false),
    }
}

/// Adds the members that a value lists with commas between them, and tells whether each is one.
pub(crate) fn put_items(
    alloc: Global,
    items: &mut Items<Item>,
    value: &[u8],
) -> Result<bool, AllocError>
    ensures { IfOk result (λ fine. Puts (spec.items_of value.now) fine items.old items.new) }
{
    let mut left = Some(value);
    'parts: while let Some(rest) = left {
        let (part, more) = first_part(b',', rest);
        if !put_item(alloc, items, part)? {
            return Ok(false);
        }
        left = more;
    }
    Ok(true)
}
