//! Sources, and which of them an object is of.
ghost use Rattle.std.specs.Prelude.{◌≡◌, ◌&&◌, ◌||◌, ◌==◌, Some, map, IfOk};
ghost use Rattle.std.specs.List.{list_all, list_any, position};
ghost use Rattle.std.specs.Char.{to_ascii_uppercase};
ghost use Rattle.std.specs.Str.{bytes_eq};
ghost use Rattle.ixp_rpsl.specs.Attributes.{is_blank, is_letter_or_digit};
ghost use Rattle.ixp_rpsl_sources.specs.Sources as spec;

use crate::standing::Standing;
use ixp_num::{Items, Name};
use ixp_rpsl::attributes::Attribute;
use ixp_rpsl::values::{first_part, trimmed_start, upper};
use std::alloc::{AllocError, Global};

/// The most bytes of a source's name.
const MOST_BYTES: usize = 32;

/// The most sources.
const MOST: usize = 16;

fn is_source_byte(byte: u8) -> bool
    ensures { result ≡ (is_letter_or_digit byte || byte == 95 || byte == 45) }
{
    byte.is_ascii_alphanumeric() || byte == b'_' || byte == b'-'
}

fn are_source_bytes(t: &[u8]) -> bool
    ensures { result ≡ list_all (λ b. is_letter_or_digit b || b == 95 || b == 45) t.now }
{
    t.iter().all(|b| is_source_byte(*b))
}

/// Whether a text is a source's name.
pub(crate) fn is_source_name(t: &[u8]) -> bool
    ensures { result ≡ spec.is_source_name t.now }
{
    1 <= t.len() && t.len() <= MOST_BYTES && are_source_bytes(t)
}

fn is_blank(byte: u8) -> bool
    ensures { result ≡ is_blank byte }
{
    byte == b' ' || byte == b'\t'
}

/// Where the first blank is.
fn blank_at(t: &[u8]) -> Option<usize>
    ensures { result ≡ position is_blank t.now }
{
    t.iter().position(|b| is_blank(*b))
}

/// What stands in a value up to a blank.
fn first_word(value: &[u8]) -> &[u8]
    ensures { result.now ≡ spec.first_word value.now }
{
    let value = trimmed_start(value);
    match blank_at(value) {
        Some(at) => &value[..at],
        None => value,
    }
}

/// Whether a text is this one in upper case.
fn is_upper_of(upper: &[u8], t: &[u8]) -> bool
    ensures { result ≡ bytes_eq upper.now (map to_ascii_uppercase t.now) }
{
    let mut left = t;
    let mut rest = upper;
    'bytes: while let Some((byte, bytes)) = left.split_first() {
        match rest.split_first() {
            Some((sought, others)) => {
                if byte.to_ascii_uppercase() != *sought {
                    return false;
                }
                left = bytes;
                rest = others;
            }
            None => return false,
        }
    }
    rest.is_empty()
}

/// The place of a source in a list.
fn place_of(sources: &[Name], name: &[u8]) -> Option<usize>
    ensures { result ≡ spec.place_of sources.now name.now }
{
    sources.iter().position(|s| is_upper_of(s.as_bytes(), name))
}

/// Where an object stands by the values of its source.
pub(crate) fn standing_of(sources: &[Name], values: &[Attribute]) -> Standing
    ensures { result ≡ spec.standing_of sources.now values.now }
{
    match values.first() {
        Some(value) => match place_of(sources, first_word(value.value.as_slice())) {
            Some(place) => Standing::At(place),
            None => Standing::Elsewhere,
        },
        None => Standing::Nowhere,
    }
}

fn is_listed(sources: &[Name], name: &[u8]) -> bool
    ensures { result ≡ list_any (λ s. bytes_eq s name.now) sources.now }
{
    sources.iter().any(|s| s.as_bytes() == name)
}

/// A text in upper case, if it is a source's name.
#[tactic(auto, using(crate::proofs::Naming::source_is_name, crate::proofs::Naming::long_is_none))]
fn source_of(alloc: Global, t: &[u8]) -> Result<Option<Name>, AllocError>
    ensures { IfOk result (λ name. name ≡ spec.source_of t.now) }
{
    let Some(name) = upper(t) else {
        return Ok(None);
    };
    if is_source_name(name.as_slice()) {
        let name = Name::new(alloc, name.as_slice())?;
        Ok(Some(name))
    } else {
        Ok(None)
    }
}

/// The names between commas in upper case, if each is a source's.
fn names_between(alloc: Global, t: &[u8]) -> Result<Option<Items<Name>>, AllocError>
    ensures { IfOk result (λ names. names ≡ spec.if_names (spec.sources_in t.now)) }
{
    let mut names = Items::new(alloc);
    let mut left = Some(t);
    'parts: while let Some(rest) = left {
        let (part, more) = first_part(b',', rest);
        let Some(name) = source_of(alloc, part)? else {
            return Ok(None);
        };
        names.push(name)?;
        left = more;
    }
    Ok(Some(names))
}

/// Whether no name stands twice.
fn are_apart(names: &[Name]) -> bool
    ensures { result ≡ spec.are_apart names.now }
{
    let mut left = names;
    'names: while let Some((name, others)) = left.split_first() {
        if is_listed(others, name.as_bytes()) {
            return false;
        }
        left = others;
    }
    true
}

/// The sources that a text lists, in upper case: one to sixteen names with commas between, each of 1 to 32
/// letters, digits, `_` and `-`, and each once in any case.
pub fn read_sources(alloc: Global, t: &[u8]) -> Result<Option<Items<Name>>, AllocError>
    ensures { IfOk result (λ sources. sources ≡ spec.sources_of t.now) }
{
    match names_between(alloc, t)? {
        Some(names) => {
            if names.len() <= MOST && are_apart(names.as_slice()) {
                Ok(Some(names))
            } else {
                Ok(None)
            }
        }
        None => Ok(None),
    }
}
