//! The attributes of an object.
//!
//! An attribute is a name, a colon and a value, which goes on in the next lines that begin with a blank or
//! `+` (RFC 2622 section 2).
ghost use Rattle.std.specs.Prelude.{
  ◌≡◌,
  ◌≤◌,
  ◌++◌,
  ◌∷◌,
  List,
  [],
  ◌==◌,
  ◌||◌,
  not,
  length,
  drop,
  OnOk,
  IfOk,
  IfSome,
  IfNone,
  MatchOption,
};
ghost use Rattle.std.specs.Option.{option_map};
ghost use Rattle.std.specs.List.{position};
ghost use Rattle.ixp_rpsl.specs.Lines.{Line, line_of, lines_ahead};
ghost use Rattle.ixp_rpsl.specs.Attributes as spec;

use crate::ahead::{Ahead, Line};
use crate::lines::before;
use ixp_num::Items;
use ixp_num_tables::put;
use std::alloc::{AllocError, Global};

/// An attribute's value, and the line where it begins.
#[derive(Debug, Drop)]
pub struct Attribute {
    pub line: usize,
    pub value: Items<u8>,
}

/// Whether a byte stands in names.
fn is_name_byte(byte: u8) -> bool
    ensures { result ≡ (spec.is_letter_or_digit byte || byte == 45) }
{
    byte.is_ascii_alphanumeric() || byte == b'-'
}

/// Where a name ends.
fn name_end(line: &[u8]) -> Option<usize>
    ensures { result ≡ position (λ b. not (spec.is_letter_or_digit b || b == 45)) line.now }
{
    line.iter().position(|b| !is_name_byte(*b))
}

/// The name of a line, and what is behind its colon.
pub fn named(line: &[u8]) -> Option<(&[u8], &[u8])>
    ensures { option_map (λ p. (p.0.now, p.1.now)) result ≡ spec.named line.now }
{
    match name_end(line) {
        Some(at) => {
            if at >= 1 && line[at] == b':' {
                Some((&line[..at], &line[at + 1..]))
            } else {
                None
            }
        }
        None => None,
    }
}

/// Whether a name is this word, which has no upper case.
pub fn is_word(word: &[u8], name: &[u8]) -> bool
    ensures { result ≡ spec.is_word word.now name.now }
{
    let mut left = name;
    let mut rest = word;
    'bytes: while let Some((byte, bytes)) = left.split_first() {
        match rest.split_first() {
            Some((sought, others)) => {
                if byte.to_ascii_lowercase() != *sought {
                    return false;
                }
                left = bytes;
                rest = others;
            }
            None => return false,
        }
    }
    rest.is_empty()
}

/// Whether a line goes on with the value before it.
pub(crate) fn goes_on(line: &[u8]) -> bool
    ensures { result ≡ spec.goes_on line.now }
{
    match line {
        [b' ' | b'\t' | b'+', ..] => true,
        _ => false,
    }
}

/// The earlier of two lines.
pub(crate) fn earlier(one: Option<usize>, other: Option<usize>) -> Option<usize>
    ensures { result ≡ spec.earlier one other }
{
    match (one, other) {
        (Some(m), Some(n)) => { if m <= n { Some(m) } else { Some(n) } }
        (Some(m), None) => Some(m),
        (None, other) => other,
    }
}

/// Adds a blank and what a line that goes on with a value says.
fn put_part(value: &mut Vec<u8>, line: &[u8]) -> Result<(), AllocError>
    requires { 1 ≤ length line.now }
    ensures { OnOk result (value.new.items ≡ value.old.items ++ 32 ∷ spec.uncommented (drop 1 line.now)) }
{
    put(value, b" ")?;
    put(value, before(b'#', &line[1..]))?;
    Ok(())
}

/// Adds what the next lines say to a value, and tells what is behind them.
#[tactic(auto, using(crate::proofs::Going::going_more, crate::proofs::Going::going_none))]
fn put_going<'a>(value: &mut Vec<u8>, ahead: Ahead<'a>) -> Result<Ahead<'a>, AllocError>
    ensures { IfOk result
        (λ rest. (value.new.items ≡ value.old.items ++ spec.going (lines_ahead ahead.entry))
        × (lines_ahead rest ≡ spec.past_value (lines_ahead ahead.entry))
        × (length rest.text.now ≤ length ahead.entry.text.now)) }
{
    let mut rest = ahead;
    'lines: while let Some((line, more)) = rest.next_line() {
        if !goes_on(line.bytes) {
            return Ok(rest);
        }
        put_part(value, line.bytes)?;
        rest = more;
    }
    Ok(rest)
}

/// Adds a value, of which this is in its first line, and tells what is behind it.
pub fn put_value<'a>(
    value: &mut Vec<u8>,
    first: &[u8],
    ahead: Ahead<'a>,
) -> Result<Ahead<'a>, AllocError>
    ensures { IfOk result
        (λ rest. (value.new.items ≡ value.old.items ++ spec.whole_value first.now (lines_ahead ahead.entry))
        × (lines_ahead rest ≡ spec.past_value (lines_ahead ahead.entry))
        × (length rest.text.now ≤ length ahead.entry.text.now)) }
{
    put(value, before(b'#', first))?;
    put_going(value, ahead)
}
