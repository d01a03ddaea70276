//! How items of lists are written.
ghost use Rattle.std.specs.Prelude.{◌≡◌, ◌++◌, List, ℕ, OnOk};
ghost use Rattle.ixp_num.specs.Printing.{addr_text, pattern_text};
ghost use Rattle.ixp_print.specs.Texts.{
  range_text,
  part_text,
  pair_text,
  triple_text,
  label_text,
  param_text,
};

use crate::word::{state_word, ty_word};
use ixp_lang::{Label, Ty};
use ixp_num::{Addr, Name, Pattern, print_addr, print_pattern};
use ixp_num_tables::{Writes, put, put_number};
use std::alloc::AllocError;

/// A range, `a..b` or `a`.
pub struct RangeText;

impl Writes for RangeText {
    type Item = (u32, u32);

    ghost text_of = { range_text };

    fn write(item: &(u32, u32), out: &mut Vec<u8>) -> Result<(), AllocError> {
        put_number(out, u64::from(item.0))?;
        if item.0 == item.1 {
            return Ok(());
        }
        put(out, b"..")?;
        put_number(out, u64::from(item.1))
    }
}

pub struct AddrText;

impl Writes for AddrText {
    type Item = Addr;

    ghost text_of = { addr_text };

    fn write(item: &Addr, out: &mut Vec<u8>) -> Result<(), AllocError> {
        print_addr(item, out)
    }
}

pub struct PatternText;

impl Writes for PatternText {
    type Item = Pattern;

    ghost text_of = { pattern_text };

    fn write(item: &Pattern, out: &mut Vec<u8>) -> Result<(), AllocError> {
        print_pattern(item, out)
    }
}

/// A part of a community, or `*`.
fn put_part(out: &mut Vec<u8>, part: Option<u32>) -> Result<(), AllocError>
    ensures { OnOk result (out.new.items ≡ out.old.items ++ part_text part) }
{
    match part {
        Some(n) => put_number(out, u64::from(n)),
        None => put(out, b"*"),
    }
}

/// A community, `(a, b)`.
pub struct PairText;

impl Writes for PairText {
    type Item = (u32, Option<u32>);

    ghost text_of = { pair_text };

    fn write(item: &(u32, Option<u32>), out: &mut Vec<u8>) -> Result<(), AllocError> {
        put(out, b"(")?;
        put_number(out, u64::from(item.0))?;
        put(out, b", ")?;
        put_part(out, item.1)?;
        put(out, b")")
    }
}

/// A large community, `(a, b, c)`.
pub struct TripleText;

impl Writes for TripleText {
    type Item = (u32, u32, Option<u32>);

    ghost text_of = { triple_text };

    fn write(item: &(u32, u32, Option<u32>), out: &mut Vec<u8>) -> Result<(), AllocError> {
        put(out, b"(")?;
        put_number(out, u64::from(item.0))?;
        put(out, b", ")?;
        put_number(out, u64::from(item.1))?;
        put(out, b", ")?;
        put_part(out, item.2)?;
        put(out, b")")
    }
}

/// A label of a `case`.
pub struct LabelText;

impl Writes for LabelText {
    type Item = Label;

    ghost text_of = { label_text };

    fn write(item: &Label, out: &mut Vec<u8>) -> Result<(), AllocError> {
        match *item {
            Label::Range(low, high) => RangeText::write(&(low, high), out),
            Label::State(state) => put(out, state_word(state)),
        }
    }
}

/// A parameter, its type first.
pub struct ParamText;

impl Writes for ParamText {
    type Item = (Ty, Name);

    ghost text_of = { param_text };

    fn write(item: &(Ty, Name), out: &mut Vec<u8>) -> Result<(), AllocError> {
        put(out, ty_word(item.0))?;
        put(out, b" ")?;
        put(out, item.1.as_bytes())
    }
}
