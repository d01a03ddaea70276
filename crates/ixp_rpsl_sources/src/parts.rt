//! What the values of attributes list.
ghost use Rattle.std.specs.Prelude.{◌≡◌, ◌++◌, ◌==◌, ℕ, List, map, OnOk, IfOk};
ghost use Rattle.std.specs.List.{slice_split};
ghost use Rattle.std.specs.Char.{to_ascii_uppercase};
ghost use Rattle.ixp_rpsl_sources.specs.Parts.{
  in_parts,
  in_values,
  says_member,
  says_name,
  says_stranger,
  says_word,
};

use crate::names::{is_member, read_member};
use ixp_num::{Items, Name};
use ixp_rpsl::attributes::Attribute;
use ixp_rpsl::values::{first_part, is_nothing, trimmed};
use ixp_rpsl::{Item, read_set_name};
use std::alloc::{AllocError, Global};

/// What a part of a value says.
pub(crate) trait Says {
    type Item: Drop;

    /// What a part says that stands in a value which begins in a line.
    ghost says: { ℕ → List ℕ → List Self.Item };

    /// Adds what a part says.
    fn put(
        alloc: Global,
        line: usize,
        part: &[u8],
        out: &mut Items<Self::Item>,
    ) -> Result<(), AllocError>
        ensures { OnOk result (out.new ≡ out.old ++ says line part.now) };
}

/// The member that a part is.
pub(crate) struct Members;

impl Says for Members {
    type Item = Item;

    ghost says = { says_member };

    fn put(
        alloc: Global,
        line: usize,
        part: &[u8],
        out: &mut Items<Item>,
    ) -> Result<(), AllocError> {
        match read_member(alloc, part)? {
            Some(item) => out.push(item),
            None => Ok(()),
        }
    }
}

/// The line of a part that is no member.
pub(crate) struct Strangers;

impl Says for Strangers {
    type Item = usize;

    ghost says = { says_stranger };

    fn put(
        alloc: Global,
        line: usize,
        part: &[u8],
        out: &mut Items<usize>,
    ) -> Result<(), AllocError> {
        if is_nothing(part) || is_member(part) {
            return Ok(());
        }
        out.push(line)
    }
}

/// The name of a set that a part is.
pub(crate) struct Names;

impl Says for Names {
    type Item = Name;

    ghost says = { says_name };

    fn put(
        alloc: Global,
        line: usize,
        part: &[u8],
        out: &mut Items<Name>,
    ) -> Result<(), AllocError> {
        match read_set_name(alloc, part)? {
            Some(name) => out.push(name),
            None => Ok(()),
        }
    }
}

/// A word in upper case.
pub(crate) struct Words;

impl Says for Words {
    type Item = Items<u8>;

    ghost says = { says_word };

    fn put(
        alloc: Global,
        line: usize,
        part: &[u8],
        out: &mut Items<Items<u8>>,
    ) -> Result<(), AllocError> {
        if is_nothing(part) {
            return Ok(());
        }
        let word = in_upper(alloc, part)?;
        out.push(word)
    }
}

/// A text in upper case.
fn in_upper(alloc: Global, t: &[u8]) -> Result<Items<u8>, AllocError>
    ensures { IfOk result (λ word. word ≡ map to_ascii_uppercase t.now) }
{
    let mut word = Vec::new(alloc);
    let mut left = t;
    'bytes: while let Some((byte, rest)) = left.split_first() {
        word.push(byte.to_ascii_uppercase())?;
        left = rest;
    }
    Ok(Items::from_vec(word))
}

/// Adds what the parts of a value say.
fn put_parts<S: Says>(
    alloc: Global,
    value: &Attribute,
    out: &mut Items<S::Item>,
) -> Result<(), AllocError>
    ensures { OnOk result (out.new ≡ out.old
        ++ in_parts S.says value.now.line (slice_split (λ b. b == 44) value.now.value)) }
{
    let mut left = Some(value.value.as_slice());
    'parts: while let Some(rest) = left {
        let (part, more) = first_part(b',', rest);
        S::put(alloc, value.line, trimmed(part), out)?;
        left = more;
    }
    Ok(())
}

/// What values say.
pub(crate) fn listed<S: Says>(
    alloc: Global,
    values: &[Attribute],
) -> Result<Items<S::Item>, AllocError>
    ensures { IfOk result (λ list. list ≡ in_values S.says values.now) }
{
    let mut list = Items::new(alloc);
    let mut left = values;
    'values: while let Some((value, others)) = left.split_first() {
        put_parts::<S>(alloc, value, &mut list)?;
        left = others;
    }
    Ok(list)
}
