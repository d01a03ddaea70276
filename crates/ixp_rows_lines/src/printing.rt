//! Printing lines.
ghost use Rattle.std.specs.Prelude.{◌≡◌, ◌++◌, ◌∷◌, [], ◌<◌, List, OnOk, map, flat_map, length};
ghost use Rattle.ixp_rows_lines.specs.Fields.{field_text, Address};
ghost use Rattle.ixp_num.specs.declared.family.Family.TheVariants.{V4};
ghost use Rattle.ixp_rows_lines.specs.Lines.{
  address_field,
  net_field,
  asn_field,
  field_or,
  action_word,
  text_of,
};
ghost use Rattle.ixp_registry.specs.Kinds.{word_of};
ghost use Rattle.ixp_rows_lines.specs.Printing.{shown};

use crate::Kind;
use crate::free::{put_free, put_secret};
use ixp_num::{Addr, Asn, Family, Pattern, Prefix, print_addr, print_pattern_bounds, print_prefix};
use ixp_num_tables::{put, put_number};
use ixp_registry::Action;
use std::alloc::AllocError;

/// A field to be printed.
#[derive(Clone, Copy)]
pub(crate) enum Shown<'a> {
    Number(u32),
    Octet(u8),
    Word(&'a [u8]),
    Free(&'a [u8]),
    Secret(&'a [u8]),
    Handle(&'a [u8]),
    Address(Addr),
    /// An IPv4 address, as a number.
    Identifier(u32),
    Net(Prefix),
    Bounds(Pattern),
    Action(Action),
}

fn identifier(number: u32) -> Addr
    ensures { address_field result ≡ Address V4 number }
{
    Addr {
        family: Family::V4,
        value: u128::from(number),
    }
}

fn put_action(action: Action, out: &mut Vec<u8>) -> Result<(), AllocError>
    ensures { OnOk result (out.new.items ≡ out.old.items ++ action_word action) }
{
    match action {
        Action::AsIs => put(out, b"as-is"),
        Action::Prepend(number) => {
            put(out, b"prepend")?;
            put_number(out, u64::from(number))?;
            Ok(())
        }
        Action::Stop => put(out, b"stop"),
    }
}

fn put_field(field: &Shown, out: &mut Vec<u8>) -> Result<(), AllocError>
    ensures { OnOk result (out.new.items ≡ out.old.items ++ field_text (shown field.now)) }
{
    match field {
        Shown::Number(number) => put_number(out, u64::from(*number)),
        Shown::Octet(number) => put_number(out, u64::from(*number)),
        Shown::Word(word) => put(out, word),
        Shown::Free(text) => put_free(out, text),
        Shown::Secret(secret) => put_secret(out, secret),
        Shown::Handle(name) => put(out, name),
        Shown::Address(addr) => print_addr(addr, out),
        Shown::Identifier(number) => print_addr(&identifier(*number), out),
        Shown::Net(net) => print_prefix(net, out),
        Shown::Bounds(pattern) => print_pattern_bounds(pattern, out),
        Shown::Action(action) => put_action(*action, out),
    }
}

fn put_fields(fields: &[Shown], out: &mut Vec<u8>) -> Result<(), AllocError>
    ensures { OnOk result
        (out.new.items ≡ out.old.items ++ flat_map (λ field. 32 ∷ field_text field) (map shown fields.now)) }
{
    for field in fields {
        put(out, b" ")?;
        put_field(field, out)?;
    }
    Ok(())
}

/// The word with which the lines of a kind begin.
pub fn word_of(kind: Kind) -> &'static [u8]
    ensures word { result.now ≡ word_of kind }
    ensures some { 0 < length result.now }
{
    kind.word().as_bytes()
}

/// Adds a line: the kind's word, a blank before each field, and the line's end.
pub(crate) fn put_line(kind: Kind, fields: &[Shown], out: &mut Vec<u8>) -> Result<(), AllocError>
    ensures { OnOk result (out.new.items ≡ out.old.items ++ text_of kind (map shown fields.now)) }
{
    put(out, word_of(kind))?;
    put_fields(fields, out)?;
    put(out, b"\n")?;
    Ok(())
}

/// A prefix, or a word for none.
pub(crate) fn net_shown<'a>(net: &Option<Prefix>, none: &'a [u8]) -> Shown<'a>
    ensures { shown result ≡ field_or none.now net_field net.now }
{
    match net {
        Some(net) => Shown::Net(*net),
        None => Shown::Word(none),
    }
}

/// An address, or a word for none.
pub(crate) fn address_shown<'a>(addr: &Option<Addr>, none: &'a [u8]) -> Shown<'a>
    ensures { shown result ≡ field_or none.now address_field addr.now }
{
    match addr {
        Some(addr) => Shown::Address(*addr),
        None => Shown::Word(none),
    }
}

/// An AS number, or a word for none.
pub(crate) fn asn_shown<'a>(asn: &Option<Asn>, none: &'a [u8]) -> Shown<'a>
    ensures { shown result ≡ field_or none.now asn_field asn.now }
{
    match asn {
        Some(asn) => Shown::Number(asn.0),
        None => Shown::Word(none),
    }
}
