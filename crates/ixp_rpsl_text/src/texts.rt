//! The lines of listings.
ghost use Rattle.std.specs.Prelude.{◌≡◌, ◌++◌, ◌∷◌, decimal, OnOk, IfOk};
ghost use Rattle.ixp_num.specs.Printing.{prefix_text};
ghost use Rattle.ixp_rpsl_text.specs.Texts.{
  asn_line,
  lines_text,
  origins_text,
  prefixes_text,
  reach_line,
  sets_text,
};

use ixp_num::{Asn, Prefix, print_asn, print_prefix};
use ixp_num_tables::{Writes, put, put_number};
use ixp_rpsl::Reach;
use std::alloc::{AllocError, Global};

/// A set and its place.
struct Sets;

impl Writes for Sets {
    type Item = Reach;

    ghost text_of = { reach_line };

    fn write(item: &Reach, out: &mut Vec<u8>) -> Result<(), AllocError> {
        put(out, item.set.as_bytes())?;
        put(out, b" ")?;
        put_number(out, item.by)
    }
}

/// An AS number.
struct Origins;

impl Writes for Origins {
    type Item = Asn;

    ghost text_of = { asn_line };

    fn write(item: &Asn, out: &mut Vec<u8>) -> Result<(), AllocError> {
        put(out, b"AS")?;
        print_asn(*item, out)
    }
}

/// A prefix.
struct Prefixes;

impl Writes for Prefixes {
    type Item = Prefix;

    ghost text_of = { prefix_text };

    fn write(item: &Prefix, out: &mut Vec<u8>) -> Result<(), AllocError> {
        print_prefix(item, out)
    }
}

/// The items' texts, each with a line feed behind it.
fn lines_of<W: Writes>(alloc: Global, items: &[W::Item]) -> Result<Vec<u8>, AllocError>
    ensures { IfOk result (λ text. text.items ≡ lines_text W.text_of items.now) }
{
    let mut text = Vec::new(alloc);
    for item in items {
        W::write(item, &mut text)?;
        put(&mut text, b"\n")?;
    }
    Ok(text)
}

/// The sets of an expansion, each with the place of a set that names it.
pub(crate) fn sets_text(alloc: Global, c: &[Reach]) -> Result<Vec<u8>, AllocError>
    ensures { IfOk result (λ text. text.items ≡ sets_text c.now) }
{
    lines_of::<Sets>(alloc, c)
}

/// AS numbers, each with `AS` before it.
pub(crate) fn origins_text(alloc: Global, origins: &[Asn]) -> Result<Vec<u8>, AllocError>
    ensures { IfOk result (λ text. text.items ≡ origins_text origins.now) }
{
    lines_of::<Origins>(alloc, origins)
}

/// Prefixes.
pub(crate) fn prefixes_text(alloc: Global, prefixes: &[Prefix]) -> Result<Vec<u8>, AllocError>
    ensures { IfOk result (λ text. text.items ≡ prefixes_text prefixes.now) }
{
    lines_of::<Prefixes>(alloc, prefixes)
}
