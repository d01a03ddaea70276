//! Members of objects (RFC 8259 section 4).
ghost use Rattle.std.specs.Prelude.{◌≡◌, ◌++◌, OnOk};
ghost use Rattle.ixp_api_json.specs.Members as spec;

use crate::quoting::put_quoted;
use ixp_num::{Asn, Prefix, print_prefix};
use ixp_num_tables::{put, put_number};
use std::alloc::AllocError;

/// Adds a name behind a mark: `{` or `,`.
fn put_name(out: &mut Vec<u8>, mark: &[u8], name: &[u8]) -> Result<(), AllocError>
    ensures { OnOk result (out.new.items ≡ out.old.items ++ spec.name_text mark.now name.now) }
{
    put(out, mark)?;
    put_quoted(out, name)?;
    put(out, b":")
}

/// Adds a member that is a number, behind a mark: `{` or `,`. Where memory runs out, a first part of it may
/// be there.
#[tactic(auto, unfolding(crate::specs::Members::number_member))]
pub fn put_number_member(
    out: &mut Vec<u8>,
    mark: &[u8],
    name: &[u8],
    number: u64,
) -> Result<(), AllocError>
    ensures { OnOk result (out.new.items ≡ out.old.items ++ spec.number_member mark.now name.now number) }
{
    put_name(out, mark, name)?;
    put_number(out, number)
}

/// Adds a member that is a text.
#[tactic(auto, unfolding(crate::specs::Members::text_member))]
pub fn put_text_member(
    out: &mut Vec<u8>,
    mark: &[u8],
    name: &[u8],
    text: &[u8],
) -> Result<(), AllocError>
    ensures { OnOk result (out.new.items ≡ out.old.items ++ spec.text_member mark.now name.now text.now) }
{
    put_name(out, mark, name)?;
    put_quoted(out, text)
}

fn put_null_member(out: &mut Vec<u8>, mark: &[u8], name: &[u8]) -> Result<(), AllocError>
    ensures { OnOk result (out.new.items ≡ out.old.items ++ spec.null_member mark.now name.now) }
{
    put_name(out, mark, name)?;
    put(out, b"null")
}

/// Adds a member that is an AS number, or null.
#[tactic(auto, unfolding(crate::specs::Members::asn_member))]
pub(crate) fn put_asn_member(
    out: &mut Vec<u8>,
    mark: &[u8],
    name: &[u8],
    asn: Option<Asn>,
) -> Result<(), AllocError>
    ensures { OnOk result (out.new.items ≡ out.old.items ++ spec.asn_member mark.now name.now asn) }
{
    match asn {
        Some(asn) => put_number_member(out, mark, name, u64::from(asn.0)),
        None => put_null_member(out, mark, name),
    }
}

/// Adds a member that is the text of a prefix, or null.
#[tactic(auto, unfolding(crate::specs::Members::prefix_member))]
pub(crate) fn put_prefix_member(
    out: &mut Vec<u8>,
    mark: &[u8],
    name: &[u8],
    prefix: Option<Prefix>,
) -> Result<(), AllocError>
    ensures { OnOk result (out.new.items ≡ out.old.items ++ spec.prefix_member mark.now name.now prefix) }
{
    match prefix {
        Some(prefix) => {
            let mut text = Vec::new(*out.allocator());
            print_prefix(&prefix, &mut text)?;
            put_text_member(out, mark, name, text.as_slice())
        }
        None => put_null_member(out, mark, name),
    }
}
