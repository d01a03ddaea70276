//! Free texts and secrets.
ghost use Rattle.std.specs.Prelude.{◌≡◌, ◌++◌, OnOk, IfOk, flat_map};
ghost use Rattle.percent_encoding.specs.Percent.{encode_byte, percent_decode};
ghost use Rattle.ixp_num_tables.specs.Tables.{same};
ghost use Rattle.ixp_rows_lines.specs.Fields.{Free, Secret, AFree, ASecret, free_text, or_dash};
ghost use Rattle.ixp_rows_lines.specs.Reading.{Gives, without_dash, value_of, piece_at};

use crate::fault::Unread;
use crate::fields::field_of;
use ixp_num::Items;
use ixp_num_tables::put;
use percent_encoding::{
    AsciiSet, NON_ALPHANUMERIC, ascii_set, percent_decode, percent_encode_byte,
};
use std::alloc::{AllocError, Global};

/// The bytes that are escaped in a free text: all but letters, digits, `.`, `_`, `:` and `/`.
pub const ESCAPED: AsciiSet = ascii_set!(
    NON_ALPHANUMERIC
        .remove(b'.')
        .remove(b'_')
        .remove(b':')
        .remove(b'/')
);

fn put_escaped(out: &mut Vec<u8>, byte: u8) -> Result<(), AllocError>
    ensures { OnOk result (out.new.items ≡ out.old.items ++ encode_byte ESCAPED byte) }
{
    if ESCAPED.should_percent_encode(byte) {
        put(out, percent_encode_byte(byte).as_bytes())
    } else {
        put(out, &[byte])
    }
}

fn put_all_escaped(out: &mut Vec<u8>, text: &[u8]) -> Result<(), AllocError>
    ensures { OnOk result (out.new.items ≡ out.old.items ++ flat_map (encode_byte ESCAPED) text.now) }
{
    for byte in text {
        put_escaped(out, *byte)?;
    }
    Ok(())
}

/// Adds a free text, percent-encoded, or `-` for no bytes.
#[tactic(auto, using(crate::proofs::FreeTexts::free_laws))]
pub fn put_free(out: &mut Vec<u8>, text: &[u8]) -> Result<(), AllocError>
    ensures { OnOk result (out.new.items ≡ out.old.items ++ free_text text.now) }
{
    if text.is_empty() {
        put(out, b"-")
    } else {
        put_all_escaped(out, text)
    }
}

/// Adds a secret, or `-` for an empty one.
pub(crate) fn put_secret(out: &mut Vec<u8>, secret: &[u8]) -> Result<(), AllocError>
    ensures { OnOk result (out.new.items ≡ out.old.items ++ or_dash secret.now) }
{
    if secret.is_empty() {
        put(out, b"-")
    } else {
        put(out, secret)
    }
}

/// The bytes of which a field is the text, if it is one.
#[tactic(auto, using(crate::proofs::FreeTexts::dash_decoded))]
fn decoded(alloc: Global, field: &[u8]) -> Result<Vec<u8>, AllocError>
    ensures { IfOk result (λ bytes. bytes.items ≡ percent_decode (without_dash field.now)) }
{
    let mut bytes = Vec::new(alloc);
    if field == b"-".as_slice() {
        return Ok(bytes);
    }
    percent_decode(field).append_to(&mut bytes)?;
    Ok(bytes)
}

fn is_free_text(alloc: Global, bytes: &[u8], field: &[u8]) -> Result<bool, AllocError>
    ensures { IfOk result (λ b. b ≡ same (free_text bytes.now) field.now) }
{
    let mut text = Vec::new(alloc);
    put_free(&mut text, bytes)?;
    Ok(text.as_slice() == field)
}

/// A free text in its one spelling.
#[tactic(auto, unfolding(crate::specs::Reading::value_of))]
fn free_in(alloc: Global, field: &[u8]) -> Result<Items<u8>, Unread>
    ensures { Gives (λ x. Free x) result (value_of AFree field.now) }
{
    let bytes = decoded(alloc, field)?;
    if is_free_text(alloc, bytes.as_slice(), field)? {
        Ok(Items::from_vec(bytes))
    } else {
        Err(Unread::Bad)
    }
}

/// A free text.
pub(crate) fn free_of(alloc: Global, rest: &[u8]) -> Result<(Items<u8>, &[u8]), Unread>
    ensures { Gives (λ x. (Free x.0, x.1.now)) result (piece_at AFree rest.now) }
{
    let (field, rest) = field_of(rest)?;
    Ok((free_in(alloc, field)?, rest))
}

#[tactic(auto, unfolding(crate::specs::Reading::value_of))]
fn secret_in(alloc: Global, field: &[u8]) -> Result<Items<u8>, Unread>
    ensures { Gives (λ x. Secret x) result (value_of ASecret field.now) }
{
    match field {
        [] => Err(Unread::Bad),
        [b'-'] => Ok(Items::new(alloc)),
        _ => Ok(Items::from_slice(alloc, field)?),
    }
}

/// A secret.
pub(crate) fn secret_of(alloc: Global, rest: &[u8]) -> Result<(Items<u8>, &[u8]), Unread>
    ensures { Gives (λ x. (Secret x.0, x.1.now)) result (piece_at ASecret rest.now) }
{
    let (field, rest) = field_of(rest)?;
    Ok((secret_in(alloc, field)?, rest))
}
