//! Fields: where they end, and those of one spelling.
ghost use Rattle.std.specs.Prelude.{◌≡◌, List, ℕ};
ghost use Rattle.std.specs.List.{position};
ghost use Rattle.ixp_rows_lines.specs.Fields.{Handle, AHandle, is_break};
ghost use Rattle.ixp_rows_lines.specs.Reading.{Gives, parted_at, field_at, end_at, value_of, piece_at};

use crate::fault::Unread;
use ixp_num::Name;
use std::alloc::Global;

fn is_break(byte: u8) -> bool
    ensures { result ≡ is_break byte }
{
    byte == b' ' || byte == b'\n'
}

fn first_break(bytes: &[u8]) -> Option<usize>
    ensures { result ≡ position is_break bytes.now }
{
    bytes.iter().position(|byte| is_break(*byte))
}

fn parted(bytes: &[u8]) -> (&[u8], &[u8])
    ensures { (result.0.now, result.1.now) ≡ parted_at (position is_break bytes.now) bytes.now }
{
    match first_break(bytes) {
        Some(end) => bytes.split_at(end),
        None => (bytes, &[]),
    }
}

/// The field behind a blank, up to the next blank or line's end, and what is behind it.
#[tactic(auto, unfolding(crate::specs::Reading::field_at))]
pub(crate) fn field_of(rest: &[u8]) -> Result<(&[u8], &[u8]), Unread>
    ensures { Gives (λ x. (x.0.now, x.1.now)) result (field_at rest.now) }
{
    match rest {
        [b' ', behind @ ..] => { Ok(parted(behind)) }
        _ => Err(Unread::Bad),
    }
}

/// What is behind the line's end.
#[tactic(auto, unfolding(crate::specs::Reading::end_at))]
pub(crate) fn end_of(rest: &[u8]) -> Result<&[u8], Unread>
    ensures { Gives (λ x. x.now) result (end_at rest.now) }
{
    match rest {
        [b'\n', behind @ ..] => Ok(behind),
        _ => Err(Unread::Bad),
    }
}

#[tactic(auto, unfolding(crate::specs::Reading::value_of))]
fn handle_in(alloc: Global, field: &[u8]) -> Result<Name, Unread>
    ensures { Gives (λ x. Handle x) result (value_of AHandle field.now) }
{
    if !Name::is_name(field) {
        return Err(Unread::Bad);
    }
    Ok(Name::new(alloc, field)?)
}

/// A name.
pub(crate) fn handle_of(alloc: Global, rest: &[u8]) -> Result<(Name, &[u8]), Unread>
    ensures { Gives (λ x. (Handle x.0, x.1.now)) result (piece_at AHandle rest.now) }
{
    let (field, rest) = field_of(rest)?;
    Ok((handle_in(alloc, field)?, rest))
}
