//! Names of sets with or without a source, and members.
ghost use Rattle.std.specs.Prelude.{◌≡◌, ◌&&◌, ◌||◌, ◌==◌, true, IfOk};
ghost use Rattle.std.specs.List.{slice_split};
ghost use Rattle.ixp_rpsl_sources.specs.Names as spec;

use crate::sources::is_source_name;
use ixp_num::Name;
use ixp_rpsl::Item;
use ixp_rpsl::lines::parted;
use ixp_rpsl::values::{are_name_parts, as_number, is_nothing, upper};
use std::alloc::{AllocError, Global};

/// Whether a text is a source, two colons and parts of a set's name.
fn is_sourced(t: &[u8]) -> bool
    ensures { result ≡ spec.are_sourced_parts (slice_split (λ b. b == 58) t.now) }
{
    let Some((source, rest)) = parted(b':', t) else {
        return false;
    };
    let Some((nothing, name)) = parted(b':', rest) else {
        return false;
    };
    is_source_name(source) && is_nothing(nothing) && are_name_parts(name)
}

/// Whether a text in upper case calls a set.
fn is_called(t: &[u8]) -> bool
    ensures { result ≡ spec.is_called t.now }
{
    Name::is_name(t) && (are_name_parts(t) || is_sourced(t))
}

/// What a text in any case calls a set.
fn called(alloc: Global, t: &[u8]) -> Result<Option<Name>, AllocError>
    ensures { IfOk result (λ name. name ≡ spec.called t.now) }
{
    let Some(upper) = upper(t) else {
        return Ok(None);
    };
    if is_called(upper.as_slice()) {
        let name = Name::new(alloc, upper.as_slice())?;
        Ok(Some(name))
    } else {
        Ok(None)
    }
}

/// The member that a text is in any case: an AS number, the name of a set, or that of a set with its source
/// and two colons before it. A name has at most 64 bytes, its source included.
pub fn read_member(alloc: Global, t: &[u8]) -> Result<Option<Item>, AllocError>
    ensures { IfOk result (λ i. i ≡ spec.member_of t.now) }
{
    if let Some(asn) = as_number(t) {
        return Ok(Some(Item::As(asn)));
    }
    match called(alloc, t)? {
        Some(name) => Ok(Some(Item::Set(name))),
        None => Ok(None),
    }
}

/// Whether a text is a member.
pub(crate) fn is_member(t: &[u8]) -> bool
    ensures { result ≡ spec.is_member t.now }
{
    if as_number(t).is_some() {
        return true;
    }
    match upper(t) {
        Some(upper) => is_called(upper.as_slice()),
        None => false,
    }
}
