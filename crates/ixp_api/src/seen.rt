//! What the reader of a configuration has seen.
ghost use Rattle.std.specs.Prelude.{◌≡◌, codes, nat_eq, Some, IfOk};
ghost use Rattle.std.specs.Cmp.Lexicographic.{pointwise};
ghost use Rattle.ixp_api.specs.Heads as spec;

use crate::heads::request_number;
use form_urlencoded::{decode, raw_pairs};
use std::alloc::{AllocError, Global};

// Whether a name of the query is `seen`.
fn is_seen(alloc: Global, name: &[u8]) -> Result<bool, AllocError>
    ensures { IfOk result (λ b. b ≡ pointwise nat_eq (spec.form_text name.now) (codes "seen")) }
{
    let text = decode(alloc, name)?;
    Ok(text.as_bytes() == b"seen".as_slice())
}

// The number of a request that a value of the query says.
fn number_in(alloc: Global, value: &[u8]) -> Result<Option<Option<u64>>, AllocError>
    ensures { IfOk result (λ o. o ≡ spec.seen_by (Some (spec.form_text value.now))) }
{
    let text = decode(alloc, value)?;
    match request_number(text.as_bytes()) {
        Some(number) => Ok(Some(Some(number))),
        None => Ok(None),
    }
}

/// What the query says that its reader has seen: nothing, a number of a request, or something else.
pub(crate) fn seen_of(alloc: Global, query: &[u8]) -> Result<Option<Option<u64>>, AllocError>
    ensures { IfOk result (λ o. o ≡ spec.seen_of query.now) }
{
    for (name, value) in raw_pairs(query) {
        if is_seen(alloc, name)? {
            return number_in(alloc, value);
        }
    }
    Ok(Some(None))
}
