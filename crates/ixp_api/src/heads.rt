//! What stands in a request's head: the secret, and the number of the request.
ghost use Rattle.std.specs.Prelude.{◌≡◌, ◌<◌, ◌^◌, IfOk, IfSome};
ghost use Rattle.ixp_api.specs.Heads as spec;

use ixp_http::{Field, first_value};
use ixp_num::Items;
use ixp_num_tables::number_upto;
use std::alloc::{AllocError, Global};

/// A copy of the secret of the request, empty where it has none.
pub(crate) fn secret_of(alloc: Global, fields: &[Field]) -> Result<Items<u8>, AllocError>
    ensures { IfOk result (λ s. s ≡ spec.secret_of fields.now) }
{
    match first_value(fields, b"x-ixp-manager-api-key") {
        Some(secret) => Items::from_slice(alloc, secret),
        None => Ok(Items::new(alloc)),
    }
}

/// The number of a request that a text says.
pub(crate) fn request_number(text: &[u8]) -> Option<u64>
    ensures number { result ≡ spec.request_number text.now }
    ensures counted { IfSome result (λ n. 0 < n) }
    ensures small { IfSome result (λ n. n < 10 ^ 16) }
{
    match number_upto(9_999_999_999_999_999, text) {
        Some(number) => { if 0 < number { Some(number) } else { None } }
        None => None,
    }
}

/// The number of the request.
pub(crate) fn number_of(fields: &[Field]) -> Option<u64>
    ensures number { result ≡ spec.number_of fields.now }
    ensures counted { IfSome result (λ n. 0 < n) }
    ensures small { IfSome result (λ n. n < 10 ^ 16) }
{
    match first_value(fields, b"x-request-number") {
        Some(text) => request_number(text),
        None => None,
    }
}
