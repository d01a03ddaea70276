//! Texts of addresses and prefixes in bodies.
ghost use Rattle.std.specs.Prelude.{◌≡◌, option_map};
ghost use Rattle.serde_json.specs.View.{view};
ghost use Rattle.ixp_api_bodies.specs.Values as spec;

use crate::values::text_in;
use ixp_api_json::Field;
use ixp_num::{Addr, Family, Prefix, read_addr, read_prefix};
use serde_json::Value;

fn address_of(text: &[u8]) -> Option<Addr>
    ensures { spec.SaysAddress text.now result }
{
    match read_addr(text) {
        Ok(addr) => Some(addr),
        Err(_) => None,
    }
}

fn prefix_of(text: &[u8]) -> Option<Prefix>
    ensures { spec.SaysPrefix text.now result }
{
    match read_prefix(text) {
        Ok(prefix) => Some(prefix),
        Err(_) => None,
    }
}

fn number_of(addr: Addr) -> Option<u32>
    ensures { result ≡ spec.number_of addr }
{
    match addr.family {
        Family::V4 => Some(addr.value as u32),
        Family::V6 => None,
    }
}

fn identifier_of(text: &[u8]) -> Option<u32>
    ensures { spec.SaysIdentifier text.now result }
{
    match address_of(text) {
        Some(addr) => number_of(addr),
        None => None,
    }
}

/// An address.
pub(crate) fn address_in(body: &Value, field: Field) -> Option<Addr>
    ensures { spec.AddressIn field (view body.now) result }
{
    match text_in(body, field) {
        Some(text) => address_of(text),
        None => None,
    }
}

/// The number of an IPv4 address.
pub(crate) fn identifier_in(body: &Value, field: Field) -> Option<u32>
    ensures { spec.IdentifierIn field (view body.now) result }
{
    match text_in(body, field) {
        Some(text) => identifier_of(text),
        None => None,
    }
}

/// A prefix.
pub(crate) fn prefix_in(body: &Value, field: Field) -> Option<Prefix>
    ensures { spec.PrefixIn field (view body.now) result }
{
    match text_in(body, field) {
        Some(text) => prefix_of(text),
        None => None,
    }
}

// What is there, None within for null.
fn null_or<T: Drop>(value: Option<&Value>, there: Option<T>) -> Option<Option<T>>
    ensures { result ≡ spec.null_or (option_map (λ v. view v.now) value.entry) there }
{
    let value = value?;
    if value.is_null() {
        return Some(None);
    }
    match there {
        Some(there) => Some(Some(there)),
        None => None,
    }
}

/// A prefix or null.
pub(crate) fn prefix_or_null(body: &Value, field: Field) -> Option<Option<Prefix>>
    ensures { spec.PrefixOrNull field (view body.now) result }
{
    let prefix = prefix_in(body, field);
    null_or(body.get(field.word()), prefix)
}

/// An address, null, or nothing.
pub(crate) fn address_or_nothing(body: &Value, field: Field) -> Option<Option<Addr>>
    ensures { spec.AddressOrNothing field (view body.now) result }
{
    let addr = address_in(body, field);
    match body.get(field.word()) {
        Some(value) => null_or(Some(value), addr),
        None => Some(None),
    }
}
