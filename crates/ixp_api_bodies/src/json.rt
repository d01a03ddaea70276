//! Bodies that are JSON (RFC 8259).
ghost use Rattle.std.specs.Prelude.{◌≡◌};
ghost use Rattle.serde_json.specs.View.{view, items_view};
ghost use Rattle.ixp_api_bodies.specs.Answers.{Gives, result_view};
ghost use Rattle.ixp_api_bodies.specs.Values as spec;

use ixp_api_json::{CallFault, Pointer};
use serde_json::Value;
use std::alloc::Global;

/// How many bytes a JSON body may have, but that of the routes of a looking glass.
pub const JSON_LIMIT: usize = 1_048_576;

/// The body isn't of its form as a whole.
pub(crate) fn whole() -> CallFault
    ensures { result ≡ spec.whole }
{
    CallFault::BadBody {
        pointer: Pointer::Whole,
    }
}

/// The value that the body is.
fn value_of(alloc: Global, body: &[u8]) -> Result<Value, CallFault>
    ensures { Gives (λ r. r ≡ spec.value_of body.now) (result_view result) }
{
    match Value::from_slice(alloc, body) {
        Ok(value) => Ok(value),
        Err(e) => {
            if e.is_memory() {
                Err(CallFault::NoMemory)
            } else {
                Err(whole())
            }
        }
    }
}

/// The value that the body is, where that isn't too long. A longer one isn't parsed.
fn value_within(alloc: Global, body: &[u8]) -> Result<Value, CallFault>
    ensures { Gives (λ r. r ≡ spec.value_within body.now) (result_view result) }
{
    if body.len() > JSON_LIMIT {
        return Err(whole());
    }
    value_of(alloc, body)
}

/// The value, which has to be an object.
fn only_object(value: Value) -> Result<Value, CallFault>
    ensures { result_view result ≡ spec.only_object (view value) }
{
    if value.is_object() {
        Ok(value)
    } else {
        Err(whole())
    }
}

/// The object that the body is, of any length.
pub(crate) fn long_object_of(alloc: Global, body: &[u8]) -> Result<Value, CallFault>
    ensures { Gives (λ r. r ≡ spec.long_object_of body.now) (result_view result) }
{
    let value = value_of(alloc, body)?;
    only_object(value)
}

/// The object that the body is, where that isn't too long.
pub(crate) fn object_of(alloc: Global, body: &[u8]) -> Result<Value, CallFault>
    ensures { Gives (λ r. r ≡ spec.object_of body.now) (result_view result) }
{
    let value = value_within(alloc, body)?;
    only_object(value)
}

/// The list of objects that the body is, where that isn't too long.
pub(crate) fn objects_of(alloc: Global, body: &[u8]) -> Result<Value, CallFault>
    ensures { Gives (λ r. r ≡ spec.objects_of body.now) (result_view result) }
{
    let value = value_within(alloc, body)?;
    if are_objects(&value) {
        Ok(value)
    } else {
        Err(whole())
    }
}

fn all_objects(items: &[Value]) -> bool
    ensures { result ≡ spec.all_objects (items_view items.now) }
{
    for item in items {
        if !item.is_object() {
            return false;
        }
    }
    true
}

fn are_objects(value: &Value) -> bool
    ensures { result ≡ spec.are_objects (view value.now) }
{
    match value.as_array() {
        Some(items) => all_objects(items.as_slice()),
        None => false,
    }
}
