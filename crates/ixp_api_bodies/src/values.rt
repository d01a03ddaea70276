//! What fields of a body say.
ghost use Rattle.std.specs.Prelude.{◌≡◌, option_map};
ghost use Rattle.serde_json.specs.View.{view};
ghost use Rattle.ixp_api_json.specs.declared.pointer.Pointer.TheVariants.{At};
ghost use Rattle.ixp_api_bodies.specs.Answers.{Gives, must};
ghost use Rattle.ixp_api_bodies.specs.Values as spec;

use ixp_api_json::{
    CallFault, Field, OwnerKind, Pointer, action_of, owner_kind_of, status_of, way_of,
};
use ixp_num::{Family, Items};
use ixp_registry::{Action, Status, Way};
use serde_json::Value;
use std::alloc::Global;

/// What is there, or the fault at its place.
pub(crate) fn must<T>(pointer: Pointer, value: Option<T>) -> Result<T, CallFault>
    ensures { result ≡ must pointer value }
{
    match value {
        Some(value) => Ok(value),
        None => Err(CallFault::BadBody { pointer }),
    }
}

/// The field isn't what it must be.
pub(crate) fn fault_at(field: Field) -> CallFault
    ensures { result ≡ CallFault.BadBody (Pointer.At field) }
{
    CallFault::BadBody {
        pointer: Pointer::At(field),
    }
}

/// A value that is a number.
pub(crate) fn number_at(value: &Value) -> Option<u32>
    ensures { result ≡ spec.number_at (view value.now) }
{
    match value.as_u64() {
        Some(number) if number < 4_294_967_296 => Some(number as u32),
        _ => None,
    }
}

/// A number.
pub(crate) fn number_in(body: &Value, field: Field) -> Option<u32>
    ensures { result ≡ spec.number_in field (view body.now) }
{
    match body.get(field.word()) {
        Some(value) => number_at(value),
        None => None,
    }
}

/// A text.
pub(crate) fn text_in(body: &Value, field: Field) -> Option<&[u8]>
    ensures { option_map (λ t. t.now) result ≡ spec.text_in field (view body.now) }
{
    let value = body.get(field.word())?;
    match value.as_str() {
        Some(text) => Some(text.as_bytes()),
        None => None,
    }
}

/// True or false.
pub(crate) fn flag_in(body: &Value, field: Field) -> Option<bool>
    ensures { result ≡ spec.flag_in field (view body.now) }
{
    match body.get(field.word()) {
        Some(value) => value.as_bool(),
        None => None,
    }
}

/// The word of a status.
pub(crate) fn status_in(body: &Value, field: Field) -> Option<Status>
    ensures { result ≡ spec.status_in field (view body.now) }
{
    match text_in(body, field) {
        Some(text) => status_of(text),
        None => None,
    }
}

/// The word of a way.
pub(crate) fn way_in(body: &Value, field: Field) -> Option<Way>
    ensures { result ≡ spec.way_in field (view body.now) }
{
    match text_in(body, field) {
        Some(text) => way_of(text),
        None => None,
    }
}

/// The word of an action.
pub(crate) fn action_in(body: &Value, field: Field) -> Option<Action>
    ensures { result ≡ spec.action_in field (view body.now) }
{
    match text_in(body, field) {
        Some(text) => action_of(text),
        None => None,
    }
}

/// The word of a kind of owners.
pub(crate) fn owner_kind_in(body: &Value, field: Field) -> Option<OwnerKind>
    ensures { result ≡ spec.owner_kind_in field (view body.now) }
{
    match text_in(body, field) {
        Some(text) => owner_kind_of(text),
        None => None,
    }
}

/// The number of a family.
pub(crate) fn family_in(body: &Value, field: Field) -> Option<Family>
    ensures { result ≡ spec.family_in field (view body.now) }
{
    let number = number_in(body, field)?;
    if number == 4 {
        Some(Family::V4)
    } else if number == 6 {
        Some(Family::V6)
    } else {
        None
    }
}

/// A number or null.
pub(crate) fn number_or_null(body: &Value, field: Field) -> Option<Option<u32>>
    ensures { result ≡ spec.number_or_null field (view body.now) }
{
    let number = number_in(body, field);
    let value = body.get(field.word())?;
    if value.is_null() {
        return Some(None);
    }
    match number {
        Some(number) => Some(Some(number)),
        None => None,
    }
}

/// A number, 0 where nothing is there.
pub(crate) fn number_or_zero(body: &Value, field: Field) -> Option<u32>
    ensures { result ≡ spec.number_or_zero field (view body.now) }
{
    match body.get(field.word()) {
        Some(value) => number_at(value),
        None => Some(0),
    }
}

/// A number that must be there.
pub(crate) fn number(body: &Value, field: Field) -> Result<u32, CallFault>
    ensures { result ≡ spec.number field (view body.now) }
{
    must(Pointer::At(field), number_in(body, field))
}

/// A flag that must be there.
pub(crate) fn flag(body: &Value, field: Field) -> Result<bool, CallFault>
    ensures { result ≡ spec.flag field (view body.now) }
{
    must(Pointer::At(field), flag_in(body, field))
}

/// A copy of a text that must be there.
pub(crate) fn text(alloc: Global, body: &Value, field: Field) -> Result<Items<u8>, CallFault>
    ensures { Gives (λ r. r ≡ spec.text field (view body.now)) result }
{
    let Some(text) = text_in(body, field) else {
        return Err(CallFault::BadBody {
            pointer: Pointer::At(field),
        });
    };
    match Items::from_slice(alloc, text) {
        Ok(text) => Ok(text),
        Err(_) => Err(CallFault::NoMemory),
    }
}
