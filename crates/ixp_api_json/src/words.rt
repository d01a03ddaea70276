//! The words of bodies and replies.
ghost use Rattle.std.specs.Prelude.{◌≡◌, ◌++◌, OnOk};
ghost use Rattle.ixp_api_json.specs.Words as spec;

use ixp_num::Family;
use ixp_num_tables::{put, put_number};
use ixp_registry::{Action, Status, Way};
use std::alloc::AllocError;

/// Whose number the owner of an API key is.
#[derive(Clone, Copy, Debug, PartialEq, Eq)]
pub enum OwnerKind {
    Staff,
    Member,
}

/// The word of a status.
pub fn status_word(status: Status) -> &'static [u8]
    ensures { result.now ≡ spec.status_word status }
{
    match status {
        Status::Noted => b"noted",
        Status::Connected => b"connected",
        Status::Suspended => b"suspended",
        Status::Left => b"left",
    }
}

/// The status with the word.
pub fn status_of(text: &[u8]) -> Option<Status>
    ensures { result ≡ spec.status_of text.now }
{
    if text == b"noted".as_slice() {
        Some(Status::Noted)
    } else if text == b"connected".as_slice() {
        Some(Status::Connected)
    } else if text == b"suspended".as_slice() {
        Some(Status::Suspended)
    } else if text == b"left".as_slice() {
        Some(Status::Left)
    } else {
        None
    }
}

/// The word of a way.
pub fn way_word(way: Way) -> &'static [u8]
    ensures { result.now ≡ spec.way_word way }
{
    match way {
        Way::Advertise => b"advertise",
        Way::Receive => b"receive",
    }
}

/// The way with the word.
pub fn way_of(text: &[u8]) -> Option<Way>
    ensures { result ≡ spec.way_of text.now }
{
    if text == b"advertise".as_slice() {
        Some(Way::Advertise)
    } else if text == b"receive".as_slice() {
        Some(Way::Receive)
    } else {
        None
    }
}

/// Adds the word of an action.
pub fn put_action(out: &mut Vec<u8>, action: Action) -> Result<(), AllocError>
    ensures { OnOk result (out.new.items ≡ out.old.items ++ spec.action_word action) }
{
    match action {
        Action::AsIs => put(out, b"as-is"),
        Action::Prepend(number) => {
            put(out, b"prepend")?;
            put_number(out, u64::from(number))
        }
        Action::Stop => put(out, b"stop"),
    }
}

/// The action with the word.
pub fn action_of(text: &[u8]) -> Option<Action>
    ensures { result ≡ spec.action_of text.now }
{
    if text == b"as-is".as_slice() {
        Some(Action::AsIs)
    } else if text == b"prepend1".as_slice() {
        Some(Action::Prepend(1))
    } else if text == b"prepend2".as_slice() {
        Some(Action::Prepend(2))
    } else if text == b"prepend3".as_slice() {
        Some(Action::Prepend(3))
    } else if text == b"stop".as_slice() {
        Some(Action::Stop)
    } else {
        None
    }
}

/// The kind of owners with the word.
pub fn owner_kind_of(text: &[u8]) -> Option<OwnerKind>
    ensures { result ≡ spec.owner_kind_of text.now }
{
    if text == b"staff".as_slice() {
        Some(OwnerKind::Staff)
    } else if text == b"member".as_slice() {
        Some(OwnerKind::Member)
    } else {
        None
    }
}

/// The number of a family.
pub fn family_word(family: Family) -> &'static [u8]
    ensures { result.now ≡ spec.family_word family }
{
    match family {
        Family::V4 => b"4",
        Family::V6 => b"6",
    }
}
