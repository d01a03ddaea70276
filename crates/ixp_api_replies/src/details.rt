//! What is told of refusals.
ghost use Rattle.std.specs.Prelude.{◌≡◌, ◌++◌, codes, decimal, OnOk};
ghost use Rattle.ixp_api_json.specs.Words.{status_word};
ghost use Rattle.ixp_registry.specs.Codes.{edit_word, limited_word};
ghost use Rattle.ixp_api_replies.specs.Details as spec;

use ixp_api_json::{family_word, status_word};
use ixp_num_tables::{put, put_number};
use ixp_registry::{EditKind, Kind, Limited, Refusal, Right, RowKey, Status};
use std::alloc::AllocError;

/// Adds two numbers with a blank between them.
pub(crate) fn put_numbers(out: &mut Vec<u8>, first: u64, second: u64) -> Result<(), AllocError>
    ensures { OnOk result (out.new.items ≡ out.old.items ++ spec.pair (decimal first) (decimal second)) }
{
    put_number(out, first)?;
    put(out, b" ")?;
    put_number(out, second)
}

// Adds a word and a blank.
fn put_word(out: &mut Vec<u8>, word: &[u8]) -> Result<(), AllocError>
    ensures { OnOk result (out.new.items ≡ out.old.items ++ (word.now ++ codes " ")) }
{
    put(out, word)?;
    put(out, b" ")
}

fn put_right(out: &mut Vec<u8>, right: Right) -> Result<(), AllocError>
    ensures { OnOk result (out.new.items ≡ out.old.items ++ spec.right_text right) }
{
    match right {
        Right::Staff => put(out, b"staff"),
        Right::Member(member) => {
            put_word(out, b"member")?;
            put_number(out, u64::from(member))
        }
    }
}

fn put_key(out: &mut Vec<u8>, key: &RowKey) -> Result<(), AllocError>
    ensures { OnOk result (out.new.items ≡ out.old.items ++ spec.key_text key.now) }
{
    match key {
        RowKey::Number(number) => put_number(out, u64::from(*number)),
        RowKey::Pair(first, second) => put_numbers(out, u64::from(*first), u64::from(*second)),
        RowKey::Handle(handle) => put(out, handle.as_bytes()),
        RowKey::Public(kind) => put(out, kind.word().as_bytes()),
    }
}

fn put_row(out: &mut Vec<u8>, table: Kind, key: &RowKey) -> Result<(), AllocError>
    ensures { OnOk result (out.new.items ≡ out.old.items ++ spec.row_text table key.now) }
{
    put_word(out, table.word().as_bytes())?;
    put_key(out, key)
}

fn put_member(out: &mut Vec<u8>, member: Option<u32>) -> Result<(), AllocError>
    ensures { OnOk result (out.new.items ≡ out.old.items ++ spec.member_text member) }
{
    match member {
        Some(member) => put_number(out, u64::from(member)),
        None => put(out, b"none"),
    }
}

fn put_move(out: &mut Vec<u8>, from: Status, to: Status) -> Result<(), AllocError>
    ensures { OnOk result (out.new.items ≡ out.old.items ++ spec.pair (status_word from) (status_word to)) }
{
    put_word(out, status_word(from))?;
    put(out, status_word(to))
}

fn put_limit(out: &mut Vec<u8>, table: Limited, have: u64, limit: u64) -> Result<(), AllocError>
    ensures { OnOk result
        (out.new.items ≡ out.old.items
        ++ spec.pair (limited_word table) (spec.pair (decimal have) (decimal limit))) }
{
    put_word(out, table.word().as_bytes())?;
    put_numbers(out, have, limit)
}

fn put_use(out: &mut Vec<u8>, kind: EditKind, subject: &RowKey) -> Result<(), AllocError>
    ensures { OnOk result
        (out.new.items ≡ out.old.items ++ spec.pair (edit_word kind) (spec.key_text subject.now)) }
{
    put_word(out, kind.word().as_bytes())?;
    put_key(out, subject)
}

/// Adds the detail of a refusal. Where memory runs out, a first part of it may be there.
pub(crate) fn put_detail(out: &mut Vec<u8>, refusal: &Refusal) -> Result<(), AllocError>
    ensures { OnOk result (out.new.items ≡ out.old.items ++ spec.detail_of refusal.now) }
{
    match refusal {
        Refusal::NoKey => Ok(()),
        Refusal::Denied { right } => put_right(out, *right),
        Refusal::KeyReused { kind, subject } => put_use(out, *kind, subject),
        Refusal::KeyOld { floor } => put_number(out, *floor),
        Refusal::Unknown { table, key } => put_row(out, *table, key),
        Refusal::BadText { field } => put(out, field.word().as_bytes()),
        Refusal::AsnReserved { asn } => put_number(out, u64::from(asn.0)),
        Refusal::Family { family } => put(out, family_word(*family)),
        Refusal::Outside { vlan } => put_number(out, u64::from(*vlan)),
        Refusal::Taken { table, key } => put_row(out, *table, key),
        Refusal::PortTaken { member } => put_member(out, *member),
        Refusal::Exists { key } => put_key(out, key),
        Refusal::Overlap { vlan } => put_number(out, u64::from(*vlan)),
        Refusal::StatusMove { from, to } => put_move(out, *from, *to),
        Refusal::InUse { table, key } => put_row(out, *table, key),
        Refusal::BadRule { place } => put_number(out, u64::from(*place)),
        Refusal::TooMany { table, have, limit } => put_limit(out, *table, *have, *limit),
    }
}

/// The status of a refusal.
pub(crate) fn status_of(refusal: &Refusal) -> u16
    ensures { result ≡ spec.status_of refusal.now }
{
    match refusal {
        Refusal::NoKey => 401,
        Refusal::Denied { .. } => 403,
        Refusal::Unknown { .. } => 404,
        Refusal::KeyReused { .. } => 409,
        Refusal::KeyOld { .. } => 409,
        Refusal::Taken { .. } => 409,
        Refusal::PortTaken { .. } => 409,
        Refusal::Exists { .. } => 409,
        Refusal::Overlap { .. } => 409,
        Refusal::StatusMove { .. } => 409,
        Refusal::InUse { .. } => 409,
        Refusal::TooMany { .. } => 413,
        Refusal::BadText { .. } => 422,
        Refusal::AsnReserved { .. } => 422,
        Refusal::Family { .. } => 422,
        Refusal::Outside { .. } => 422,
        Refusal::BadRule { .. } => 422,
    }
}
