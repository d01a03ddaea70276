//! Rows of what is kept of requests, and of the counts.
ghost use Rattle.std.specs.Prelude.{◌≡◌, ◌++◌, OnOk, IfOk, None, map, flat_map, decimal};
ghost use Rattle.ixp_store_rows.specs.Names.{
  subject_text,
  kept_name,
  kept_body,
  kept_row,
  kept_rows,
  floor_name,
  floor_row,
  floor_rows,
  version_row,
  count_row,
};
ghost use Rattle.ixp_store_rows.specs.States.{drop_row, set_row};

use crate::keys::put_owner;
use ixp_io::{Change, RowName};
use ixp_machine_steps::{KeptNumber, KeptOwner, Subject};
use ixp_num_tables::{Items, put, put_number};
use ixp_registry::Owner;
use std::alloc::{AllocError, Global};

/// The number of the kind of the version's row.
pub const VERSION: u8 = 0;
/// Of the rows of floors.
pub const FLOORS: u8 = 18;
/// Of the rows of kept numbers.
pub const KEPT: u8 = 19;
/// Of the row of the count of accepted requests.
pub const COUNT: u8 = 20;

fn put_subject(subject: &Subject, out: &mut Vec<u8>) -> Result<(), AllocError>
    ensures { OnOk result (out.new.items ≡ out.old.items ++ subject_text subject.now) }
{
    match subject {
        Subject::Number(number) => put_number(out, u64::from(*number)),
        Subject::Pair(first, second) => {
            put_number(out, u64::from(*first))?;
            put(out, b" ")?;
            put_number(out, u64::from(*second))
        }
        Subject::Handle(name) => put(out, name.as_bytes()),
        Subject::Public(kind) => put(out, kind.word().as_bytes()),
    }
}

pub(crate) fn kept_name(alloc: Global, owner: &Owner, number: u64) -> Result<RowName, AllocError>
    ensures { IfOk result (λ name. name ≡ kept_name owner.now number) }
{
    let mut key = Vec::new(alloc);
    put_owner(owner, &mut key)?;
    put(&mut key, b" ")?;
    put_number(&mut key, number)?;
    Ok(RowName {
        kind: KEPT,
        key: Items::from_vec(key),
    })
}

fn kept_body(alloc: Global, kept: &KeptNumber) -> Result<Items<u8>, AllocError>
    ensures { IfOk result (λ body. body ≡ kept_body kept.now) }
{
    let mut text = Vec::new(alloc);
    put(&mut text, kept.kind.word().as_bytes())?;
    put(&mut text, b" ")?;
    put_subject(&kept.subject, &mut text)?;
    put(&mut text, b" ")?;
    put_number(&mut text, kept.place)?;
    Ok(Items::from_vec(text))
}

/// Puts a kept number into the store.
pub fn set_kept(alloc: Global, owner: &Owner, kept: &KeptNumber) -> Result<Change, AllocError>
    ensures { IfOk result (λ change. change ≡ set_row (kept_row owner.now kept.now)) }
{
    Ok(Change {
        name: kept_name(alloc, owner, kept.number)?,
        body: Some(kept_body(alloc, kept)?),
    })
}

fn set_numbers(alloc: Global, kept: &KeptOwner, batch: &mut Vec<Change>) -> Result<(), AllocError>
    ensures { OnOk result (batch.new.items ≡ batch.old.items ++ map set_row (kept_rows kept.now)) }
{
    for number in kept.numbers.as_slice() {
        batch.push(set_kept(alloc, &kept.owner, number)?)?;
    }
    Ok(())
}

pub(crate) fn set_all_kept(
    alloc: Global,
    kept: &[KeptOwner],
    batch: &mut Vec<Change>,
) -> Result<(), AllocError>
    ensures { OnOk result (batch.new.items ≡ batch.old.items ++ map set_row (flat_map kept_rows kept.now)) }
{
    for owner in kept {
        set_numbers(alloc, owner, batch)?;
    }
    Ok(())
}

pub(crate) fn floor_name(alloc: Global, owner: &Owner) -> Result<RowName, AllocError>
    ensures { IfOk result (λ name. name ≡ floor_name owner.now) }
{
    let mut key = Vec::new(alloc);
    put_owner(owner, &mut key)?;
    Ok(RowName {
        kind: FLOORS,
        key: Items::from_vec(key),
    })
}

fn decimal_of(alloc: Global, number: u64) -> Result<Items<u8>, AllocError>
    ensures { IfOk result (λ text. text ≡ decimal number) }
{
    let mut text = Vec::new(alloc);
    put_number(&mut text, number)?;
    Ok(Items::from_vec(text))
}

/// Puts an owner's floor into the store.
pub fn set_floor(alloc: Global, kept: &KeptOwner) -> Result<Change, AllocError>
    ensures { IfOk result (λ change. change ≡ set_row (floor_row kept.now)) }
{
    set_floor_at(alloc, &kept.owner, kept.floor)
}

/// Puts this floor of an owner into the store.
pub fn set_floor_at(alloc: Global, owner: &Owner, floor: u64) -> Result<Change, AllocError>
    ensures { IfOk result (λ change. change ≡ set_row (floor_name owner.now, decimal floor)) }
{
    Ok(Change {
        name: floor_name(alloc, owner)?,
        body: Some(decimal_of(alloc, floor)?),
    })
}

/// Takes an owner's floor out of the store.
pub fn drop_floor(alloc: Global, owner: &Owner) -> Result<Change, AllocError>
    ensures { IfOk result (λ change. change ≡ record { name = floor_name owner.now; body = None }) }
{
    Ok(Change {
        name: floor_name(alloc, owner)?,
        body: None,
    })
}

/// Takes a kept number out of the store.
pub fn drop_kept(alloc: Global, owner: &Owner, kept: &KeptNumber) -> Result<Change, AllocError>
    ensures { IfOk result (λ change. change ≡ drop_row (kept_row owner.now kept.now)) }
{
    Ok(Change {
        name: kept_name(alloc, owner, kept.number)?,
        body: None,
    })
}

/// Takes the count of accepted requests out of the store. It does not allocate.
pub fn drop_count(alloc: Global, accepted: u64) -> Change
    ensures { result ≡ drop_row (count_row accepted) }
{
    let _accepted = accepted; // for the proof alone, which speaks of this count
    Change {
        name: RowName {
            kind: COUNT,
            key: Items::new(alloc),
        },
        body: None,
    }
}

fn set_floor_of(alloc: Global, kept: &KeptOwner, batch: &mut Vec<Change>) -> Result<(), AllocError>
    ensures { OnOk result (batch.new.items ≡ batch.old.items ++ map set_row (floor_rows kept.now)) }
{
    if kept.floor == 0 {
        return Ok(());
    }
    batch.push(set_floor(alloc, kept)?)?;
    Ok(())
}

pub(crate) fn set_floors(
    alloc: Global,
    kept: &[KeptOwner],
    batch: &mut Vec<Change>,
) -> Result<(), AllocError>
    ensures { OnOk result (batch.new.items ≡ batch.old.items ++ map set_row (flat_map floor_rows kept.now)) }
{
    for owner in kept {
        set_floor_of(alloc, owner, batch)?;
    }
    Ok(())
}

pub(crate) fn set_version(alloc: Global) -> Result<Change, AllocError>
    ensures { IfOk result (λ change. change ≡ set_row version_row) }
{
    Ok(Change {
        name: RowName {
            kind: VERSION,
            key: Items::new(alloc),
        },
        body: Some(Items::from_slice(alloc, b"2")?),
    })
}

/// Puts the count of accepted requests into the store.
pub fn set_count(alloc: Global, accepted: u64) -> Result<Change, AllocError>
    ensures { IfOk result (λ change. change ≡ set_row (count_row accepted)) }
{
    Ok(Change {
        name: RowName {
            kind: COUNT,
            key: Items::new(alloc),
        },
        body: Some(decimal_of(alloc, accepted)?),
    })
}
