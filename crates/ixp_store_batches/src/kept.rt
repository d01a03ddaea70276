//! Rows of what is kept of an owner's requests.
ghost use Rattle.std.specs.Prelude.{◌≡◌, ◌++◌, ◌<◌, ◌^◌, length, OnOk, map, nat_lt, false};
ghost use Rattle.ixp_store_batches.specs.Batches.{
  gone_among,
  added_among,
  gone_numbers,
  added_numbers,
  raised_above,
  old_floor,
  new_floor,
};
ghost use Rattle.ixp_machine_steps.specs.Kept.{kept_of};
ghost use Rattle.ixp_store_rows.specs.Names.{floor_rows, kept_row};
ghost use Rattle.ixp_store_rows.specs.States.{drop_row, set_row};

use ixp_io::Change;
use ixp_machine_steps::{KeptNumber, KeptOwner};
use ixp_num_tables::Table;
use ixp_registry::Owner;
use ixp_store_rows::{drop_floor, drop_kept, set_floor_at, set_kept};
use std::alloc::{AllocError, Global};

fn clear_floor(alloc: Global, row: &KeptOwner, batch: &mut Vec<Change>) -> Result<(), AllocError>
    ensures { OnOk result (batch.new.items ≡ batch.old.items ++ map drop_row (floor_rows row.now)) }
{
    if row.floor == 0 {
        return Ok(());
    }
    batch.push(drop_floor(alloc, &row.owner)?)?;
    Ok(())
}

fn clear_least(
    alloc: Global,
    owner: &Owner,
    numbers: &[KeptNumber],
    number: &KeptNumber,
    batch: &mut Vec<Change>,
) -> Result<(), AllocError>
    ensures { OnOk result
        (batch.new.items ≡ batch.old.items
        ++ map drop_row (map (kept_row owner.now) (gone_among number.now numbers.now))) }
{
    let Some((least, _)) = numbers.split_first() else {
        return Ok(());
    };
    if least.number < number.number {
        batch.push(drop_kept(alloc, owner, least)?)?;
    }
    Ok(())
}

/// Adds that the rows go which the number of a request puts out: that of the least number, and that of the
/// floor.
pub(crate) fn clear_kept(
    alloc: Global,
    kept: &Table<KeptOwner>,
    owner: &Owner,
    number: &KeptNumber,
    batch: &mut Vec<Change>,
) -> Result<(), AllocError>
    ensures { OnOk result
        (batch.new.items ≡ batch.old.items
        ++ map drop_row (old_floor number.now (kept_of kept.now owner.now)
        ++ map (kept_row owner.now) (gone_numbers number.now (kept_of kept.now owner.now)))) }
{
    let Some(row) = kept.find(owner) else {
        return Ok(());
    };
    if row.numbers.len() < 1024 {
        return Ok(());
    }
    clear_floor(alloc, row, batch)?;
    clear_least(alloc, owner, row.numbers.as_slice(), number, batch)
}

fn raise_floor(
    alloc: Global,
    row: &KeptOwner,
    number: &KeptNumber,
    batch: &mut Vec<Change>,
) -> Result<(), AllocError>
    ensures { OnOk result
        (batch.new.items ≡ batch.old.items ++ map set_row (raised_above number.now row.now row.now.numbers)) }
{
    let Some((least, _)) = row.numbers.as_slice().split_first() else {
        return Ok(());
    };
    let gone = if least.number < number.number {
        least.number
    } else {
        number.number
    };
    batch.push(set_floor_at(alloc, &row.owner, gone + 1)?)?;
    Ok(())
}

fn add_number(
    alloc: Global,
    owner: &Owner,
    numbers: &[KeptNumber],
    number: &KeptNumber,
    batch: &mut Vec<Change>,
) -> Result<(), AllocError>
    ensures { OnOk result
        (batch.new.items ≡ batch.old.items
        ++ map set_row (map (kept_row owner.now) (added_among number.now numbers.now))) }
{
    if let Some((least, _)) = numbers.split_first() {
        if number.number <= least.number {
            return Ok(());
        }
    }
    batch.push(set_kept(alloc, owner, number)?)?;
    Ok(())
}

/// Adds that the rows are set which say that the number of a request is kept.
pub(crate) fn set_number(
    alloc: Global,
    kept: &Table<KeptOwner>,
    owner: &Owner,
    number: &KeptNumber,
    batch: &mut Vec<Change>,
) -> Result<(), AllocError>
    ensures { OnOk result
        (batch.new.items ≡ batch.old.items
        ++ map set_row (new_floor number.now (kept_of kept.now owner.now)
        ++ map (kept_row owner.now) (added_numbers number.now (kept_of kept.now owner.now)))) }
{
    let Some(row) = kept.find(owner) else {
        batch.push(set_kept(alloc, owner, number)?)?;
        return Ok(());
    };
    if row.numbers.len() < 1024 {
        batch.push(set_kept(alloc, owner, number)?)?;
        return Ok(());
    }
    raise_floor(alloc, row, number, batch)?;
    add_number(alloc, owner, row.numbers.as_slice(), number, batch)
}
