//! The rows of what a store keeps of requests: the first of them that is wrong.
ghost use Rattle.std.specs.Prelude.{
  ◌≡◌,
  ◌<◌,
  ◌≤◌,
  ◌^◌,
  ◌∷◌,
  ◌↔◌,
  [],
  ℕ,
  suc,
  List,
  IfOk,
  IfErr,
  IsTrue,
  Some,
  map,
};
ghost use Rattle.ixp_io.specs.Tables.{row_entry};
ghost use Rattle.ixp_rows_lines.specs.Fields.{Number};
ghost use Rattle.ixp_registry.specs.declared.kind.Kind.TheVariants.{Members};
ghost use Rattle.ixp_registry.specs.Widths.{IsNumber, owner_number};
ghost use Rattle.ixp_store_rows.specs.Names.{Entry, name_of};
ghost use Rattle.ixp_num_tables.specs.Tables.{Ascends};
ghost use Rattle.ixp_store_damage.specs.Damages.{EndsWithKept, HasName, IsOwner};
ghost use Rattle.ixp_store_words.specs.Gathering.{floor_at};
ghost use Rattle.ixp_store_words.specs.Opening.{entry_name};
ghost use Rattle.ixp_store_damage.specs.Walking.{
  AreFloors,
  FindsFloor,
  FindsFloorRow,
  FindsKept,
  FloorsNoted,
  Follows,
  GoesOn,
  IsCounted,
  IsRun,
  Reached,
  TellsFirst,
};

use crate::decode::{damaged, sets};
use crate::lines::Left;
use ixp_io::{Row, RowName};
use ixp_machine_steps::{KeptNumber, KeptOwner};
use ixp_num_tables::{Items, Table, put_number};
use ixp_registry::{Kind, Owner};
use ixp_store_rows::{FLOORS, KEPT, place_of, set_floor, set_kept};
use ixp_store_words::{MOST_KEPT, NUMBERS_END, NoState, floor_said, number_said};
use std::alloc::{AllocError, Global};

/// Whether one of the rows, which are in the order of their names, has this one.
fn has_name(rows: &[Row], name: &RowName) -> bool
    ensures { Ascends entry_name (map row_entry rows.now) → IsTrue result
        ↔ HasName (map row_entry rows.now) name.now }
{
    rows.binary_search_by(|row| row.name.cmp(name)).is_ok()
}

fn has_member(alloc: Global, rows: &[Row], number: u32) -> Result<bool, AllocError>
    ensures { Ascends entry_name (map row_entry rows.now)
        → IfOk result (λ has. IsTrue has
        ↔ HasName (map row_entry rows.now) (name_of Members (Number number ∷ []))) }
{
    let mut key = Vec::new(alloc);
    put_number(&mut key, u64::from(number))?;
    let name = RowName {
        kind: place_of(Kind::Members),
        key: Items::from_vec(key),
    };
    Ok(has_name(rows, &name))
}

/// Whether the store knows the owner: staff are 1 to 16, a member has a row.
fn is_owner(alloc: Global, rows: &[Row], owner: Owner) -> Result<bool, AllocError>
    ensures { Ascends entry_name (map row_entry rows.now)
        → IfOk result (λ is. IsTrue is ↔ IsOwner (map row_entry rows.now) owner) }
{
    match owner {
        Owner::Staff(number) => Ok(1 <= number && number <= 16),
        Owner::Member(number) => has_member(alloc, rows, number),
    }
}

/// The owner and the floor that a row says.
fn floor_of(alloc: Global, row: &Row) -> Result<Option<KeptOwner>, AllocError>
    ensures { IfOk result (FindsFloor (row_entry row.now)) }
{
    let Some((owner, floor)) = floor_said(row) else {
        return Ok(None);
    };
    if floor == 0 || floor > NUMBERS_END {
        return Ok(None);
    }
    let kept = KeptOwner {
        owner,
        floor,
        numbers: Table::new(alloc),
    };
    let change = set_floor(alloc, &kept)?;
    if sets(&change, row) {
        Ok(Some(kept))
    } else {
        Ok(None)
    }
}

/// The same, where the owner is one of the store's.
fn known_floor(alloc: Global, rows: &[Row], row: &Row) -> Result<Option<KeptOwner>, AllocError>
    ensures { Ascends entry_name (map row_entry rows.now)
        → IfOk result (FindsFloorRow (map row_entry rows.now) (row_entry row.now)) }
{
    let Some(kept) = floor_of(alloc, row)? else {
        return Ok(None);
    };
    if is_owner(alloc, rows, kept.owner)? {
        Ok(Some(kept))
    } else {
        Ok(None)
    }
}

/// The floors of the rows that stand first, and the rows behind them. `rows` are all rows of the store.
fn floors<'a>(
    alloc: Global,
    rows: &[Row],
    first: Left<'a>,
) -> Result<(Table<KeptOwner>, Left<'a>), NoState>
    ensures noted { (es : List Entry) → es ≡ map row_entry rows.now
        → Reached 18 18 es (map row_entry first.now)
        → IfOk result (λ x. FloorsNoted 19 es (map row_entry x.1.now) x.0) }
    ensures told { (es : List Entry) → es ≡ map row_entry rows.now
        → Reached 18 18 es (map row_entry first.now) → IfErr result (TellsFirst es) }
{
    let mut kept: Table<KeptOwner> = Table::new(alloc);
    let mut left = first;
    'rows: while let Some((row, others)) = left.split_first() {
        if row.name.kind != FLOORS {
            return Ok((kept, left));
        }
        match known_floor(alloc, rows, row)? {
            Some(owner) => kept.put(owner)?,
            None => return Err(damaged(alloc, &row.name)),
        }
        left = others;
    }
    Ok((kept, left))
}

/// The owner and the number that a row says.
fn number_in(alloc: Global, row: &Row) -> Result<Option<(Owner, KeptNumber)>, AllocError>
    ensures { IfOk result (FindsKept (row_entry row.now)) }
{
    let Some((owner, kept)) = number_said(alloc, row)? else {
        return Ok(None);
    };
    if kept.number == 0 {
        return Ok(None);
    }
    let change = set_kept(alloc, &owner, &kept)?;
    if sets(&change, row) {
        Ok(Some((owner, kept)))
    } else {
        Ok(None)
    }
}

/// The floor of an owner, 0 where there is no row of it.
fn floor_in(floors: &Table<KeptOwner>, owner: Owner) -> u64
    ensures { result ≡ floor_at floors.now owner }
{
    match floors.find(&owner) {
        Some(row) => row.floor,
        None => 0,
    }
}

/// Whether a place is one of those that were accepted. Where no row says how many were, each is.
fn is_counted(place: u64, count: Option<u64>) -> bool
    ensures { IsTrue result ↔ ((accepted : ℕ) → count ≡ Some accepted → place ≤ accepted) }
{
    match count {
        Some(accepted) => place <= accepted,
        None => true,
    }
}

/// The owner of the rows that came last, and how many of them came. An owner's rows stand together.
#[derive(Clone, Copy)]
struct Run {
    owner: Option<Owner>,
    count: usize,
}

/// How many rows of this owner came last.
#[tactic(auto, unfolding(crate::specs::Damages::EndsWithKept))]
fn count_for(run: Run, owner: Owner) -> usize
    ensures { (before : List Entry) → IsRun run before → IsNumber (owner_number owner)
        → EndsWithKept owner result before × ¬ (EndsWithKept owner (suc result) before) }
{
    if run.owner == Some(owner) {
        run.count
    } else {
        0
    }
}

/// The rows that came last together with one of this owner; None where as many came as may.
fn one_more(run: Run, owner: Owner) -> Option<Run>
    ensures { (before : List Entry) → IsRun run before → GoesOn owner before result }
{
    let count = count_for(run, owner);
    if count < MOST_KEPT {
        Some(Run {
            owner: Some(owner),
            count: count + 1,
        })
    } else {
        None
    }
}

/// The rows that came last together with this one; None where it is no row of a kept number, or none that may
/// follow them. `rows` are all rows of the store.
fn followed(
    alloc: Global,
    rows: &[Row],
    floors: &Table<KeptOwner>,
    count: Option<u64>,
    run: Run,
    row: &Row,
) -> Result<Option<Run>, AllocError>
    ensures { (es before : List Entry) → es ≡ map row_entry rows.now → Ascends entry_name es
        → AreFloors es es floors.now → IsCounted es count → IsRun run before
        → IfOk result (Follows es before (row_entry row.now)) }
{
    let Some((owner, number)) = number_in(alloc, row)? else {
        return Ok(None);
    };
    if !is_owner(alloc, rows, owner)? {
        return Ok(None);
    }
    if floor_in(floors, owner) > number.number {
        return Ok(None);
    }
    if !is_counted(number.place, count) {
        return Ok(None);
    }
    Ok(one_more(run, owner))
}

/// Goes through the rows of kept numbers that stand first, and gives the rows behind them. `rows` are all
/// rows of the store.
fn behind_numbers<'a>(
    alloc: Global,
    rows: &[Row],
    floors: &Table<KeptOwner>,
    count: Option<u64>,
    first: Left<'a>,
) -> Result<Left<'a>, NoState>
    ensures reached { (es : List Entry) → es ≡ map row_entry rows.now → IsCounted es count
        → FloorsNoted 19 es (map row_entry first.now) floors.now
        → IfOk result (λ rest. Reached 20 20 es (map row_entry rest.now)) }
    ensures told { (es : List Entry) → es ≡ map row_entry rows.now → IsCounted es count
        → FloorsNoted 19 es (map row_entry first.now) floors.now → IfErr result (TellsFirst es) }
{
    let mut run = Run {
        owner: None,
        count: 0,
    };
    let mut left = first;
    'rows: while let Some((row, others)) = left.split_first() {
        if row.name.kind != KEPT {
            return Ok(left);
        }
        match followed(alloc, rows, floors, count, run, row)? {
            Some(next) => run = next,
            None => return Err(damaged(alloc, &row.name)),
        }
        left = others;
    }
    Ok(left)
}

/// Goes through the rows of floors and kept numbers that stand first, and gives the rows behind them. `rows`
/// are all rows of the store, and `count` is how many requests were accepted, where a row says so.
pub fn behind_kept<'a>(
    alloc: Global,
    rows: &[Row],
    first: Left<'a>,
    count: Option<u64>,
) -> Result<Left<'a>, NoState>
    ensures reached { (es : List Entry) → es ≡ map row_entry rows.now → IsCounted es count
        → Reached 18 18 es (map row_entry first.now)
        → IfOk result (λ rest. Reached 20 20 es (map row_entry rest.now)) }
    ensures told { (es : List Entry) → es ≡ map row_entry rows.now → IsCounted es count
        → Reached 18 18 es (map row_entry first.now) → IfErr result (TellsFirst es) }
{
    let (floors, left) = floors(alloc, rows, first)?;
    behind_numbers(alloc, rows, &floors, count, left)
}
