//! What is kept of requests, gathered from rows in any order.
ghost use Rattle.std.specs.Prelude.{
  ◌≡◌,
  ◌≢◌,
  ◌<◌,
  ◌≤◌,
  ◌^◌,
  ◌↔◌,
  ℕ,
  [],
  OnOk,
  IfOk,
  IfSome,
  IsTrue,
  Some,
  map,
  true,
};
ghost use Rattle.std.specs.List.{AllByRecursion};
ghost use Rattle.ixp_io.specs.Tables.{row_entry};
ghost use Rattle.ixp_registry.specs.declared.members.Owner.{Owner as By};
ghost use Rattle.ixp_registry.specs.Widths.{IsNumber, owner_number};
ghost use Rattle.ixp_registry.specs.Words.{is_staff_number, owner_numbers};
ghost use Rattle.ixp_machine_steps.specs.declared.kept.KeptNumber.{KeptNumber as Number};
ghost use Rattle.ixp_machine_steps.specs.declared.kept.KeptOwner.{KeptOwner as Kept};
ghost use Rattle.ixp_machine_steps.specs.declared.state.State.{State as Whole};
ghost use Rattle.ixp_machine_steps.specs.Kept.{kept_owner_key, kept_of, ValidKept};
ghost use Rattle.ixp_machine_steps.specs.States.{ValidState};
ghost use Rattle.ixp_store_rows.specs.Names.{floor_row, kept_row};
ghost use Rattle.ixp_num_tables.specs.Tables.{without};
ghost use Rattle.ixp_store_words.specs.Gathering.{IsNoted, all_in, all_of, with_floor, with_number, with_row};
ghost use Rattle.ixp_store_words.specs.Keeping.{AreKept, MayBeKept};
ghost use Rattle.ixp_store_words.specs.Opening.{AreAllRows};
ghost use Rattle.ixp_store_words.specs.Storing.{AreStorable, HasSubject, IsStorable};

use crate::storable::are_storable;
use crate::words::{number_of, numbered_of, owner_of, request_of};
use ixp_io::Row;
use ixp_machine_steps::{KeptNumber, KeptOwner};
use ixp_num_tables::Table;
use ixp_registry::Owner;
use ixp_store_rows::{FLOORS, KEPT};
use std::alloc::{AllocError, Global};

/// Numbers of requests are below this, and a floor is at most this.
pub const NUMBERS_END: u64 = 10_000_000_000_000_000;

/// How many numbers are kept for an owner.
pub const MOST_KEPT: usize = 1024;

/// The owner and the floor that a row says.
pub fn floor_said(row: &Row) -> Option<(Owner, u64)>
    ensures { (o : Kept) → IsNumber (owner_number o.owner) → o.floor < 2 ^ 64
        → row_entry row.now ≡ floor_row o → result ≡ Some (o.owner, o.floor) }
{
    match (
        owner_of(row.name.key.as_slice()),
        number_of(row.body.as_slice()),
    ) {
        (Some(owner), Some(floor)) => Some((owner, floor)),
        _ => None,
    }
}

/// The owner and the number that a row says.
pub fn number_said(alloc: Global, row: &Row) -> Result<Option<(Owner, KeptNumber)>, AllocError>
    ensures told { (w : By) (k : Number) → IsNumber (owner_number w) → HasSubject k → k.place < 2 ^ 64
        → row_entry row.now ≡ kept_row w k → IfOk result (λ o. o ≡ Some (w, k)) }
    ensures subject { IfOk result (λ o. IfSome o (λ x. HasSubject x.1)) }
{
    let Some((owner, number)) = numbered_of(row.name.key.as_slice()) else {
        return Ok(None);
    };
    if number >= NUMBERS_END {
        return Ok(None);
    }
    match request_of(alloc, row.body.as_slice())? {
        Some((kind, subject, place)) => Ok(Some((
            owner,
            KeptNumber {
                number,
                kind,
                subject,
                place,
            },
        ))),
        None => Ok(None),
    }
}

/// What is kept for the owner so far, which is taken out.
fn taken(alloc: Global, kept: &mut Table<KeptOwner>, owner: Owner) -> KeptOwner
    ensures row { result ≡ kept_of kept.old owner }
    ensures rest { kept.new ≡ without kept_owner_key (owner_numbers owner) kept.old }
{
    match kept.take(&owner) {
        Some(row) => row,
        None => KeptOwner {
            owner,
            floor: 0,
            numbers: Table::new(alloc),
        },
    }
}

/// Owners, and aside the one whose rows come now: the rows of an owner stand together.
#[derive(Drop)]
struct Collected {
    kept: Table<KeptOwner>,
    current: Option<KeptOwner>,
}

fn put_in(kept: &mut Table<KeptOwner>, row: KeptOwner) -> Result<(), AllocError>
    ensures { OnOk result (kept.new ≡ with_row row.owner row kept.old) }
{
    kept.take_out(&row.owner);
    kept.put(row)
}

/// What is kept for the owner so far, set aside from the others.
fn set_aside(
    alloc: Global,
    kept: &mut Table<KeptOwner>,
    current: Option<KeptOwner>,
    owner: Owner,
) -> Result<KeptOwner, AllocError>
    ensures row { IfOk result (λ row. row ≡ kept_of (all_of kept.old current) owner) }
    ensures rest { OnOk result
        (without kept_owner_key (owner_numbers owner) kept.new
        ≡ without kept_owner_key (owner_numbers owner) (all_of kept.old current)) }
{
    match current {
        Some(row) => {
            if row.owner == owner {
                return Ok(row);
            }
            put_in(kept, row)?;
            Ok(taken(alloc, kept, owner))
        }
        None => Ok(taken(alloc, kept, owner)),
    }
}

fn put_floor(
    alloc: Global,
    gathered: &mut Collected,
    owner: Owner,
    floor: u64,
) -> Result<(), AllocError>
    ensures { OnOk result (all_in gathered.new ≡ with_floor owner floor (all_in gathered.old)) }
{
    let current = gathered.current.take();
    let mut row = set_aside(alloc, &mut gathered.kept, current, owner)?;
    row.floor = floor;
    gathered.current = Some(row);
    Ok(())
}

fn put_kept(
    alloc: Global,
    gathered: &mut Collected,
    owner: Owner,
    number: KeptNumber,
) -> Result<(), AllocError>
    ensures { OnOk result (all_in gathered.new ≡ with_number owner number (all_in gathered.old)) }
{
    let current = gathered.current.take();
    let mut row = set_aside(alloc, &mut gathered.kept, current, owner)?;
    row.numbers.put(number)?;
    gathered.current = Some(row);
    Ok(())
}

/// All that was gathered.
fn together(gathered: Collected) -> Result<Table<KeptOwner>, AllocError>
    ensures { IfOk result (λ kept. kept ≡ all_in gathered) }
{
    let mut kept = gathered.kept;
    if let Some(row) = gathered.current {
        put_in(&mut kept, row)?;
    }
    Ok(kept)
}

/// Takes up a floor, where the row says one.
fn note_floor(alloc: Global, gathered: &mut Collected, row: &Row) -> Result<bool, AllocError>
    ensures { (o : Kept) → IsNumber (owner_number o.owner) → o.floor < 2 ^ 64
        → row_entry row.now ≡ floor_row o
        → IfOk result (λ done. IsTrue done
        × (all_in gathered.new ≡ with_floor o.owner o.floor (all_in gathered.old))) }
{
    match floor_said(row) {
        Some((owner, floor)) => {
            put_floor(alloc, gathered, owner, floor)?;
            Ok(true)
        }
        None => Ok(false),
    }
}

/// Takes up a number, where the row says one.
fn note_number(alloc: Global, gathered: &mut Collected, row: &Row) -> Result<bool, AllocError>
    ensures { (w : By) (k : Number) → IsNumber (owner_number w) → HasSubject k → k.place < 2 ^ 64
        → row_entry row.now ≡ kept_row w k
        → IfOk result (λ done. IsTrue done × (all_in gathered.new ≡ with_number w k (all_in gathered.old))) }
{
    match number_said(alloc, row)? {
        Some((owner, number)) => {
            put_kept(alloc, gathered, owner, number)?;
            Ok(true)
        }
        None => Ok(false),
    }
}

/// Takes up what the row says of requests; not where it should say something, and says nothing.
fn note_row(alloc: Global, gathered: &mut Collected, row: &Row) -> Result<bool, AllocError>
    ensures { IfOk result
        (λ done. IsNoted (row_entry row.now) done (all_in gathered.old) (all_in gathered.new)) }
{
    if row.name.kind == FLOORS {
        note_floor(alloc, gathered, row)
    } else if row.name.kind == KEPT {
        note_number(alloc, gathered, row)
    } else {
        Ok(true)
    }
}

/// What the rows say of requests.
fn gathered(alloc: Global, rows: &[Row]) -> Result<Option<Table<KeptOwner>>, AllocError>
    ensures { (s : Whole) → ValidState s → IsStorable s → AreAllRows s (map row_entry rows.now)
        → IfOk result (λ o. o ≡ Some s.kept) }
{
    let mut gathered = Collected {
        kept: Table::new(alloc),
        current: None,
    };
    let mut left = rows;
    'rows: while let Some((row, others)) = left.split_first() {
        if !note_row(alloc, &mut gathered, row)? {
            return Ok(None);
        }
        left = others;
    }
    Ok(Some(together(gathered)?))
}

/// Whether the number may be kept under this floor: its place is one of those that were accepted.
fn may_be_kept(floor: u64, number: &KeptNumber, accepted: u64) -> bool
    ensures { IsTrue result ↔ MayBeKept accepted floor number.now }
{
    floor <= number.number && 0 < number.number && number.place <= accepted
}

fn may_all_be_kept(floor: u64, numbers: &[KeptNumber], accepted: u64) -> bool
    ensures { IsTrue result ↔ AllByRecursion (MayBeKept accepted floor) numbers.now }
{
    let mut left = numbers;
    'each: while let Some((number, others)) = left.split_first() {
        if !may_be_kept(floor, number, accepted) {
            return false;
        }
        left = others;
    }
    true
}

fn is_staff_number(owner: Owner) -> bool
    ensures { result ≡ is_staff_number owner }
{
    match owner {
        Owner::Staff(number) => 1 <= number && number <= 16,
        Owner::Member(_) => true,
    }
}

/// Whether this may be kept for the owner, where so many requests were accepted.
fn is_kept(kept: &KeptOwner, accepted: u64) -> bool
    ensures { IsTrue result ↔ (ValidKept accepted kept.now × (is_staff_number kept.now.owner ≡ true)) }
{
    let numbers = kept.numbers.as_slice();
    is_staff_number(kept.owner)
        && kept.floor <= NUMBERS_END
        && numbers.len() <= MOST_KEPT
        && may_all_be_kept(kept.floor, numbers, accepted)
}

fn are_kept(kept: &[KeptOwner], accepted: u64) -> bool
    ensures { IsTrue result ↔ AreKept accepted kept.now }
{
    let mut left = kept;
    'each: while let Some((row, others)) = left.split_first() {
        if !is_kept(row, accepted) {
            return false;
        }
        left = others;
    }
    true
}

/// What is kept of requests, by the rows of a store that say so, where so many were accepted.
#[tactic(auto, using(crate::proofs::StorableStates::kept_of_storable))]
pub fn kept_told(
    alloc: Global,
    rows: &[Row],
    accepted: u64,
) -> Result<Option<Table<KeptOwner>>, AllocError>
    ensures kept { IfOk result (λ o. IfSome o (AreKept accepted)) }
    ensures storable { IfOk result (λ o. IfSome o AreStorable) }
    ensures complete { (s : Whole) → ValidState s → IsStorable s → accepted ≡ s.accepted
        → AreAllRows s (map row_entry rows.now) → IfOk result (λ o. o ≡ Some s.kept) }
{
    match gathered(alloc, rows)? {
        Some(kept) => {
            if !are_kept(kept.as_slice(), accepted) {
                return Ok(None);
            }
            if !are_storable(kept.as_slice()) {
                return Ok(None);
            }
            Ok(Some(kept))
        }
        None => Ok(None),
    }
}
