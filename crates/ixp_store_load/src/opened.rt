//! The state that a keeper's rows are those of.
ghost use Rattle.std.specs.Prelude.{
  ◌≡◌,
  ◌≤◌,
  ◌<◌,
  ◌^◌,
  ◌∷◌,
  ◌↔◌,
  [],
  ℕ,
  List,
  IfOk,
  IfErr,
  IsOk,
  IfSome,
  IsErrOf,
  Err,
  IsTrue,
  None,
  Some,
  false,
  true,
  map,
};
ghost use Rattle.std.specs.List.Sorted.{IsPermutation};
ghost use Rattle.std.specs.List.{AllByRecursion};
ghost use Rattle.ixp_io.specs.Faults.{Rose};
ghost use Rattle.ixp_io.specs.Tables.{row_entry};
ghost use Rattle.ixp_io.specs.Told.{WhereTold};
ghost use Rattle.std.specs.FinMap.{empty};
ghost use Rattle.ixp_machine_steps.specs.Openings.{first_state};
ghost use Rattle.ixp_machine_steps.specs.declared.state.State.{State as Whole};
ghost use Rattle.ixp_store_rows.specs.Names.{Entry, count_row, version_row};
ghost use Rattle.ixp_store_rows.specs.States.{set_row, stored_rows, tables};
ghost use Rattle.ixp_registry.specs.Lookups.{has_owner};
ghost use Rattle.ixp_registry.specs.Valid.{Valid};
ghost use Rattle.ixp_machine_steps.specs.Kept.{kept_owner_key};
ghost use Rattle.ixp_machine_steps.specs.States.{ValidState};
ghost use Rattle.ixp_num_tables.specs.Tables.{Ascends};
ghost use Rattle.ixp_store_words.specs.Answers.{IsLoaded, IsStoreOf, TellsVersion, empty_registry};
ghost use Rattle.ixp_store_damage.specs.Loading.{kind_rows};
ghost use Rattle.ixp_store_damage.specs.Damages.{AreAllRight, TellsRow};
ghost use Rattle.ixp_store_words.specs.Opening.{
  AreAllRows,
  IsFirstOrOf,
  IsTold,
  SaysVersion,
  entry_name,
  is_count,
  is_old,
  is_version,
};
ghost use Rattle.ixp_store_words.specs.Sorting.{Same};
ghost use Rattle.ixp_store_words.specs.Storing.{AreStorable, IsStorable};
ghost use Rattle.ixp_store_words.specs.Keeping.{AreKept};
ghost use Rattle.ixp_store_damage.specs.Walking.{
  FindsCount,
  IsCounted,
  LoadTellsRow,
  LoadTellsWrong,
  Reached,
  TellNoState,
  TellsFirst,
  TellsRegistry,
  TellsWrong,
};
ghost use Rattle.ixp_store_words.specs.declared.fault.LoadFault.TheVariants.{KeeperFault};

use crate::checking::are_rows_of;
use crate::keeper::read_rows;
use ixp_io::{Keeper, Row, RowName};
use ixp_machine_steps::{KeptOwner, State, first_state};
use ixp_num_sorted::Sorted;
use ixp_num_tables::{Items, Table};
use ixp_registry::{Member, PublicLists, Registry, Site, has_owner};
use ixp_store_damage::{
    Left, behind_kept, damaged, missing, registry_rows, registry_told, sets, sound_registry,
};
use ixp_store_rows::{COUNT, VERSION, set_count};
use ixp_store_words::{Damage, LoadFault, NoState, kept_told, number_of};
use std::alloc::{AllocError, Global};

fn is_version(row: &Row) -> bool
    ensures { result ≡ is_version row.now }
{
    row.name.kind == VERSION && row.name.key.is_empty()
}

/// The rows behind that of the version, which has to stand first.
fn after_version(alloc: Global, rows: &[Row]) -> Result<Left<'_>, NoState>
    ensures first { IfOk result (λ left. map row_entry rows.now ≡ version_row ∷ map row_entry left.now) }
    ensures told { Ascends entry_name (map row_entry rows.now)
        → IfErr result (TellsFirst (map row_entry rows.now)) }
{
    let Some((row, others)) = rows.split_first() else {
        return Err(missing(alloc, VERSION));
    };
    if !is_version(row) {
        return Err(missing(alloc, VERSION));
    }
    if row.body.as_slice() == b"2".as_slice() {
        Ok(others)
    } else {
        Err(damaged(alloc, &row.name))
    }
}

fn is_count(row: &Row) -> bool
    ensures { result ≡ is_count row.now }
{
    row.name.kind == COUNT && row.name.key.is_empty()
}

/// How many requests were accepted, by the row that says so.
fn count_in(rows: &[Row]) -> Option<u64>
    ensures { (n : ℕ) → n < 2 ^ 64 → kind_rows 20 (map row_entry rows.now) ≡ count_row n ∷ []
        → result ≡ Some n }
{
    let mut left = rows;
    'rows: while let Some((row, others)) = left.split_first() {
        if is_count(row) {
            return number_of(row.body.as_slice());
        }
        left = others;
    }
    None
}

/// How many requests were accepted, by the row of the count.
fn count_of(alloc: Global, row: &Row) -> Result<Option<u64>, AllocError>
    ensures { IfOk result (FindsCount (row_entry row.now)) }
{
    if !is_count(row) {
        return Ok(None);
    }
    let Some(accepted) = number_of(row.body.as_slice()) else {
        return Ok(None);
    };
    let change = set_count(alloc, accepted)?;
    if sets(&change, row) {
        Ok(Some(accepted))
    } else {
        Ok(None)
    }
}

/// How many requests were accepted, by the row of the count among these.
fn count_told(alloc: Global, rows: &[Row]) -> Result<Option<u64>, AllocError>
    ensures { IfOk result (IsCounted (map row_entry rows.now)) }
{
    let mut left = rows;
    'rows: while let Some((row, others)) = left.split_first() {
        if let Some(accepted) = count_of(alloc, row)? {
            return Ok(Some(accepted));
        }
        left = others;
    }
    Ok(None)
}

/// The count's row has to be the last one.
fn ends_with_count(alloc: Global, left: Left, count: Option<u64>) -> Result<(), NoState>
    ensures right { (es : List Entry) → Reached 20 20 es (map row_entry left.now) → IsCounted es count
        → IsOk result → AreAllRight es }
    ensures told { (es : List Entry) → Reached 20 20 es (map row_entry left.now) → IsCounted es count
        → IfErr result (TellsFirst es) }
{
    let Some((row, others)) = left.split_first() else {
        return Err(missing(alloc, COUNT));
    };
    if row.name.kind < COUNT {
        return Err(damaged(alloc, &row.name));
    }
    if !is_count(row) {
        return Err(missing(alloc, COUNT));
    }
    if count.is_none() {
        return Err(damaged(alloc, &row.name));
    }
    match others.split_first() {
        Some((other, _)) => Err(damaged(alloc, &other.name)),
        None => Ok(()),
    }
}

/// Whether what is kept is kept for staff or for members that are there.
fn have_owners(members: &Table<Member>, kept: &Table<KeptOwner>) -> bool
    ensures owners { IsTrue result ↔ AllByRecursion (λ k. has_owner members.now k.owner ≡ true) kept.now }
    ensures order { Ascends kept_owner_key kept.now }
{
    let mut left = kept.as_slice();
    'each: while let Some((row, others)) = left.split_first() {
        if !has_owner(members, row.owner) {
            return false;
        }
        left = others;
    }
    true
}

/// The state of a registry and what is kept of requests, if that is kept for owners that are there.
#[tactic(auto, using(ixp_store_words::proofs::StorableStates::storable_by_kept))]
fn joined(alloc: Global, registry: Registry, kept: Table<KeptOwner>, accepted: u64) -> Option<State>
    requires registry { Valid registry }
    requires kept { AreKept accepted kept }
    requires storable { AreStorable kept }
    ensures valid { IfSome result ValidState }
    ensures storable { IfSome result IsStorable }
    ensures complete { (s : Whole) → ValidState s → registry ≡ s.registry → kept ≡ s.kept
        → accepted ≡ s.accepted → result ≡ Some s }
{
    if !have_owners(&registry.members, &kept) {
        return None;
    }
    let mut first = first_state(alloc, registry);
    first.kept = kept;
    first.accepted = accepted;
    Some(first)
}

/// The state that rows tell, if they tell one.
fn told_by(alloc: Global, rows: &[Row]) -> Result<Option<State>, AllocError>
    ensures valid { IfOk result (λ o. IfSome o ValidState) }
    ensures storable { IfOk result (λ o. IfSome o IsStorable) }
    ensures complete { (s : Whole) → ValidState s → IsStorable s → AreAllRows s (map row_entry rows.now)
        → IfOk result (λ o. o ≡ Some s) }
{
    let Some(registry) = registry_told(alloc, rows)? else {
        return Ok(None);
    };
    let Some(accepted) = count_in(rows) else {
        return Ok(None);
    };
    let Some(kept) = kept_told(alloc, rows, accepted)? else {
        return Ok(None);
    };
    Ok(joined(alloc, registry, kept, accepted))
}

/// Why rows are no state's. Those that are each right and break no rule are some state's.
fn damage_of(alloc: Global, rows: &[Row]) -> NoState
    ensures { Ascends entry_name (map row_entry rows.now) → TellNoState (map row_entry rows.now)
        → TellsWrong (map row_entry rows.now) result }
{
    match sound_rows(alloc, rows) {
        Ok(()) => missing(alloc, VERSION),
        Err(fault) => fault,
    }
}

/// Goes through the rows in the order of their names up to the first that is wrong.
fn right_rows(alloc: Global, rows: &[Row]) -> Result<(), NoState>
    ensures right { Ascends entry_name (map row_entry rows.now) → IsOk result
        → AreAllRight (map row_entry rows.now) }
    ensures told { Ascends entry_name (map row_entry rows.now)
        → IfErr result (TellsFirst (map row_entry rows.now)) }
{
    let left = after_version(alloc, rows)?;
    let left = registry_rows(alloc, left)?;
    let count = count_told(alloc, rows)?;
    let left = behind_kept(alloc, rows, left, count)?;
    ends_with_count(alloc, left, count)
}

/// Goes through the rows, and then through the rules of their registry, up to the first fault.
fn sound_rows(alloc: Global, rows: &[Row]) -> Result<(), NoState>
    ensures right { Ascends entry_name (map row_entry rows.now) → IsOk result
        → AreAllRight (map row_entry rows.now) }
    ensures sound { Ascends entry_name (map row_entry rows.now) → IsOk result
        → TellsRegistry (map row_entry rows.now) }
    ensures told { Ascends entry_name (map row_entry rows.now)
        → IfErr result (TellsWrong (map row_entry rows.now)) }
{
    right_rows(alloc, rows)?;
    sound_registry(alloc, rows)
}

/// The registry without rows.
#[tactic(auto, using(crate::proofs::Nothing::valid_nothing))]
fn empty_registry(alloc: Global) -> Registry
    ensures empty { result ≡ empty_registry }
    ensures valid { Valid result }
{
    Registry {
        site: Site {
            ixp_id: 0,
            ixf_id: 0,
            shortname: Items::new(alloc),
        },
        members: Table::new(alloc),
        contacts: Table::new(alloc),
        keys: Table::new(alloc),
        switches: Table::new(alloc),
        ports: Table::new(alloc),
        vlans: Table::new(alloc),
        interfaces: Table::new(alloc),
        routers: Table::new(alloc),
        irr: Table::new(alloc),
        origins: Table::new(alloc),
        rules: Table::new(alloc),
        public: PublicLists {
            bogons: Sorted::new(alloc),
            bogon_as: Sorted::new(alloc),
            transit: Sorted::new(alloc),
            roas: Sorted::new(alloc),
        },
    }
}

/// The state that rows tell, if they are all its rows.
fn confirmed(alloc: Global, rows: &[Row]) -> Result<Option<State>, AllocError>
    ensures valid { IfOk result (λ o. IfSome o ValidState) }
    ensures storable { IfOk result (λ o. IfSome o IsStorable) }
    ensures same { IfOk result
        (λ o. IfSome o (λ s. IsPermutation (map set_row (stored_rows s))
        (map set_row (map row_entry rows.now)))) }
    ensures complete { (s : Whole) → ValidState s → IsStorable s → AreAllRows s (map row_entry rows.now)
        → IfOk result (λ o. o ≡ Some s) }
{
    match told_by(alloc, rows)? {
        None => Ok(None),
        Some(state) => {
            if are_rows_of(alloc, &state, rows)? {
                Ok(Some(state))
            } else {
                Ok(None)
            }
        }
    }
}

/// The state whose rows these are.
fn state_of(alloc: Global, rows: &[Row]) -> Result<State, NoState>
    ensures valid { IfOk result ValidState }
    ensures storable { IfOk result IsStorable }
    ensures same { IfOk result
        (λ s. IsPermutation (map set_row (stored_rows s)) (map set_row (map row_entry rows.now))) }
    ensures complete { (s : Whole) → ValidState s → IsStorable s → AreAllRows s (map row_entry rows.now)
        → IsTold s result }
    ensures damage { Ascends entry_name (map row_entry rows.now)
        → IfErr result (TellsWrong (map row_entry rows.now)) }
{
    match confirmed(alloc, rows)? {
        Some(state) => Ok(state),
        None => Err(damage_of(alloc, rows)),
    }
}

/// Whether the rows begin with that of the version before this one.
fn is_old(rows: &[Row]) -> bool
    ensures { result ≡ is_old rows.now }
{
    match rows.first() {
        Some(row) => {
            row.name.kind == VERSION
                && row.name.key.is_empty()
                && row.body.as_slice() == b"1".as_slice()
        }
        None => false,
    }
}

/// The state whose rows these are. No row at all stands for the registry without rows.
#[tactic(auto, using(ixp_rows::proofs::Gathered::no_rows, ixp_store_words::proofs::KeepStorable::first_storable))]
fn opened(alloc: Global, rows: &[Row], beyond: Option<RowName>) -> Result<State, LoadFault>
    ensures valid { IfOk result ValidState }
    ensures storable { IfOk result IsStorable }
    ensures state { IfOk result (λ s. IsFirstOrOf s rows.now) }
    ensures whole { IsOk result → beyond ≡ None }
    ensures version { SaysVersion result rows.now }
    ensures cause { IsErrOf result KeeperFault → ⊥ }
    ensures nothing { rows.now ≡ [] → beyond ≡ None → IsLoaded (first_state empty_registry) result }
    ensures complete { (s : Whole) → ValidState s → IsStorable s → AreAllRows s (map row_entry rows.now)
        → is_old rows.now ≡ false → beyond ≡ None → IsLoaded s result }
    ensures damage { Ascends entry_name (map row_entry rows.now) → beyond ≡ None
        → LoadTellsWrong (map row_entry rows.now) result }
    ensures last { IfSome beyond (λ name. LoadTellsRow name result) }
{
    if is_old(rows) {
        return Err(LoadFault::OldVersion { found: 1 });
    }
    if let Some(name) = beyond {
        return Err(LoadFault::Damaged {
            name,
            damage: Damage::Row,
        });
    }
    if rows.is_empty() {
        return Ok(first_state(alloc, empty_registry(alloc)));
    }
    match state_of(alloc, rows) {
        Ok(state) => Ok(state),
        Err(NoState::Damaged { name, damage }) => Err(LoadFault::Damaged { name, damage }),
        Err(NoState::NoMemory) => Err(LoadFault::NoMemory),
    }
}

/// The valid state whose rows the keeper has. No row at all stands for the registry without rows.
pub fn load<P: Keeper>(alloc: Global, keeper: &mut P) -> Result<State, LoadFault>
    ensures valid { IfOk result ValidState }
    ensures storable { IfOk result IsStorable }
    ensures state { IfOk result (λ s. WhereTold (P.table keeper.old) (IsStoreOf s)) }
    ensures complete { (s : Whole) → ValidState s → IsStorable s → P.table keeper.old ≡ Some (tables s)
        → IsLoaded s result }
    ensures nothing { P.table keeper.old ≡ Some empty → IsLoaded (first_state empty_registry) result }
    ensures version { WhereTold (P.table keeper.old) (TellsVersion result) }
    ensures damage { WhereTold (P.table keeper.old) (TellsRow result) }
    ensures kept { P.table keeper.new ≡ P.table keeper.old }
    ensures counts { P.faults keeper.old ≤ P.faults keeper.new }
    ensures cause { IsErrOf result KeeperFault → Rose (P.faults keeper.old) (P.faults keeper.new) }
    ensures answered { Rose (P.faults keeper.old) (P.faults keeper.new) → result ≡ Err KeeperFault }
{
    let (rows, beyond) = read_rows(alloc, keeper)?;
    opened(alloc, rows.as_slice(), beyond)
}
