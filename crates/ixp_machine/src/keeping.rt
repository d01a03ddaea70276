//! Numbers of requests are kept, and their edits made.
ghost use Rattle.std.specs.Prelude.{
  ◌≡◌,
  ◌≤◌,
  ◌<◌,
  ◌^◌,
  [],
  ◌∷◌,
  length,
  None,
  Ok,
  OnOk,
  OnErr,
  IfSome,
  IfNone,
};
ghost use Rattle.ixp_registry_change.specs.Changes.{with_change};
ghost use Rattle.ixp_machine_effects.specs.Saving.{Saves};
ghost use Rattle.ixp_machine.specs.Keeping.{trimmed};
ghost use Rattle.ixp_registry.specs.Words.{owner_numbers};
ghost use Rattle.ixp_machine_steps.specs.Kept.{kept_key, kept_of, kept_owner_key, noted, noted_for};
ghost use Rattle.ixp_num_tables.specs.Tables.{Ascends, find, place};

use crate::preparing::Prepared;
use ixp_io::{Change, KeepFault, Keeper};
use ixp_machine_effects::make;
use ixp_machine_steps::{KeptNumber, KeptOwner};
use ixp_num_tables::{Row, Table};
use ixp_registry::{Owner, Registry};
use ixp_registry_change::RegistryChange;
use std::alloc::Global;
use std::cmp::Ordering;
use std::mem;

/// Where the owner's row stands.
fn place_of(rows: &[KeptOwner], owner: Owner) -> Option<usize>
    requires { Ascends kept_owner_key rows.now }
    ensures place { IfSome result (λ i. place kept_owner_key (owner_numbers owner) rows.now ≡ Ok i) }
    ensures within { IfSome result (λ i. i < length rows.now) }
    ensures none { IfNone result (find kept_owner_key (owner_numbers owner) rows.now ≡ None) }
{
    let mut left = rows;
    let mut before = 0;
    'each: while let Some((row, others)) = left.split_first() {
        match row.compare(&owner) {
            Ordering::Less => {
                before += 1;
                left = others;
            }
            Ordering::Equal => return Some(before),
            Ordering::Greater => return None,
        }
    }
    None
}

/// Takes the least number out where there are more than 1,024.
fn trim(row: &mut KeptOwner)
    ensures { row.new ≡ trimmed row.old }
{
    if row.numbers.len() <= 1024 {
        return;
    }
    if let Some(least) = row.numbers.as_slice().first() {
        let number = least.number;
        row.numbers.take_out(&number);
        row.floor = number + 1;
    }
}

/// Makes a change and keeps the number for an owner of whom something is kept, or does neither.
fn carry_known<P: Keeper>(
    alloc: Global,
    registry: &mut Registry,
    row: &mut KeptOwner,
    number: KeptNumber,
    change: RegistryChange,
    keeper: &mut P,
    batch: &[Change],
) -> Result<(), KeepFault>
    requires { find kept_key (kept_key number) row.old.numbers ≡ None }
    ensures registry { OnOk result (registry.new ≡ with_change registry.old change) }
    ensures row { OnOk result (row.new ≡ noted number row.old) }
    ensures no_change { OnErr result (registry.new ≡ registry.old) }
    ensures no_row { OnErr result (row.new ≡ row.old) }
    ensures saved { Saves batch.now (P.table keeper.old) (P.table keeper.new) (P.faults keeper.old)
        (P.faults keeper.new) result }
    ensures counts { P.faults keeper.old ≤ P.faults keeper.new }
{
    let key = number.number;
    row.numbers.put(number)?;
    match make(alloc, registry, change, keeper, batch) {
        Ok(()) => {
            trim(row);
            Ok(())
        }
        Err(fault) => {
            row.numbers.take_out(&key);
            Err(fault)
        }
    }
}

/// Makes a change and keeps the number for an owner of whom nothing is kept yet, or does neither.
fn carry_new<P: Keeper>(
    alloc: Global,
    registry: &mut Registry,
    kept: &mut Table<KeptOwner>,
    prepared: Prepared,
    keeper: &mut P,
    batch: &[Change],
) -> Result<(), KeepFault>
    requires { find kept_owner_key (owner_numbers prepared.owner) kept.old ≡ None }
    ensures registry { OnOk result (registry.new ≡ with_change registry.old prepared.change) }
    ensures kept { OnOk result (kept.new ≡ noted_for prepared.owner prepared.kept kept.old) }
    ensures no_change { OnErr result (registry.new ≡ registry.old) }
    ensures no_row { OnErr result (kept.new ≡ kept.old) }
    ensures saved { Saves batch.now (P.table keeper.old) (P.table keeper.new) (P.faults keeper.old)
        (P.faults keeper.new) result }
    ensures counts { P.faults keeper.old ≤ P.faults keeper.new }
{
    let owner = prepared.owner;
    let mut numbers = Table::new(alloc);
    numbers.put(prepared.kept)?;
    kept.put(KeptOwner {
        owner,
        floor: 0,
        numbers,
    })?;
    match make(alloc, registry, prepared.change, keeper, batch) {
        Ok(()) => Ok(()),
        Err(fault) => {
            kept.take_out(&owner);
            Err(fault)
        }
    }
}

/// Makes a change and keeps the number of its request, or does neither.
pub(crate) fn carry<P: Keeper>(
    alloc: Global,
    registry: &mut Registry,
    kept: &mut Table<KeptOwner>,
    prepared: Prepared,
    keeper: &mut P,
    batch: &[Change],
) -> Result<(), KeepFault>
    requires { find kept_key (kept_key prepared.kept) (kept_of kept.old prepared.owner).numbers ≡ None }
    ensures registry { OnOk result (registry.new ≡ with_change registry.old prepared.change) }
    ensures kept { OnOk result (kept.new ≡ noted_for prepared.owner prepared.kept kept.old) }
    ensures no_change { OnErr result (registry.new ≡ registry.old) }
    ensures no_row { OnErr result (kept.new ≡ kept.old) }
    ensures saved { Saves batch.now (P.table keeper.old) (P.table keeper.new) (P.faults keeper.old)
        (P.faults keeper.new) result }
    ensures counts { P.faults keeper.old ≤ P.faults keeper.new }
{
    let Some(at) = place_of(kept.as_slice(), prepared.owner) else {
        return carry_new(alloc, registry, kept, prepared, keeper, batch);
    };
    let mut rows = mem::replace(kept, Table::new(alloc)).into_rows();
    let outcome = carry_known(
        alloc,
        registry,
        &mut rows[at],
        prepared.kept,
        prepared.change,
        keeper,
        batch,
    );
    *kept = Table::from_ascending(rows);
    outcome
}
