//! A change is made, and stored.
ghost use Rattle.std.specs.Prelude.{◌≡◌, ◌≤◌, OnOk, OnErr};
ghost use Rattle.ixp_registry_change.specs.Changes.{with_public};
ghost use Rattle.ixp_registry_change.specs.Changes.{changed_rows, with_change};
ghost use Rattle.ixp_machine_effects.specs.Saving.{Saves};
ghost use Rattle.ixp_num_tables.specs.Tables.{put};

use crate::lists::put_public;
use ixp_io::{Change, KeepFault, Keeper};
use ixp_num_tables::Table;
use ixp_registry::{PublicLists, Registry};
use ixp_registry_change::{Keyed, PublicList, RegistryChange, TableChange};
use std::alloc::Global;

/// Stores the batch, or leaves the store as it is.
fn store<P: Keeper>(alloc: Global, keeper: &mut P, batch: &[Change]) -> Result<(), KeepFault>
    ensures saved { Saves batch.now (P.table keeper.old) (P.table keeper.new) (P.faults keeper.old)
        (P.faults keeper.new) result }
    ensures counts { P.faults keeper.old ≤ P.faults keeper.new }
{
    keeper.commit(alloc, batch)
}

/// Puts a row in and stores the batch, or does neither. Where the row's key is there already, the row is put
/// in once the batch is stored, since that does not allocate; else it is taken out again where the batch
/// isn't stored.
fn put_row<R: Keyed + Drop, P: Keeper>(
    alloc: Global,
    table: &mut Table<R>,
    row: R,
    keeper: &mut P,
    batch: &[Change],
) -> Result<(), KeepFault>
where
    R::Key: Drop,
    ensures ok { OnOk result (table.new ≡ put R.Row.key_of row table.old) }
    ensures err { OnErr result (table.new ≡ table.old) }
    ensures saved { Saves batch.now (P.table keeper.old) (P.table keeper.new) (P.faults keeper.old)
        (P.faults keeper.new) result }
    ensures counts { P.faults keeper.old ≤ P.faults keeper.new }
{
    let key = row.key(alloc)?;
    if table.find(&key).is_some() {
        store(alloc, keeper, batch)?;
        table.replace(row);
        return Ok(());
    }
    table.put(row)?;
    match store(alloc, keeper, batch) {
        Ok(()) => Ok(()),
        Err(fault) => {
            table.take_out(&key);
            Err(fault)
        }
    }
}

/// Makes a change of a table and stores the batch, or does neither.
fn change_table<R: Keyed + Drop, P: Keeper>(
    alloc: Global,
    table: &mut Table<R>,
    change: TableChange<R, R::Key>,
    keeper: &mut P,
    batch: &[Change],
) -> Result<(), KeepFault>
where
    R::Key: Drop,
    ensures ok { OnOk result (table.new ≡ changed_rows R.Row.key_of R.Row.named change table.old) }
    ensures err { OnErr result (table.new ≡ table.old) }
    ensures saved { Saves batch.now (P.table keeper.old) (P.table keeper.new) (P.faults keeper.old)
        (P.faults keeper.new) result }
    ensures counts { P.faults keeper.old ≤ P.faults keeper.new }
{
    match change {
        TableChange::Keep => store(alloc, keeper, batch),
        TableChange::Put(row) => put_row(alloc, table, row, keeper, batch),
        TableChange::Take(key) => {
            store(alloc, keeper, batch)?;
            table.take_out(&key);
            Ok(())
        }
    }
}

fn change_public<P: Keeper>(
    alloc: Global,
    public: &mut PublicLists,
    list: PublicList,
    keeper: &mut P,
    batch: &[Change],
) -> Result<(), KeepFault>
    ensures ok { OnOk result (public.new ≡ with_public list public.old) }
    ensures err { OnErr result (public.new ≡ public.old) }
    ensures saved { Saves batch.now (P.table keeper.old) (P.table keeper.new) (P.faults keeper.old)
        (P.faults keeper.new) result }
    ensures counts { P.faults keeper.old ≤ P.faults keeper.new }
{
    store(alloc, keeper, batch)?;
    put_public(public, list);
    Ok(())
}

/// Makes a change of a registry in place and stores the batch, or does neither.
pub fn make<P: Keeper>(
    alloc: Global,
    registry: &mut Registry,
    change: RegistryChange,
    keeper: &mut P,
    batch: &[Change],
) -> Result<(), KeepFault>
    ensures ok { OnOk result (registry.new ≡ with_change registry.old change) }
    ensures err { OnErr result (registry.new ≡ registry.old) }
    ensures saved { Saves batch.now (P.table keeper.old) (P.table keeper.new) (P.faults keeper.old)
        (P.faults keeper.new) result }
    ensures counts { P.faults keeper.old ≤ P.faults keeper.new }
{
    match change {
        RegistryChange::Members(change) => {
            change_table(alloc, &mut registry.members, change, keeper, batch)
        }
        RegistryChange::Contacts(change) => {
            change_table(alloc, &mut registry.contacts, change, keeper, batch)
        }
        RegistryChange::Keys(change) => {
            change_table(alloc, &mut registry.keys, change, keeper, batch)
        }
        RegistryChange::Switches(change) => {
            change_table(alloc, &mut registry.switches, change, keeper, batch)
        }
        RegistryChange::Ports(change) => {
            change_table(alloc, &mut registry.ports, change, keeper, batch)
        }
        RegistryChange::Vlans(change) => {
            change_table(alloc, &mut registry.vlans, change, keeper, batch)
        }
        RegistryChange::Interfaces(change) => {
            change_table(alloc, &mut registry.interfaces, change, keeper, batch)
        }
        RegistryChange::Routers(change) => {
            change_table(alloc, &mut registry.routers, change, keeper, batch)
        }
        RegistryChange::Irr(change) => {
            change_table(alloc, &mut registry.irr, change, keeper, batch)
        }
        RegistryChange::Origins(change) => {
            change_table(alloc, &mut registry.origins, change, keeper, batch)
        }
        RegistryChange::Rules(change) => {
            change_table(alloc, &mut registry.rules, change, keeper, batch)
        }
        RegistryChange::Public(list) => {
            change_public(alloc, &mut registry.public, list, keeper, batch)
        }
    }
}
