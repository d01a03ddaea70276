//! Rows of a registry that a request replaces, takes out or puts in.
ghost use Rattle.std.specs.Prelude.{◌≡◌, ◌++◌, OnOk, map};
ghost use Rattle.std.specs.Option.{option_copied};
ghost use Rattle.ixp_store_batches.specs.Batches.{
  old_row,
  new_row,
  entries_of,
  old_public,
  new_public,
  old_entries,
  new_entries,
};
ghost use Rattle.ixp_store_rows.specs.States.{drop_row, set_row};

use ixp_io::Change;
use ixp_num_tables::Table;
use ixp_registry::{PublicLists, Registry};
use ixp_registry_change::{Keyed, PublicList, RegistryChange, TableChange};
use ixp_store_rows::{Rows, drop_rows, set_rows};
use std::alloc::{AllocError, Global};

fn clear_found<R: Rows>(
    alloc: Global,
    found: Option<&R>,
    batch: &mut Vec<Change>,
) -> Result<(), AllocError>
    ensures { OnOk result
        (batch.new.items ≡ batch.old.items
        ++ map drop_row (entries_of R.entries (option_copied found.entry))) }
{
    match found {
        Some(row) => row.clear(alloc, batch),
        None => Ok(()),
    }
}

fn clear_old<R: Keyed + Rows>(
    alloc: Global,
    table: &Table<R>,
    change: &TableChange<R, R::Key>,
    batch: &mut Vec<Change>,
) -> Result<(), AllocError>
where
    R::Key: Drop,
    ensures { OnOk result
        (batch.new.items ≡ batch.old.items
        ++ map drop_row (entries_of R.Rows.entries
        (old_row R.Row.key_of R.Row.named change.now table.now))) }
{
    match change {
        TableChange::Keep => Ok(()),
        TableChange::Put(row) => {
            let key = row.key(alloc)?;
            clear_found(alloc, table.find(&key), batch)
        }
        TableChange::Take(key) => clear_found(alloc, table.find(key), batch),
    }
}

fn set_new<R: Keyed + Rows>(
    alloc: Global,
    change: &TableChange<R, R::Key>,
    batch: &mut Vec<Change>,
) -> Result<(), AllocError>
    ensures { OnOk result
        (batch.new.items ≡ batch.old.items ++ map set_row (entries_of R.Rows.entries (new_row change.now))) }
{
    match change {
        TableChange::Keep => Ok(()),
        TableChange::Put(row) => row.set(alloc, batch),
        TableChange::Take(_) => Ok(()),
    }
}

fn clear_public(
    alloc: Global,
    public: &PublicLists,
    list: &PublicList,
    batch: &mut Vec<Change>,
) -> Result<(), AllocError>
    ensures { OnOk result
        (batch.new.items ≡ batch.old.items ++ map drop_row (old_public public.now list.now)) }
{
    match list {
        PublicList::Bogons(_) => drop_rows(alloc, public.bogons.as_slice(), batch),
        PublicList::BogonAs(_) => drop_rows(alloc, public.bogon_as.as_slice(), batch),
        PublicList::Transit(_) => drop_rows(alloc, public.transit.as_slice(), batch),
        PublicList::Roas(_) => drop_rows(alloc, public.roas.as_slice(), batch),
    }
}

fn set_public(alloc: Global, list: &PublicList, batch: &mut Vec<Change>) -> Result<(), AllocError>
    ensures { OnOk result (batch.new.items ≡ batch.old.items ++ map set_row (new_public list.now)) }
{
    match list {
        PublicList::Bogons(patterns) => set_rows(alloc, patterns.as_slice(), batch),
        PublicList::BogonAs(ranges) => set_rows(alloc, ranges.as_slice(), batch),
        PublicList::Transit(asns) => set_rows(alloc, asns.as_slice(), batch),
        PublicList::Roas(roas) => set_rows(alloc, roas.as_slice(), batch),
    }
}

/// Adds that the rows of what a change replaces or takes out go.
pub(crate) fn clear_entries(
    alloc: Global,
    registry: &Registry,
    change: &RegistryChange,
    batch: &mut Vec<Change>,
) -> Result<(), AllocError>
    ensures { OnOk result
        (batch.new.items ≡ batch.old.items ++ map drop_row (old_entries registry.now change.now)) }
{
    match change {
        RegistryChange::Members(change) => clear_old(alloc, &registry.members, change, batch),
        RegistryChange::Contacts(change) => clear_old(alloc, &registry.contacts, change, batch),
        RegistryChange::Keys(change) => clear_old(alloc, &registry.keys, change, batch),
        RegistryChange::Switches(change) => clear_old(alloc, &registry.switches, change, batch),
        RegistryChange::Ports(change) => clear_old(alloc, &registry.ports, change, batch),
        RegistryChange::Vlans(change) => clear_old(alloc, &registry.vlans, change, batch),
        RegistryChange::Interfaces(change) => {
            clear_old(alloc, &registry.interfaces, change, batch)
        }
        RegistryChange::Routers(change) => clear_old(alloc, &registry.routers, change, batch),
        RegistryChange::Irr(change) => clear_old(alloc, &registry.irr, change, batch),
        RegistryChange::Origins(change) => clear_old(alloc, &registry.origins, change, batch),
        RegistryChange::Rules(change) => clear_old(alloc, &registry.rules, change, batch),
        RegistryChange::Public(list) => clear_public(alloc, &registry.public, list, batch),
    }
}

/// Adds that the rows of what a change puts in are set.
pub(crate) fn set_entries(
    alloc: Global,
    change: &RegistryChange,
    batch: &mut Vec<Change>,
) -> Result<(), AllocError>
    ensures { OnOk result (batch.new.items ≡ batch.old.items ++ map set_row (new_entries change.now)) }
{
    match change {
        RegistryChange::Members(change) => set_new(alloc, change, batch),
        RegistryChange::Contacts(change) => set_new(alloc, change, batch),
        RegistryChange::Keys(change) => set_new(alloc, change, batch),
        RegistryChange::Switches(change) => set_new(alloc, change, batch),
        RegistryChange::Ports(change) => set_new(alloc, change, batch),
        RegistryChange::Vlans(change) => set_new(alloc, change, batch),
        RegistryChange::Interfaces(change) => set_new(alloc, change, batch),
        RegistryChange::Routers(change) => set_new(alloc, change, batch),
        RegistryChange::Irr(change) => set_new(alloc, change, batch),
        RegistryChange::Origins(change) => set_new(alloc, change, batch),
        RegistryChange::Rules(change) => set_new(alloc, change, batch),
        RegistryChange::Public(list) => set_public(alloc, list, batch),
    }
}
