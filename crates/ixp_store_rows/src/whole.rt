//! All rows of a state.
ghost use Rattle.std.specs.Prelude.{◌≡◌, ◌++◌, OnOk, IfOk, map};
ghost use Rattle.std.specs.FinMap.{empty};
ghost use Rattle.ixp_io.specs.Tables.{changed};
ghost use Rattle.ixp_store_rows.specs.States.{
  people_rows,
  port_rows,
  interface_rows,
  list_rows,
  bogon_rows,
  origin_rows,
  registry_rows,
  stored_rows,
  set_row,
  tables,
};

use crate::kept::{set_all_kept, set_count, set_floors, set_version};
use crate::lists::{set_addresses, set_all_irr, set_all_origins, set_all_rules, set_interfaces};
use crate::rows::{set_row, set_rows};
use ixp_io::Change;
use ixp_machine_steps::State;
use ixp_registry::{PublicLists, Registry};
use std::alloc::{AllocError, Global};

fn set_people(alloc: Global, registry: &Registry, batch: &mut Vec<Change>) -> Result<(), AllocError>
    ensures { OnOk result (batch.new.items ≡ batch.old.items ++ map set_row (people_rows registry.now)) }
{
    batch.push(set_row(alloc, &registry.site)?)?;
    set_rows(alloc, registry.members.as_slice(), batch)?;
    set_rows(alloc, registry.contacts.as_slice(), batch)?;
    set_rows(alloc, registry.keys.as_slice(), batch)
}

fn set_ports(alloc: Global, registry: &Registry, batch: &mut Vec<Change>) -> Result<(), AllocError>
    ensures { OnOk result (batch.new.items ≡ batch.old.items ++ map set_row (port_rows registry.now)) }
{
    set_rows(alloc, registry.switches.as_slice(), batch)?;
    set_rows(alloc, registry.ports.as_slice(), batch)?;
    set_rows(alloc, registry.vlans.as_slice(), batch)?;
    Ok(())
}

fn set_network(
    alloc: Global,
    registry: &Registry,
    batch: &mut Vec<Change>,
) -> Result<(), AllocError>
    ensures { OnOk result (batch.new.items ≡ batch.old.items ++ map set_row (interface_rows registry.now)) }
{
    set_interfaces(alloc, registry.interfaces.as_slice(), batch)?;
    set_addresses(alloc, registry.interfaces.as_slice(), batch)?;
    set_rows(alloc, registry.routers.as_slice(), batch)
}

fn set_lists(alloc: Global, registry: &Registry, batch: &mut Vec<Change>) -> Result<(), AllocError>
    ensures { OnOk result (batch.new.items ≡ batch.old.items ++ map set_row (list_rows registry.now)) }
{
    set_all_irr(alloc, registry.irr.as_slice(), batch)?;
    set_all_origins(alloc, registry.origins.as_slice(), batch)?;
    set_all_rules(alloc, registry.rules.as_slice(), batch)
}

fn set_bogons(
    alloc: Global,
    public: &PublicLists,
    batch: &mut Vec<Change>,
) -> Result<(), AllocError>
    ensures { OnOk result (batch.new.items ≡ batch.old.items ++ map set_row (bogon_rows public.now)) }
{
    set_rows(alloc, public.bogons.as_slice(), batch)?;
    set_rows(alloc, public.bogon_as.as_slice(), batch)
}

fn set_transit(
    alloc: Global,
    public: &PublicLists,
    batch: &mut Vec<Change>,
) -> Result<(), AllocError>
    ensures { OnOk result (batch.new.items ≡ batch.old.items ++ map set_row (origin_rows public.now)) }
{
    set_rows(alloc, public.transit.as_slice(), batch)?;
    set_rows(alloc, public.roas.as_slice(), batch)
}

fn set_registry(
    alloc: Global,
    registry: &Registry,
    batch: &mut Vec<Change>,
) -> Result<(), AllocError>
    ensures { OnOk result (batch.new.items ≡ batch.old.items ++ map set_row (registry_rows registry.now)) }
{
    set_people(alloc, registry, batch)?;
    set_ports(alloc, registry, batch)?;
    set_network(alloc, registry, batch)?;
    set_lists(alloc, registry, batch)?;
    set_bogons(alloc, &registry.public, batch)?;
    set_transit(alloc, &registry.public, batch)
}

fn set_all(alloc: Global, state: &State) -> Result<Vec<Change>, AllocError>
    ensures { IfOk result (λ batch. batch.items ≡ map set_row (stored_rows state.now)) }
{
    let mut batch = Vec::new(alloc);
    batch.push(set_version(alloc)?)?;
    set_registry(alloc, &state.registry, &mut batch)?;
    set_floors(alloc, state.kept.as_slice(), &mut batch)?;
    set_all_kept(alloc, state.kept.as_slice(), &mut batch)?;
    batch.push(set_count(alloc, state.accepted)?)?;
    Ok(batch)
}

/// The changes that put all rows of a state into an empty store.
#[tactic(auto, using(crate::proofs::Empty::makes))]
pub fn whole_batch(alloc: Global, state: &State) -> Result<Vec<Change>, AllocError>
    ensures rows { IfOk result (λ batch. batch.items ≡ map set_row (stored_rows state.now)) }
    ensures tables { IfOk result (λ batch. changed empty batch.items ≡ tables state.now) }
{
    let batch = set_all(alloc, state)?;
    Ok(batch)
}
