//! What edits of ports and interfaces change.
ghost use Rattle.std.specs.Prelude.{◌≡◌, [], ◌∷◌, IfOk};
ghost use Rattle.ixp_machine_edits.specs.Interfaces.{addressed, new_interface};
ghost use Rattle.ixp_machine_edits.specs.Ports.{new_port};
ghost use Rattle.ixp_num_tables.specs.Tables.{find};
ghost use Rattle.ixp_registry_change.specs.Changes.{changed_row};
ghost use Rattle.ixp_registry.specs.Keys.{port_key, interface_key};

use ixp_num::{Family, Items};
use ixp_num_tables::{Copied, Table};
use ixp_registry::{IfAddr, Interface, Port};
use ixp_registry_change::TableChange;
use std::alloc::{AllocError, Global};

pub(crate) fn new_port(number: u32, switch: u32, name: Items<u8>, speed: u32) -> Port
    ensures { result ≡ new_port number switch name speed }
{
    Port {
        number,
        switch,
        speed,
        member: 0,
        name,
    }
}

pub(crate) fn assign_port(
    alloc: Global,
    ports: &Table<Port>,
    port: u32,
    member: u32,
) -> Result<TableChange<Port, u32>, AllocError>
    ensures { IfOk result
        (λ c. c ≡ changed_row (λ p. record p { member = member }) (find port_key (port ∷ []) ports.now)) }
{
    let Some(found) = ports.find(&port) else {
        return Ok(TableChange::Keep);
    };
    let mut row = found.copied(alloc)?;
    row.member = member;
    Ok(TableChange::Put(row))
}

pub(crate) fn free_port(
    alloc: Global,
    ports: &Table<Port>,
    port: u32,
) -> Result<TableChange<Port, u32>, AllocError>
    ensures { IfOk result
        (λ c. c ≡ changed_row (λ p. record p { member = 0 }) (find port_key (port ∷ []) ports.now)) }
{
    let Some(found) = ports.find(&port) else {
        return Ok(TableChange::Keep);
    };
    let mut row = found.copied(alloc)?;
    row.member = 0;
    Ok(TableChange::Put(row))
}

pub(crate) fn new_interface(number: u32, member: u32, port: u32, vlan: u32) -> Interface
    ensures { result ≡ new_interface number member port vlan }
{
    Interface {
        number,
        member,
        port,
        vlan,
        v4: None,
        v6: None,
    }
}

fn addressed(interface: Interface, family: Family, address: IfAddr) -> Interface
    ensures { result ≡ addressed family address interface }
{
    let mut row = interface;
    match family {
        Family::V4 => row.v4 = Some(address),
        Family::V6 => row.v6 = Some(address),
    }
    row
}

pub(crate) fn set_address(
    alloc: Global,
    interfaces: &Table<Interface>,
    interface: u32,
    family: Family,
    address: IfAddr,
) -> Result<TableChange<Interface, u32>, AllocError>
    ensures { IfOk result
        (λ c. c ≡ changed_row (addressed family address)
        (find interface_key (interface ∷ []) interfaces.now)) }
{
    let Some(found) = interfaces.find(&interface) else {
        return Ok(TableChange::Keep);
    };
    let row = found.copied(alloc)?;
    Ok(TableChange::Put(addressed(row, family, address)))
}
