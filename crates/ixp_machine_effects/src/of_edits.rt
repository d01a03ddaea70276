//! What an edit of any kind changes.
ghost use Rattle.std.specs.Prelude.{◌≡◌, IfOk, true};
ghost use Rattle.ixp_machine_edits.specs.Edits.{change};
ghost use Rattle.ixp_machine_edits.specs.Lists.{has_few_rules};
ghost use Rattle.ixp_machine_effects.specs.Names.{has_name};

use crate::lists::{new_router, put_irr, put_origins, set_router, set_rules};
use crate::members::{move_status, new_contact, new_member, rename_member, set_macro};
use crate::network::{assign_port, free_port, new_interface, new_port, set_address};
use ixp_machine_edits::Edit;
use ixp_registry::{ApiKey, Registry, Switch, Vlan};
use ixp_registry_change::{RegistryChange, TableChange};
use std::alloc::{AllocError, Global};

/// The change of one table that makes the edit.
pub fn change_of(
    alloc: Global,
    registry: &Registry,
    edit: Edit,
) -> Result<RegistryChange, AllocError>
    requires name { has_name edit ≡ true }
    requires rules { has_few_rules edit ≡ true }
    ensures { IfOk result (λ c. c ≡ change registry.now edit) }
{
    match edit {
        Edit::AddMember { number, asn, name } => {
            let row = new_member(alloc, number, asn, name);
            Ok(RegistryChange::Members(TableChange::Put(row)))
        }
        Edit::RenameMember { member, name } => {
            let change = rename_member(alloc, &registry.members, member, name)?;
            Ok(RegistryChange::Members(change))
        }
        Edit::MoveStatus { member, to } => {
            let change = move_status(alloc, &registry.members, member, to)?;
            Ok(RegistryChange::Members(change))
        }
        Edit::SetMacro { member, as_macro } => {
            let change = set_macro(alloc, &registry.members, member, as_macro)?;
            Ok(RegistryChange::Members(change))
        }
        Edit::PutContact {
            member,
            place,
            name,
            mail,
            role,
        } => {
            let row = new_contact(member, place, name, mail, role);
            Ok(RegistryChange::Contacts(TableChange::Put(row)))
        }
        Edit::DropContact { member, place } => Ok(RegistryChange::Contacts(TableChange::Take((
            member, place,
        )))),
        Edit::AddKey {
            number,
            secret,
            owner,
        } => Ok(RegistryChange::Keys(TableChange::Put(ApiKey {
            number,
            owner,
            secret,
        }))),
        Edit::DropKey { key } => Ok(RegistryChange::Keys(TableChange::Take(key))),
        Edit::AddSwitch { number, name } => Ok(RegistryChange::Switches(TableChange::Put(Switch {
            number,
            name,
        }))),
        Edit::DropSwitch { switch } => Ok(RegistryChange::Switches(TableChange::Take(switch))),
        Edit::AddPort {
            number,
            switch,
            name,
            speed,
        } => {
            let row = new_port(number, switch, name, speed);
            Ok(RegistryChange::Ports(TableChange::Put(row)))
        }
        Edit::AssignPort { port, member } => {
            let change = assign_port(alloc, &registry.ports, port, member)?;
            Ok(RegistryChange::Ports(change))
        }
        Edit::FreePort { port } => {
            let change = free_port(alloc, &registry.ports, port)?;
            Ok(RegistryChange::Ports(change))
        }
        Edit::DropPort { port } => Ok(RegistryChange::Ports(TableChange::Take(port))),
        Edit::AddVlan {
            number,
            name,
            tag,
            v4,
            v6,
        } => Ok(RegistryChange::Vlans(TableChange::Put(Vlan {
            number,
            tag,
            v4,
            v6,
            name,
        }))),
        Edit::DropVlan { vlan } => Ok(RegistryChange::Vlans(TableChange::Take(vlan))),
        Edit::AddInterface {
            number,
            member,
            port,
            vlan,
        } => {
            let row = new_interface(number, member, port, vlan);
            Ok(RegistryChange::Interfaces(TableChange::Put(row)))
        }
        Edit::SetAddress {
            interface,
            family,
            address,
        } => {
            let change = set_address(alloc, &registry.interfaces, interface, family, address)?;
            Ok(RegistryChange::Interfaces(change))
        }
        Edit::DropInterface { interface } => {
            Ok(RegistryChange::Interfaces(TableChange::Take(interface)))
        }
        Edit::AddRouter {
            handle,
            vlan,
            family,
            address,
            settings,
        } => {
            let row = new_router(alloc, handle.as_slice(), vlan, family, address, settings)?;
            Ok(RegistryChange::Routers(TableChange::Put(row)))
        }
        Edit::SetRouter { handle, settings } => {
            let change = set_router(alloc, &registry.routers, &handle, settings)?;
            Ok(RegistryChange::Routers(change))
        }
        Edit::DropRouter { handle } => Ok(RegistryChange::Routers(TableChange::Take(handle))),
        Edit::PutIrr {
            member,
            family,
            prefixes,
        } => Ok(RegistryChange::Irr(put_irr(member, family, prefixes))),
        Edit::PutOrigins {
            member,
            family,
            asns,
        } => Ok(RegistryChange::Origins(put_origins(member, family, asns))),
        Edit::SetRules { member, rules } => {
            let change = set_rules(alloc, member, rules.as_slice())?;
            Ok(RegistryChange::Rules(change))
        }
        Edit::PutPublic { list } => Ok(RegistryChange::Public(list)),
    }
}
