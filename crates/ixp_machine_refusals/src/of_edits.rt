//! Why an edit of any kind is refused.
ghost use Rattle.std.specs.Prelude.{◌≡◌, IfOk, true};
ghost use Rattle.ixp_registry.specs.Valid.{Valid};
ghost use Rattle.ixp_machine_edits.specs.Edits.{refusal};
ghost use Rattle.ixp_machine_edits.specs.Lists.{prefixes_in, has_few_rules};
ghost use Rattle.ixp_registry.specs.Weight.{weight_of};

use crate::api_keys::{add_key, drop_key};
use crate::interfaces::{add_interface, add_vlan, drop_interface, drop_vlan, set_address};
use crate::lists::{put_irr, put_origins, put_public, set_rules};
use crate::members::{
    add_member, drop_contact, move_status, put_contact, rename_member, set_macro,
};
use crate::ports::{add_port, add_switch, assign_port, drop_switch, idle_port};
use crate::routers::{add_router, drop_router, set_router};
use ixp_machine_edits::Edit;
use ixp_registry::{Refusal, Registry};
use std::alloc::{AllocError, Global};

/// Why the edit is refused; None where it isn't. `weight` and `prefixes` are the registry's. Only the edits
/// of route servers take memory.
pub fn refusal(
    alloc: Global,
    registry: &Registry,
    weight: u64,
    prefixes: u64,
    edit: &Edit,
) -> Result<Option<Refusal>, AllocError>
    requires valid { Valid registry.now }
    requires weight { weight ≡ weight_of registry.now }
    requires prefixes { prefixes ≡ prefixes_in registry.now.irr }
    requires rules { has_few_rules edit.now ≡ true }
    ensures { IfOk result (λ o. o ≡ refusal registry.now edit.now) }
{
    let refusal = match edit {
        Edit::AddMember { number, asn, name } => {
            add_member(registry, *number, *asn, name.as_slice())
        }
        Edit::RenameMember { member, name } => rename_member(registry, *member, name.as_slice()),
        Edit::MoveStatus { member, to } => move_status(registry, weight, *member, *to),
        Edit::SetMacro { member, as_macro } => set_macro(registry, *member, as_macro.as_slice()),
        Edit::PutContact {
            member,
            place,
            name,
            mail,
            role,
        } => put_contact(
            registry,
            *member,
            *place,
            name.as_slice(),
            mail.as_slice(),
            role.as_slice(),
        ),
        Edit::DropContact { member, place } => drop_contact(registry, *member, *place),
        Edit::AddKey {
            number,
            secret,
            owner,
        } => add_key(registry, *number, secret.as_slice(), owner),
        Edit::DropKey { key } => drop_key(registry, *key),
        Edit::AddSwitch { number, name } => add_switch(registry, *number, name.as_slice()),
        Edit::DropSwitch { switch } => drop_switch(registry, *switch),
        Edit::AddPort {
            number,
            switch,
            name,
            speed,
        } => add_port(registry, *number, *switch, name.as_slice(), *speed),
        Edit::AssignPort { port, member } => assign_port(registry, *port, *member),
        Edit::FreePort { port } => idle_port(registry, *port),
        Edit::DropPort { port } => idle_port(registry, *port),
        Edit::AddVlan {
            number,
            name,
            tag,
            v4,
            v6,
        } => add_vlan(registry, *number, name.as_slice(), *tag, v4, v6),
        Edit::DropVlan { vlan } => drop_vlan(registry, *vlan),
        Edit::AddInterface {
            number,
            member,
            port,
            vlan,
        } => add_interface(registry, *number, *member, *port, *vlan),
        Edit::SetAddress {
            interface,
            family,
            address,
        } => set_address(registry, weight, *interface, *family, address),
        Edit::DropInterface { interface } => drop_interface(registry, *interface),
        Edit::AddRouter {
            handle,
            vlan,
            family,
            address,
            settings,
        } => {
            return add_router(
                alloc,
                registry,
                weight,
                handle.as_slice(),
                *vlan,
                *family,
                address,
                settings,
            );
        }
        Edit::SetRouter { handle, settings } => {
            return set_router(alloc, registry, weight, handle, settings);
        }
        Edit::DropRouter { handle } => drop_router(registry, handle),
        Edit::PutIrr {
            member,
            family,
            prefixes: list,
        } => put_irr(
            registry,
            weight,
            prefixes,
            *member,
            *family,
            list.as_slice(),
        ),
        Edit::PutOrigins {
            member,
            family,
            asns,
        } => put_origins(registry, *member, *family, asns.as_slice()),
        Edit::SetRules { member, rules } => set_rules(registry, *member, rules.as_slice()),
        Edit::PutPublic { list } => put_public(list),
    };
    Ok(refusal)
}
