//! What an interface weighs in a registry of which something is changed.
ghost use Rattle.std.specs.Prelude.{◌≡◌, ◌≤◌, ◌+◌, ◌-◌, ℕ, length};
ghost use Rattle.ixp_registry.specs.Valid.{Valid};
ghost use Rattle.ixp_registry.specs.Weight.{vlan_weight, list_length};
ghost use Rattle.ixp_machine_edits.specs.Interfaces.{addressed};
ghost use Rattle.ixp_machine_refusals.specs.declared.change.Change.TheVariants.{Nothing};
ghost use Rattle.ixp_machine_refusals.specs.Changes.{
  connected_by,
  vlan_weight_by,
  list_length_by,
  address_weight_by,
  column_weight_by,
  weight_by,
  IsSmall,
};

use ixp_num::Family;
use ixp_registry::{IfAddr, Interface, Registry, is_member_connected, list_length, vlan_weight};

/// Whether a member is connected instead.
#[derive(Clone, Copy)]
pub(crate) struct NewStatus {
    pub member: u32,
    pub connected: bool,
}

/// How long a list is instead.
#[derive(Clone, Copy)]
pub(crate) struct NewLength {
    pub member: u32,
    pub family: Family,
    pub length: u64,
}

/// What routers of a family in a VLAN weigh more, and less.
#[derive(Clone, Copy)]
pub(crate) struct NewRouters {
    pub vlan: u32,
    pub family: Family,
    pub more: u64,
    pub less: u64,
}

/// What is changed.
#[derive(Clone, Copy)]
pub(crate) enum Change {
    Nothing,
    Status(NewStatus),
    Length(NewLength),
    Routers(NewRouters),
}

fn connected(registry: &Registry, change: Change, member: u32) -> bool
    ensures { result ≡ connected_by registry.now.members change member }
{
    if let Change::Status(new) = change {
        if new.member == member {
            return new.connected;
        }
    }
    is_member_connected(&registry.members, member)
}

fn vlan_weight_by(registry: &Registry, change: Change, vlan: u32, family: Family) -> u64
    requires few { length registry.now.routers ≤ 16 }
    requires change { IsSmall change }
    ensures weight { result ≡ vlan_weight_by registry.now.routers change vlan family }
    ensures small { result ≤ 34 }
{
    let weight = vlan_weight(registry.routers.as_slice(), vlan, family);
    if let Change::Routers(new) = change {
        if new.vlan == vlan && new.family == family {
            return (weight + new.more).saturating_sub(new.less);
        }
    }
    weight
}

fn list_length_by(registry: &Registry, change: Change, member: u32, family: Family) -> u64
    requires valid { Valid registry.now }
    requires change { IsSmall change }
    ensures length { result ≡ list_length_by registry.now.irr change member family }
    ensures small { result ≤ 300000 }
{
    if let Change::Length(new) = change {
        if new.member == member && new.family == family {
            return new.length;
        }
    }
    list_length(registry, member, family)
}

fn address_weight(
    registry: &Registry,
    change: Change,
    member: u32,
    vlan: u32,
    address: &IfAddr,
) -> u64
    requires valid { Valid registry.now }
    requires change { IsSmall change }
    ensures weight { result
        ≡ address_weight_by registry.now.routers registry.now.irr change member vlan address.now }
    ensures small { result ≤ 10200000 }
{
    if address.rs && address.irr {
        let family = address.addr.family;
        let routers = vlan_weight_by(registry, change, vlan, family);
        routers * list_length_by(registry, change, member, family)
    } else {
        0
    }
}

fn column_weight(
    registry: &Registry,
    change: Change,
    member: u32,
    vlan: u32,
    address: &Option<IfAddr>,
) -> u64
    requires valid { Valid registry.now }
    requires change { IsSmall change }
    ensures weight { result
        ≡ column_weight_by registry.now.routers registry.now.irr change member vlan address.now }
    ensures small { result ≤ 10200000 }
{
    match address {
        Some(address) => address_weight(registry, change, member, vlan, address),
        None => 0,
    }
}

/// What the sessions of the interface read.
pub(crate) fn interface_weight(registry: &Registry, change: Change, interface: &Interface) -> u64
    requires valid { Valid registry.now }
    requires change { IsSmall change }
    ensures weight { result ≡ weight_by registry.now change interface.now }
    ensures small { result ≤ 20400000 }
{
    let member = interface.member;
    let vlan = interface.vlan;
    if connected(registry, change, member) {
        column_weight(registry, change, member, vlan, &interface.v4)
            + column_weight(registry, change, member, vlan, &interface.v6)
    } else {
        0
    }
}

/// What they read once the interface has the address.
pub(crate) fn addressed_weight(
    registry: &Registry,
    interface: &Interface,
    family: Family,
    address: &IfAddr,
) -> u64
    requires { Valid registry.now }
    ensures weight { result ≡ weight_by registry.now Nothing (addressed family address.now interface.now) }
    ensures small { result ≤ 20400000 }
{
    let member = interface.member;
    let vlan = interface.vlan;
    let change = Change::Nothing;
    if !connected(registry, change, member) {
        return 0;
    }
    let new = address_weight(registry, change, member, vlan, address);
    match family {
        Family::V4 => new + column_weight(registry, change, member, vlan, &interface.v6),
        Family::V6 => column_weight(registry, change, member, vlan, &interface.v4) + new,
    }
}
