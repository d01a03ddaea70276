//! The counts of a registry, by its rows.
ghost use Rattle.std.specs.Prelude.{◌≡◌, ◌≤◌, length};
ghost use Rattle.ixp_machine_edits.specs.Lists.{prefixes_in};
ghost use Rattle.ixp_registry.specs.Valid.{Valid};
ghost use Rattle.ixp_registry.specs.Weight.{
  vlan_weight,
  list_length,
  address_weight,
  column_weight,
  interface_weight,
};
ghost use Rattle.ixp_registry.specs.Words.{router_weight};
ghost use Rattle.ixp_registry.specs.Weight.{weight_of};

use ixp_num::Family;
use ixp_num_tables::Table;
use ixp_registry::{
    IfAddr, Interface, IrrList, Registry, is_member_connected, list_length, vlan_weight,
};

fn address_weight(registry: &Registry, member: u32, vlan: u32, address: &IfAddr) -> u64
    requires { Valid registry.now }
    ensures weight { result ≡ address_weight registry.now.routers registry.now.irr member vlan address.now }
    ensures small { result ≤ 9600000 }
{
    if address.rs && address.irr {
        let family = address.addr.family;
        let routers = vlan_weight(registry.routers.as_slice(), vlan, family);
        routers * list_length(registry, member, family)
    } else {
        0
    }
}

fn column_weight(registry: &Registry, member: u32, vlan: u32, address: &Option<IfAddr>) -> u64
    requires { Valid registry.now }
    ensures weight { result ≡ column_weight registry.now.routers registry.now.irr member vlan address.now }
    ensures small { result ≤ 9600000 }
{
    match address {
        Some(address) => address_weight(registry, member, vlan, address),
        None => 0,
    }
}

fn interface_weight(registry: &Registry, interface: &Interface) -> u64
    requires { Valid registry.now }
    ensures weight { result
        ≡ interface_weight registry.now.members registry.now.routers registry.now.irr interface.now }
    ensures small { result ≤ 19200000 }
{
    let member = interface.member;
    let vlan = interface.vlan;
    if is_member_connected(&registry.members, member) {
        column_weight(registry, member, vlan, &interface.v4)
            + column_weight(registry, member, vlan, &interface.v6)
    } else {
        0
    }
}

/// How many rows of prefix lists all sessions read together.
pub(crate) fn weight_of(registry: &Registry) -> u64
    requires { Valid registry.now }
    ensures { result ≡ weight_of registry.now }
{
    let mut weight = 0;
    let mut left = registry.interfaces.as_slice();
    'each: while let Some((interface, others)) = left.split_first() {
        weight += interface_weight(registry, interface);
        left = others;
    }
    weight
}

/// How many prefixes all lists have together.
pub(crate) fn prefixes_of(lists: &Table<IrrList>) -> u64
    requires { prefixes_in lists.now ≤ 4000000 }
    ensures { result ≡ prefixes_in lists.now }
{
    let mut count = 0;
    let mut left = lists.as_slice();
    'each: while let Some((list, others)) = left.split_first() {
        count += list.prefixes.len() as u64;
        left = others;
    }
    count
}
