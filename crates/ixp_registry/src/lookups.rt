//! What a row says by way of the rows that it names.
ghost use Rattle.std.specs.Prelude.{◌≡◌, ◌+◌, ◌-◌, ◌^◌, ◌&&◌, ◌==◌, false};
ghost use Rattle.ixp_num.specs.declared.family.Family.TheVariants.{V4};
ghost use Rattle.ixp_num.specs.Families.{bits_of, same_family};
ghost use Rattle.ixp_registry.specs.Lookups.{
  has_member,
  has_switch,
  has_port,
  has_vlan,
  has_interface,
  has_owner,
  is_port_of,
  is_left,
  is_connected,
  has_left,
  is_member_connected,
  column,
  prefix_in,
  is_edge,
  is_host,
  is_host_in,
  is_host_at,
  is_at,
  has_addr,
  has_blackhole,
};
ghost use Rattle.ixp_num.specs.Prefixes.{same_addr};
ghost use Rattle.ixp_num_tables.specs.Tables.{if_there};

use crate::{IfAddr, Interface, InterfaceRow, Member, Owner, Port, Router, Status, Switch, Vlan};
use ixp_num::{Addr, Family, Prefix, same_addr};
use ixp_num_tables::Table;

/// Whether there is a member with the number.
pub fn has_member(members: &Table<Member>, number: u32) -> bool
    ensures { result ≡ has_member members.now number }
{
    members.find(&number).is_some()
}

/// Whether there is a switch with the number.
pub fn has_switch(switches: &Table<Switch>, number: u32) -> bool
    ensures { result ≡ has_switch switches.now number }
{
    switches.find(&number).is_some()
}

/// Whether there is a port with the number.
pub fn has_port(ports: &Table<Port>, number: u32) -> bool
    ensures { result ≡ has_port ports.now number }
{
    ports.find(&number).is_some()
}

/// Whether there is a VLAN with the number.
pub fn has_vlan(vlans: &Table<Vlan>, number: u32) -> bool
    ensures { result ≡ has_vlan vlans.now number }
{
    vlans.find(&number).is_some()
}

/// Whether there is an interface with the number.
pub fn has_interface(interfaces: &Table<InterfaceRow>, number: u32) -> bool
    ensures { result ≡ has_interface interfaces.now number }
{
    interfaces.find(&number).is_some()
}

/// Whether the key's owner is there. Staff have no rows.
pub fn has_owner(members: &Table<Member>, owner: Owner) -> bool
    ensures { result ≡ has_owner members.now owner }
{
    match owner {
        Owner::Staff(_) => true,
        Owner::Member(number) => has_member(members, number),
    }
}

/// Whether the port is there and belongs to the member.
pub fn is_port_of(ports: &Table<Port>, port: u32, member: u32) -> bool
    ensures { result ≡ is_port_of ports.now port member }
{
    match ports.find(&port) {
        Some(port) => port.member == member,
        None => false,
    }
}

fn is_left(status: Status) -> bool
    ensures { result ≡ is_left status }
{
    match status {
        Status::Left => true,
        Status::Noted | Status::Connected | Status::Suspended => false,
    }
}

/// Whether a member of the status has sessions.
pub fn is_connected(status: Status) -> bool
    ensures { result ≡ is_connected status }
{
    match status {
        Status::Connected => true,
        Status::Noted | Status::Suspended | Status::Left => false,
    }
}

/// Whether the member is there and has left.
pub fn has_left(members: &Table<Member>, number: u32) -> bool
    ensures { result ≡ has_left members.now number }
{
    match members.find(&number) {
        Some(member) => is_left(member.status),
        None => false,
    }
}

/// Whether the member is there and connected.
pub fn is_member_connected(members: &Table<Member>, number: u32) -> bool
    ensures { result ≡ is_member_connected members.now number }
{
    match members.find(&number) {
        Some(member) => is_connected(member.status),
        None => false,
    }
}

/// The prefix that the VLAN has for a family.
pub fn column(family: Family, vlan: &Vlan) -> Option<Prefix>
    ensures { result ≡ column family vlan.now }
{
    match family {
        Family::V4 => vlan.v4,
        Family::V6 => vlan.v6,
    }
}

/// Whether the address is the last one of an IPv4 prefix.
fn is_last(prefix: &Prefix, addr: &Addr) -> bool
    ensures { result ≡ (same_family prefix.now.family V4 && addr.now.value + 1 == prefix.now.value + 2 ^
        (bits_of prefix.now.family - prefix.now.len)) }
{
    match prefix.family {
        Family::V4 => addr.value == prefix.value + ((1 << (32 - prefix.len)) - 1),
        Family::V6 => false,
    }
}

fn is_edge(prefix: &Prefix, addr: &Addr) -> bool
    ensures { result ≡ is_edge prefix.now addr.now }
{
    addr.value == prefix.value || is_last(prefix, addr)
}

/// Whether an interface or a router may have the address in a VLAN of the prefix.
pub fn is_host(prefix: &Prefix, addr: &Addr) -> bool
    ensures { result ≡ is_host prefix.now addr.now }
{
    prefix.contains(addr) && !is_edge(prefix, addr)
}

/// Whether an interface or a router of the family may have the address in the VLAN.
pub fn is_host_of(vlan: &Vlan, family: Family, addr: &Addr) -> bool
    ensures { result ≡ if_there (column family vlan.now) false (λ p. is_host p addr.now) }
{
    match column(family, vlan) {
        Some(prefix) => is_host(&prefix, addr),
        None => false,
    }
}

/// The prefix that the VLAN has for a family, where both are there.
pub fn prefix_in(vlans: &Table<Vlan>, vlan: u32, family: Family) -> Option<Prefix>
    ensures { result ≡ prefix_in vlans.now vlan family }
{
    match vlans.find(&vlan) {
        Some(vlan) => column(family, vlan),
        None => None,
    }
}

/// Whether an interface or a router in the VLAN may have the address.
pub fn is_host_in(vlans: &Table<Vlan>, vlan: u32, family: Family, addr: &Addr) -> bool
    ensures { result ≡ is_host_in vlans.now vlan family addr.now }
{
    match vlans.find(&vlan) {
        Some(vlan) => is_host_of(vlan, family, addr),
        None => false,
    }
}

/// Whether the interface is there and may have the address.
pub fn is_host_at(
    vlans: &Table<Vlan>,
    interfaces: &Table<InterfaceRow>,
    interface: u32,
    addr: &Addr,
) -> bool
    ensures { result ≡ is_host_at vlans.now interfaces.now interface addr.now }
{
    match interfaces.find(&interface) {
        Some(interface) => is_host_in(vlans, interface.vlan, addr.family, addr),
        None => false,
    }
}

fn is_at(address: &Option<IfAddr>, addr: &Addr) -> bool
    ensures { result ≡ is_at addr.now address.now }
{
    match address {
        Some(address) => same_addr(&address.addr, addr),
        None => false,
    }
}

/// Whether the address is one of the interface's.
pub fn has_addr(interface: &Interface, addr: &Addr) -> bool
    ensures { result ≡ has_addr addr.now interface.now }
{
    is_at(&interface.v4, addr) || is_at(&interface.v6, addr)
}

/// Whether the address is the router's for its blackhole.
pub fn has_blackhole(router: &Router, addr: &Addr) -> bool
    ensures { result ≡ has_blackhole router.now addr.now }
{
    match &router.blackhole {
        Some(blackhole) => same_addr(blackhole, addr),
        None => false,
    }
}
