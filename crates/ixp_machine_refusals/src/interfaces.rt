//! Why edits of VLANs and interfaces are refused.
ghost use Rattle.std.specs.Prelude.{◌≡◌, ◌==◌, ◌&&◌, ◌++◌, [], ◌∷◌, None, not, find, option_map, nat_le};
ghost use Rattle.std.specs.List.{list_any, list_all};
ghost use Rattle.ixp_num_tables.specs.Tables.{find as row_of, if_there};
ghost use Rattle.ixp_registry.specs.declared.refusal.Refusal.TheVariants.{PortTaken};
ghost use Rattle.ixp_registry.specs.declared.refusal.RowKey.TheVariants as key;
ghost use Rattle.ixp_registry.specs.Keys.{port_key};
ghost use Rattle.ixp_registry.specs.Lookups.{overlap, listed, vlan_prefixes};
ghost use Rattle.ixp_registry.specs.Valid.{Valid};
ghost use Rattle.ixp_registry.specs.Words.{is_of, is_vlan_length, overlaps_any};
ghost use Rattle.ixp_machine_edits.specs.Interfaces.{
  new_vlan,
  holder_of,
  add_vlan_tests,
  drop_vlan_tests,
  add_interface_tests,
  set_address_tests,
  drop_interface_tests,
};
ghost use Rattle.ixp_machine_edits.specs.Tests.{first_refused, refused, in_use_by};
ghost use Rattle.ixp_registry.specs.declared.kind.Kind.TheVariants as kind;
ghost use Rattle.ixp_registry.specs.Weight.{weight_of};

use crate::after::weight_with_address;
use crate::counts::interfaces_of;
use crate::refusing::{bad_text, exists, full, in_use, out_of_bounds, too_heavy, unknown};
use ixp_num::{Family, Prefix};
use ixp_num_tables::Table;
use ixp_plan::check_address;
use ixp_registry::{
    Handle, IfAddr, Interface, Kind, Port, Refusal, Registry, Router, RowKey, Status, TextField,
    Vlan, has_left, has_member, has_port, has_vlan, is_label, is_session_secret,
};

fn is_of(family: Family, prefix: &Option<Prefix>) -> bool
    ensures { result ≡ is_of family prefix.now }
{
    match prefix {
        Some(prefix) => prefix.family == family,
        None => true,
    }
}

fn overlap(one: &Prefix, other: &Prefix) -> bool
    ensures { result ≡ overlap one.now other.now }
{
    one.covers(other) || other.covers(one)
}

fn column_overlaps(column: &Option<Prefix>, prefix: &Prefix) -> bool
    ensures { result ≡ overlaps_any (listed column.now) prefix.now }
{
    match column {
        Some(other) => overlap(other, prefix),
        None => false,
    }
}

fn vlan_overlaps(vlan: &Vlan, prefix: &Option<Prefix>) -> bool
    ensures { result ≡ list_any (overlaps_any (vlan_prefixes vlan.now)) (listed prefix.now) }
{
    match prefix {
        Some(prefix) => column_overlaps(&vlan.v4, prefix) || column_overlaps(&vlan.v6, prefix),
        None => false,
    }
}

fn vlans_overlap(vlan: &Vlan, v4: &Option<Prefix>, v6: &Option<Prefix>) -> bool
    ensures { result ≡ list_any (overlaps_any (vlan_prefixes vlan.now)) (listed v4.now ++ listed v6.now) }
{
    vlan_overlaps(vlan, v4) || vlan_overlaps(vlan, v6)
}

fn overlapping(vlans: &[Vlan], v4: &Option<Prefix>, v6: &Option<Prefix>) -> Option<u32>
    ensures { result ≡ option_map (λ u. u.number)
        (find (λ u. list_any (overlaps_any (vlan_prefixes u)) (listed v4.now ++ listed v6.now)) vlans.now) }
{
    let found = vlans.iter().find(|u| vlans_overlap(u, v4, v6));
    match found {
        Some(vlan) => Some(vlan.number),
        None => None,
    }
}

fn is_vlan_length(prefix: &Prefix) -> bool
    ensures { result ≡ is_vlan_length prefix.now }
{
    match prefix.family {
        Family::V4 => 8 <= prefix.len && prefix.len <= 30,
        Family::V6 => 32 <= prefix.len && prefix.len <= 126,
    }
}

fn has_length(prefix: &Option<Prefix>) -> bool
    ensures { result ≡ list_all is_vlan_length (listed prefix.now) }
{
    match prefix {
        Some(prefix) => is_vlan_length(prefix),
        None => true,
    }
}

fn have_lengths(v4: &Option<Prefix>, v6: &Option<Prefix>) -> bool
    ensures { result ≡ list_all is_vlan_length (listed v4.now ++ listed v6.now) }
{
    has_length(v4) && has_length(v6)
}

pub(crate) fn add_vlan(
    registry: &Registry,
    number: u32,
    name: &[u8],
    tag: u32,
    v4: &Option<Prefix>,
    v6: &Option<Prefix>,
) -> Option<Refusal>
    ensures { result ≡ first_refused
        (add_vlan_tests registry.now (new_vlan number name.now tag v4.now v6.now)) }
{
    if !is_label(name) {
        return Some(bad_text(TextField::Name));
    }
    if !is_of(Family::V4, v4) {
        return Some(Refusal::Family { family: Family::V4 });
    }
    if !is_of(Family::V6, v6) {
        return Some(Refusal::Family { family: Family::V6 });
    }
    if let Some(vlan) = registry.vlans.find(&number) {
        return Some(exists(vlan.number));
    }
    let vlans = registry.vlans.as_slice();
    if let Some(vlan) = overlapping(vlans, v4, v6) {
        return Some(Refusal::Overlap { vlan });
    }
    if number == 0 || !(have_lengths(v4, v6) && 1 <= tag && tag <= 4094) {
        return Some(out_of_bounds());
    }
    full(Kind::Vlans, vlans.len(), 64)
}

fn interface_in(interfaces: &[Interface], vlan: u32) -> Option<u32>
    ensures { result ≡ option_map (λ i. i.number) (find (λ i. i.vlan == vlan) interfaces.now) }
{
    let found = interfaces.iter().find(|i| i.vlan == vlan);
    match found {
        Some(interface) => Some(interface.number),
        None => None,
    }
}

fn unless_router_in(routers: &[Router], vlan: u32) -> Option<Refusal>
    ensures { result ≡ in_use_by kind.Routers (λ q. key.Handle q.handle)
        (find (λ q. q.vlan == vlan) routers.now) }
{
    let found = routers.iter().find(|q| q.vlan == vlan);
    match found {
        Some(router) => Some(Refusal::InUse {
            table: Kind::Routers,
            key: RowKey::Handle(Handle::of(&router.handle)),
        }),
        None => None,
    }
}

pub(crate) fn drop_vlan(registry: &Registry, vlan: u32) -> Option<Refusal>
    ensures { result ≡ first_refused (drop_vlan_tests registry.now vlan) }
{
    if !has_vlan(&registry.vlans, vlan) {
        return Some(unknown(Kind::Vlans, vlan));
    }
    if let Some(interface) = interface_in(registry.interfaces.as_slice(), vlan) {
        return Some(in_use(Kind::Interfaces, interface));
    }
    unless_router_in(registry.routers.as_slice(), vlan)
}

fn holder_of(port: &Port) -> Option<u32>
    ensures { result ≡ holder_of port.now }
{
    if port.member == 0 {
        return None;
    }
    Some(port.member)
}

fn unless_port_of(ports: &Table<Port>, port: u32, member: u32) -> Option<Refusal>
    ensures { result ≡ if_there (row_of port_key (port ∷ []) ports.now) None
        (λ p. refused (not (p.member == member)) (PortTaken (holder_of p))) }
{
    let port = ports.find(&port)?;
    if port.member == member {
        return None;
    }
    Some(Refusal::PortTaken {
        member: holder_of(port),
    })
}

pub(crate) fn add_interface(
    registry: &Registry,
    number: u32,
    member: u32,
    port: u32,
    vlan: u32,
) -> Option<Refusal>
    ensures { result ≡ first_refused (add_interface_tests registry.now number member port vlan) }
{
    if !has_member(&registry.members, member) {
        return Some(unknown(Kind::Members, member));
    }
    if !has_port(&registry.ports, port) {
        return Some(unknown(Kind::Ports, port));
    }
    if !has_vlan(&registry.vlans, vlan) {
        return Some(unknown(Kind::Vlans, vlan));
    }
    if let Some(refusal) = unless_port_of(&registry.ports, port, member) {
        return Some(refusal);
    }
    if let Some(interface) = registry.interfaces.find(&number) {
        return Some(exists(interface.number));
    }
    if has_left(&registry.members, member) {
        return Some(Refusal::StatusMove {
            from: Status::Left,
            to: Status::Connected,
        });
    }
    if number == 0 {
        return Some(out_of_bounds());
    }
    let interfaces = registry.interfaces.as_slice();
    if let Some(refusal) = full(Kind::Interfaces, interfaces.len(), 8000) {
        return Some(refusal);
    }
    full(Kind::Interfaces, interfaces_of(interfaces, member), 16)
}

/// `weight` is the registry's.
pub(crate) fn set_address(
    registry: &Registry,
    weight: u64,
    interface: u32,
    family: Family,
    address: &IfAddr,
) -> Option<Refusal>
    requires valid { Valid registry.now }
    requires weight { weight ≡ weight_of registry.now }
    ensures { result ≡ first_refused (set_address_tests registry.now interface family address.now) }
{
    let Some(row) = registry.interfaces.find(&interface) else {
        return Some(unknown(Kind::Interfaces, interface));
    };
    if !is_session_secret(address.secret.as_slice()) {
        return Some(bad_text(TextField::Secret));
    }
    if let Err(refusal) = check_address(registry, interface, family, &address.addr) {
        return Some(refusal);
    }
    too_heavy(weight_with_address(registry, weight, interface, row, family, address))
}

pub(crate) fn drop_interface(registry: &Registry, interface: u32) -> Option<Refusal>
    ensures { result ≡ first_refused (drop_interface_tests registry.now interface) }
{
    if registry.interfaces.find(&interface).is_none() {
        return Some(unknown(Kind::Interfaces, interface));
    }
    None
}
