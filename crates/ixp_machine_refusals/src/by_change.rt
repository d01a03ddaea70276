//! The counts after a change of one table.
ghost use Rattle.std.specs.Prelude.{◌≡◌, ◌≤◌, ℕ, List, [], ◌∷◌};
ghost use Rattle.ixp_num.specs.AddressForms.{version_of};
ghost use Rattle.ixp_num_tables.specs.Tables.{find, if_there};
ghost use Rattle.ixp_registry.specs.Keys.{
  member_key,
  interface_key,
  router_key,
  irr_key,
};
ghost use Rattle.ixp_registry.specs.Valid.{Valid};
ghost use Rattle.ixp_registry.specs.Weight.{interface_weight, weight, weight_of};
ghost use Rattle.ixp_registry.specs.Words.{router_weight};
ghost use Rattle.ixp_registry_change.specs.Changes.{changed_rows, with_change};
ghost use Rattle.ixp_machine_edits.specs.Lists.{prefixes_in};
ghost use Rattle.ixp_registry.specs.declared.lists.IrrList.{IrrList as Of};
ghost use Rattle.ixp_registry_change.specs.declared.change.TableChange.TheVariants.{Put, Take};
ghost use Rattle.ixp_machine_refusals.specs.ByTable.{FewPrefixes, HasLength, InPlace, IsSmallChange};

use crate::after::{shifted, weight_without_router};
use crate::change::{Change, NewLength, NewRouters, NewStatus, interface_weight};
use crate::parts::Part;
use ixp_num::{Family, Name};
use ixp_registry::{
    Interface, IrrList, Member, Registry, Router, is_connected, is_member_connected, list_length,
    router_weight,
};
use ixp_registry_change::{RegistryChange, TableChange};

/// With the member's row. Only whether it is connected counts.
fn with_member(registry: &Registry, before: u64, row: &Member) -> u64
    requires valid { Valid registry.now }
    requires weight { before ≡ weight_of registry.now }
    ensures { result ≡ weight (changed_rows member_key (λ (k : ℕ). k ∷ []) (Put row.now) registry.now.members)
        registry.now.interfaces registry.now.routers registry.now.irr }
{
    let connected = is_connected(row.status);
    if is_member_connected(&registry.members, row.number) == connected {
        return before;
    }
    let change = Change::Status(NewStatus {
        member: row.number,
        connected,
    });
    shifted(registry, before, change, Part::OfMember(row.number))
}

/// Without the member.
fn without_member(registry: &Registry, before: u64, member: u32) -> u64
    requires valid { Valid registry.now }
    requires weight { before ≡ weight_of registry.now }
    ensures { result ≡ weight (changed_rows member_key (λ (k : ℕ). k ∷ []) (Take member) registry.now.members)
        registry.now.interfaces registry.now.routers registry.now.irr }
{
    let change = Change::Status(NewStatus {
        member,
        connected: false,
    });
    shifted(registry, before, change, Part::OfMember(member))
}

fn in_members(registry: &Registry, before: u64, change: &TableChange<Member, u32>) -> u64
    requires valid { Valid registry.now }
    requires weight { before ≡ weight_of registry.now }
    ensures { result ≡ weight (changed_rows member_key (λ k. k ∷ []) change.now registry.now.members)
        registry.now.interfaces registry.now.routers registry.now.irr }
{
    match change {
        TableChange::Keep => before,
        TableChange::Put(row) => with_member(registry, before, row),
        TableChange::Take(member) => without_member(registry, before, *member),
    }
}

/// What the sessions of the interface with the number read.
fn weight_at(registry: &Registry, number: u32) -> u64
    requires { Valid registry.now }
    ensures weight { result ≡ if_there (find interface_key (number ∷ []) registry.now.interfaces) 0
        (interface_weight registry.now.members registry.now.routers registry.now.irr) }
    ensures small { result ≤ 20400000 }
{
    match registry.interfaces.find(&number) {
        Some(row) => interface_weight(registry, Change::Nothing, row),
        None => 0,
    }
}

fn in_interfaces(registry: &Registry, before: u64, change: &TableChange<Interface, u32>) -> u64
    requires valid { Valid registry.now }
    requires weight { before ≡ weight_of registry.now }
    ensures { result ≡ weight registry.now.members
        (changed_rows interface_key (λ k. k ∷ []) change.now registry.now.interfaces) registry.now.routers
        registry.now.irr }
{
    match change {
        TableChange::Keep => before,
        TableChange::Put(row) => {
            let more = interface_weight(registry, Change::Nothing, row);
            before + more - weight_at(registry, row.number)
        }
        TableChange::Take(number) => before - weight_at(registry, *number),
    }
}

/// What the sessions of the router with the handle count.
fn weight_of_router(registry: &Registry, handle: &Name) -> u64
    ensures weight { result ≡ if_there (find router_key handle.now registry.now.routers) 0 router_weight }
    ensures small { result ≤ 2 }
{
    match registry.routers.find(handle) {
        Some(row) => router_weight(row),
        None => 0,
    }
}

/// With the router's row, which stays in its VLAN and family.
fn with_router(registry: &Registry, before: u64, row: &Router) -> u64
    requires valid { Valid registry.now }
    requires weight { before ≡ weight_of registry.now }
    requires place { InPlace registry.now.routers (Put row.now) }
    ensures { result ≡ weight registry.now.members registry.now.interfaces
        (changed_rows router_key (λ (k : List ℕ). k) (Put row.now) registry.now.routers) registry.now.irr }
{
    let new = NewRouters {
        vlan: row.vlan,
        family: row.family,
        more: router_weight(row),
        less: weight_of_router(registry, &row.handle),
    };
    shifted(
        registry,
        before,
        Change::Routers(new),
        Part::InVlan(row.vlan),
    )
}

fn in_routers(registry: &Registry, before: u64, change: &TableChange<Router, Name>) -> u64
    requires valid { Valid registry.now }
    requires weight { before ≡ weight_of registry.now }
    requires place { InPlace registry.now.routers change.now }
    ensures { result ≡ weight registry.now.members registry.now.interfaces
        (changed_rows router_key (λ k. k) change.now registry.now.routers) registry.now.irr }
{
    match change {
        TableChange::Keep => before,
        TableChange::Put(row) => with_router(registry, before, row),
        TableChange::Take(handle) => match registry.routers.find(handle) {
            Some(row) => weight_without_router(registry, before, handle, row),
            None => before,
        },
    }
}

/// With as many prefixes in the member's list of the family.
fn with_length(registry: &Registry, before: u64, member: u32, family: Family, length: u64) -> u64
    requires valid { Valid registry.now }
    requires weight { before ≡ weight_of registry.now }
    requires few { length ≤ 300000 }
    requires some { (ls : List Of) × HasLength registry.now.irr member family length ls }
    ensures { (ls : List Of) → HasLength registry.now.irr member family length ls
        → result ≡ weight registry.now.members registry.now.interfaces registry.now.routers ls }
{
    let change = Change::Length(NewLength {
        member,
        family,
        length,
    });
    shifted(registry, before, change, Part::OfMember(member))
}

fn in_irr(registry: &Registry, before: u64, change: &TableChange<IrrList, (u32, Family)>) -> u64
    requires valid { Valid registry.now }
    requires weight { before ≡ weight_of registry.now }
    requires few { FewPrefixes change.now }
    ensures { result ≡ weight registry.now.members registry.now.interfaces registry.now.routers
        (changed_rows irr_key (λ k. k.0 ∷ version_of k.1 ∷ []) change.now registry.now.irr) }
{
    match change {
        TableChange::Keep => before,
        TableChange::Put(row) => {
            let length = row.prefixes.as_slice().len() as u64;
            with_length(registry, before, row.member, row.family, length)
        }
        TableChange::Take(key) => with_length(registry, before, key.0, key.1, 0),
    }
}

/// The weight after a change; `before` is the one that there is.
pub fn weight_after(registry: &Registry, before: u64, change: &RegistryChange) -> u64
    requires valid { Valid registry.now }
    requires weight { before ≡ weight_of registry.now }
    requires small { IsSmallChange registry.now change.now }
    ensures { result ≡ weight_of (with_change registry.now change.now) }
{
    match change {
        RegistryChange::Members(change) => in_members(registry, before, change),
        RegistryChange::Interfaces(change) => in_interfaces(registry, before, change),
        RegistryChange::Routers(change) => in_routers(registry, before, change),
        RegistryChange::Irr(change) => in_irr(registry, before, change),
        _ => before,
    }
}

fn prefixes_in_irr(
    registry: &Registry,
    before: u64,
    change: &TableChange<IrrList, (u32, Family)>,
) -> u64
    requires valid { Valid registry.now }
    requires prefixes { before ≡ prefixes_in registry.now.irr }
    ensures { result
        ≡ prefixes_in (changed_rows irr_key (λ k. k.0 ∷ version_of k.1 ∷ []) change.now registry.now.irr) }
{
    match change {
        TableChange::Keep => before,
        TableChange::Put(row) => {
            let more = row.prefixes.as_slice().len() as u64;
            before + more - list_length(registry, row.member, row.family)
        }
        TableChange::Take(key) => before - list_length(registry, key.0, key.1),
    }
}

/// How many prefixes all lists have after a change; `before` is how many they have.
pub fn prefixes_after(registry: &Registry, before: u64, change: &RegistryChange) -> u64
    requires valid { Valid registry.now }
    requires prefixes { before ≡ prefixes_in registry.now.irr }
    ensures { result ≡ prefixes_in (with_change registry.now change.now).irr }
{
    match change {
        RegistryChange::Irr(change) => prefixes_in_irr(registry, before, change),
        _ => before,
    }
}
