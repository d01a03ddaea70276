//! Why edits of route servers are refused.
ghost use Rattle.std.specs.Prelude.{
  ◌≡◌,
  ◌==◌,
  ◌||◌,
  ◌&&◌,
  [],
  ◌∷◌,
  None,
  Some,
  true,
  IfOk,
  length,
  find,
  option_map,
};
ghost use Rattle.std.specs.List.{list_any};
ghost use Rattle.std.specs.Option.{is_some};
ghost use Rattle.ixp_num_tables.specs.Tables.{find as row_of};
ghost use Rattle.ixp_registry.specs.declared.kind.Kind.TheVariants as kind;
ghost use Rattle.ixp_registry.specs.declared.refusal.RowKey.TheVariants as key;
ghost use Rattle.ixp_registry.specs.Alphabets.{is_handle};
ghost use Rattle.ixp_registry.specs.declared.refusal.Refusal.TheVariants.{Unknown};
ghost use Rattle.ixp_registry.specs.Keys.{vlan_key, router_key};
ghost use Rattle.ixp_registry.specs.Lookups.{has_addr, has_blackhole, is_host_in, prefix_in};
ghost use Rattle.ixp_num.specs.Families.{same_family};
ghost use Rattle.ixp_registry.specs.Valid.{Valid};
ghost use Rattle.ixp_registry.specs.Words.{has_bounds};
ghost use Rattle.ixp_plan.specs.Checks.{router_with};
ghost use Rattle.ixp_plan.specs.Holders.{uses};
ghost use Rattle.ixp_machine_edits.specs.Routers.{
  is_no_router_asn,
  blackhole_has_family,
  blackhole_is_host,
  holds_blackhole,
  is_beyond_bounds,
  new_router,
  with_settings,
  add_router_tests,
  set_router_tests,
  settings_tests,
  set_routers,
  drop_router_tests,
};
ghost use Rattle.ixp_machine_edits.specs.Tests.{first_refused, taken_by};
ghost use Rattle.ixp_machine_refusals.specs.Columns.{placed_tests, address_tests, last_tests};
ghost use Rattle.ixp_registry.specs.Weight.{weight_of};

use crate::after::{weight_with_router, weight_with_settings};
use crate::members::is_reserved;
use crate::refusing::{bad_text, full, out_of_bounds, taken, taken_by_router, too_heavy, unknown};
use ixp_machine_edits::RouterSettings;
use ixp_num::{Addr, Family, Name, same_addr};
use ixp_registry::{
    Handle, Interface, Kind, Member, Refusal, Registry, Router, RowKey, TextField, has_addr,
    has_blackhole, has_vlan, is_handle, is_host_in, prefix_in,
};
use std::alloc::{AllocError, Global};

fn is_a_members(members: &[Member], asn: u32) -> bool
    ensures { result ≡ list_any (λ m. m.asn.0 == asn) members.now }
{
    members.iter().any(|m| m.asn.0 == asn)
}

fn is_no_router_asn(registry: &Registry, asn: u32) -> bool
    ensures { result ≡ is_no_router_asn registry.now asn }
{
    is_reserved(asn) || is_a_members(registry.members.as_slice(), asn)
}

fn blackhole_has_family(router: &Router) -> bool
    ensures { result ≡ blackhole_has_family router.now }
{
    match &router.blackhole {
        Some(addr) => addr.family == router.family,
        None => true,
    }
}

fn blackhole_is_host(registry: &Registry, router: &Router) -> bool
    ensures { result ≡ blackhole_is_host registry.now router.now }
{
    match &router.blackhole {
        Some(addr) => is_host_in(&registry.vlans, router.vlan, router.family, addr),
        None => true,
    }
}

fn holds_blackhole(router: &Router, interface: &Interface) -> bool
    ensures { result ≡ holds_blackhole router.now interface.now }
{
    match &router.blackhole {
        Some(addr) => has_addr(interface, addr),
        None => false,
    }
}

fn has_bounds(router: &Router) -> bool
    ensures { result ≡ has_bounds router.now }
{
    router.low <= router.high && router.high <= u32::from(router.family.bits())
}

fn is_beyond_bounds(router: &Router) -> bool
    ensures { result ≡ is_beyond_bounds router.now }
{
    let well_known = router.blackhole.is_some() && router.asn.0 == 65535;
    !(has_bounds(router) && router.max_comms <= 1000 && !well_known)
}

fn interface_with(interfaces: &[Interface], addr: &Addr) -> Option<u32>
    ensures { result ≡ option_map (λ i. i.number) (find (has_addr addr.now) interfaces.now) }
{
    let found = interfaces.iter().find(|i| has_addr(i, addr));
    match found {
        Some(interface) => Some(interface.number),
        None => None,
    }
}

fn interface_with_blackhole(interfaces: &[Interface], router: &Router) -> Option<u32>
    ensures { result ≡ option_map (λ i. i.number) (find (holds_blackhole router.now) interfaces.now) }
{
    let found = interfaces.iter().find(|i| holds_blackhole(router, i));
    match found {
        Some(interface) => Some(interface.number),
        None => None,
    }
}

fn uses(router: &Router, addr: &Addr) -> bool
    ensures { result ≡ uses addr.now router.now }
{
    same_addr(&router.addr, addr) || has_blackhole(router, addr)
}

fn unless_used(registry: &Registry, addr: &Addr) -> Option<Refusal>
    ensures { result ≡ taken_by kind.Routers (λ p. key.Handle p.handle) (router_with registry.now addr.now) }
{
    let found = registry.routers.as_slice().iter().find(|p| uses(p, addr));
    match found {
        Some(other) => Some(taken_by_router(&other.handle)),
        None => None,
    }
}

fn unless_blackhole_used(registry: &Registry, router: &Router) -> Option<Refusal>
    ensures { result ≡ taken_by kind.Routers (λ p. key.Handle p.handle)
        (find (λ p. has_blackhole router.now p.addr) registry.now.routers) }
{
    let routers = registry.routers.as_slice();
    let found = routers.iter().find(|p| has_blackhole(router, &p.addr));
    match found {
        Some(other) => Some(taken_by_router(&other.handle)),
        None => None,
    }
}

fn last_refusal(registry: &Registry, weight: u64, router: &Router) -> Option<Refusal>
    requires valid { Valid registry.now }
    requires weight { weight ≡ weight_of registry.now }
    ensures { result ≡ first_refused (last_tests registry.now router.now) }
{
    if let Some(other) = registry.routers.find(&router.handle) {
        return Some(Refusal::Exists {
            key: RowKey::Handle(Handle::of(&other.handle)),
        });
    }
    if is_beyond_bounds(router) {
        return Some(out_of_bounds());
    }
    let routers = registry.routers.as_slice();
    if let Some(refusal) = full(Kind::Routers, routers.len(), 16) {
        return Some(refusal);
    }
    too_heavy(weight_with_router(registry, weight, router))
}

fn address_refusal(registry: &Registry, weight: u64, router: &Router) -> Option<Refusal>
    requires valid { Valid registry.now }
    requires weight { weight ≡ weight_of registry.now }
    ensures { result ≡ first_refused (address_tests registry.now router.now) }
{
    let interfaces = registry.interfaces.as_slice();
    if let Some(interface) = interface_with(interfaces, &router.addr) {
        return Some(taken(Kind::Interfaces, interface));
    }
    if let Some(refusal) = unless_used(registry, &router.addr) {
        return Some(refusal);
    }
    if let Some(interface) = interface_with_blackhole(interfaces, router) {
        return Some(taken(Kind::Interfaces, interface));
    }
    if let Some(refusal) = unless_blackhole_used(registry, router) {
        return Some(refusal);
    }
    if has_blackhole(router, &router.addr) {
        return Some(taken_by_router(&router.handle));
    }
    last_refusal(registry, weight, router)
}

/// Its addresses are of its family, of which the VLAN has a prefix.
fn has_its_family(registry: &Registry, router: &Router) -> bool
    ensures { result ≡ (same_family router.now.addr.family router.now.family && is_some
        (prefix_in registry.now.vlans router.now.vlan router.now.family) && blackhole_has_family
        router.now) }
{
    router.addr.family == router.family
        && prefix_in(&registry.vlans, router.vlan, router.family).is_some()
        && blackhole_has_family(router)
}

/// A router may have its addresses in the VLAN.
fn lies_inside(registry: &Registry, router: &Router) -> bool
    ensures { result ≡ (is_host_in registry.now.vlans router.now.vlan router.now.family router.now.addr &&
        blackhole_is_host registry.now router.now) }
{
    is_host_in(&registry.vlans, router.vlan, router.family, &router.addr)
        && blackhole_is_host(registry, router)
}

fn new_refusal(registry: &Registry, weight: u64, router: &Router) -> Option<Refusal>
    requires valid { Valid registry.now }
    requires weight { weight ≡ weight_of registry.now }
    ensures { result ≡ first_refused (placed_tests registry.now router.now) }
{
    if is_no_router_asn(registry, router.asn.0) {
        return Some(Refusal::AsnReserved { asn: router.asn });
    }
    if !has_its_family(registry, router) {
        return Some(Refusal::Family {
            family: router.family,
        });
    }
    if !lies_inside(registry, router) {
        return Some(Refusal::Outside { vlan: router.vlan });
    }
    address_refusal(registry, weight, router)
}

/// The router with the settings.
pub(crate) fn router_of(
    handle: Name,
    vlan: u32,
    family: Family,
    address: &Addr,
    settings: &RouterSettings,
) -> Router
    ensures { result ≡ new_router handle vlan family address.now settings.now }
{
    Router {
        handle,
        vlan,
        family,
        addr: *address,
        asn: settings.asn,
        id: settings.id,
        low: settings.low,
        high: settings.high,
        rpki: settings.rpki,
        blackhole: settings.blackhole,
        max_comms: settings.max_comms,
    }
}

fn named_refusal(
    registry: &Registry,
    weight: u64,
    handle: Name,
    vlan: u32,
    family: Family,
    address: &Addr,
    settings: &RouterSettings,
) -> Option<Refusal>
    requires valid { Valid registry.now }
    requires weight { weight ≡ weight_of registry.now }
    ensures { result ≡ first_refused
        (placed_tests registry.now (new_router handle vlan family address.now settings.now)) }
{
    let router = router_of(handle, vlan, family, address, settings);
    new_refusal(registry, weight, &router)
}

/// `weight` is the registry's.
pub(crate) fn add_router(
    alloc: Global,
    registry: &Registry,
    weight: u64,
    handle: &[u8],
    vlan: u32,
    family: Family,
    address: &Addr,
    settings: &RouterSettings,
) -> Result<Option<Refusal>, AllocError>
    requires valid { Valid registry.now }
    requires weight { weight ≡ weight_of registry.now }
    ensures { IfOk result
        (λ o. o ≡ first_refused
        (add_router_tests registry.now (new_router handle.now vlan family address.now settings.now))) }
{
    if !has_vlan(&registry.vlans, vlan) {
        return Ok(Some(unknown(Kind::Vlans, vlan)));
    }
    if !is_handle(handle) {
        return Ok(Some(bad_text(TextField::Handle)));
    }
    let name = Name::new(alloc, handle)?;
    Ok(named_refusal(registry, weight, name, vlan, family, address, settings))
}

/// The router with its new settings.
fn with_settings(
    alloc: Global,
    router: &Router,
    settings: &RouterSettings,
) -> Result<Router, AllocError>
    ensures { IfOk result (λ q. q ≡ with_settings settings.now router.now) }
{
    let handle = router.handle.copied(alloc)?;
    Ok(router_of(handle, router.vlan, router.family, &router.addr, settings))
}

/// Of the router `changed` with its new settings, but for the weight.
fn settings_refusal(
    registry: &Registry,
    weight: u64,
    handle: &Name,
    router: &Router,
    changed: &Router,
    settings: &RouterSettings,
) -> Option<Refusal>
    requires valid { Valid registry.now }
    requires weight { weight ≡ weight_of registry.now }
    requires there { row_of router_key handle.now registry.now.routers ≡ Some router.now }
    ensures { result ≡ first_refused
        (settings_tests registry.now (set_routers handle.now settings.now registry.now.routers) changed.now) }
{
    if is_no_router_asn(registry, changed.asn.0) {
        return Some(Refusal::AsnReserved { asn: changed.asn });
    }
    if !blackhole_has_family(changed) {
        return Some(Refusal::Family {
            family: changed.family,
        });
    }
    if !blackhole_is_host(registry, changed) {
        return Some(Refusal::Outside { vlan: changed.vlan });
    }
    let interfaces = registry.interfaces.as_slice();
    if let Some(interface) = interface_with_blackhole(interfaces, changed) {
        return Some(taken(Kind::Interfaces, interface));
    }
    if let Some(refusal) = unless_blackhole_used(registry, changed) {
        return Some(refusal);
    }
    if is_beyond_bounds(changed) {
        return Some(out_of_bounds());
    }
    too_heavy(weight_with_settings(registry, weight, handle, router, settings))
}

fn unknown_router(handle: &Name) -> Refusal
    ensures { result ≡ Unknown kind.Routers (key.Handle handle.now) }
{
    Refusal::Unknown {
        table: Kind::Routers,
        key: RowKey::Handle(Handle::of(handle)),
    }
}

/// `weight` is the registry's.
pub(crate) fn set_router(
    alloc: Global,
    registry: &Registry,
    weight: u64,
    handle: &Name,
    settings: &RouterSettings,
) -> Result<Option<Refusal>, AllocError>
    requires valid { Valid registry.now }
    requires weight { weight ≡ weight_of registry.now }
    ensures { IfOk result (λ o. o ≡ first_refused (set_router_tests registry.now handle.now settings.now)) }
{
    let Some(router) = registry.routers.find(handle) else {
        return Ok(Some(unknown_router(handle)));
    };
    let changed = with_settings(alloc, router, settings)?;
    Ok(settings_refusal(registry, weight, handle, router, &changed, settings))
}

pub(crate) fn drop_router(registry: &Registry, handle: &Name) -> Option<Refusal>
    ensures { result ≡ first_refused (drop_router_tests registry.now handle.now) }
{
    if registry.routers.find(handle).is_none() {
        return Some(unknown_router(handle));
    }
    None
}
