//! Whether an interface may get an address.
ghost use Rattle.std.specs.Prelude.{◌≡◌, option_map};
ghost use Rattle.ixp_plan.specs.Checks.{
  other_interface,
  router_with,
  unless_taken,
  fits_family,
  checked,
  address_check,
};

use crate::holders::uses;
use ixp_num::{Addr, Family};
use ixp_registry::{
    Handle, Interface, Kind, Refusal, Registry, Router, RowKey, has_addr, is_host_in, prefix_in,
};

fn other_interface<'a>(registry: &'a Registry, interface: u32, addr: &Addr) -> Option<&'a Interface>
    ensures { option_map (λ i. i.now) result ≡ other_interface registry.entry.now interface addr.now }
{
    let interfaces = registry.interfaces.as_slice();
    interfaces
        .iter()
        .find(|i| i.number != interface && has_addr(i, addr))
}

fn router_with<'a>(registry: &'a Registry, addr: &Addr) -> Option<&'a Router>
    ensures { option_map (λ q. q.now) result ≡ router_with registry.entry.now addr.now }
{
    registry.routers.as_slice().iter().find(|q| uses(q, addr))
}

fn unless_taken(other: Option<&Interface>, router: Option<&Router>) -> Result<(), Refusal>
    ensures { result ≡ unless_taken (option_map (λ i. i.now) other.entry)
        (option_map (λ q. q.now) router.entry) }
{
    if let Some(interface) = other {
        return Err(Refusal::Taken {
            table: Kind::Interfaces,
            key: RowKey::Number(interface.number),
        });
    }
    match router {
        Some(router) => Err(Refusal::Taken {
            table: Kind::Routers,
            key: RowKey::Handle(Handle::of(&router.handle)),
        }),
        None => Ok(()),
    }
}

fn fits_family(registry: &Registry, vlan: u32, family: Family, addr: &Addr) -> bool
    ensures { result ≡ fits_family registry.now vlan family addr.now }
{
    addr.family == family && prefix_in(&registry.vlans, vlan, family).is_some()
}

fn checked(
    registry: &Registry,
    family: Family,
    addr: &Addr,
    interface: &Interface,
) -> Result<(), Refusal>
    ensures { result ≡ checked registry.now family addr.now interface.now }
{
    if !fits_family(registry, interface.vlan, family, addr) {
        return Err(Refusal::Family { family });
    }
    if !is_host_in(&registry.vlans, interface.vlan, family, addr) {
        return Err(Refusal::Outside {
            vlan: interface.vlan,
        });
    }
    unless_taken(
        other_interface(registry, interface.number, addr),
        router_with(registry, addr),
    )
}

/// Whether the interface may get the address as its one of the family. X4: there is no such interface. X7:
/// the address isn't of the family, or the interface's VLAN has no prefix of it. X8: it lies outside the
/// VLAN's prefix, or nobody may have it there. X9: another interface or a router has it; for a blackhole
/// address the router is the first one by handle. It does not allocate.
pub fn check_address(
    registry: &Registry,
    interface: u32,
    family: Family,
    addr: &Addr,
) -> Result<(), Refusal>
    ensures { result ≡ address_check registry.now interface family addr.now }
{
    match registry.interfaces.find(&interface) {
        Some(interface) => checked(registry, family, addr, interface),
        None => Err(Refusal::Unknown {
            table: Kind::Interfaces,
            key: RowKey::Number(interface),
        }),
    }
}
