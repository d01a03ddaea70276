//! The addresses of a VLAN that are taken, in order.
ghost use Rattle.std.specs.Prelude.{◌≡◌, ◌&&◌, ◌||◌, OnOk, IfOk};
ghost use Rattle.std.specs.List.{list_any};
ghost use Rattle.ixp_num.specs.declared.addr.Addr.{Addr};
ghost use Rattle.ixp_num.specs.Prefixes.{contains, same_addr};
ghost use Rattle.ixp_registry.specs.Lookups.{has_blackhole, is_at, has_addr};
ghost use Rattle.ixp_plan.specs.Holders.{uses, is_taken};
ghost use Rattle.ixp_plan.specs.Uses.{is_in, is_used};

use ixp_num::{Addr, Family, Prefix};
use ixp_num_tables::{Row, Table};
use ixp_registry::{IfAddr, Interface, Registry, Router, prefix_in};
use std::alloc::{AllocError, Global};
use std::cmp::Ordering;

/// An address that is taken.
#[derive(Clone, Copy, Debug)]
pub struct UsedAddr {
    pub addr: Addr,
}

impl Row for UsedAddr {
    ghost use Rattle.ixp_registry.specs.Words.{addr_numbers};

    type Key = Addr;

    ghost key_of = { λ u. addr_numbers u.addr };

    ghost named = { addr_numbers };

    fn compare(&self, key: &Addr) -> Ordering {
        self.addr.cmp(key)
    }

    fn order(&self, other: &UsedAddr) -> Ordering {
        self.addr.cmp(&other.addr)
    }
}

/// Puts the address in where it lies in the prefix.
fn put_addr(prefix: &Prefix, addr: Addr, used: &mut Table<UsedAddr>) -> Result<(), AllocError>
    ensures { OnOk result
        ((a : Addr) → is_in a used.new ≡ (contains prefix.now a && same_addr addr a || is_in a used.old)) }
{
    if prefix.contains(&addr) {
        used.put(UsedAddr { addr })?;
    }
    Ok(())
}

fn put_if_there(
    prefix: &Prefix,
    address: &Option<IfAddr>,
    used: &mut Table<UsedAddr>,
) -> Result<(), AllocError>
    ensures { OnOk result
        ((a : Addr) → is_in a used.new ≡ (contains prefix.now a && is_at a address.now || is_in a used.old)) }
{
    match address {
        Some(address) => put_addr(prefix, address.addr, used),
        None => Ok(()),
    }
}

fn put_interface(
    prefix: &Prefix,
    interface: &Interface,
    used: &mut Table<UsedAddr>,
) -> Result<(), AllocError>
    ensures { OnOk result
        ((a : Addr) → is_in a used.new
        ≡ (contains prefix.now a && has_addr a interface.now || is_in a used.old)) }
{
    put_if_there(prefix, &interface.v4, used)?;
    put_if_there(prefix, &interface.v6, used)?;
    Ok(())
}

fn put_interfaces(
    prefix: &Prefix,
    interfaces: &[Interface],
    used: &mut Table<UsedAddr>,
) -> Result<(), AllocError>
    ensures { OnOk result
        ((a : Addr) → is_in a used.new
        ≡ (contains prefix.now a && list_any (has_addr a) interfaces.now || is_in a used.old)) }
{
    let mut left = interfaces;
    'each: while let Some((interface, others)) = left.split_first() {
        put_interface(prefix, interface, used)?;
        left = others;
    }
    Ok(())
}

fn put_blackhole(
    prefix: &Prefix,
    router: &Router,
    used: &mut Table<UsedAddr>,
) -> Result<(), AllocError>
    ensures { OnOk result
        ((a : Addr) → is_in a used.new
        ≡ (contains prefix.now a && has_blackhole router.now a || is_in a used.old)) }
{
    match router.blackhole {
        Some(blackhole) => put_addr(prefix, blackhole, used),
        None => Ok(()),
    }
}

fn put_router(
    prefix: &Prefix,
    router: &Router,
    used: &mut Table<UsedAddr>,
) -> Result<(), AllocError>
    ensures { OnOk result
        ((a : Addr) → is_in a used.new ≡ (contains prefix.now a && uses a router.now || is_in a used.old)) }
{
    put_addr(prefix, router.addr, used)?;
    put_blackhole(prefix, router, used)?;
    Ok(())
}

fn put_routers(
    prefix: &Prefix,
    routers: &[Router],
    used: &mut Table<UsedAddr>,
) -> Result<(), AllocError>
    ensures { OnOk result
        ((a : Addr) → is_in a used.new
        ≡ (contains prefix.now a && list_any (uses a) routers.now || is_in a used.old)) }
{
    let mut left = routers;
    'each: while let Some((router, others)) = left.split_first() {
        put_router(prefix, router, used)?;
        left = others;
    }
    Ok(())
}

fn used_in(
    alloc: Global,
    registry: &Registry,
    prefix: &Prefix,
) -> Result<Table<UsedAddr>, AllocError>
    ensures { IfOk result
        (λ us. (a : Addr) → is_in a us ≡ (contains prefix.now a && is_taken registry.now a)) }
{
    let mut used = Table::new(alloc);
    put_interfaces(prefix, registry.interfaces.as_slice(), &mut used)?;
    put_routers(prefix, registry.routers.as_slice(), &mut used)?;
    Ok(used)
}

/// The addresses of the VLAN and the family that are taken.
pub(crate) fn used_addresses(
    alloc: Global,
    registry: &Registry,
    vlan: u32,
    family: Family,
) -> Result<Table<UsedAddr>, AllocError>
    ensures { IfOk result (λ us. (a : Addr) → is_in a us ≡ is_used registry.now vlan family a) }
{
    match prefix_in(&registry.vlans, vlan, family) {
        Some(prefix) => used_in(alloc, registry, &prefix),
        None => Ok(Table::new(alloc)),
    }
}
