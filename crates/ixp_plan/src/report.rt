//! The report on who has which addresses.
ghost use Rattle.std.specs.Prelude.{◌≡◌, ◌++◌, ℕ, List, OnOk, OnErr, IfOk, option_map, find, flat_map};
ghost use Rattle.ixp_registry.specs.Lookups.{has_blackhole, has_addr};
ghost use Rattle.ixp_plan.specs.Holders.{answers_at};
ghost use Rattle.ixp_plan.specs.Uses.{
  interface_text,
  holder_text,
  use_line,
  free_line,
  addr_or_none,
  IsReport,
};

use crate::first_free;
use crate::holders::answers_at;
use crate::uses::{UsedAddr, used_addresses};
use ixp_num::{Addr, Family, print_addr};
use ixp_num_tables::{put, put_number, put_whole};
use ixp_registry::{Interface, Registry, Router, has_addr, has_blackhole};
use std::alloc::{AllocError, Global};

fn put_interface(interface: &Interface, out: &mut Vec<u8>) -> Result<(), AllocError>
    ensures { OnOk result (out.new.items ≡ out.old.items ++ interface_text interface.now) }
{
    put(out, b" interface ")?;
    put_number(out, u64::from(interface.number))
}

fn put_router(word: &[u8], router: &Router, out: &mut Vec<u8>) -> Result<(), AllocError>
    ensures { OnOk result (out.new.items ≡ out.old.items ++ word.now ++ router.now.handle) }
{
    put(out, word)?;
    put(out, router.handle.as_bytes())
}

fn put_holder(
    interface: Option<&Interface>,
    router: Option<&Router>,
    blackhole: Option<&Router>,
    out: &mut Vec<u8>,
) -> Result<(), AllocError>
    ensures { OnOk result
        (out.new.items ≡ out.old.items
        ++ holder_text (option_map (λ i. i.now) interface.entry) (option_map (λ q. q.now) router.entry)
        (option_map (λ q. q.now) blackhole.entry)) }
{
    match (interface, router, blackhole) {
        (Some(interface), _, _) => put_interface(interface, out),
        (None, Some(router), _) => put_router(b" router ", router, out),
        (None, None, Some(router)) => put_router(b" blackhole ", router, out),
        (None, None, None) => Ok(()),
    }
}

fn interface_with<'a>(registry: &'a Registry, addr: &Addr) -> Option<&'a Interface>
    ensures { option_map (λ i. i.now) result ≡ find (has_addr addr.now) registry.entry.now.interfaces }
{
    let interfaces = registry.interfaces.as_slice();
    interfaces.iter().find(|i| has_addr(i, addr))
}

fn router_at<'a>(registry: &'a Registry, addr: &Addr) -> Option<&'a Router>
    ensures { option_map (λ q. q.now) result ≡ find (answers_at addr.now) registry.entry.now.routers }
{
    let routers = registry.routers.as_slice();
    routers.iter().find(|q| answers_at(q, addr))
}

fn blackhole_at<'a>(registry: &'a Registry, addr: &Addr) -> Option<&'a Router>
    ensures { option_map (λ q. q.now) result
        ≡ find (λ q. has_blackhole q addr.now) registry.entry.now.routers }
{
    let routers = registry.routers.as_slice();
    routers.iter().find(|q| has_blackhole(q, addr))
}

fn put_use(registry: &Registry, addr: &Addr, out: &mut Vec<u8>) -> Result<(), AllocError>
    ensures { OnOk result (out.new.items ≡ out.old.items ++ use_line registry.now addr.now) }
{
    print_addr(addr, out)?;
    put_holder(
        interface_with(registry, addr),
        router_at(registry, addr),
        blackhole_at(registry, addr),
        out,
    )?;
    put(out, b"\n")
}

fn put_uses(registry: &Registry, used: &[UsedAddr], out: &mut Vec<u8>) -> Result<(), AllocError>
    ensures { OnOk result
        (out.new.items ≡ out.old.items ++ flat_map (λ u. use_line registry.now u.addr) used.now) }
{
    for taken in used {
        put_use(registry, &taken.addr, out)?;
    }
    Ok(())
}

fn put_addr_or_none(addr: Option<Addr>, out: &mut Vec<u8>) -> Result<(), AllocError>
    ensures { OnOk result (out.new.items ≡ out.old.items ++ addr_or_none addr) }
{
    match addr {
        Some(addr) => print_addr(&addr, out),
        None => put(out, b"none"),
    }
}

fn put_free(addr: Option<Addr>, out: &mut Vec<u8>) -> Result<(), AllocError>
    ensures { OnOk result (out.new.items ≡ out.old.items ++ free_line addr) }
{
    put(out, b"free ")?;
    put_addr_or_none(addr, out)?;
    put(out, b"\n")
}

/// The report as a text of its own.
fn report_text(
    alloc: Global,
    registry: &Registry,
    vlan: u32,
    family: Family,
) -> Result<Vec<u8>, AllocError>
    ensures { IfOk result (λ text. IsReport registry.now vlan family text.items) }
{
    let used = used_addresses(alloc, registry, vlan, family)?;
    let mut text = Vec::new(alloc);
    put_uses(registry, used.as_slice(), &mut text)?;
    put_free(first_free(registry, vlan, family), &mut text)?;
    Ok(text)
}

/// Adds a line `<addr> interface <n>`, `<addr> router <handle>` or `<addr> blackhole <handle>` for each
/// address of the VLAN that is taken, in ascending order, and then `free <addr>` with the least one that is
/// free, or `free none`.
pub fn use_report(
    alloc: Global,
    registry: &Registry,
    vlan: u32,
    family: Family,
    out: &mut Vec<u8>,
) -> Result<(), AllocError>
    ensures ok { OnOk result
        ((t : List ℕ) × IsReport registry.now vlan family t × (out.new.items ≡ out.old.items ++ t)) }
    ensures err { OnErr result (out.new.items ≡ out.old.items) }
{
    let text = report_text(alloc, registry, vlan, family)?;
    put_whole(out, text)
}
