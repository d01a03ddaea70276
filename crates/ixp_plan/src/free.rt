//! The least address that is free.
ghost use Rattle.std.specs.Prelude.{◌≡◌, ◌≤◌, ◌+◌, ◌&&◌, not, true, IfSome, IfNone};
ghost use Rattle.ixp_num.specs.Prefixes.{contains};
ghost use Rattle.ixp_registry.specs.Lookups.{is_host_in};
ghost use Rattle.ixp_registry.specs.Registries.{rows_of};
ghost use Rattle.ixp_plan.specs.Free.{IsFirstFree};
ghost use Rattle.ixp_plan.specs.Holders.{is_taken};

use crate::holders::is_taken;
use ixp_num::{Addr, Family, Prefix};
use ixp_registry::{Registry, is_host_in, prefix_in};

/// The first address of the prefix.
fn first_in(prefix: &Prefix) -> Addr
    ensures inside { contains prefix.now result ≡ true }
    ensures least { (b : Addr) → contains prefix.now b ≡ true → result.value ≤ b.value }
{
    Addr {
        family: prefix.family,
        value: prefix.value,
    }
}

/// The address behind this one in the prefix.
fn next_in(prefix: &Prefix, addr: &Addr) -> Option<Addr>
    requires { contains prefix.now addr.now ≡ true }
    ensures some { IfSome result (λ a. (contains prefix.now a ≡ true) × (a.value ≡ addr.now.value + 1)) }
    ensures none { IfNone result ((b : Addr) → contains prefix.now b ≡ true → b.value ≤ addr.now.value) }
{
    let value = addr.value.checked_add(1)?;
    let next = Addr::new(addr.family, value)?;
    if prefix.contains(&next) {
        Some(next)
    } else {
        None
    }
}

fn is_free(registry: &Registry, vlan: u32, family: Family, addr: &Addr) -> bool
    ensures { result ≡ (is_host_in registry.now.vlans vlan family addr.now && not
        (is_taken registry.now addr.now)) }
{
    is_host_in(&registry.vlans, vlan, family, addr) && !is_taken(registry, addr)
}

/// The least address that an interface or a router in the VLAN may have and that nobody has, neither as its
/// own nor for a blackhole. None where the VLAN isn't there, has no prefix of the family, or all are taken.
pub fn first_free(registry: &Registry, vlan: u32, family: Family) -> Option<Addr>
    ensures { IsFirstFree registry.now vlan family result }
{
    let prefix = prefix_in(&registry.vlans, vlan, family)?;
    let mut left = Some(first_in(&prefix));
    'each: while let Some(addr) = left {
        if is_free(registry, vlan, family, &addr) {
            return Some(addr);
        }
        left = next_in(&prefix, &addr);
    }
    None
}
