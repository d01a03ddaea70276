//! How often route servers read a list, and how long a list is.
ghost use Rattle.std.specs.Prelude.{◌≡◌, ◌≤◌, ◌*◌, length};
ghost use Rattle.ixp_registry.specs.Valid.{Valid};
ghost use Rattle.ixp_registry.specs.Weight.{vlan_weight, list_length};
ghost use Rattle.ixp_registry.specs.Words.{router_weight};

use crate::{Registry, Router};
use ixp_num::Family;

/// How often a router reads the lists of its sessions: twice where it has an address for blackholes.
pub fn router_weight(router: &Router) -> u64
    ensures weight { result ≡ router_weight router.now }
    ensures small { result ≤ 2 }
{
    if router.blackhole.is_some() { 2 } else { 1 }
}

/// How often the routers of the family in the VLAN read a list.
pub fn vlan_weight(routers: &[Router], vlan: u32, family: Family) -> u64
    ensures weight { result ≡ vlan_weight routers.now vlan family }
    ensures small { result ≤ 2 * length routers.now }
{
    let mut weight = 0;
    let mut left = routers;
    'routers: while let Some((router, others)) = left.split_first() {
        if router.vlan == vlan && router.family == family {
            weight += router_weight(router);
        }
        left = others;
    }
    weight
}

/// How many prefixes the member's list of the family has.
pub fn list_length(registry: &Registry, member: u32, family: Family) -> u64
    requires { Valid registry.now }
    ensures length { result ≡ list_length registry.now.irr member family }
    ensures small { result ≤ 300000 }
{
    match registry.irr.find(&(member, family)) {
        Some(list) => list.prefixes.len() as u64,
        None => 0,
    }
}
