//! Rule 13: how much the sessions of route servers make of members' lists.
ghost use Rattle.std.specs.Prelude.{◌≡◌, ◌+◌, ◌<◌, ◌^◌, ℕ, IfOk, OnOk, length};
ghost use Rattle.ixp_num.specs.declared.family.Family.{Family};
ghost use Rattle.ixp_registry.specs.Places.{first_heavy};
ghost use Rattle.ixp_registry.specs.Rules.{row_weight, sessions_are_light};
ghost use Rattle.ixp_registry.specs.Weight.{vlan_weight};
ghost use Rattle.ixp_registry.specs.Words.{router_weight};
ghost use Rattle.ixp_registry.specs.Sizes.{HasLines};
ghost use Rattle.ixp_registry_breach.specs.Weights.{
  capped,
  share_of,
  weight_at,
  interface_weight,
  HasWeights,
};

use ixp_num::Family;
use ixp_registry::{
    AddressRow, InterfaceRow, MemberPrefix, Rows, is_member_connected, prefixes_at, vlan_weight,
};
use std::alloc::{AllocError, Global};
use std::collections::BTreeMap;

/// The most that the sessions may make of all lists together, in rows.
const MOST: u64 = 8000000;

/// A weight for each member and family.
type Weights = BTreeMap<(u32, Family), u64>;

/// For which list the sessions of an address at the interface count, and how much.
fn interface_share(
    rows: &Rows,
    interface: &InterfaceRow,
    row: &AddressRow,
) -> Option<(u32, Family, u64)>
    ensures { (member : ℕ) (family : Family)
        → capped (share_of result member family)
        ≡ capped (interface_weight rows.now member family row.now interface.now) }
{
    let address = &row.address;
    if address.rs && address.irr && is_member_connected(&rows.members, interface.member) {
        let weight = vlan_weight(rows.routers.as_slice(), interface.vlan, address.addr.family);
        Some((interface.member, address.addr.family, weight))
    } else {
        None
    }
}

/// For which list the sessions of an address count, and how much.
fn share(rows: &Rows, row: &AddressRow) -> Option<(u32, Family, u64)>
    ensures { (member : ℕ) (family : Family)
        → capped (share_of result member family) ≡ capped (row_weight rows.now member family row.now) }
{
    match rows.interfaces.find(&row.interface) {
        Some(interface) => interface_share(rows, interface, row),
        None => None,
    }
}

fn add(weights: &mut Weights, share: (u32, Family, u64)) -> Result<(), AllocError>
    ensures { OnOk result
        ((member : ℕ) (family : Family)
        → capped (weight_at weights.new member family)
        ≡ capped (weight_at weights.old member family + share_of (Some share) member family)) }
{
    let list = (share.0, share.1);
    let weight = weights.get(&list).copied().unwrap_or(0);
    weights.insert(list, weight.saturating_add(share.2))?;
    Ok(())
}

fn weigh_lists(alloc: Global, rows: &Rows) -> Result<Weights, AllocError>
    ensures { IfOk result (HasWeights rows.now) }
{
    let mut weights = BTreeMap::new(alloc);
    let mut left = rows.addresses.as_slice();
    'addresses: while let Some((row, others)) = left.split_first() {
        if let Some(share) = share(rows, row) {
            add(&mut weights, share)?;
        }
        left = others;
    }
    Ok(weights)
}

/// The first row with which the weight of all is more than the most.
fn first_heavy(weights: &Weights, start: usize, prefixes: &[MemberPrefix]) -> Option<usize>
    requires { start + length prefixes.now < 2 ^ 64 }
    ensures { (weight : ℕ → Family → ℕ)
        → ((member : ℕ) (family : Family)
        → capped (weight_at weights.now member family) ≡ capped (weight member family))
        → result ≡ first_heavy (λ p. weight p.member p.prefix.family) 8000000 start prefixes.now }
{
    let mut sum = 0u64;
    let mut left = prefixes;
    let mut at = start;
    'rows: while let Some((row, others)) = left.split_first() {
        let weight = weights.get(&(row.member, row.prefix.family)).copied();
        sum = sum.saturating_add(weight.unwrap_or(0));
        if MOST < sum {
            return Some(at);
        }
        left = others;
        at += 1;
    }
    None
}

pub fn sessions_are_light(alloc: Global, rows: &Rows) -> Result<Option<usize>, AllocError>
    requires { HasLines rows.now }
    ensures { IfOk result (λ place. place ≡ sessions_are_light rows.now) }
{
    let weights = weigh_lists(alloc, rows)?;
    let prefixes = rows.prefixes.as_slice();
    Ok(first_heavy(&weights, prefixes_at(rows), prefixes))
}
