//! Rule 5: the prefixes and tags of VLANs.
ghost use Rattle.std.specs.Prelude.{◌≡◌, ◌||◌};
ghost use Rattle.std.specs.List.{list_any, list_all};
ghost use Rattle.ixp_registry.specs.Lookups.{overlap, listed, vlan_prefixes};
ghost use Rattle.ixp_registry.specs.Rules.{vlans_lie_apart, vlans_have_bounds, rule_5};
ghost use Rattle.ixp_registry.specs.Words.{is_vlan_length, overlaps_any};
ghost use Rattle.ixp_registry.specs.Sizes.{HasLines};

use crate::earlier::{MeetsEarlier, first_with_earlier};
use ixp_num::{Family, Prefix};
use ixp_registry::{Rows, Vlan, earliest, first, vlans_at};

impl MeetsEarlier for Vlan {
    ghost meets = { λ earlier v. list_any
        (λ u. list_any (overlaps_any (vlan_prefixes u)) (vlan_prefixes v)) earlier || list_any
        (overlaps_any (listed v.v4)) (listed v.v6) };

    fn meets(&self, earlier: &[Vlan]) -> bool {
        overlaps_earlier(self, earlier) || overlaps_itself(self)
    }
}

fn overlap(one: &Prefix, other: &Prefix) -> bool
    ensures { result ≡ overlap one.now other.now }
{
    one.covers(other) || other.covers(one)
}

fn overlaps(one: &Option<Prefix>, other: &Prefix) -> bool
    ensures { result ≡ overlaps_any (listed one.now) other.now }
{
    match one {
        Some(prefix) => overlap(prefix, other),
        None => false,
    }
}

/// Whether the prefix overlaps with one of the VLAN's.
fn overlaps_vlan(vlan: &Vlan, prefix: &Prefix) -> bool
    ensures { result ≡ overlaps_any (vlan_prefixes vlan.now) prefix.now }
{
    overlaps(&vlan.v4, prefix) || overlaps(&vlan.v6, prefix)
}

fn column_overlaps(vlan: &Vlan, column: &Option<Prefix>) -> bool
    ensures { result ≡ list_any (overlaps_any (vlan_prefixes vlan.now)) (listed column.now) }
{
    match column {
        Some(prefix) => overlaps_vlan(vlan, prefix),
        None => false,
    }
}

fn vlans_overlap(one: &Vlan, other: &Vlan) -> bool
    ensures { result ≡ list_any (overlaps_any (vlan_prefixes one.now)) (vlan_prefixes other.now) }
{
    column_overlaps(one, &other.v4) || column_overlaps(one, &other.v6)
}

fn overlaps_earlier(vlan: &Vlan, earlier: &[Vlan]) -> bool
    ensures { result ≡ list_any
        (λ u. list_any (overlaps_any (vlan_prefixes u)) (vlan_prefixes vlan.now)) earlier.now }
{
    earlier.iter().any(|one| vlans_overlap(one, vlan))
}

fn overlaps_itself(vlan: &Vlan) -> bool
    ensures { result ≡ list_any (overlaps_any (listed vlan.now.v4)) (listed vlan.now.v6) }
{
    match vlan.v6 {
        Some(prefix) => overlaps(&vlan.v4, &prefix),
        None => false,
    }
}

fn vlans_lie_apart(rows: &Rows) -> Option<usize>
    requires { HasLines rows.now }
    ensures { result ≡ vlans_lie_apart rows.now }
{
    first_with_earlier(vlans_at(rows), rows.vlans.as_slice())
}

fn is_vlan_length(prefix: &Prefix) -> bool
    ensures { result ≡ is_vlan_length prefix.now }
{
    match prefix.family {
        Family::V4 => 8 <= prefix.len && prefix.len <= 30,
        Family::V6 => 32 <= prefix.len && prefix.len <= 126,
    }
}

fn column_has_length(column: &Option<Prefix>) -> bool
    ensures { result ≡ list_all is_vlan_length (listed column.now) }
{
    match column {
        Some(prefix) => is_vlan_length(prefix),
        None => true,
    }
}

fn has_lengths(vlan: &Vlan) -> bool
    ensures { result ≡ list_all is_vlan_length (vlan_prefixes vlan.now) }
{
    column_has_length(&vlan.v4) && column_has_length(&vlan.v6)
}

fn vlans_have_bounds(rows: &Rows) -> Option<usize>
    requires { HasLines rows.now }
    ensures { result ≡ vlans_have_bounds rows.now }
{
    let vlans = rows.vlans.as_slice();
    first(
        vlans_at(rows),
        vlans,
        |v| !(has_lengths(v) && 1 <= v.tag && v.tag <= 4094),
    )
}

/// VLAN prefixes don't overlap, and their lengths and the tags are within bounds.
pub fn rule_5(rows: &Rows) -> Option<usize>
    requires { HasLines rows.now }
    ensures { result ≡ rule_5 rows.now }
{
    earliest(&[vlans_lie_apart(rows), vlans_have_bounds(rows)])
}
