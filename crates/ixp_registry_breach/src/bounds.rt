//! Rules 9, 10 and 12: lengths of prefixes lie within their family.
ghost use Rattle.std.specs.Prelude.{◌≡◌};
ghost use Rattle.ixp_registry.specs.Rules.{
  routers_have_bounds,
  vlans_have_families,
  bogons_have_bounds,
  bogon_as_have_bounds,
  roas_have_bounds,
  rule_9,
  rule_10,
  rule_12,
};
ghost use Rattle.ixp_registry.specs.Words.{
  is_of,
  has_bounds,
  pattern_has_bounds,
  range_ascends,
  roa_has_bounds,
};
ghost use Rattle.ixp_registry.specs.Sizes.{HasLines};

use ixp_num::{Asn, Family, Pattern, Prefix, Roa};
use ixp_registry::{
    Router, Rows, bogon_as_at, bogons_at, earliest, first, roas_at, routers_at, vlans_at,
};

fn has_bounds(router: &Router) -> bool
    ensures { result ≡ has_bounds router.now }
{
    router.low <= router.high && router.high <= u32::from(router.family.bits())
}

fn routers_have_bounds(rows: &Rows) -> Option<usize>
    requires { HasLines rows.now }
    ensures { result ≡ routers_have_bounds rows.now }
{
    let routers = rows.routers.as_slice();
    first(routers_at(rows), routers, |r| !has_bounds(r))
}

/// A router's bounds are lengths of its family, the low one not above the high one.
pub fn rule_9(rows: &Rows) -> Option<usize>
    requires { HasLines rows.now }
    ensures { result ≡ rule_9 rows.now }
{
    routers_have_bounds(rows)
}

fn is_of(family: Family, prefix: &Option<Prefix>) -> bool
    ensures { result ≡ is_of family prefix.now }
{
    match prefix {
        Some(prefix) => prefix.family == family,
        None => true,
    }
}

fn vlans_have_families(rows: &Rows) -> Option<usize>
    requires { HasLines rows.now }
    ensures { result ≡ vlans_have_families rows.now }
{
    let vlans = rows.vlans.as_slice();
    first(
        vlans_at(rows),
        vlans,
        |v| !(is_of(Family::V4, &v.v4) && is_of(Family::V6, &v.v6)),
    )
}

/// A VLAN's prefixes are of their family.
pub fn rule_10(rows: &Rows) -> Option<usize>
    requires { HasLines rows.now }
    ensures { result ≡ rule_10 rows.now }
{
    vlans_have_families(rows)
}

fn pattern_has_bounds(pattern: &Pattern) -> bool
    ensures { result ≡ pattern_has_bounds pattern.now }
{
    pattern.low <= pattern.high && pattern.high <= pattern.prefix.family.bits()
}

fn range_ascends(range: &(Asn, Asn)) -> bool
    ensures { result ≡ range_ascends range.now }
{
    range.0.0 <= range.1.0
}

fn roa_has_bounds(roa: &Roa) -> bool
    ensures { result ≡ roa_has_bounds roa.now }
{
    roa.prefix.len <= roa.max && roa.max <= roa.prefix.family.bits()
}

fn bogons_have_bounds(rows: &Rows) -> Option<usize>
    requires { HasLines rows.now }
    ensures { result ≡ bogons_have_bounds rows.now }
{
    let bogons = rows.public.bogons.as_slice();
    first(bogons_at(rows), bogons, |b| !pattern_has_bounds(b))
}

fn bogon_as_have_bounds(rows: &Rows) -> Option<usize>
    requires { HasLines rows.now }
    ensures { result ≡ bogon_as_have_bounds rows.now }
{
    let ranges = rows.public.bogon_as.as_slice();
    first(bogon_as_at(rows), ranges, |r| !range_ascends(r))
}

fn roas_have_bounds(rows: &Rows) -> Option<usize>
    requires { HasLines rows.now }
    ensures { result ≡ roas_have_bounds rows.now }
{
    let roas = rows.public.roas.as_slice();
    first(roas_at(rows), roas, |r| !roa_has_bounds(r))
}

/// Bounds of bogon patterns, ranges of AS numbers and ROAs ascend, within the family.
pub fn rule_12(rows: &Rows) -> Option<usize>
    requires { HasLines rows.now }
    ensures { result ≡ rule_12 rows.now }
{
    earliest(&[
        bogons_have_bounds(rows),
        bogon_as_have_bounds(rows),
        roas_have_bounds(rows),
    ])
}
