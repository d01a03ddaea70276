//! Rule 4: AS numbers that are reserved, or shared by a member and a router.
ghost use Rattle.std.specs.Prelude.{◌≡◌, ◌==◌};
ghost use Rattle.std.specs.List.{list_any};
ghost use Rattle.ixp_registry.specs.Rules.{members_have_asns, routers_have_asns, rule_4};
ghost use Rattle.ixp_registry.specs.Words.{is_reserved};
ghost use Rattle.ixp_registry.specs.Sizes.{HasLines};

use ixp_registry::{Rows, earliest, first, members_at, routers_at};

fn is_reserved(asn: u32) -> bool
    ensures { result ≡ is_reserved asn }
{
    asn == 0 || asn == 23456 || asn == 4294967295
}

fn is_a_members(rows: &Rows, asn: u32) -> bool
    ensures { result ≡ list_any (λ m. m.asn.0 == asn) rows.now.members }
{
    rows.members.as_slice().iter().any(|m| m.asn.0 == asn)
}

fn members_have_asns(rows: &Rows) -> Option<usize>
    requires { HasLines rows.now }
    ensures { result ≡ members_have_asns rows.now }
{
    let members = rows.members.as_slice();
    first(members_at(), members, |m| is_reserved(m.asn.0))
}

fn routers_have_asns(rows: &Rows) -> Option<usize>
    requires { HasLines rows.now }
    ensures { result ≡ routers_have_asns rows.now }
{
    let routers = rows.routers.as_slice();
    first(
        routers_at(rows),
        routers,
        |r| is_reserved(r.asn.0) || is_a_members(rows, r.asn.0),
    )
}

/// No member and no router has a reserved AS number, and no router has a member's.
pub fn rule_4(rows: &Rows) -> Option<usize>
    requires { HasLines rows.now }
    ensures { result ≡ rule_4 rows.now }
{
    earliest(&[members_have_asns(rows), routers_have_asns(rows)])
}
