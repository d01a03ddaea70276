//! Rule 15: the blackhole addresses of routers, and the communities that they take.
ghost use Rattle.std.specs.Prelude.{◌≡◌, ◌||◌, true};
ghost use Rattle.std.specs.List.{list_any};
ghost use Rattle.ixp_num_tables.specs.Tables.{if_there};
ghost use Rattle.ixp_registry.specs.Rules.{
  is_assigned,
  blackholes_meet,
  may_be_blackhole,
  blackholes_lie_apart,
  routers_have_blackholes,
  rule_15,
};
ghost use Rattle.ixp_registry.specs.Lookups.{has_blackhole};
ghost use Rattle.ixp_registry.specs.Sizes.{HasLines};

use crate::earlier::{MeetsEarlier, first_with_earlier};
use ixp_num::{Addr, same_addr};
use ixp_registry::{
    AddressRow, Router, Rows, earliest, first, has_blackhole, is_host_in, routers_at,
};

impl MeetsEarlier for Router {
    ghost meets = { blackholes_meet };

    fn meets(&self, earlier: &[Router]) -> bool {
        meets_any(self, earlier) || has_blackhole(self, &self.addr)
    }
}

fn meets_any(router: &Router, earlier: &[Router]) -> bool
    ensures { result ≡ list_any
        (λ q. has_blackhole router.now q.addr || has_blackhole q router.now.addr) earlier.now }
{
    earlier.iter().any(|q| has_blackhole(router, &q.addr) || has_blackhole(q, &router.addr))
}

fn blackholes_lie_apart(rows: &Rows) -> Option<usize>
    requires { HasLines rows.now }
    ensures { result ≡ blackholes_lie_apart rows.now }
{
    first_with_earlier(routers_at(rows), rows.routers.as_slice())
}

fn is_assigned(addresses: &[AddressRow], addr: &Addr) -> bool
    ensures { result ≡ is_assigned addresses.now addr.now }
{
    addresses.iter().any(|x| same_addr(&x.address.addr, addr))
}

fn may_be_blackhole(rows: &Rows, router: &Router, addr: &Addr) -> bool
    ensures { result ≡ may_be_blackhole rows.now router.now addr.now }
{
    addr.family == router.family
        && is_host_in(&rows.vlans, router.vlan, router.family, addr)
        && !is_assigned(rows.addresses.as_slice(), addr)
        && !(router.asn.0 == 65535)
}

fn may_have_its_blackhole(rows: &Rows, router: &Router) -> bool
    ensures { result ≡ if_there router.now.blackhole true (may_be_blackhole rows.now router.now) }
{
    match router.blackhole {
        Some(blackhole) => may_be_blackhole(rows, router, &blackhole),
        None => true,
    }
}

fn routers_have_blackholes(rows: &Rows) -> Option<usize>
    requires { HasLines rows.now }
    ensures { result ≡ routers_have_blackholes rows.now }
{
    let routers = rows.routers.as_slice();
    first(
        routers_at(rows),
        routers,
        |r| !(may_have_its_blackhole(rows, r) && r.max_comms <= 1000),
    )
}

/// A router's blackhole address is a host of its VLAN and nobody's own, and it bounds communities by at most
/// 1,000.
pub fn rule_15(rows: &Rows) -> Option<usize>
    requires { HasLines rows.now }
    ensures { result ≡ rule_15 rows.now }
{
    earliest(&[blackholes_lie_apart(rows), routers_have_blackholes(rows)])
}
