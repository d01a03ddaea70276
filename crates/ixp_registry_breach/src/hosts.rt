//! Rule 6: addresses lie in the prefixes of their VLANs.
ghost use Rattle.std.specs.Prelude.{◌≡◌};
ghost use Rattle.ixp_registry.specs.Rules.{addresses_are_hosts, routers_are_hosts, rule_6};
ghost use Rattle.ixp_registry.specs.Sizes.{HasLines};

use ixp_registry::{Rows, addresses_at, earliest, first, is_host_at, is_host_in, routers_at};

fn addresses_are_hosts(rows: &Rows) -> Option<usize>
    requires { HasLines rows.now }
    ensures { result ≡ addresses_are_hosts rows.now }
{
    let addresses = rows.addresses.as_slice();
    first(
        addresses_at(rows),
        addresses,
        |a| !is_host_at(&rows.vlans, &rows.interfaces, a.interface, &a.address.addr),
    )
}

fn routers_are_hosts(rows: &Rows) -> Option<usize>
    requires { HasLines rows.now }
    ensures { result ≡ routers_are_hosts rows.now }
{
    let routers = rows.routers.as_slice();
    first(
        routers_at(rows),
        routers,
        |r| !is_host_in(&rows.vlans, r.vlan, r.family, &r.addr),
    )
}

/// An address is inside its VLAN's prefix of the family and isn't the first of it; in IPv4 it isn't the last
/// either.
pub fn rule_6(rows: &Rows) -> Option<usize>
    requires { HasLines rows.now }
    ensures { result ≡ rule_6 rows.now }
{
    earliest(&[addresses_are_hosts(rows), routers_are_hosts(rows)])
}
