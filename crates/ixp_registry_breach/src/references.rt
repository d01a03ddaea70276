//! Rules 2, 8 and 14: the rows that a row names.
ghost use Rattle.std.specs.Prelude.{◌≡◌};
ghost use Rattle.ixp_registry.specs.Rules.{
  contacts_have_members,
  keys_have_owners,
  ports_have_switches,
  interfaces_have_ports,
  addresses_have_interfaces,
  routers_have_vlans,
  prefixes_have_members,
  origins_have_members,
  rules_have_members,
  ports_are_the_members,
  interfaces_have_no_left_member,
  rule_2,
  rule_8,
  rule_14,
};
ghost use Rattle.ixp_registry.specs.Sizes.{HasLines};

use ixp_registry::{
    Rows, addresses_at, contacts_at, earliest, first, has_interface, has_left, has_member,
    has_owner, has_port, has_switch, has_vlan, interfaces_at, is_port_of, keys_at, origins_at,
    ports_at, prefixes_at, routers_at, rules_at,
};

fn contacts_have_members(rows: &Rows) -> Option<usize>
    requires { HasLines rows.now }
    ensures { result ≡ contacts_have_members rows.now }
{
    let contacts = rows.contacts.as_slice();
    first(
        contacts_at(rows),
        contacts,
        |c| !has_member(&rows.members, c.member),
    )
}

fn keys_have_owners(rows: &Rows) -> Option<usize>
    requires { HasLines rows.now }
    ensures { result ≡ keys_have_owners rows.now }
{
    let keys = rows.keys.as_slice();
    first(keys_at(rows), keys, |k| !has_owner(&rows.members, k.owner))
}

fn ports_have_switches(rows: &Rows) -> Option<usize>
    requires { HasLines rows.now }
    ensures { result ≡ ports_have_switches rows.now }
{
    let ports = rows.ports.as_slice();
    first(ports_at(rows), ports, |p| {
        !(has_switch(&rows.switches, p.switch)
            && (p.member == 0 || has_member(&rows.members, p.member)))
    })
}

fn interfaces_have_ports(rows: &Rows) -> Option<usize>
    requires { HasLines rows.now }
    ensures { result ≡ interfaces_have_ports rows.now }
{
    let interfaces = rows.interfaces.as_slice();
    first(interfaces_at(rows), interfaces, |i| {
        !(has_member(&rows.members, i.member)
            && has_port(&rows.ports, i.port)
            && has_vlan(&rows.vlans, i.vlan))
    })
}

fn addresses_have_interfaces(rows: &Rows) -> Option<usize>
    requires { HasLines rows.now }
    ensures { result ≡ addresses_have_interfaces rows.now }
{
    let addresses = rows.addresses.as_slice();
    first(
        addresses_at(rows),
        addresses,
        |a| !has_interface(&rows.interfaces, a.interface),
    )
}

fn routers_have_vlans(rows: &Rows) -> Option<usize>
    requires { HasLines rows.now }
    ensures { result ≡ routers_have_vlans rows.now }
{
    let routers = rows.routers.as_slice();
    first(
        routers_at(rows),
        routers,
        |r| !has_vlan(&rows.vlans, r.vlan),
    )
}

fn prefixes_have_members(rows: &Rows) -> Option<usize>
    requires { HasLines rows.now }
    ensures { result ≡ prefixes_have_members rows.now }
{
    let prefixes = rows.prefixes.as_slice();
    first(
        prefixes_at(rows),
        prefixes,
        |p| !has_member(&rows.members, p.member),
    )
}

fn origins_have_members(rows: &Rows) -> Option<usize>
    requires { HasLines rows.now }
    ensures { result ≡ origins_have_members rows.now }
{
    let origins = rows.origins.as_slice();
    first(
        origins_at(rows),
        origins,
        |o| !has_member(&rows.members, o.member),
    )
}

fn rules_have_members(rows: &Rows) -> Option<usize>
    requires { HasLines rows.now }
    ensures { result ≡ rules_have_members rows.now }
{
    let rules = rows.rules.as_slice();
    first(
        rules_at(rows),
        rules,
        |r| !has_member(&rows.members, r.member),
    )
}

/// Each row that is named is there.
pub fn rule_2(rows: &Rows) -> Option<usize>
    requires { HasLines rows.now }
    ensures { result ≡ rule_2 rows.now }
{
    earliest(&[
        contacts_have_members(rows),
        keys_have_owners(rows),
        ports_have_switches(rows),
        interfaces_have_ports(rows),
        addresses_have_interfaces(rows),
        routers_have_vlans(rows),
        prefixes_have_members(rows),
        origins_have_members(rows),
        rules_have_members(rows),
    ])
}

fn ports_are_the_members(rows: &Rows) -> Option<usize>
    requires { HasLines rows.now }
    ensures { result ≡ ports_are_the_members rows.now }
{
    let interfaces = rows.interfaces.as_slice();
    first(
        interfaces_at(rows),
        interfaces,
        |i| !is_port_of(&rows.ports, i.port, i.member),
    )
}

/// An interface's port belongs to its member.
pub fn rule_8(rows: &Rows) -> Option<usize>
    requires { HasLines rows.now }
    ensures { result ≡ rule_8 rows.now }
{
    ports_are_the_members(rows)
}

fn interfaces_have_no_left_member(rows: &Rows) -> Option<usize>
    requires { HasLines rows.now }
    ensures { result ≡ interfaces_have_no_left_member rows.now }
{
    let interfaces = rows.interfaces.as_slice();
    first(
        interfaces_at(rows),
        interfaces,
        |i| has_left(&rows.members, i.member),
    )
}

/// A member that has left has no interface.
pub fn rule_14(rows: &Rows) -> Option<usize>
    requires { HasLines rows.now }
    ensures { result ≡ rule_14 rows.now }
{
    interfaces_have_no_left_member(rows)
}
