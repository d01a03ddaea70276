//! The line on which the first row of each kind stands in a dump, or would stand where there is none.
ghost use Rattle.std.specs.Prelude.{◌≡◌, ◌↔◌, IsTrue};
ghost use Rattle.ixp_registry.specs.Lines.{
  site_at,
  members_at,
  contacts_at,
  keys_at,
  switches_at,
  ports_at,
  vlans_at,
  interfaces_at,
  addresses_at,
  routers_at,
  prefixes_at,
  origins_at,
  rules_at,
  bogons_at,
  bogon_as_at,
  transit_at,
  roas_at,
};
ghost use Rattle.ixp_registry.specs.Sizes.{HasLines};

use crate::Rows;

/// The site's line.
pub fn site_at() -> usize
    ensures { result ≡ site_at }
{
    2
}

/// The line of the first member.
pub fn members_at() -> usize
    ensures { result ≡ members_at }
{
    3
}

/// The line of the first contact.
pub fn contacts_at(rows: &Rows) -> usize
    requires { HasLines rows.now }
    ensures { result ≡ contacts_at rows.now }
{
    members_at() + rows.members.len()
}

/// The line of the first API key.
pub fn keys_at(rows: &Rows) -> usize
    requires { HasLines rows.now }
    ensures { result ≡ keys_at rows.now }
{
    contacts_at(rows) + rows.contacts.len()
}

/// The line of the first switch.
pub fn switches_at(rows: &Rows) -> usize
    requires { HasLines rows.now }
    ensures { result ≡ switches_at rows.now }
{
    keys_at(rows) + rows.keys.len()
}

/// The line of the first port.
pub fn ports_at(rows: &Rows) -> usize
    requires { HasLines rows.now }
    ensures { result ≡ ports_at rows.now }
{
    switches_at(rows) + rows.switches.len()
}

/// The line of the first VLAN.
pub fn vlans_at(rows: &Rows) -> usize
    requires { HasLines rows.now }
    ensures { result ≡ vlans_at rows.now }
{
    ports_at(rows) + rows.ports.len()
}

/// The line of the first interface.
pub fn interfaces_at(rows: &Rows) -> usize
    requires { HasLines rows.now }
    ensures { result ≡ interfaces_at rows.now }
{
    vlans_at(rows) + rows.vlans.len()
}

/// The line of the first address.
pub fn addresses_at(rows: &Rows) -> usize
    requires { HasLines rows.now }
    ensures { result ≡ addresses_at rows.now }
{
    interfaces_at(rows) + rows.interfaces.len()
}

/// The line of the first router.
pub fn routers_at(rows: &Rows) -> usize
    requires { HasLines rows.now }
    ensures { result ≡ routers_at rows.now }
{
    addresses_at(rows) + rows.addresses.len()
}

/// The line of the first prefix of a member's list.
pub fn prefixes_at(rows: &Rows) -> usize
    requires { HasLines rows.now }
    ensures { result ≡ prefixes_at rows.now }
{
    routers_at(rows) + rows.routers.len()
}

/// The line of the first origin of a member's list.
pub fn origins_at(rows: &Rows) -> usize
    requires { HasLines rows.now }
    ensures { result ≡ origins_at rows.now }
{
    prefixes_at(rows) + rows.prefixes.len()
}

/// The line of the first rule.
pub fn rules_at(rows: &Rows) -> usize
    requires { HasLines rows.now }
    ensures { result ≡ rules_at rows.now }
{
    origins_at(rows) + rows.origins.len()
}

/// The line of the first bogon pattern.
pub fn bogons_at(rows: &Rows) -> usize
    requires { HasLines rows.now }
    ensures { result ≡ bogons_at rows.now }
{
    rules_at(rows) + rows.rules.len()
}

/// The line of the first range of AS numbers.
pub fn bogon_as_at(rows: &Rows) -> usize
    requires { HasLines rows.now }
    ensures { result ≡ bogon_as_at rows.now }
{
    bogons_at(rows) + rows.public.bogons.len()
}

/// The line of the first number that buys no transit.
pub fn transit_at(rows: &Rows) -> usize
    requires { HasLines rows.now }
    ensures { result ≡ transit_at rows.now }
{
    bogon_as_at(rows) + rows.public.bogon_as.len()
}

/// The line of the first ROA.
pub fn roas_at(rows: &Rows) -> usize
    requires { HasLines rows.now }
    ensures { result ≡ roas_at rows.now }
{
    transit_at(rows) + rows.public.transit.len()
}

/// Whether the numbers of all lines fit a `usize`. They do where the rows were read from a text in memory,
/// since each has a line there.
pub fn has_lines(rows: &Rows) -> bool
    ensures { IsTrue result ↔ HasLines rows.now }
{
    let members = 3 + rows.members.len() as u128 + rows.contacts.len() as u128;
    let network = rows.keys.len() as u128
        + rows.switches.len() as u128
        + rows.ports.len() as u128
        + rows.vlans.len() as u128
        + rows.interfaces.len() as u128
        + rows.addresses.len() as u128
        + rows.routers.len() as u128;
    let lists = rows.prefixes.len() as u128
        + rows.origins.len() as u128
        + rows.rules.len() as u128
        + rows.public.bogons.len() as u128
        + rows.public.bogon_as.len() as u128
        + rows.public.transit.len() as u128
        + rows.public.roas.len() as u128;
    members + network + lists < 1 << 64
}
