//! The sessions of a router.
ghost use Rattle.std.specs.Prelude.{◌≡◌, false, option_map};
ghost use Rattle.ixp_num_tables.specs.Tables.{if_there};
ghost use Rattle.ixp_registry.specs.Sessions.{
  address_of,
  is_session,
  origins_in,
  prefixes_in,
  rules_of,
  session,
  session_at,
};
ghost use Rattle.ixp_policy.specs.Views.{session_of};

use ixp_num::{Asn, Family, Prefix};
use ixp_registry::{
    IfAddr, Interface, Member, MemberRule, Registry, Router, address_of, is_session,
};

/// The rows of a session.
#[derive(Clone, Copy)]
pub struct SessionRows<'a> {
    pub interface: &'a Interface,
    pub address: &'a IfAddr,
    pub member: &'a Member,
    pub prefixes: &'a [Prefix],
    pub origins: &'a [Asn],
    pub rules: &'a [MemberRule],
}

fn prefixes_in(registry: &Registry, member: u32, family: Family) -> &[Prefix]
    ensures { result.now ≡ prefixes_in registry.entry.now member family }
{
    match registry.irr.find(&(member, family)) {
        Some(list) => list.prefixes.as_slice(),
        None => &[],
    }
}

fn origins_in(registry: &Registry, member: u32, family: Family) -> &[Asn]
    ensures { result.now ≡ origins_in registry.entry.now member family }
{
    match registry.origins.find(&(member, family)) {
        Some(list) => list.asns.as_slice(),
        None => &[],
    }
}

fn rules_of(registry: &Registry, member: u32) -> &[MemberRule]
    ensures { result.now ≡ rules_of registry.entry.now member }
{
    match registry.rules.find(&member) {
        Some(list) => list.rules.as_slice(),
        None => &[],
    }
}

/// The interface's session with the router, where it has one.
pub fn session_at<'a>(
    registry: &'a Registry,
    router: &Router,
    interface: &'a Interface,
) -> Option<SessionRows<'a>>
    ensures { option_map session_of result ≡ session_at registry.entry.now router.now interface.entry.now }
{
    if !is_session(registry, router, interface) {
        return None;
    }
    let address = address_of(router.family, interface)?;
    let member = registry.members.find(&interface.member)?;
    Some(SessionRows {
        interface,
        address,
        member,
        prefixes: prefixes_in(registry, interface.member, router.family),
        origins: origins_in(registry, interface.member, router.family),
        rules: rules_of(registry, interface.member),
    })
}

/// The router's session at the interface with the number, where there is one.
pub fn session<'a>(
    registry: &'a Registry,
    router: &Router,
    interface: u32,
) -> Option<SessionRows<'a>>
    ensures { option_map session_of result ≡ session registry.entry.now router.now interface }
{
    match registry.interfaces.find(&interface) {
        Some(interface) => session_at(registry, router, interface),
        None => None,
    }
}
