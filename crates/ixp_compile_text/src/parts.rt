//! The parts of a router's text one by one: the texts of all its sessions, and what those of some sessions
//! depend on. For many sessions the members' addresses in the router's VLAN are gathered once.
ghost use Rattle.std.specs.Prelude.{◌≡◌, ◌<◌, ◌^◌, IfOk, IfSome, map, option_map};
ghost use Rattle.ixp_compile.specs.Generated.{inputs};
ghost use Rattle.ixp_compile_text.specs.Addresses.{AreInVlan};
ghost use Rattle.ixp_compile_text.specs.Parts.{session_text_at, texts_by_session};
ghost use Rattle.ixp_registry.specs.Sessions.{session};

use crate::addresses::MemberAddresses;
use crate::texts::put_session;
use crate::values::session_inputs;
use ixp_compile::Inputs;
use ixp_num::Items;
use ixp_registry::{Interface, Registry, Router};
use std::alloc::{AllocError, Global};

/// The text of a session's part of a router's text.
#[derive(Debug, Drop)]
pub struct SessionText {
    /// The number of the session's interface.
    pub interface: u32,
    pub text: Items<u8>,
}

/// The text of the part of the interface's session with the router, where it has one.
#[tactic(auto, using(crate::proofs::SessionTexts::some_text, crate::proofs::SessionTexts::no_text))]
fn session_text_at(
    alloc: Global,
    registry: &Registry,
    router: &Router,
    addresses: &MemberAddresses,
    interface: &Interface,
) -> Result<Option<SessionText>, AllocError>
    requires bound { router.now.high < 2 ^ 8 }
    requires addresses { AreInVlan registry.now router.now addresses.now }
    ensures { IfOk result (λ o. o ≡ session_text_at registry.now router.now interface.now) }
{
    let mut text = Vec::new(alloc);
    if !put_session(alloc, &mut text, registry, router, addresses, interface)? {
        return Ok(None);
    }
    Ok(Some(SessionText {
        interface: interface.number,
        text: Items::from_vec(text),
    }))
}

/// The texts of the parts of the router's sessions, in the order of their interfaces' numbers. The router's
/// greatest length of a net is that of an address at most, as in each valid registry.
pub fn texts_by_session(
    alloc: Global,
    registry: &Registry,
    router: &Router,
) -> Result<Vec<SessionText>, AllocError>
    requires { router.now.high < 2 ^ 8 }
    ensures { IfOk result (λ v. v.items ≡ texts_by_session registry.now router.now) }
{
    let mut made = Vec::new(alloc);
    let mut left = registry.interfaces.as_slice();
    let addresses = MemberAddresses::in_vlan(alloc, left, router.family, router.vlan)?;
    'each: while let Some((interface, others)) = left.split_first() {
        if let Some(one) = session_text_at(alloc, registry, router, &addresses, interface)? {
            made.push(one)?;
        }
        left = others;
    }
    Ok(made)
}

/// So many sessions at most have their members' addresses looked up one by one.
const FEW: usize = 8;

/// All members' addresses in the router's VLAN, where so many sessions need them that one pass over the
/// interfaces is cheaper.
fn gathered_for(
    alloc: Global,
    registry: &Registry,
    router: &Router,
    sessions: usize,
) -> Result<Option<MemberAddresses>, AllocError>
    ensures { IfOk result (λ o. IfSome o (AreInVlan registry.now router.now)) }
{
    if sessions <= FEW {
        return Ok(None);
    }
    let rows = registry.interfaces.as_slice();
    let addresses = MemberAddresses::in_vlan(alloc, rows, router.family, router.vlan)?;
    Ok(Some(addresses))
}

fn inputs_among(
    alloc: Global,
    registry: &Registry,
    router: &Router,
    gathered: &Option<MemberAddresses>,
    interfaces: &[u32],
) -> Result<Vec<(u32, Option<Inputs>)>, AllocError>
    requires { IfSome gathered.now (AreInVlan registry.now router.now) }
    ensures { IfOk result
        (λ v. v.items ≡ map (λ n. (
          n,
          option_map (inputs registry.now router.now)
              (session registry.now router.now n),
        )) interfaces.now) }
{
    let mut found = Vec::new(alloc);
    let mut left = interfaces;
    'each: while let Some((number, others)) = left.split_first() {
        let inputs = session_inputs(alloc, registry, router, gathered, *number)?;
        found.push((*number, inputs))?;
        left = others;
    }
    Ok(found)
}

/// What the parts of these sessions of the router depend on, each with the number of its interface, in the
/// order in which these are named; None where there is no such session.
pub fn inputs_of_each(
    alloc: Global,
    registry: &Registry,
    router: &Router,
    interfaces: &[u32],
) -> Result<Vec<(u32, Option<Inputs>)>, AllocError>
    ensures { IfOk result
        (λ v. v.items ≡ map (λ n. (
          n,
          option_map (inputs registry.now router.now)
              (session registry.now router.now n),
        )) interfaces.now) }
{
    let gathered = gathered_for(alloc, registry, router, interfaces.len())?;
    inputs_among(alloc, registry, router, &gathered, interfaces)
}
