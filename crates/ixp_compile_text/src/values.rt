//! What the parts of a router's text depend on, taken from the rows of a registry.
ghost use Rattle.std.specs.Prelude.{◌≡◌, IfOk, IfSome, option_map};
ghost use Rattle.ixp_registry.specs.Sessions.{ascending, member_addresses, session};
ghost use Rattle.ixp_compile_text.specs.Addresses.{AreInVlan, own_addresses};
ghost use Rattle.ixp_policy.specs.Import.{is_listed};
ghost use Rattle.ixp_compile.specs.Generated.{header_inputs, inputs};
ghost use Rattle.ixp_compile_text.specs.Answers.{header_inputs_at, inputs_at};
ghost use Rattle.ixp_policy.specs.Views.{session_of};

use crate::addresses::{MemberAddresses, addresses_of_member};
use ixp_compile::{HeaderInputs, Inputs};
use ixp_compile_sessions::InputsRef;
use ixp_num::{Addr, Asn, Items, Name};
use ixp_num_tables::Copied;
use ixp_policy::{SessionRows, session};
use ixp_registry::{Registry, Router};
use std::alloc::{AllocError, Global};

fn is_listed(asns: &[Asn], number: u32) -> bool
    ensures { result ≡ is_listed asns.now number }
{
    asns.iter().any(|a| a.0 == number)
}

/// What the session's part depends on, where it stands. The addresses are the member's.
pub(crate) fn inputs_in_rows<'a>(
    registry: &Registry,
    router: &Router,
    session: &SessionRows<'a>,
    addresses: &'a [Addr],
) -> InputsRef<'a>
    requires { addresses.now ≡ member_addresses registry.now router.now (session_of session.now) }
    ensures { result ≡ inputs registry.now router.now (session_of session.now) }
{
    let transit = registry.public.transit.as_slice();
    InputsRef {
        rs: router.asn,
        family: router.family,
        high: router.high,
        rpki: router.rpki,
        blackhole: router.blackhole,
        local: router.addr,
        interface: session.interface.number,
        address: session.address,
        asn: session.member.asn,
        addresses,
        transit_free: is_listed(transit, session.member.asn.0),
        prefixes: session.prefixes,
        origins: session.origins,
        rules: session.rules,
    }
}

/// A member's addresses of the router's family in its VLAN, in order: looked up among all members' where
/// these were gathered, and else by a pass over the interfaces.
fn addresses_for(
    alloc: Global,
    registry: &Registry,
    router: &Router,
    gathered: &Option<MemberAddresses>,
    member: u32,
) -> Result<Items<Addr>, AllocError>
    requires { IfSome gathered.now (AreInVlan registry.now router.now) }
    ensures { IfOk result
        (λ it. it ≡ ascending
        (own_addresses router.now.family router.now.vlan member registry.now.interfaces)) }
{
    match gathered {
        Some(addresses) => addresses.of(alloc, member),
        None => {
            let interfaces = registry.interfaces.as_slice();
            addresses_of_member(alloc, interfaces, router.family, router.vlan, member)
        }
    }
}

/// What the part of the router's session at the interface depends on; None where there is no such session.
/// For many sessions the members' addresses in the router's VLAN are gathered before.
pub(crate) fn session_inputs(
    alloc: Global,
    registry: &Registry,
    router: &Router,
    gathered: &Option<MemberAddresses>,
    interface: u32,
) -> Result<Option<Inputs>, AllocError>
    requires { IfSome gathered.now (AreInVlan registry.now router.now) }
    ensures { IfOk result
        (λ o. o ≡ option_map (inputs registry.now router.now) (session registry.now router.now interface)) }
{
    let Some(session) = session(registry, router, interface) else {
        return Ok(None);
    };
    let own = addresses_for(alloc, registry, router, gathered, session.interface.member)?;
    let i = inputs_in_rows(registry, router, &session, own.as_slice());
    Ok(Some(i.owned(alloc)?))
}

/// What the head of the router's text depends on.
pub fn header_inputs_of(
    alloc: Global,
    registry: &Registry,
    router: &Router,
) -> Result<HeaderInputs, AllocError>
    ensures { IfOk result (λ h. h ≡ header_inputs registry.now router.now) }
{
    let public = &registry.public;
    Ok(HeaderInputs {
        router: router.copied(alloc)?,
        bogons: Items::from_slice(alloc, public.bogons.as_slice())?,
        bogon_as: Items::from_slice(alloc, public.bogon_as.as_slice())?,
        transit: Items::from_slice(alloc, public.transit.as_slice())?,
    })
}

/// What the head of the text of the router with the handle depends on; None where no router has it.
pub fn header_inputs(
    alloc: Global,
    registry: &Registry,
    router: &Name,
) -> Result<Option<HeaderInputs>, AllocError>
    ensures { IfOk result (λ h. h ≡ header_inputs_at registry.now router.now) }
{
    match registry.routers.find(router) {
        Some(router) => Ok(Some(header_inputs_of(alloc, registry, router)?)),
        None => Ok(None),
    }
}

/// What the part of the router's session at the interface depends on; None where there is no such router or
/// session.
pub fn inputs(
    alloc: Global,
    registry: &Registry,
    router: &Name,
    interface: u32,
) -> Result<Option<Inputs>, AllocError>
    ensures { IfOk result (λ i. i ≡ inputs_at registry.now router.now interface) }
{
    match registry.routers.find(router) {
        Some(router) => session_inputs(alloc, registry, router, &None, interface),
        None => Ok(None),
    }
}
