//! What a member is told.
ghost use Rattle.std.specs.Prelude.{◌≡◌, true, is_some, Some, Ok, IfOk};
ghost use Rattle.ixp_num_tables.specs.Tables.{find};
ghost use Rattle.ixp_registry.specs.Keys.{router_key};
ghost use Rattle.ixp_registry.specs.Sessions.{Session, session};
ghost use Rattle.ixp_registry.specs.Valid.{Valid};
ghost use Rattle.ixp_compile_laws.specs.Right.{Part};
ghost use Rattle.ixp_explain.specs.Texts.{own_text};
ghost use Rattle.ixp_explain_member.specs.Rows.{own_report_by_rows};
ghost use Rattle.ixp_explain_member.specs.Explanations as spec;

use crate::by_text::member_by_text;
use crate::explanation::Explanation;
use crate::sessions::{has_session, is_of_family, unexplained};
use ixp_compile_text::part;
use ixp_lang::Route;
use ixp_num::{Asn, Name};
use ixp_num_tables::Held;
use ixp_registry::{Handle, Kind, Refusal, Registry, Right, Router, RowKey};
use ixp_roa::RoaTable;
use std::alloc::{AllocError, Global};

/// Whether the interface is there, and is the member's.
fn is_own(registry: &Registry, member: u32, interface: u32) -> bool
    ensures { result ≡ spec.is_own registry.now member interface }
{
    match registry.interfaces.find(&interface) {
        Some(interface) => interface.member == member,
        None => false,
    }
}

/// The session's own text.
#[tactic(auto, using(ixp_compile_text::proofs::Bounds::high_fits))]
fn own_part(
    alloc: Global,
    registry: &Registry,
    handle: &Name,
    router: &Router,
    interface: u32,
) -> Result<Vec<u8>, AllocError>
    requires valid { Valid registry.now }
    requires there { find router_key handle.now registry.now.routers ≡ Some router.now }
    requires sender { is_some (session registry.now router.now interface) ≡ true }
    ensures { IfOk result
        (λ text. (s : Session) → session registry.now router.now interface ≡ Some s
        → text.items ≡ Part registry.now router.now s) }
{
    match part(alloc, registry, handle, interface) {
        Ok(text) => Ok(text),
        Err(_) => Err(AllocError),
    }
}

/// What the member is told of the router with the handle.
fn told_at(
    alloc: Global,
    registry: &Registry,
    roas: &Held<RoaTable>,
    handle: &Name,
    router: &Router,
    interface: u32,
    route: &Route,
    peers: &[Asn],
) -> Result<Explanation, AllocError>
    requires roas { roas.now ≡ registry.now.public.roas }
    requires valid { Valid registry.now }
    requires there { find router_key handle.now registry.now.routers ≡ Some router.now }
    ensures { IfOk result
        (λ e. e ≡ spec.told_by
        (λ s. own_text (own_report_by_rows registry.now router.now s route.now peers.now)) router.now
        route.now
        (session registry.now router.now interface)) }
{
    if !has_session(registry, router, interface) {
        return Ok(Explanation::NoSession);
    }
    if !is_of_family(router, route) {
        return Ok(Explanation::Refused(Refusal::Family {
            family: router.family,
        }));
    }
    let text = own_part(alloc, registry, handle, router, interface)?;
    match member_by_text(alloc, text.as_slice(), roas, interface, route, peers) {
        Ok(told) => Ok(told),
        Err(fault) => Err(unexplained(fault)),
    }
}

/// What becomes of a route that a member announces on its interface to the router with the handle, and the
/// member's wish for each peer. The table is that of the registry's ROAs, and may be made once for many
/// calls.
pub fn member_explanation(
    alloc: Global,
    registry: &Registry,
    roas: &Held<RoaTable>,
    member: u32,
    handle: &Name,
    interface: u32,
    route: &Route,
    peers: &[Asn],
) -> Result<Explanation, AllocError>
    requires roas { roas.now ≡ registry.now.public.roas }
    requires valid { Valid registry.now }
    ensures { IfOk result
        (λ e. e ≡ spec.member_explanation registry.now member handle.now interface route.now peers.now) }
{
    if !is_own(registry, member, interface) {
        return Ok(Explanation::Refused(Refusal::Denied {
            right: Right::Staff,
        }));
    }
    match registry.routers.find(handle) {
        Some(router) => told_at(
            alloc, registry, roas, handle, router, interface, route, peers,
        ),
        None => Ok(Explanation::Refused(Refusal::Unknown {
            table: Kind::Routers,
            key: RowKey::Handle(Handle::of(handle)),
        })),
    }
}
