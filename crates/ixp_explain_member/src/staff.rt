//! What the staff is told.
ghost use Rattle.std.specs.Prelude.{◌≡◌, Some, Ok, IfOk};
ghost use Rattle.ixp_num_tables.specs.Tables.{find};
ghost use Rattle.ixp_registry.specs.Keys.{router_key};
ghost use Rattle.ixp_registry.specs.Sessions.{session};
ghost use Rattle.ixp_registry.specs.Valid.{Valid};
ghost use Rattle.ixp_lang.specs.Texts.{fate_text};
ghost use Rattle.ixp_policy.specs.Fates.{fate_of};
ghost use Rattle.ixp_compile_laws.specs.Right.{Gen};
ghost use Rattle.ixp_explain_member.specs.Explanations as spec;

use crate::by_text::staff_by_text;
use crate::explanation::Explanation;
use crate::sessions::{has_session, is_of_family, unexplained};
use ixp_compile_laws::text_of;
use ixp_lang::Route;
use ixp_num::Name;
use ixp_num_tables::Held;
use ixp_registry::{Refusal, Registry, Router};
use ixp_roa::RoaTable;
use std::alloc::{AllocError, Global};

/// The router's text.
fn text_there(
    alloc: Global,
    registry: &Registry,
    handle: &Name,
    router: &Router,
) -> Result<Vec<u8>, AllocError>
    requires valid { Valid registry.now }
    requires there { find router_key handle.now registry.now.routers ≡ Some router.now }
    ensures { IfOk result (λ text. text.items ≡ Gen registry.now router.now) }
{
    match text_of(alloc, registry, handle) {
        Ok(Some(text)) => Ok(text),
        Ok(None) => unreachable!(),
        Err(_) => Err(AllocError),
    }
}

/// What the staff is told of the router with the handle.
fn told_at(
    alloc: Global,
    registry: &Registry,
    roas: &Held<RoaTable>,
    handle: &Name,
    router: &Router,
    interface: u32,
    route: &Route,
) -> Result<Explanation, AllocError>
    requires roas { roas.now ≡ registry.now.public.roas }
    requires valid { Valid registry.now }
    requires there { find router_key handle.now registry.now.routers ≡ Some router.now }
    ensures { IfOk result
        (λ e. e ≡ spec.told_by
        (λ s. fate_text (fate_of registry.now router.now route.now s)
        (Some router.now.asn)) router.now route.now
        (session registry.now router.now interface)) }
{
    if !has_session(registry, router, interface) {
        return Ok(Explanation::NoSession);
    }
    if !is_of_family(router, route) {
        return Ok(Explanation::Refused(Refusal::Family {
            family: router.family,
        }));
    }
    let text = text_there(alloc, registry, handle, router)?;
    match staff_by_text(alloc, text.as_slice(), roas, interface, route) {
        Ok(told) => Ok(told),
        Err(fault) => Err(unexplained(fault)),
    }
}

/// What becomes of a route that the interface's session brings to the router with the handle. The table is
/// that of the registry's ROAs, and may be made once for many calls.
pub fn staff_explanation(
    alloc: Global,
    registry: &Registry,
    roas: &Held<RoaTable>,
    handle: &Name,
    interface: u32,
    route: &Route,
) -> Result<Explanation, AllocError>
    requires roas { roas.now ≡ registry.now.public.roas }
    requires valid { Valid registry.now }
    ensures { IfOk result (λ e. e ≡ spec.staff_explanation registry.now handle.now interface route.now) }
{
    match registry.routers.find(handle) {
        Some(router) => told_at(alloc, registry, roas, handle, router, interface, route),
        None => Ok(Explanation::NoRouter),
    }
}
