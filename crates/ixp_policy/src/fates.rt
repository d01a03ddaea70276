//! The fate of a route.
ghost use Rattle.std.specs.Prelude.{◌≡◌, ◌&&◌, IfOk, None, option_map};
ghost use Rattle.ixp_num_tables.specs.Tables.{if_there};
ghost use Rattle.ixp_registry.specs.Sessions.{is_session};
ghost use Rattle.ixp_policy.specs.Export.{received, wish};
ghost use Rattle.ixp_policy.specs.Fates.{ask, fate, fate_of, is_other, number, sent_at, sent_to_others};
ghost use Rattle.ixp_policy.specs.Tags.{tagged};
ghost use Rattle.ixp_policy.specs.Views.{session_of};

use crate::export::{received, wish};
use crate::findings::tagged;
use crate::session_rows::{SessionRows, session, session_at};
use crate::table::{refusal, refusal_number};
use ixp_lang::{Fate, Route, numbered};
use ixp_num::{Asn, Items, Name};
use ixp_registry::{Interface, Registry, Router, is_session};
use std::alloc::{AllocError, Global};

fn received_at(
    alloc: Global,
    router: &Router,
    sender: &SessionRows<'_>,
    route: &Route,
    receiver: Option<SessionRows<'_>>,
) -> Result<Option<Route>, AllocError>
    ensures { IfOk result
        (λ x. x ≡ if_there (option_map session_of receiver.entry) None
        (received router.now (session_of sender.now) route.now)) }
{
    match receiver {
        Some(receiver) => received(alloc, router, sender, route, &receiver),
        None => Ok(None),
    }
}

fn sent_to(
    alloc: Global,
    registry: &Registry,
    router: &Router,
    sender: &SessionRows<'_>,
    route: &Route,
    interface: &Interface,
) -> Result<(Name, Option<Route>), AllocError>
    ensures { IfOk result
        (λ x. x ≡ sent_at registry.now router.now (session_of sender.now) route.now interface.now) }
{
    let name = numbered(alloc, b"b_", interface.number)?;
    let receiver = session_at(registry, router, interface);
    let got = received_at(alloc, router, sender, route, receiver)?;
    Ok((name, got))
}

/// Whether the interface has another session with the router.
fn is_other(
    registry: &Registry,
    router: &Router,
    sender: &SessionRows<'_>,
    interface: &Interface,
) -> bool
    ensures { result ≡ (is_session registry.now router.now interface.now && is_other
        (session_of sender.now) interface.now) }
{
    is_session(registry, router, interface) && interface.number != sender.interface.number
}

fn sent_to_others(
    alloc: Global,
    registry: &Registry,
    router: &Router,
    sender: &SessionRows<'_>,
    route: &Route,
) -> Result<Items<(Name, Option<Route>)>, AllocError>
    ensures { IfOk result
        (λ xs. xs ≡ sent_to_others registry.now router.now (session_of sender.now) route.now) }
{
    let mut sent = Items::new(alloc);
    let mut left = registry.interfaces.as_slice();
    'interfaces: while let Some((interface, rest)) = left.split_first() {
        if is_other(registry, router, sender, interface) {
            sent.push(sent_to(alloc, registry, router, sender, route, interface)?)?;
        }
        left = rest;
    }
    Ok(sent)
}

fn fate_of(
    alloc: Global,
    registry: &Registry,
    router: &Router,
    route: &Route,
    sender: &SessionRows<'_>,
) -> Result<Fate, AllocError>
    ensures { IfOk result (λ f. f ≡ fate_of registry.now router.now route.now (session_of sender.now)) }
{
    let own = tagged(alloc, registry, router, sender, route)?;
    let passed = refusal(registry, router, sender, route).is_none();
    let sent = if passed {
        sent_to_others(alloc, registry, router, sender, &own)?
    } else {
        Items::new(alloc)
    };
    Ok(Fate {
        table: Some(own),
        passed,
        sent,
    })
}

/// What becomes of a route that the router's session at the interface with the number brings; None where
/// there is no such session. Sessions are named `b_` and their interface's number.
pub fn fate_plain(
    alloc: Global,
    registry: &Registry,
    router: &Name,
    interface: u32,
    route: &Route,
) -> Result<Option<Fate>, AllocError>
    ensures { IfOk result (λ f. f ≡ fate registry.now router.now interface route.now) }
{
    let Some(router) = registry.routers.find(router) else {
        return Ok(None);
    };
    match session(registry, router, interface) {
        Some(sender) => Ok(Some(fate_of(alloc, registry, router, route, &sender)?)),
        None => Ok(None),
    }
}

/// The number with which the route is refused there, if it is; None where there is no such session. It does
/// not allocate.
pub fn number_plain(
    registry: &Registry,
    router: &Name,
    interface: u32,
    route: &Route,
) -> Option<Option<u32>>
    ensures { result ≡ number registry.now router.now interface route.now }
{
    let router = registry.routers.find(router)?;
    let sender = session(registry, router, interface)?;
    Some(refusal_number(refusal(registry, router, &sender, route)))
}

fn ask_of(
    alloc: Global,
    registry: &Registry,
    router: &Router,
    route: &Route,
    to: Asn,
    sender: &SessionRows<'_>,
) -> Result<Option<u8>, AllocError>
    ensures { IfOk result
        (λ w. w ≡ wish router.now (session_of sender.now)
        (tagged registry.now router.now (session_of sender.now) route.now) to.0) }
{
    let own = tagged(alloc, registry, router, sender, route)?;
    Ok(wish(router, sender, &own, to))
}

/// How often the sender's number is put in front of the route for a receiver with the number `to`, None
/// inside where it isn't to be sent; None where there is no such session.
pub fn ask_plain(
    alloc: Global,
    registry: &Registry,
    router: &Name,
    interface: u32,
    route: &Route,
    to: Asn,
) -> Result<Option<Option<u8>>, AllocError>
    ensures { IfOk result (λ w. w ≡ ask registry.now router.now interface route.now to.0) }
{
    let Some(router) = registry.routers.find(router) else {
        return Ok(None);
    };
    match session(registry, router, interface) {
        Some(sender) => Ok(Some(ask_of(alloc, registry, router, route, to, &sender)?)),
        None => Ok(None),
    }
}
