//! Routers in bodies.
ghost use Rattle.std.specs.Prelude.{◌≡◌, IfOk, true};
ghost use Rattle.serde_json.specs.View.{view};
ghost use Rattle.ixp_api_bodies.specs.Answers.{Gives};
ghost use Rattle.ixp_api_bodies.specs.Lawful.{is_lawful};
ghost use Rattle.ixp_api_bodies.specs.Edits as spec;

use crate::edits::Reads;
use crate::texts::{address_in, address_or_nothing, identifier_in};
use crate::values::{family_in, flag, must, number, number_or_zero, text};
use ixp_api_json::{CallFault, Field, Pointer};
use ixp_api_paths::Args;
use ixp_machine_edits::{Edit, RouterSettings};
use ixp_num::{Addr, Asn, Name};
use serde_json::Value;
use std::alloc::Global;

// The settings with this identifier and this blackhole address, where they are said.
fn settings_with(
    id: Option<u32>,
    blackhole: Option<Option<Addr>>,
    body: &Value,
) -> Result<RouterSettings, CallFault>
    ensures { result ≡ spec.settings id blackhole (view body.now) }
{
    let asn = number(body, Field::Asn)?;
    let id = must(Pointer::At(Field::Id), id)?;
    let low = number(body, Field::Low)?;
    let high = number(body, Field::High)?;
    let rpki = flag(body, Field::Rpki)?;
    let blackhole = must(Pointer::At(Field::Blackhole), blackhole)?;
    let max_comms = must(
        Pointer::At(Field::MaxComms),
        number_or_zero(body, Field::MaxComms),
    )?;
    Ok(RouterSettings {
        asn: Asn(asn),
        id,
        low,
        high,
        rpki,
        blackhole,
        max_comms,
    })
}

fn settings_of(body: &Value) -> Result<RouterSettings, CallFault>
    ensures { spec.Settings (view body.now) result }
{
    let id = identifier_in(body, Field::Id);
    let blackhole = address_or_nothing(body, Field::Blackhole);
    settings_with(id, blackhole, body)
}

// The router with this address and these settings, where they are said.
fn added_router(
    alloc: Global,
    address: Option<Addr>,
    settings: Result<RouterSettings, CallFault>,
    body: &Value,
) -> Result<Edit, CallFault>
    ensures says { Gives (λ r. r ≡ spec.add_router address settings (view body.now)) result }
    ensures lawful { IfOk result (λ e. is_lawful e ≡ true) }
{
    let handle = text(alloc, body, Field::Handle)?;
    let vlan = number(body, Field::Vlan)?;
    let family = must(Pointer::At(Field::Family), family_in(body, Field::Family))?;
    let address = must(Pointer::At(Field::Address), address)?;
    let settings = settings?;
    Ok(Edit::AddRouter {
        handle,
        vlan,
        family,
        address,
        settings,
    })
}

pub(crate) struct AddRouter {}

impl Reads for AddRouter {
    ghost says = { λ args d r. spec.AddRouter d r };

    fn read(alloc: Global, _args: &Args, body: &Value) -> Result<Edit, CallFault> {
        let address = address_in(body, Field::Address);
        let settings = settings_of(body);
        added_router(alloc, address, settings, body)
    }
}

/// A copy of the handle in the path.
pub fn router_of(alloc: Global, args: &Args) -> Result<Name, CallFault>
    ensures { Gives (λ r. r ≡ spec.handle_in args.now.router) result }
{
    match &args.router {
        Some(handle) => match handle.copied(alloc) {
            Ok(handle) => Ok(handle),
            Err(_) => Err(CallFault::NoMemory),
        },
        None => Err(CallFault::NoPath),
    }
}

// The edit that gives the router in the path these settings, where they are said.
fn set_settings(
    alloc: Global,
    args: &Args,
    settings: Result<RouterSettings, CallFault>,
) -> Result<Edit, CallFault>
    ensures says { Gives (λ r. r ≡ spec.set_router args.now settings) result }
    ensures lawful { IfOk result (λ e. is_lawful e ≡ true) }
{
    let handle = router_of(alloc, args)?;
    let settings = settings?;
    Ok(Edit::SetRouter { handle, settings })
}

pub(crate) struct SetRouter {}

impl Reads for SetRouter {
    ghost says = { λ args d r. spec.SetRouter args d r };

    fn read(alloc: Global, args: &Args, body: &Value) -> Result<Edit, CallFault> {
        let settings = settings_of(body);
        set_settings(alloc, args, settings)
    }
}

/// The router in the path is to go.
pub(crate) fn drop_router(alloc: Global, args: &Args) -> Result<Edit, CallFault>
    ensures says { Gives (λ r. r ≡ spec.drop_router args.now) result }
    ensures lawful { IfOk result (λ e. is_lawful e ≡ true) }
{
    let handle = router_of(alloc, args)?;
    Ok(Edit::DropRouter { handle })
}
