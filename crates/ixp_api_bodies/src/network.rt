//! Switches, ports, VLANs and interfaces in bodies.
ghost use Rattle.std.specs.Prelude.{◌≡◌, IfOk, true};
ghost use Rattle.serde_json.specs.View.{view};
ghost use Rattle.ixp_api_bodies.specs.Answers.{Gives};
ghost use Rattle.ixp_api_bodies.specs.Lawful.{is_lawful};
ghost use Rattle.ixp_api_bodies.specs.Edits as spec;

use crate::edits::Reads;
use crate::texts::{address_in, prefix_or_null};
use crate::values::{flag, must, number, text};
use ixp_api_json::{CallFault, Field, Pointer};
use ixp_api_paths::Args;
use ixp_machine_edits::Edit;
use ixp_num::{Addr, Prefix};
use ixp_registry::IfAddr;
use serde_json::Value;
use std::alloc::Global;

pub(crate) struct AddSwitch {}

impl Reads for AddSwitch {
    ghost says = { λ args d r. r ≡ spec.add_switch d };

    fn read(alloc: Global, _args: &Args, body: &Value) -> Result<Edit, CallFault> {
        let switch = number(body, Field::Number)?;
        let name = text(alloc, body, Field::Name)?;
        Ok(Edit::AddSwitch {
            number: switch,
            name,
        })
    }
}

pub(crate) struct AddPort {}

impl Reads for AddPort {
    ghost says = { λ args d r. r ≡ spec.add_port d };

    fn read(alloc: Global, _args: &Args, body: &Value) -> Result<Edit, CallFault> {
        let port = number(body, Field::Number)?;
        let switch = number(body, Field::Switch)?;
        let name = text(alloc, body, Field::Name)?;
        let speed = number(body, Field::Speed)?;
        Ok(Edit::AddPort {
            number: port,
            switch,
            name,
            speed,
        })
    }
}

pub(crate) struct AssignPort {}

impl Reads for AssignPort {
    ghost says = { λ args d r. r ≡ spec.assign_port args d };

    fn read(_alloc: Global, args: &Args, body: &Value) -> Result<Edit, CallFault> {
        let member = number(body, Field::Member)?;
        Ok(Edit::AssignPort {
            port: args.row,
            member,
        })
    }
}

// The VLAN with these prefixes, where they are said.
fn added_vlan(
    alloc: Global,
    v4: Option<Option<Prefix>>,
    v6: Option<Option<Prefix>>,
    body: &Value,
) -> Result<Edit, CallFault>
    ensures says { Gives (λ r. r ≡ spec.add_vlan v4 v6 (view body.now)) result }
    ensures lawful { IfOk result (λ e. is_lawful e ≡ true) }
{
    let vlan = number(body, Field::Number)?;
    let name = text(alloc, body, Field::Name)?;
    let tag = number(body, Field::Tag)?;
    let v4 = must(Pointer::At(Field::V4), v4)?;
    let v6 = must(Pointer::At(Field::V6), v6)?;
    Ok(Edit::AddVlan {
        number: vlan,
        name,
        tag,
        v4,
        v6,
    })
}

pub(crate) struct AddVlan {}

impl Reads for AddVlan {
    ghost says = { λ args d r. spec.AddVlan d r };

    fn read(alloc: Global, _args: &Args, body: &Value) -> Result<Edit, CallFault> {
        let v4 = prefix_or_null(body, Field::V4);
        let v6 = prefix_or_null(body, Field::V6);
        added_vlan(alloc, v4, v6, body)
    }
}

pub(crate) struct AddInterface {}

impl Reads for AddInterface {
    ghost says = { λ args d r. r ≡ spec.add_interface d };

    fn read(_alloc: Global, _args: &Args, body: &Value) -> Result<Edit, CallFault> {
        let interface = number(body, Field::Number)?;
        let member = number(body, Field::Member)?;
        let port = number(body, Field::Port)?;
        let vlan = number(body, Field::Vlan)?;
        Ok(Edit::AddInterface {
            number: interface,
            member,
            port,
            vlan,
        })
    }
}

// The edit that gives an interface this address, where it is said.
fn given_address(
    alloc: Global,
    args: &Args,
    address: Option<Addr>,
    body: &Value,
) -> Result<Edit, CallFault>
    ensures says { Gives (λ r. r ≡ spec.set_address args.now address (view body.now)) result }
    ensures lawful { IfOk result (λ e. is_lawful e ≡ true) }
{
    let addr = must(Pointer::At(Field::Address), address)?;
    let secret = text(alloc, body, Field::Secret)?;
    let max_prefix = number(body, Field::MaxPrefix)?;
    let rs = flag(body, Field::Rs)?;
    let irr = flag(body, Field::Irr)?;
    let more = flag(body, Field::More)?;
    let address = IfAddr {
        addr,
        max_prefix,
        rs,
        irr,
        more,
        secret,
    };
    Ok(Edit::SetAddress {
        interface: args.row,
        family: args.family,
        address,
    })
}

pub(crate) struct SetAddress {}

impl Reads for SetAddress {
    ghost says = { λ args d r. spec.SetAddress args d r };

    fn read(alloc: Global, args: &Args, body: &Value) -> Result<Edit, CallFault> {
        let address = address_in(body, Field::Address);
        given_address(alloc, args, address, body)
    }
}
