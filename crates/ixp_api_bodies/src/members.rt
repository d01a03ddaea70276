//! Members, their contacts, and API keys in bodies.
ghost use Rattle.std.specs.Prelude.{◌≡◌};
ghost use Rattle.ixp_api_bodies.specs.Edits as spec;

use crate::edits::Reads;
use crate::values::{must, number, owner_kind_in, status_in, text};
use ixp_api_json::{CallFault, Field, OwnerKind, Pointer};
use ixp_api_paths::Args;
use ixp_machine_edits::Edit;
use ixp_num::Asn;
use ixp_registry::Owner;
use serde_json::Value;
use std::alloc::Global;

pub(crate) struct AddMember {}

impl Reads for AddMember {
    ghost says = { λ args d r. r ≡ spec.add_member d };

    fn read(alloc: Global, _args: &Args, body: &Value) -> Result<Edit, CallFault> {
        let member = number(body, Field::Number)?;
        let asn = number(body, Field::Asn)?;
        let name = text(alloc, body, Field::Name)?;
        Ok(Edit::AddMember {
            number: member,
            asn: Asn(asn),
            name,
        })
    }
}

pub(crate) struct RenameMember {}

impl Reads for RenameMember {
    ghost says = { λ args d r. r ≡ spec.rename_member args d };

    fn read(alloc: Global, args: &Args, body: &Value) -> Result<Edit, CallFault> {
        let name = text(alloc, body, Field::Name)?;
        Ok(Edit::RenameMember {
            member: args.row,
            name,
        })
    }
}

pub(crate) struct MoveStatus {}

impl Reads for MoveStatus {
    ghost says = { λ args d r. r ≡ spec.move_status args d };

    fn read(_alloc: Global, args: &Args, body: &Value) -> Result<Edit, CallFault> {
        let to = must(Pointer::At(Field::To), status_in(body, Field::To))?;
        Ok(Edit::MoveStatus {
            member: args.row,
            to,
        })
    }
}

pub(crate) struct SetMacro {}

impl Reads for SetMacro {
    ghost says = { λ args d r. r ≡ spec.set_macro args d };

    fn read(alloc: Global, args: &Args, body: &Value) -> Result<Edit, CallFault> {
        let as_macro = text(alloc, body, Field::Macro)?;
        Ok(Edit::SetMacro {
            member: args.row,
            as_macro,
        })
    }
}

pub(crate) struct PutContact {}

impl Reads for PutContact {
    ghost says = { λ args d r. r ≡ spec.put_contact args d };

    fn read(alloc: Global, args: &Args, body: &Value) -> Result<Edit, CallFault> {
        let name = text(alloc, body, Field::Name)?;
        let mail = text(alloc, body, Field::Mail)?;
        let role = text(alloc, body, Field::Role)?;
        Ok(Edit::PutContact {
            member: args.row,
            place: args.place,
            name,
            mail,
            role,
        })
    }
}

fn owner_of(kind: OwnerKind, number: u32) -> Owner
    ensures { result ≡ spec.owner_of kind number }
{
    match kind {
        OwnerKind::Staff => Owner::Staff(number),
        OwnerKind::Member => Owner::Member(number),
    }
}

pub(crate) struct AddKey {}

impl Reads for AddKey {
    ghost says = { λ args d r. r ≡ spec.add_key d };

    fn read(alloc: Global, _args: &Args, body: &Value) -> Result<Edit, CallFault> {
        let key = number(body, Field::Number)?;
        let secret = text(alloc, body, Field::Secret)?;
        let kind = must(Pointer::At(Field::Kind), owner_kind_in(body, Field::Kind))?;
        let owner = number(body, Field::Owner)?;
        Ok(Edit::AddKey {
            number: key,
            secret,
            owner: owner_of(kind, owner),
        })
    }
}
