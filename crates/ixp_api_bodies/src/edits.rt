//! The edit that a body says.
ghost use Rattle.std.specs.Prelude.{◌≡◌, Result, IfOk, true};
ghost use Rattle.serde_json.specs.Data.{Data};
ghost use Rattle.serde_json.specs.View.{view};
ghost use Rattle.ixp_machine_edits.specs.declared.edit.Edit.{Edit};
ghost use Rattle.ixp_api_json.specs.declared.pointer.CallFault.{CallFault};
ghost use Rattle.ixp_api_paths.specs.declared.table.Args.{Args};
ghost use Rattle.ixp_api_bodies.specs.Answers.{Gives};
ghost use Rattle.ixp_api_bodies.specs.Bodies.{Object, SaysEdit};
ghost use Rattle.ixp_api_bodies.specs.Lawful.{is_lawful};

use crate::json::object_of;
use crate::lists::{put_irr, put_origins, put_public};
use crate::members::{AddKey, AddMember, MoveStatus, PutContact, RenameMember, SetMacro};
use crate::network::{AddInterface, AddPort, AddSwitch, AddVlan, AssignPort, SetAddress};
use crate::routers::{AddRouter, SetRouter, drop_router};
use crate::rules::set_rules;
use ixp_api_json::CallFault;
use ixp_api_paths::Args;
use ixp_machine_edits::Edit;
use ixp_registry::EditKind;
use serde_json::Value;
use std::alloc::Global;

/// A kind of edits whose body is an object.
pub(crate) trait Reads {
    /// What such a body says.
    ghost says: { Args → Data → Result Edit CallFault → Type 0 };

    /// The edit that the body says.
    fn read(alloc: Global, args: &Args, body: &Value) -> Result<Edit, CallFault>
        ensures says { Gives (says args.now (view body.now)) result }
        ensures lawful { IfOk result (λ e. is_lawful e ≡ true) };
}

fn of_object<R: Reads>(alloc: Global, args: &Args, body: &[u8]) -> Result<Edit, CallFault>
    ensures says { Gives (Object body.now (R.says args.now)) result }
    ensures lawful { IfOk result (λ e. is_lawful e ≡ true) }
{
    let body = object_of(alloc, body)?;
    R::read(alloc, args, &body)
}

/// The edit of this kind that the body says, with what stands in the path.
pub fn edit_of(alloc: Global, kind: EditKind, args: &Args, body: &[u8]) -> Result<Edit, CallFault>
    ensures says { Gives (SaysEdit kind args.now body.now) result }
    ensures lawful { IfOk result (λ e. is_lawful e ≡ true) }
{
    match kind {
        EditKind::AddMember => of_object::<AddMember>(alloc, args, body),
        EditKind::RenameMember => of_object::<RenameMember>(alloc, args, body),
        EditKind::MoveStatus => of_object::<MoveStatus>(alloc, args, body),
        EditKind::SetMacro => of_object::<SetMacro>(alloc, args, body),
        EditKind::PutContact => of_object::<PutContact>(alloc, args, body),
        EditKind::DropContact => Ok(Edit::DropContact {
            member: args.row,
            place: args.place,
        }),
        EditKind::AddKey => of_object::<AddKey>(alloc, args, body),
        EditKind::DropKey => Ok(Edit::DropKey { key: args.row }),
        EditKind::AddSwitch => of_object::<AddSwitch>(alloc, args, body),
        EditKind::DropSwitch => Ok(Edit::DropSwitch { switch: args.row }),
        EditKind::AddPort => of_object::<AddPort>(alloc, args, body),
        EditKind::AssignPort => of_object::<AssignPort>(alloc, args, body),
        EditKind::FreePort => Ok(Edit::FreePort { port: args.row }),
        EditKind::DropPort => Ok(Edit::DropPort { port: args.row }),
        EditKind::AddVlan => of_object::<AddVlan>(alloc, args, body),
        EditKind::DropVlan => Ok(Edit::DropVlan { vlan: args.row }),
        EditKind::AddInterface => of_object::<AddInterface>(alloc, args, body),
        EditKind::SetAddress => of_object::<SetAddress>(alloc, args, body),
        EditKind::DropInterface => Ok(Edit::DropInterface {
            interface: args.row,
        }),
        EditKind::AddRouter => of_object::<AddRouter>(alloc, args, body),
        EditKind::SetRouter => of_object::<SetRouter>(alloc, args, body),
        EditKind::DropRouter => drop_router(alloc, args),
        EditKind::PutIrr => put_irr(alloc, args, body),
        EditKind::PutOrigins => put_origins(alloc, args, body),
        EditKind::SetRules => set_rules(alloc, args, body),
        EditKind::PutPublic => put_public(alloc, args, body),
    }
}
