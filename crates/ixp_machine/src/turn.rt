//! A request to a valid state.
ghost use Rattle.std.specs.Prelude.{◌≡◌, ◌<◌, ◌-◌, ◌^◌, IfOk, OnOk, OnErr};
ghost use Rattle.ixp_machine.specs.Decisions.{IsFor, Says};
ghost use Rattle.ixp_members.specs.Owners.{owner_of};
ghost use Rattle.ixp_machine_steps.specs.States.{ValidState};
ghost use Rattle.ixp_machine_steps.specs.Steps.{step, verdict};

use crate::applying::apply_for;
use crate::lawful::read_edit;
use crate::{Decision, decide};
use ixp_machine_steps::{Entry, State};
use std::alloc::{AllocError, Global};

/// Decides a request, and makes its edit where it is accepted. Where memory runs out, the state is as before.
pub fn request(alloc: Global, state: &mut State, entry: Entry) -> Result<Decision, AllocError>
    requires valid { ValidState state.old }
    requires room { state.old.accepted < 2 ^ 64 - 1 }
    ensures decision { IfOk result (Says entry.number (verdict state.old entry)) }
    ensures owner { IfOk result (IsFor (owner_of state.old.registry entry.secret)) }
    ensures step { OnOk result (state.new ≡ step state.old entry) }
    ensures err { OnErr result (state.new ≡ state.old) }
    ensures valid { ValidState state.new }
{
    match decide(alloc, state, &entry)? {
        Decision::Accepted(owner) => {
            read_edit(&entry.edit);
            let _reply = apply_for(alloc, state, owner, entry)?;
            Ok(Decision::Accepted(owner))
        }
        other => Ok(other),
    }
}
