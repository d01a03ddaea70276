//! Requests that are made.
ghost use Rattle.ixp_machine_steps.specs.States.{ValidState};

use crate::changes::Change;
use crate::details::put_decision;
use crate::samples::entry_of;
use ixp_machine::{Decision, decide, prepare, request};
use ixp_machine_steps::State;
use ixp_num_tables::put;
use ixp_registry_change::RegistryChange;
use std::alloc::{AllocError, Global};

/// A secret, a request's number, and its edit.
pub type Sent = (&'static str, u64, Change);

/// Adds what becomes of the request.
pub fn put_request(state: &mut State, sent: Sent, out: &mut Vec<u8>) -> Result<(), AllocError>
    requires { ValidState state.old }
    ensures { ValidState state.new }
{
    let (secret, number, change) = sent;
    let alloc = *out.allocator();
    if state.accepted == u64::MAX {
        return put(out, b"full");
    }
    let Some(entry) = entry_of(alloc, secret, number, change) else {
        return put(out, b"no request");
    };
    let decision = request(alloc, state, entry)?;
    put_decision(&decision, out)
}

/// The change that the request comes to; none where it isn't accepted.
pub fn change_of(
    alloc: Global,
    state: &State,
    sent: Sent,
) -> Result<Option<RegistryChange>, AllocError>
    requires { ValidState state.now }
{
    let (secret, number, change) = sent;
    if state.accepted == u64::MAX {
        return Ok(None);
    }
    let Some(entry) = entry_of(alloc, secret, number, change) else {
        return Ok(None);
    };
    match decide(alloc, state, &entry)? {
        Decision::Accepted(owner) => Ok(Some(prepare(alloc, state, owner, entry)?.change)),
        Decision::Repeated(_) => Ok(None),
        Decision::Refused(_) => Ok(None),
    }
}
