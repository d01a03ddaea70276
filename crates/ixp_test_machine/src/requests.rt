//! Numbers that were used.
ghost use Rattle.ixp_machine_steps.specs.States.{ValidState};

use crate::changes::Change;
use crate::samples::{LINES, Plays, STAFF, is_wanted, told};
use crate::sending::put_request;
use ixp_machine::place_of;
use ixp_machine_steps::State;
use ixp_num_tables::{put, put_number};
use ixp_registry::Owner;
use std::alloc::AllocError;

/// Two edits, one after the other, after which a registry is as before.
fn change_at(turn: u64) -> Change {
    match turn % 2 {
        0 => Change::RenameMember(1, "Z"),
        _ => Change::RenameMember(1, "A"),
    }
}

/// Sends so many requests of the staff, numbered from 1, then the first one again, and asks after which place
/// some of them stand.
#[derive(Clone, Copy)]
struct Many(u64);

fn put_place(state: &State, number: u64, out: &mut Vec<u8>) -> Result<(), AllocError> {
    put(out, b" ")?;
    match place_of(state, &Owner::Staff(1), number) {
        Some(place) => put_number(out, place),
        None => put(out, b"none"),
    }
}

fn send_many(state: &mut State, count: u64, out: &mut Vec<u8>) -> Result<(), AllocError>
    requires { ValidState state.old }
    ensures { ValidState state.new }
{
    let mut said = Vec::new(*out.allocator());
    'each: for number in 0..count {
        put_request(state, (STAFF, number + 1, change_at(number)), &mut said)?;
        if said.as_slice() != b"ok".as_slice() {
            return put(out, b"refused ");
        }
        said.clear();
    }
    Ok(())
}

impl Plays for Many {
    fn play(&self, state: &mut State, out: &mut Vec<u8>) -> Result<(), AllocError> {
        send_many(state, self.0, out)?;
        put_request(state, (STAFF, 1, change_at(0)), out)?;
        put_place(state, 1, out)?;
        put_place(state, 2, out)?;
        put_place(state, 1025, out)?;
        put_place(state, 20_000, out)
    }
}

#[test]
fn numbers_that_were_used(rt: HostRuntime) {
    let have = told(rt.alloc(), LINES.as_bytes(), &Many(1025));
    is_wanted(&rt, have, b"X3 2 1025 2 1025 none", "1,025 requests");
}
