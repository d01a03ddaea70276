//! Four edits, sent to a desk over any store.
ghost use Rattle.std.specs.Prelude.{◌≡◌, ◌<◌, ◌^◌, IfOk, IsTrue};
ghost use Rattle.ixp_machine_edits.specs.Lists.{has_few_rules};
ghost use Rattle.ixp_machine_steps.specs.Requests.{has_family};

use ixp_board::BoardName;
use ixp_desk::{Desk, DeskSeat, Desks, open_desk};
use ixp_io::{Keeper, MemKeeper, Plan};
use ixp_machine_edits::Edit;
use ixp_machine_steps::{Entry, first_state};
use ixp_num::{Asn, Items};
use ixp_registry::Owner;
use ixp_registry_demo::demo_registry;
use ixp_rows::print_dump;
use ixp_store_load::load;
use ixp_store_rows::fill;
use std::alloc::{AllocError, Global};
use std::marker::Brand;
use std::sync::Wait;

/// The secret of the staff's key in the demo exchange.
const STAFF: &[u8] = b"staff00000000001";

/// How many edits there are.
pub const EDITS: u64 = 4;

/// The edit with this number. One makes a row, one sets it anew, one makes two of other kinds, and one takes
/// several out.
fn edit(alloc: Global, number: u64) -> Result<Edit, AllocError>
    ensures family { IfOk result (λ e. IsTrue (has_family e)) }
    ensures rules { IfOk result (λ e. IsTrue (has_few_rules e)) }
{
    if number == 1 {
        return Ok(Edit::AddMember {
            number: 9,
            asn: Asn(65009),
            name: Items::from_slice(alloc, b"New")?,
        });
    }
    if number == 2 {
        let name = Items::from_slice(alloc, b"Other")?;
        return Ok(Edit::RenameMember { member: 9, name });
    }
    if number == 3 {
        return Ok(Edit::AddKey {
            number: 7,
            secret: Items::from_slice(alloc, b"member0000000009")?,
            owner: Owner::Member(9),
        });
    }
    Ok(Edit::DropInterface { interface: 2 })
}

/// The request with this number.
fn request(alloc: Global, number: u64) -> Result<Entry, AllocError>
    requires some { 0 < number }
    requires small { number < 10 ^ 16 }
{
    let secret = Items::from_slice(alloc, STAFF)?;
    let edit = edit(alloc, number)?;
    Ok(Entry {
        secret,
        number,
        edit,
    })
}

/// Puts the demo exchange with three members into an empty store.
pub fn put_demo<P: Keeper>(alloc: Global, keeper: &mut P) -> bool {
    let Ok(registry) = demo_registry(alloc, 3) else {
        return false;
    };
    let state = first_state(alloc, registry);
    fill(alloc, keeper, &state).is_ok()
}

/// What is loaded from a store.
#[derive(Drop)]
pub struct Loaded {
    /// The registry's dump.
    dump: Vec<u8>,
    /// How many requests were accepted.
    accepted: u64,
}

/// What a store holds.
pub fn found_in<P: Keeper>(alloc: Global, keeper: &mut P) -> Option<Loaded> {
    let state = load(alloc, keeper).ok()?;
    let mut dump = Vec::new(alloc);
    print_dump(&state.registry, &mut dump).ok()?;
    Some(Loaded {
        dump,
        accepted: state.accepted,
    })
}

/// Sends the first requests, up to one that isn't answered Ok, and says how many were.
fn sent<R: Wait, N: BoardName, D: Desks<N>>(
    rt: &R,
    alloc: Global,
    desk: &mut D,
    seat: &mut DeskSeat<N>,
    edits: u64,
) -> u64 {
    let mut answered = 0;
    for before in 0..edits.min(EDITS) {
        let Ok(entry) = request(alloc, before + 1) else {
            break;
        };
        if desk.submit(rt, seat, entry).is_err() {
            break;
        }
        answered = before + 1;
    }
    answered
}

/// The same by a desk's one seat. The store comes back.
fn on_a_desk<R: Wait, N: BoardName, P: Keeper + Drop>(
    rt: &R,
    alloc: Global,
    desk: Desk<P>,
    edits: u64,
) -> (u64, P)
    requires { desk.0 ≡ N.book }
{
    match desk.alone::<N>() {
        Err(desk) => (0, desk.close()),
        Ok((mut desk, mut seats)) => match seats.pop() {
            None => (0, desk.into_store()),
            Some(mut seat) => {
                let answered = sent(rt, alloc, &mut desk, &mut seat, edits);
                (answered, desk.into_store())
            }
        },
    }
}

/// The same over a store. Where it can't be opened, none is sent.
pub fn on_a_store<R: Wait, P: Keeper + Drop>(
    rt: &R,
    alloc: Global,
    keeper: P,
    edits: u64,
) -> (u64, P) {
    match open_desk(alloc, keeper, 1) {
        Ok(desk) => on_a_desk::<R, Brand, P>(rt, alloc, desk, edits),
        Err((_fault, keeper)) => (0, keeper),
    }
}

/// What is loaded after so many of the first requests.
fn after<R: Wait>(rt: &R, alloc: Global, edits: u64) -> Option<Loaded> {
    let mut keeper = MemKeeper::new(alloc, Plan::smooth(alloc));
    if !put_demo(alloc, &mut keeper) {
        return None;
    }
    let (answered, mut keeper) = on_a_store(rt, alloc, keeper, edits);
    if answered != edits {
        return None;
    }
    found_in(alloc, &mut keeper)
}

/// What is loaded after none of them, the first one, and so on, of a store in memory that no call fails.
pub fn steps<R: Wait>(rt: &R, alloc: Global) -> Option<Vec<Loaded>> {
    let mut all = Vec::new(alloc);
    for edits in 0..EDITS + 1 {
        all.push(after(rt, alloc, edits)?).ok()?;
    }
    Some(all)
}

/// Whether this is what is loaded after so many requests.
pub fn is_step(loaded: &Loaded, steps: &[Loaded], edits: u64) -> bool {
    match steps.get(edits as usize) {
        Some(step) => {
            loaded.accepted == step.accepted && loaded.dump.as_slice() == step.dump.as_slice()
        }
        None => false,
    }
}
