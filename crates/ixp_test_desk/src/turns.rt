//! What one seat after the other is answered.
ghost use Rattle.std.specs.Prelude.{◌≡◌};

use crate::samples::{STAFF, handle, peer_text, request, stored};
use ixp_board::{BoardName, Note, Publish};
use ixp_desk::{
    Desk, DeskSeat, Desks, PubFault, Shared, WorkTurn, open_desk, published, worker_turn,
};
use ixp_desk_history::{DeskStory, Text};
use ixp_io::{FreeGate, Keeper};
use std::alloc::Global;
use std::marker::Brand;
use std::str::from_utf8;
use std::sync::Wait;

/// The version of a text, where the text has a part.
fn version_of(text: &Text, part: &str) -> Option<u64> {
    let shown = from_utf8(text.bytes.as_slice()).ok()?;
    if shown.contains(part) {
        Some(text.built)
    } else {
        None
    }
}

/// What a seat reads: the version of a text that names a peer, or that there is no such router.
fn read<R: Wait, P: Keeper + Drop, N: BoardName, W: Publish<Note<DeskStory, N>>>(
    rt: &R,
    alloc: Global,
    shared: &Shared<P, N, W>,
    seat: &mut DeskSeat<N>,
    router: &[u8],
    peer: &str,
) -> Option<Option<u64>> {
    let router = handle(alloc, router)?;
    let mut desk = shared;
    match published(rt, alloc, &mut desk, seat, STAFF, &router, None) {
        Ok(text) => Some(Some(version_of(&text, peer)?)),
        Err(PubFault::NoRouter) => Some(None),
        Err(_) => None,
    }
}

/// Whether an edit of one seat is in the texts that a second seat makes, which a third one reads; a worker
/// has nothing to do then.
fn follows<R: Wait, P: Keeper + Drop, N: BoardName, W: Publish<Note<DeskStory, N>>>(
    rt: &R,
    alloc: Global,
    shared: &Shared<P, N, W>,
    mut seats: Vec<DeskSeat<N>>,
) -> bool {
    let Some(mut third) = seats.pop() else {
        return false;
    };
    let Some(mut second) = seats.pop() else {
        return false;
    };
    let Some(mut first) = seats.pop() else {
        return false;
    };
    let Ok(entry) = request(alloc, 1) else {
        return false;
    };
    let peer = peer_text(1);
    let before = read(rt, alloc, shared, &mut third, b"rs1", peer);
    let mut desk = shared;
    let accepted = desk.submit(rt, &mut first, entry).is_ok();
    let built = desk.catch_up(rt, &mut second).ok();
    let version = read(rt, alloc, shared, &mut third, b"rs1", peer);
    let missing = read(rt, alloc, shared, &mut third, b"rs9", peer);
    let turn = worker_turn(rt, alloc, shared, &mut second, &FreeGate);
    let idle = matches!(turn, Ok(WorkTurn::Nothing { built: 1 }));
    let follows = before == None && built == Some(1) && version == Some(Some(1));
    accepted && follows && missing == Some(None) && idle
}

fn on_a_desk<R: Wait, N: BoardName, P: Keeper + Drop>(rt: &R, alloc: Global, desk: Desk<P>) -> bool
    requires { desk.0 ≡ N.book }
{
    match desk.share::<N>() {
        Ok((shared, seats)) => follows(rt, alloc, &shared, seats),
        Err(_) => false,
    }
}

fn on_a_store<R: Wait>(rt: &R, alloc: Global) -> bool {
    let Some(keeper) = stored(alloc) else {
        return false;
    };
    match open_desk(alloc, keeper, 3) {
        Ok(desk) => on_a_desk::<R, Brand, _>(rt, alloc, desk),
        Err(_) => false,
    }
}

#[test]
fn texts_follow_an_edit_of_another_seat(rt: HostRuntime) {
    assert!(rt; on_a_store(&rt, rt.alloc()));
}
