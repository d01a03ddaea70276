//! A router's link over a desk. The bytes are written out by the figures of RFC 8210 section 5.
ghost use Rattle.std.specs.Prelude.{◌≡◌, ◌<◌, ◌^◌};

use crate::samples::{STAFF, stored};
use ixp_board::{BoardName, Note, Publish};
use ixp_desk::{Desk, DeskSeat, Desks, Shared, open_desk};
use ixp_desk_history::DeskStory;
use ixp_desk_rtr::{RoaCache, RtrEnd, rtr_link};
use ixp_io::{Keeper, MemLink, MemSink, MemSource, Plan};
use ixp_machine_edits::Edit;
use ixp_machine_steps::Entry;
use ixp_num::{Asn, Family, Items, Prefix, Roa};
use ixp_num_sorted::Sorted;
use ixp_registry_change::PublicList;
use std::alloc::{AllocError, Global};
use std::marker::Brand;
use std::sync::{Mutex, Wait};

// Reset Query (5.4).
const RESET: &[u8] = &[1, 2, 0, 0, 0, 0, 0, 8];

// The answer to it: Cache Response (5.5) of session 7, IPv4 Prefix (5.6) that announces 203.0.113.0/24 with
// max length 24 of AS 65001, End of Data (5.8) with serial 1.
const WHOLE: &[u8] = &[
    1, 3, 0, 7, 0, 0, 0, 8, 1, 4, 0, 0, 0, 0, 0, 20, 1, 24, 24, 0, 203, 0, 113, 0, 0, 0, 253, 233,
    1, 7, 0, 7, 0, 0, 0, 24, 0, 0, 0, 1, 0, 0, 14, 16, 0, 0, 2, 88, 0, 0, 28, 32,
];

// Serial Queries (5.3) of session 7: serial 1, and serial 9; then one of session 8.
const SINCE: &[u8] = &[
    1, 1, 0, 7, 0, 0, 0, 12, 0, 0, 0, 1, 1, 1, 0, 7, 0, 0, 0, 12, 0, 0, 0, 9, 1, 1, 0, 8, 0, 0, 0,
    12, 0, 0, 0, 0,
];

// The answers to them: that ROA is withdrawn, with serial 2; Cache Reset (5.9); Error Report (5.11),
// Corrupt Data, with the header of the last query.
const CHANGES: &[u8] = &[
    1, 3, 0, 7, 0, 0, 0, 8, 1, 4, 0, 0, 0, 0, 0, 20, 0, 24, 24, 0, 203, 0, 113, 0, 0, 0, 253, 233,
    1, 7, 0, 7, 0, 0, 0, 24, 0, 0, 0, 2, 0, 0, 14, 16, 0, 0, 2, 88, 0, 0, 28, 32, 1, 8, 0, 0, 0, 0,
    0, 8, 1, 10, 0, 0, 0, 0, 0, 24, 0, 0, 0, 8, 1, 1, 0, 8, 0, 0, 0, 12, 0, 0, 0, 0,
];

// A Reset Query of version 0, and the Error Report on it, Unsupported Protocol Version.
const OLD: &[u8] = &[0, 2, 0, 0, 0, 0, 0, 8];

const UNSUPPORTED: &[u8] = &[
    1, 10, 0, 4, 0, 0, 0, 24, 0, 0, 0, 8, 0, 2, 0, 0, 0, 0, 0, 8, 0, 0, 0, 0,
];

/// The ROA of these tests, or none.
fn roas(alloc: Global, some: bool) -> Result<Sorted<Roa>, AllocError> {
    let mut roas = Vec::new(alloc);
    if some {
        roas.push(Roa {
            prefix: Prefix {
                family: Family::V4,
                value: 0xCB00_7100,
                len: 24,
            },
            max: 24,
            asn: Asn(65001),
        })?;
    }
    Ok(Sorted::from_items(roas))
}

/// Whether the edit with the number is accepted, which sets the ROAs.
fn sets<R: Wait, P: Keeper + Drop, N: BoardName, W: Publish<Note<DeskStory, N>>>(
    rt: &R,
    alloc: Global,
    shared: &Shared<P, N, W>,
    seat: &mut DeskSeat<N>,
    number: u64,
    some: bool,
) -> bool
    requires some { 0 < number }
    requires small { number < 10 ^ 16 }
{
    let (Ok(secret), Ok(roas)) = (Items::from_slice(alloc, STAFF), roas(alloc, some)) else {
        return false;
    };
    let edit = Edit::PutPublic {
        list: PublicList::Roas(roas),
    };
    let mut desk = shared;
    let entry = Entry {
        secret,
        number,
        edit,
    };
    desk.submit(rt, seat, entry).is_ok()
}

/// What is written on a link with these bytes, and how it ends.
fn served<R: Wait, P: Keeper + Drop, N: BoardName, W: Publish<Note<DeskStory, N>>>(
    rt: &R,
    alloc: Global,
    shared: &Shared<P, N, W>,
    cache: &Mutex<RoaCache<N>>,
    bytes: &[u8],
) -> Result<(RtrEnd, MemSink), AllocError> {
    let bytes = Items::from_slice(alloc, bytes)?;
    let mut link = MemLink {
        source: MemSource::new(bytes, Plan::smooth(alloc)),
        sink: MemSink::new(alloc, Plan::smooth(alloc)),
    };
    let mut desk = shared;
    let end = rtr_link(rt, &mut desk, cache, &mut link);
    let MemLink { source: _, sink } = link;
    Ok((end, sink))
}

/// Whether a link with these bytes is answered so, and ends so.
fn is_served<R: Wait, P: Keeper + Drop, N: BoardName, W: Publish<Note<DeskStory, N>>>(
    rt: &R,
    alloc: Global,
    shared: &Shared<P, N, W>,
    cache: &Mutex<RoaCache<N>>,
    bytes: &[u8],
    answer: &[u8],
    ends: RtrEnd,
) -> bool {
    match served(rt, alloc, shared, cache, bytes) {
        Ok((end, sink)) => end == ends && sink.written() == answer,
        Err(_) => false,
    }
}

/// Whether links of routers follow the edits of another seat.
fn follow<R: Wait, P: Keeper + Drop, N: BoardName, W: Publish<Note<DeskStory, N>>>(
    rt: &R,
    alloc: Global,
    shared: &Shared<P, N, W>,
    mut seats: Vec<DeskSeat<N>>,
) -> bool {
    let (Some(theirs), Some(mut editor)) = (seats.pop(), seats.pop()) else {
        return false;
    };
    let Ok(cache) = RoaCache::open(alloc, theirs, 7) else {
        return false;
    };
    let cache = Mutex::new(cache);
    let is_set = sets(rt, alloc, shared, &mut editor, 1, true);
    let whole = is_served(rt, alloc, shared, &cache, RESET, WHOLE, RtrEnd::Closed);
    let is_cleared = sets(rt, alloc, shared, &mut editor, 2, false);
    let changes = is_served(rt, alloc, shared, &cache, SINCE, CHANGES, RtrEnd::Bad);
    let old = is_served(rt, alloc, shared, &cache, OLD, UNSUPPORTED, RtrEnd::Bad);
    let cut = is_served(rt, alloc, shared, &cache, &[1, 2, 0], &[], RtrEnd::Cut);
    is_set && whole && is_cleared && changes && old && cut
}

fn on_a_desk<R: Wait, N: BoardName, P: Keeper + Drop>(rt: &R, alloc: Global, desk: Desk<P>) -> bool
    requires { desk.0 ≡ N.book }
{
    match desk.share::<N>() {
        Ok((shared, seats)) => follow(rt, alloc, &shared, seats),
        Err(_) => false,
    }
}

fn on_a_store<R: Wait>(rt: &R, alloc: Global) -> bool {
    let Some(keeper) = stored(alloc) else {
        return false;
    };
    match open_desk(alloc, keeper, 2) {
        Ok(desk) => on_a_desk::<R, Brand, _>(rt, alloc, desk),
        Err(_) => false,
    }
}

#[test]
fn routers_follow_edits_of_roas(rt: HostRuntime) {
    assert!(rt; on_a_store(&rt, rt.alloc()));
}
