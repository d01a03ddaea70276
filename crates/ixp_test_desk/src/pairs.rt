//! Two threads that are held against each other.
use crate::samples::request;
use ixp_board::{BoardName, Note, Publish};
use ixp_desk::{DeskSeat, Desks, Shared};
use ixp_desk_history::DeskStory;
use ixp_io::Keeper;
use std::alloc::Global;
use std::sync::Wait;
use std::thread::{Threads, join};

/// What two threads do with what they share. Each says whether it went as it should.
pub trait Pair {
    fn first<R: Wait>(&self, rt: &R) -> bool;

    fn second<R: Wait>(&self, rt: &R) -> bool;
}

/// Whether it went as it should in both.
pub fn both<T: Pair + Sync, R: Threads + Wait + Sync>(rt: &R, pair: &T) -> bool {
    let done = join(rt, || pair.first(rt), || pair.second(rt));
    done == (true, true)
}

/// Whether the seat's edit with this number, 1 to 9, is accepted.
pub fn edits<R: Wait, P: Keeper + Drop, N: BoardName, W: Publish<Note<DeskStory, N>>>(
    rt: &R,
    alloc: Global,
    shared: &Shared<P, N, W>,
    seat: &mut DeskSeat<N>,
    number: u64,
) -> bool {
    if number == 0 || number > 9 {
        return false;
    }
    let Ok(entry) = request(alloc, number) else {
        return false;
    };
    let mut desk = shared;
    match desk.submit(rt, seat, entry) {
        Ok(reply) => reply.number == number,
        Err(_) => false,
    }
}
