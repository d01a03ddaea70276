//! What two threads share while one of them is held.
use ixp_board::{BoardName, Note, Publish};
use ixp_desk::{DeskSeat, Shared};
use ixp_desk_history::DeskStory;
use ixp_io::Keeper;
use ixp_io_holds::Hold;
use std::alloc::Global;
use std::sync::Mutex;

/// An editor whose store is held, and a reader with another seat.
#[derive(Drop)]
pub struct Editing<'a, 'b, P: Keeper + Drop, N: BoardName, W: Publish<Note<DeskStory, N>>> {
    pub alloc: Global,
    pub shared: &'a Shared<P, N, W>,
    pub editor: Mutex<DeskSeat<N>>,
    pub reader: Mutex<DeskSeat<N>>,
    pub hold: &'b Hold,
}

/// A worker with a seat, and an editor with another one, who catches up or not before the worker goes on.
#[derive(Drop)]
pub struct Working<'a, 'b, P: Keeper + Drop, N: BoardName, W: Publish<Note<DeskStory, N>>> {
    pub alloc: Global,
    pub shared: &'a Shared<P, N, W>,
    pub worker: Mutex<DeskSeat<N>>,
    pub editor: Mutex<DeskSeat<N>>,
    pub hold: &'b Hold,
    pub catches_up: bool,
}
