//! A worker that is held between its order and its texts: meanwhile another seat's edit is answered.
ghost use Rattle.std.specs.Prelude.{◌≡◌};

use crate::held::Working;
use crate::pairs::{Pair, both, edits};
use crate::samples::stored;
use ixp_board::{BoardName, Note, Publish};
use ixp_desk::{Desk, DeskSeat, Desks, Shared, WorkTurn, open_desk, worker_turn};
use ixp_desk_history::DeskStory;
use ixp_io::Keeper;
use ixp_io_holds::{Hold, HoldGate};
use std::alloc::Global;
use std::marker::Brand;
use std::sync::{Mutex, Wait};
use std::thread::Threads;

/// Whether the seat catches up with so many edits.
fn catches_up<R: Wait, P: Keeper + Drop, N: BoardName, W: Publish<Note<DeskStory, N>>>(
    rt: &R,
    shared: &Shared<P, N, W>,
    seat: &mut DeskSeat<N>,
    count: u64,
) -> bool {
    let mut desk = shared;
    match desk.catch_up(rt, seat) {
        Ok(built) => built == count,
        Err(_) => false,
    }
}

impl<P: Keeper + Drop, N: BoardName, W: Publish<Note<DeskStory, N>>> Pair
    for Working<'_, '_, P, N, W> {
    /// The worker's turn: texts of the first edit, or too late where the editor caught up.
    fn first<R: Wait>(&self, rt: &R) -> bool {
        let gate = HoldGate::new(self.hold, 1);
        let mut seat = self.worker.lock(rt);
        match worker_turn(rt, self.alloc, self.shared, &mut *seat, &gate) {
            Ok(WorkTurn::Built { upto }) => !self.catches_up && upto == 1,
            Ok(WorkTurn::Late { current, asked }) => self.catches_up && current == 2 && asked == 0,
            _ => false,
        }
    }

    /// The editor's second edit, while the worker is held.
    fn second<R: Wait>(&self, rt: &R) -> bool {
        let mut seat = self.editor.lock(rt);
        let is_held = self.hold.is_reached();
        let is_accepted = edits(rt, self.alloc, self.shared, &mut *seat, 2);
        let is_built = !self.catches_up || catches_up(rt, self.shared, &mut *seat, 2);
        self.hold.open();
        is_held && is_accepted && is_built
    }
}

/// Whether the worker goes on as it should, once the other seat's edit was answered.
fn goes_on<
    R: Threads + Wait + Sync,
    N: BoardName + Send + Sync,
    P: Keeper + Drop + Send,
    W: Publish<Note<DeskStory, N>> + Send,
>(
    rt: &R,
    alloc: Global,
    shared: &Shared<P, N, W>,
    mut seats: Vec<DeskSeat<N>>,
    catches_up: bool,
) -> bool {
    let Some(worker) = seats.pop() else {
        return false;
    };
    let Some(mut editor) = seats.pop() else {
        return false;
    };
    if !edits(rt, alloc, shared, &mut editor, 1) {
        return false;
    }
    let hold = Hold::new();
    hold.close();
    let pair = Working {
        alloc,
        shared,
        worker: Mutex::new(worker),
        editor: Mutex::new(editor),
        hold: &hold,
        catches_up,
    };
    both(rt, &pair) && !hold.has_failed()
}

fn on_a_desk<R: Threads + Wait + Sync, N: BoardName + Send + Sync, P: Keeper + Drop + Send>(
    rt: &R,
    alloc: Global,
    desk: Desk<P>,
    catches_up: bool,
) -> bool
    requires { desk.0 ≡ N.book }
{
    match desk.share::<N>() {
        Ok((shared, seats)) => goes_on(rt, alloc, &shared, seats, catches_up),
        Err(_) => false,
    }
}

fn on_a_store<R: Threads + Wait + Sync>(rt: &R, alloc: Global, catches_up: bool) -> bool {
    let Some(keeper) = stored(alloc) else {
        return false;
    };
    match open_desk(alloc, keeper, 2) {
        Ok(desk) => on_a_desk::<R, Brand, _>(rt, alloc, desk, catches_up),
        Err(_) => false,
    }
}

#[test]
fn an_edit_is_answered_while_texts_are_made(rt: HostRuntime) {
    assert!(rt; on_a_store(&rt, rt.alloc(), false));
}

#[test]
fn a_worker_is_too_late_once_another_seat_has_caught_up(rt: HostRuntime) {
    assert!(rt; on_a_store(&rt, rt.alloc(), true));
}
