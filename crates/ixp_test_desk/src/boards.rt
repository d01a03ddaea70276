//! A configuration that is read while an edit is held inside its commit, with the lock: it comes from the
//! board.
ghost use Rattle.std.specs.Prelude.{◌≡◌};

use crate::held::Editing;
use crate::pairs::{Pair, both, edits};
use crate::samples::{STAFF, handle, stored};
use ixp_board::{BoardName, Note, Publish};
use ixp_desk::{Desk, DeskSeat, Desks, Shared, open_desk, published};
use ixp_desk_history::DeskStory;
use ixp_io::Keeper;
use ixp_io_holds::{Hold, HoldKeeper};
use std::alloc::Global;
use std::marker::Brand;
use std::sync::{Mutex, Wait};
use std::thread::Threads;

/// The version of the configuration that the seat reads.
fn version_read<R: Wait, P: Keeper + Drop, N: BoardName, W: Publish<Note<DeskStory, N>>>(
    rt: &R,
    alloc: Global,
    shared: &Shared<P, N, W>,
    seat: &mut DeskSeat<N>,
) -> Option<u64> {
    let router = handle(alloc, b"rs1")?;
    let mut desk = shared;
    match published(rt, alloc, &mut desk, seat, STAFF, &router, None) {
        Ok(text) => Some(text.built),
        Err(_) => None,
    }
}

impl<P: Keeper + Drop, N: BoardName, W: Publish<Note<DeskStory, N>>> Pair
    for Editing<'_, '_, P, N, W> {
    fn first<R: Wait>(&self, rt: &R) -> bool {
        edits(rt, self.alloc, self.shared, &mut *self.editor.lock(rt), 2)
    }

    /// The reader has seen no edit, and reads the version that was published: the first edit's.
    fn second<R: Wait>(&self, rt: &R) -> bool {
        let is_held = self.hold.is_reached();
        let version = version_read(rt, self.alloc, self.shared, &mut *self.reader.lock(rt));
        self.hold.open();
        is_held && version == Some(1)
    }
}

/// Whether the configuration is read while the commit is held.
fn reads_on<
    R: Threads + Wait + Sync,
    N: BoardName + Send + Sync,
    P: Keeper + Drop + Send,
    W: Publish<Note<DeskStory, N>> + Send,
>(
    rt: &R,
    alloc: Global,
    shared: &Shared<P, N, W>,
    mut seats: Vec<DeskSeat<N>>,
    hold: &Hold,
) -> bool {
    let Some(reader) = seats.pop() else {
        return false;
    };
    let Some(mut editor) = seats.pop() else {
        return false;
    };
    if !edits(rt, alloc, shared, &mut editor, 1) {
        return false;
    }
    let mut desk = shared;
    if desk.catch_up(rt, &mut editor).is_err() {
        return false;
    }
    hold.close();
    let pair = Editing {
        alloc,
        shared,
        editor: Mutex::new(editor),
        reader: Mutex::new(reader),
        hold,
    };
    both(rt, &pair) && !hold.has_failed()
}

fn on_a_desk<R: Threads + Wait + Sync, N: BoardName + Send + Sync, P: Keeper + Drop + Send>(
    rt: &R,
    alloc: Global,
    desk: Desk<P>,
    hold: &Hold,
) -> bool
    requires { desk.0 ≡ N.book }
{
    match desk.share::<N>() {
        Ok((shared, seats)) => reads_on(rt, alloc, &shared, seats, hold),
        Err(_) => false,
    }
}

fn on_a_store<R: Threads + Wait + Sync>(rt: &R, alloc: Global) -> bool {
    let Some(keeper) = stored(alloc) else {
        return false;
    };
    let hold = Hold::new();
    match open_desk(alloc, HoldKeeper::new(keeper, &hold), 2) {
        Ok(desk) => on_a_desk::<R, Brand, _>(rt, alloc, desk, &hold),
        Err(_) => false,
    }
}

#[test]
fn a_configuration_is_read_while_the_lock_is_held(rt: HostRuntime) {
    assert!(rt; on_a_store(&rt, rt.alloc()));
}
