//! The lock that threads share.
ghost use Rattle.std.specs.Prelude.{◌||◌, ◌≡◌, not};

use ixp_board::{BoardName, Note, Publish};
use ixp_desk_history::DeskStory;
use ixp_desk_lock::Locked;
use ixp_io::Keeper;
use std::sync::{Condvar, Mutex, Wait};

/// Whether there are texts to make.
#[derive(Drop)]
struct Bell {
    rings: bool,
    closed: bool,
}

impl Bell {
    fn is_silent(&self) -> bool
        ensures { result ≡ not (self.now.rings || self.now.closed) }
    {
        !(self.rings || self.closed)
    }

    /// Stops ringing, and says whether it isn't closed.
    fn answer(&mut self) -> bool {
        self.rings = false;
        !self.closed
    }
}

/// A desk that threads share. Its type keeps which desk it is, so a seat of another one can't be used with
/// it. A bell rings where an edit touched texts, for whoever makes them while the lock is free.
pub struct Shared<P: Keeper + Drop, N: BoardName, W: Publish<Note<DeskStory, N>>> {
    pub(crate) lock: Mutex<Locked<P, N, W>>,
    bell: Mutex<Bell>,
    rung: Condvar,
}

// It is written out, so that crates above don't prove again how each part is dropped.
impl<P: Keeper + Drop, N: BoardName, W: Publish<Note<DeskStory, N>>> Drop for Shared<P, N, W> {
    fn drop(self) {
        let Shared {
            lock: _,
            bell: _,
            rung: _,
        } = self;
    }
}

impl<P: Keeper + Drop, N: BoardName, W: Publish<Note<DeskStory, N>>> Shared<P, N, W> {
    /// A lock over the desk. It does not allocate.
    pub fn new(desk: Locked<P, N, W>) -> Shared<P, N, W> {
        Shared {
            lock: Mutex::new(desk),
            bell: Mutex::new(Bell {
                rings: false,
                closed: false,
            }),
            rung: Condvar::new(),
        }
    }

    /// Takes the lock apart.
    pub fn into_desk(self) -> Locked<P, N, W> {
        let Shared {
            lock,
            bell: _bell,
            rung: _rung,
        } = self;
        lock.into_inner()
    }

    /// Rings the bell.
    pub(crate) fn ring<R: Wait>(&self, rt: &R) {
        self.bell.lock(rt).rings = true;
        self.rung.notify_one();
    }

    /// Waits until the bell rings, which stops it, or until it is closed. False where it is closed.
    pub fn wait_for_work<R: Wait>(&self, rt: &R) -> bool {
        let mut bell = self
            .rung
            .wait_while(rt, self.bell.lock(rt), |bell| bell.is_silent());
        bell.answer()
    }

    /// Closes the bell: who waits for it goes on.
    pub fn close_bell<R: Wait>(&self, rt: &R) {
        self.bell.lock(rt).closed = true;
        self.rung.notify_all();
    }
}
