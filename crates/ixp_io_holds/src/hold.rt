//! A place where a thread is held.
use std::sync::atomic::{AtomicBool, Ordering};
use std::thread;

/// How many turns a thread waits at most, where nothing else is said.
pub const TURNS: u32 = 1_000_000;

/// A place where a thread is held until another lets it go on.
#[derive(Drop)]
pub struct Hold {
    turns: u32,
    closed: AtomicBool,
    reached: AtomicBool,
    failed: AtomicBool,
}

impl Hold {
    /// A place that holds nobody until it is closed, and then for up to [`TURNS`] turns.
    pub fn new() -> Hold {
        Hold::for_turns(TURNS)
    }

    /// A place that holds for up to so many turns once it is closed. Where other programs want the processor
    /// a turn may take milliseconds, so a test of a hold that fails wants few.
    pub fn for_turns(turns: u32) -> Hold {
        Hold {
            turns,
            closed: AtomicBool::new(false),
            reached: AtomicBool::new(false),
            failed: AtomicBool::new(false),
        }
    }

    /// From now on whoever comes is held.
    pub fn close(&self) {
        self.reached.store(false, Ordering::SeqCst);
        self.closed.store(true, Ordering::SeqCst);
    }

    /// Lets go on whoever is held, and whoever comes.
    pub fn open(&self) {
        self.closed.store(false, Ordering::SeqCst);
    }

    /// Passes the place, where it is closed once it is opened. False where it wasn't opened in all its turns.
    pub fn pass(&self) -> bool {
        self.reached.store(true, Ordering::SeqCst);
        for _ in 0..self.turns {
            if !self.closed.load(Ordering::SeqCst) {
                return true;
            }
            thread::yield_now();
        }
        self.failed.store(true, Ordering::SeqCst);
        false
    }

    /// Waits until a thread has come to the place since it was closed. False where none came in all its
    /// turns.
    pub fn is_reached(&self) -> bool {
        for _ in 0..self.turns {
            if self.reached.load(Ordering::SeqCst) {
                return true;
            }
            thread::yield_now();
        }
        false
    }

    /// A thread was held here and not let go on.
    pub fn has_failed(&self) -> bool {
        self.failed.load(Ordering::SeqCst)
    }
}
