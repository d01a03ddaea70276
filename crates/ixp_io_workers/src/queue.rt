//! Links that wait for a worker.
ghost use Rattle.std.specs.Prelude.{◌≡◌, ◌<◌, ◌≤◌, ◌==◌, ◌&&◌, not};
ghost use Rattle.std.specs.VecDeque.{deque_len, deque_capacity};

use std::alloc::{AllocError, Global};
use std::collections::VecDeque;
use std::sync::{Condvar, Mutex, Wait};

/// How many links may wait.
pub const PLACES: usize = 64;

/// What lies under the lock.
#[derive(Drop)]
struct Line<L> {
    links: VecDeque<L>,
    closed: bool,
    ghost room: { 64 ≤ deque_capacity links },
    ghost few: { deque_len links ≤ 64 },
}

impl<L> Line<L> {
    fn new(alloc: Global) -> Result<Line<L>, AllocError> {
        let links = VecDeque::with_capacity(alloc, PLACES)?;
        Ok(Line {
            links,
            closed: false,
        })
    }

    fn is_full(&self) -> bool
        ensures { result ≡ (deque_len self.now.links == 64) }
    {
        self.links.len() == PLACES
    }

    // There is nothing to take yet.
    fn is_idle(&self) -> bool
        ensures { result ≡ ((deque_len self.now.links == 0) && not self.now.closed) }
    {
        self.links.is_empty() && !self.closed
    }

    // Puts a link at the end. It does not allocate.
    fn put(&mut self, link: L)
        requires { deque_len self.old.links < 64 }
    {
        self.links.push_back_reserved(link);
    }

    fn take(&mut self) -> Option<L> {
        self.links.pop_front()
    }

    fn close(&mut self) {
        self.closed = true;
    }
}

/// A queue with [`PLACES`] places. Its memory is taken when it is made.
#[derive(Drop)]
pub struct Queue<L: Drop> {
    line: Mutex<Line<L>>,
    filled: Condvar,
    freed: Condvar,
}

impl<L: Drop> Queue<L> {
    /// An empty queue, which isn't closed.
    pub fn new(alloc: Global) -> Result<Queue<L>, AllocError> {
        let line = Line::new(alloc)?;
        Ok(Queue {
            line: Mutex::new(line),
            filled: Condvar::new(),
            freed: Condvar::new(),
        })
    }

    /// Puts a link, and waits where there is no place.
    pub fn put<R: Wait>(&self, rt: &R, link: L) {
        {
            let mut line = self
                .freed
                .wait_while(rt, self.line.lock(rt), |line| line.is_full());
            line.put(link);
        }
        self.filled.notify_one();
    }

    /// Takes a link, and waits for one. None once the queue is closed and empty.
    pub fn take<R: Wait>(&self, rt: &R) -> Option<L> {
        let link = {
            let mut line = self
                .filled
                .wait_while(rt, self.line.lock(rt), |line| line.is_idle());
            line.take()
        };
        self.freed.notify_one();
        link
    }

    /// No further link comes.
    pub fn close<R: Wait>(&self, rt: &R) {
        self.line.lock(rt).close();
        self.filled.notify_all();
    }
}
