//! Seats, each of which one thread has to itself.
ghost use Rattle.std.specs.Prelude.{◌≡◌, ◌+◌, ◌≤◌, IfOk, vec_len};

use std::alloc::{AllocError, Global};
use std::sync::Mutex;

/// Seats behind locks. A thread holds the lock of its seat from its start to its end, so the seat of a thread
/// that wasn't started is free.
#[derive(Drop)]
pub struct Seats<S: Drop> {
    /// The background's.
    pub background: Mutex<S>,
    /// One for each worker.
    pub workers: Vec<Mutex<S>>,
}

impl<S: Drop> Seats<S> {
    /// The first seat is the background's, each further one a worker's.
    pub fn new(alloc: Global, mut seats: Vec<S>) -> Result<Seats<S>, AllocError>
        requires { 1 ≤ vec_len seats }
        ensures each { IfOk result (λ it. vec_len it.workers + 1 ≡ vec_len seats) }
    {
        let background = Mutex::new(seats.remove(0));
        let mut workers = Vec::with_capacity(alloc, seats.len())?;
        while let Some(seat) = seats.pop() {
            workers.push(Mutex::new(seat))?;
        }
        Ok(Seats {
            background,
            workers,
        })
    }

    /// Where the caller sits that serves links itself: on a worker's seat, or on the only one.
    pub fn own(&self) -> &Mutex<S> {
        self.workers.first().unwrap_or(&self.background)
    }
}
