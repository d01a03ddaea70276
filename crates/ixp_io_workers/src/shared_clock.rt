//! A clock that threads share.
ghost use Rattle.std.specs.Prelude.{None};

use ixp_io::Clock;
use std::sync::{Mutex, Wait};

/// A clock behind a lock. It doesn't tell what it gave: between two calls of a thread others may ask.
#[derive(Drop)]
pub struct SharedClock<'a, R: Wait, C: Clock> {
    rt: &'a R,
    clock: &'a Mutex<C>,
}

impl<'a, R: Wait, C: Clock> SharedClock<'a, R, C> {
    /// A thread's own hold on the clock.
    pub fn new(rt: &'a R, clock: &'a Mutex<C>) -> SharedClock<'a, R, C> {
        SharedClock { rt, clock }
    }
}

impl<R: Wait, C: Clock> Clock for SharedClock<'_, R, C> {
    ghost given = { λ _. None };

    fn now(&mut self) -> u64 {
        self.clock.lock(self.rt).now()
    }
}
