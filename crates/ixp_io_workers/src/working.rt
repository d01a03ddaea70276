//! Workers, each of which serves one link after the other.
use crate::{Host, Queue, SharedClock};
use ixp_io::Clock;
use std::sync::{Mutex, Wait};
use std::thread::Scope;

// Serves links on this seat until the queue is closed and empty.
fn work<R: Wait, C: Clock, L: Drop, H: Host<L>>(
    rt: &R,
    queue: &Queue<L>,
    clock: &Mutex<C>,
    host: &H,
    seat: &Mutex<H::Seat>,
) {
    let mut held = seat.lock(rt);
    for _ in rt.forever() {
        let Some(mut link) = queue.take(rt) else {
            break;
        };
        host.host(rt, &mut *held, &mut link, &mut SharedClock::new(rt, clock));
    }
}

/// Starts a worker for each seat, and tells how many could be started.
pub fn start_workers<'s, E, R: Wait + Sync, C: Clock + Send, L: Drop + Send, H: Host<L> + Sync>(
    scope: &Scope<'s, E>,
    rt: &'s R,
    queue: &'s Queue<L>,
    clock: &'s Mutex<C>,
    host: &'s H,
    seats: &'s [Mutex<H::Seat>],
) -> u32
where
    H::Seat: Send,
{
    let mut started = 0u32;
    for seat in seats {
        if scope
            .spawn(move || work(rt, queue, clock, host, seat))
            .is_ok()
        {
            started = started.saturating_add(1);
        }
    }
    started
}
