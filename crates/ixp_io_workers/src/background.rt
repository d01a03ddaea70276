//! Work in a thread beside the links.
use crate::Background;
use crate::seats::Seats;
use std::sync::{Mutex, Wait};
use std::thread::Scope;

// Turns of the work, until no more comes.
fn work<R: Wait, B: Background>(rt: &R, background: &B, seat: &Mutex<B::Seat>) {
    let mut held = seat.lock(rt);
    for _ in rt.forever() {
        if !background.has_work(rt) {
            break;
        }
        background.turn(rt, &mut *held);
    }
}

/// Starts the work on the background's seat, and tells whether it could be started. It isn't where there is
/// no seat for a worker: then the caller alone does everything.
pub fn start_background<'s, E, R: Wait + Sync, B: Background + Sync>(
    scope: &Scope<'s, E>,
    rt: &'s R,
    background: &'s B,
    seats: &'s Seats<B::Seat>,
) -> bool
where
    B::Seat: Send + Drop,
{
    let seat = &seats.background;
    !seats.workers.is_empty() && scope.spawn(move || work(rt, background, seat)).is_ok()
}
