//! What is done with links, and beside them.
use ixp_io::Clock;
use std::sync::Wait;

/// Work in the background. Threads share it.
pub trait Background {
    /// What each thread has of its own.
    type Seat;

    /// Does what is to be done, once. It doesn't wait for work.
    fn turn<R: Wait>(&self, rt: &R, seat: &mut Self::Seat);

    /// Waits until there is work, or until no more comes. False ends the background.
    fn has_work<R: Wait>(&self, rt: &R) -> bool;

    /// No more work comes: all links were served.
    fn end<R: Wait>(&self, rt: &R);
}

/// What is done with links. Threads share it.
pub trait Host<L>: Background {
    /// What became of a seat and a link: both before, and both after.
    ghost hosted: { Self.Seat → L → Self.Seat → L → Type 0 };

    /// Serves a link to its end.
    fn host<R: Wait, C: Clock>(&self, rt: &R, seat: &mut Self::Seat, link: &mut L, clock: &mut C)
        ensures { hosted seat.old link.old seat.new link.new };
}
