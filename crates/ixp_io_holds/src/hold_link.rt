//! A link whose reads can be held back.
ghost use Rattle.std.specs.Prelude.{◌≡◌, ◌<◌, ◌≤◌, Some, drop};

use crate::Hold;
use ixp_io::{Failed, MemLink, Sink, Source, Stream};

/// A link in memory that holds back what it gives from a place on. Whoever reads there after something was
/// written lets go on whoever is held at `told`, and is then held at `hold`. So of two links that have each
/// other's holds, neither gives its second request before the other has its first reply. A hold that fails is
/// a counted fault of the read.
#[derive(Drop)]
pub struct HoldLink<'a> {
    pub link: MemLink,
    held_from: usize,
    hold: &'a Hold,
    told: &'a Hold,
}

impl<'a> HoldLink<'a> {
    /// This link, of which so many bytes are given at once and the others after the hold.
    pub fn new(link: MemLink, held_from: usize, hold: &'a Hold, told: &'a Hold) -> HoldLink<'a>
        ensures { result.link ≡ link }
    {
        HoldLink {
            link,
            held_from,
            hold,
            told,
        }
    }

    // Passes the hold, where the bytes before it were read.
    fn pass(&self) -> bool {
        if self.link.source.at < self.held_from {
            return true;
        }
        if !self.link.sink.written().is_empty() {
            self.told.open();
        }
        self.hold.pass()
    }

    // The next read ends at the hold.
    fn stop_at_hold(&mut self)
        ensures at { self.new.link.source.at ≡ self.old.link.source.at }
        ensures bytes { self.new.link.source.bytes ≡ self.old.link.source.bytes }
        ensures sink { self.new.link.sink ≡ self.old.link.sink }
        ensures plan { self.new.link.source.plan ≡ self.old.link.source.plan }
    {
        if self.link.source.at < self.held_from {
            self.link.source.most = self.held_from - self.link.source.at;
        } else {
            self.link.source.most = usize::MAX;
        }
    }
}

impl Stream for HoldLink<'_> {
    ghost left = { λ it. Some (drop it.link.source.at it.link.source.bytes) };

    ghost written = { λ it. Some it.link.sink.bytes.items };

    ghost read_faults = { λ it. it.link.source.plan.faults };

    ghost write_faults = { λ it. it.link.sink.plan.faults };
}

impl Source for HoldLink<'_> {
    fn read(&mut self, buf: &mut [u8]) -> Result<usize, Failed> {
        if !self.pass() {
            let faults = self.link.source.plan.faults;
            self.link.source.plan.faults = faults.saturating_add(1);
            return Err(Failed);
        }
        self.stop_at_hold();
        self.link.read(buf)
    }
}

impl Sink for HoldLink<'_> {
    fn write(&mut self, bytes: &[u8]) -> Result<usize, Failed> {
        self.link.write(bytes)
    }
}
