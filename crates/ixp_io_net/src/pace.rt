//! How long a request may take to come in, and a reply to go out.
use std::time::Instant;

/// How many seconds a request or a reply may take, beside those that its bytes give it.
const SECONDS: u64 = 60;

/// A request that comes in or a reply that goes out. It may take a minute from its first bytes on, and one
/// second more for each so many bytes.
#[derive(Drop)]
pub(crate) struct Pace {
    begun: Option<Instant>,
    bytes: u64,
    bytes_a_second: u64,
}

impl Pace {
    /// Nothing has come in or gone out yet. At 0 bytes a second its bytes give it no time.
    pub(crate) fn new(bytes_a_second: u64) -> Pace {
        Pace {
            begun: None,
            bytes: 0,
            bytes_a_second,
        }
    }

    /// The next request or reply begins.
    pub(crate) fn restart(&mut self) {
        self.begun = None;
        self.bytes = 0;
    }

    /// So many bytes came in or went out by a call that began then.
    pub(crate) fn count(&mut self, then: Instant, bytes: usize) {
        if self.begun.is_none() {
            self.begun = Some(then);
        }
        self.bytes = self.bytes.saturating_add(bytes as u64);
    }

    // How many seconds it may take.
    fn seconds(&self) -> u64 {
        let more = self.bytes.checked_div(self.bytes_a_second).unwrap_or(0);
        more.saturating_add(SECONDS)
    }

    /// Whether it takes longer than it may.
    pub(crate) fn is_over(&self, now: Instant) -> bool {
        match self.begun {
            Some(begun) => now.duration_since(begun).as_secs() >= self.seconds(),
            None => false,
        }
    }
}
