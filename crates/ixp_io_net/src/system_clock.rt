//! The clock of the system.
ghost use Rattle.std.specs.Prelude.{◌≤◌, None};

use ixp_io::{Clock, LAST_SECOND};

/// The clock of the system. It doesn't tell what it gave. Where the system's clock can't be read, it gives
/// the number that it gave last, or 0 where it gave none.
#[derive(Drop)]
pub struct SystemClock {
    rt: HostRuntime,
    last: u64,
}

impl SystemClock {
    /// A clock that wasn't read yet.
    pub fn new(rt: &HostRuntime) -> SystemClock {
        SystemClock { rt: *rt, last: 0 }
    }
}

impl Clock for SystemClock {
    ghost given = { λ _. None };

    fn now(&mut self) -> u64 {
        if let Ok(time) = std::time::Clock::since_1970(&self.rt) {
            self.last = time.as_secs();
        }
        self.last.min(LAST_SECOND)
    }
}
