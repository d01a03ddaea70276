//! What gives the second.
ghost use Rattle.std.specs.Prelude.{◌≡◌, ◌≤◌, Option, Some, ℕ, min};
ghost use Rattle.ixp_io.specs.Told.{Told};

/// The greatest number that a clock gives: 9999-12-30 21:59:59 UTC. At each offset of a time zone its civil
/// date has a year of four digits.
pub const LAST_SECOND: u64 = 253402207199;

/// What gives the second.
pub trait Clock {
    /// The number that it gave last, where that is told.
    ghost given: { Self → Option ℕ };

    /// The seconds since 1970-01-01 00:00:00 UTC, up to [`LAST_SECOND`].
    fn now(&mut self) -> u64
        ensures bound { result ≤ LAST_SECOND }
        ensures given { Told (given self.old) (given self.new) (λ before last. last ≡ result) };
}

impl<T: Clock> Clock for &mut T {
    ghost given = { λ it. T.given it.now };

    fn now(&mut self) -> u64 {
        (**self).now()
    }
}

/// A clock that stands at the second to which it is set. Before it is asked it tells the first of these.
#[derive(Debug, Drop)]
pub struct SetClock {
    /// What it gives, where that is no more than [`LAST_SECOND`].
    pub second: u64,
    last: u64,
}

impl SetClock {
    /// A clock that is set to this second.
    pub fn new(second: u64) -> SetClock
        ensures second { result.second ≡ second }
        ensures given { ⟦<SetClock as Clock>⟧.given result ≡ Some (min second LAST_SECOND) }
    {
        SetClock {
            second,
            last: second.min(LAST_SECOND),
        }
    }
}

impl Clock for SetClock {
    ghost given = { λ clock. Some clock.last };

    fn now(&mut self) -> u64
        ensures second { result ≡ min self.old.second LAST_SECOND }
        ensures stands { self.new.second ≡ self.old.second }
        ensures bound { result ≤ LAST_SECOND }
        ensures given { ⟦<SetClock as Clock>⟧.given self.new ≡ Some result }
    {
        self.last = self.second.min(LAST_SECOND);
        self.last
    }
}
