//! Which calls of an object in memory are to fail.
ghost use Rattle.std.specs.Prelude.{◌≡◌, ◌==◌, ◌<◌, ◌≤◌, [], IfOk, OnOk, OnErr, is_err};
ghost use Rattle.std.specs.List.{list_any};
ghost use Rattle.ixp_io.specs.Faults.{Rose, last_count};
ghost use Rattle.ixp_io.specs.Plans.{fails_next, after_call};

use crate::Failed;
use ixp_num_tables::Items;
use std::alloc::{AllocError, Global};

/// Which calls of an object in memory are to fail, how many calls there were, and how many of them failed.
/// Both counts stand still at their last value; once the faults stand there, each call fails.
#[derive(Debug, Drop)]
pub struct Plan {
    /// The numbers of the calls that are to fail. The first call has the number 1.
    pub failing: Items<u64>,
    pub calls: u64,
    pub faults: u64,
}

impl Plan {
    /// No call is to fail. It does not allocate.
    pub fn smooth(alloc: Global) -> Plan
        ensures { result ≡ record { failing = []; calls = 0; faults = 0 } }
    {
        Plan {
            failing: Items::new(alloc),
            calls: 0,
            faults: 0,
        }
    }

    /// The calls with these numbers are to fail, counted from 1.
    pub fn failing(alloc: Global, numbers: &[u64]) -> Result<Plan, AllocError>
        ensures { IfOk result (λ plan. plan ≡ record { failing = numbers.now; calls = 0; faults = 0 }) }
    {
        let failing = Items::from_slice(alloc, numbers)?;
        Ok(Plan {
            failing,
            calls: 0,
            faults: 0,
        })
    }

    /// Counts a call, and a fault with it where the call is to fail.
    pub fn count_call(&mut self) -> Result<(), Failed>
        ensures answer { is_err result ≡ fails_next self.old }
        ensures plan { self.new ≡ after_call self.old }
        ensures counts { self.old.faults ≤ self.new.faults }
        ensures cause { OnErr result (Rose self.old.faults self.new.faults) }
        ensures smooth { OnOk result (self.new.faults ≡ self.old.faults) }
        ensures open_count { OnOk result (self.new.faults < last_count) }
    {
        self.calls = self.calls.saturating_add(1);
        if self.faults == u64::MAX || contains(self.failing.as_slice(), self.calls) {
            self.faults = self.faults.saturating_add(1);
            return Err(Failed);
        }
        Ok(())
    }
}

fn contains(numbers: &[u64], number: u64) -> bool
    ensures { result ≡ list_any (λ x. x == number) numbers.now }
{
    numbers.iter().any(|x| *x == number)
}
