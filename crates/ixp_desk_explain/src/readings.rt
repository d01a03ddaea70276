//! Configurations that were read, kept for who asks next.
ghost use Rattle.std.specs.Prelude.{◌≡◌, ◌≤◌, IfOk};

use ixp_desk::Text;
use ixp_explain::Reading;
use ixp_num::Name;
use ixp_num_tables::Held;
use std::alloc::{AllocError, Global};
use std::marker::Model;
use std::mem;
use std::sync::{Mutex, Wait};

/// The most route servers whose configuration is kept.
const MOST_READ: usize = 4;

/// The configuration of a route server that was read last.
#[derive(Drop)]
struct LastRead {
    router: Name,
    reading: Held<Reading>,
}

/// The configurations that are kept, one of a route server. Contracts see how many they are.
#[derive(Drop)]
struct Kept {
    rows: Vec<LastRead>,
    /// The place that goes to the next route server, once all are taken.
    next: usize,
}

impl Model for Kept {
    ghost use Rattle.std.specs.Prelude.{◌≤◌, ℕ, length};

    ghost Value = { ℕ };

    ghost view = { λ k. length k.rows.items };

    ghost invariant = { λ k. length k.rows.items ≤ 4 };
}

impl Kept {
    /// The place of the route server, or behind the last one where it has none.
    fn place(&self, router: &Name) -> usize
        ensures { result ≤ self.now }
    {
        'each: for at in 0..self.rows.len() {
            if self.rows[at].router.as_bytes() == router.as_bytes() {
                return at;
            }
        }
        self.rows.len()
    }

    /// The configuration of the route server that was read last, if it is kept.
    fn last(&self, router: &Name) -> Result<Option<Held<Reading>>, AllocError> {
        match self.rows.get(self.place(router)) {
            Some(row) => Ok(Some(row.reading.shared()?)),
            None => Ok(None),
        }
    }

    /// Keeps a configuration in the place of its route server, or in that of another one where all are
    /// taken. What went for it is given back.
    fn keep(&mut self, row: LastRead) -> Result<Option<LastRead>, AllocError> {
        let mut at = self.place(&row.router);
        if at == self.rows.len() {
            if at < MOST_READ {
                self.rows.push(row)?;
                return Ok(None);
            }
            at = self.next;
            self.next = if at < MOST_READ - 1 { at + 1 } else { 0 };
        }
        match self.rows.get_mut(at) {
            Some(place) => Ok(Some(mem::replace(place, row))),
            None => Ok(Some(row)),
        }
    }
}

/// The configurations of up to four route servers, as they were read last, which threads share. The lock is
/// held while one is looked up or kept, not while texts are compared or read.
#[derive(Drop)]
pub(crate) struct Readings {
    lock: Mutex<Kept>,
}

impl Readings {
    /// None. It does not allocate.
    pub(crate) fn new(alloc: Global) -> Readings {
        Readings {
            lock: Mutex::new(Kept {
                rows: Vec::new(alloc),
                next: 0,
            }),
        }
    }

    /// Keeps a configuration that was read. The one that goes is dropped outside the lock.
    fn keep<R: Wait>(
        &self,
        rt: &R,
        alloc: Global,
        router: &Name,
        reading: Held<Reading>,
    ) -> Result<(), AllocError> {
        let router = router.copied(alloc)?;
        let gone = self.lock.lock(rt).keep(LastRead { router, reading })?;
        drop(gone);
        Ok(())
    }

    /// The configuration of the route server, as it was read before where that was this text, or else it is
    /// read now and kept.
    pub(crate) fn of<R: Wait>(
        &self,
        rt: &R,
        alloc: Global,
        router: &Name,
        text: &Text,
    ) -> Result<Held<Reading>, AllocError>
        ensures { IfOk result (λ r. r ≡ text.now.bytes) }
    {
        let bytes = text.bytes.as_slice();
        let last = self.lock.lock(rt).last(router)?;
        if let Some(reading) = last {
            if reading.get().is_of(bytes) {
                return Ok(reading);
            }
        }
        let Ok(reading) = Reading::of(alloc, bytes) else {
            return Err(AllocError);
        };
        let reading = Held::new(alloc, reading)?;
        self.keep(rt, alloc, router, reading.shared()?)?;
        Ok(reading)
    }
}
