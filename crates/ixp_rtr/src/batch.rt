//! Bytes that are gathered, so that an answer takes few writes.
ghost use Rattle.std.specs.Prelude.{◌≡◌, ◌≤◌, [], OnOk, OnErr};
ghost use Rattle.ixp_io.specs.Faults.{Rose};
ghost use Rattle.ixp_io.specs.Told.{Takes};
ghost use Rattle.ixp_rtr.specs.Batches.{gathered};

use arrayvec::ArrayVec;
use ixp_io::{Failed, Sink, write_all};
use std::marker::Model;

/// How many bytes are gathered for one write.
const ROOM: usize = 16384;

/// Bytes that are still to be written to a link.
#[derive(Drop)]
pub(crate) struct Batch {
    held: ArrayVec<u8, ROOM>,
}

impl Model for Batch {
    ghost use Rattle.std.specs.Prelude.{List, ℕ};

    ghost Value = { List ℕ };

    ghost view = { λ batch. batch.held.items };
}

impl Batch {
    /// A batch that holds nothing.
    pub(crate) fn new() -> Batch
        ensures { result ≡ [] }
    {
        Batch {
            held: ArrayVec::new(),
        }
    }

    /// Puts bytes behind what is held. Where there is no room for them, that is written first.
    #[tactic(auto, using(crate::proofs::Batching::gathered_more))]
    pub(crate) fn put<L: Sink>(&mut self, link: &mut L, bytes: &[u8]) -> Result<(), Failed>
        ensures ok { OnOk result (Takes (gathered (L.written link.old) self.old)
            (gathered (L.written link.new) self.new) bytes.now) }
        ensures counts { L.write_faults link.old ≤ L.write_faults link.new }
        ensures cause { OnErr result (Rose (L.write_faults link.old) (L.write_faults link.new)) }
        ensures left { L.left link.new ≡ L.left link.old }
        ensures read_faults { L.read_faults link.new ≡ L.read_faults link.old }
    {
        if self.held.try_extend_from_slice(bytes).is_ok() {
            return Ok(());
        }
        self.flush(link)?;
        self.begin(link, bytes)
    }

    /// Writes what is held.
    #[tactic(auto, using(crate::proofs::Batching::gathered_written))]
    pub(crate) fn flush<L: Sink>(&mut self, link: &mut L) -> Result<(), Failed>
        ensures ok { OnOk result (L.written link.new ≡ gathered (L.written link.old) self.old) }
        ensures empty { OnOk result (self.new ≡ []) }
        ensures counts { L.write_faults link.old ≤ L.write_faults link.new }
        ensures cause { OnErr result (Rose (L.write_faults link.old) (L.write_faults link.new)) }
        ensures left { L.left link.new ≡ L.left link.old }
        ensures read_faults { L.read_faults link.new ≡ L.read_faults link.old }
    {
        write_all(link, self.held.as_slice())?;
        self.held.clear();
        Ok(())
    }

    // Holds the first bytes, or writes them where they are more than a batch holds.
    #[tactic(auto, using(crate::proofs::Batching::gathered_first, crate::proofs::Batching::gathered_none))]
    fn begin<L: Sink>(&mut self, link: &mut L, bytes: &[u8]) -> Result<(), Failed>
        requires { self.old ≡ [] }
        ensures ok { OnOk result
            (Takes (L.written link.old) (gathered (L.written link.new) self.new) bytes.now) }
        ensures counts { L.write_faults link.old ≤ L.write_faults link.new }
        ensures cause { OnErr result (Rose (L.write_faults link.old) (L.write_faults link.new)) }
        ensures left { L.left link.new ≡ L.left link.old }
        ensures read_faults { L.read_faults link.new ≡ L.read_faults link.old }
    {
        if self.held.try_extend_from_slice(bytes).is_ok() {
            return Ok(());
        }
        write_all(link, bytes)
    }
}
