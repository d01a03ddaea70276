//! A sink in memory.
ghost use Rattle.std.specs.Prelude.{◌≡◌, ◌<◌, Some, []};

use crate::{Failed, Plan, Sink, Stream};
use std::alloc::Global;

/// A sink that keeps what is written in memory. Running out of memory is a fault of it.
#[derive(Debug, Drop)]
pub struct MemSink {
    pub bytes: Vec<u8>,
    /// The greatest number of bytes that one write takes, at least 1.
    pub most: usize,
    pub plan: Plan,
    pub ghost some: { 0 < most },
}

impl MemSink {
    /// An empty sink, whose writes take all. It does not allocate.
    pub fn new(alloc: Global, plan: Plan) -> MemSink
        ensures bytes { result.bytes.items ≡ [] }
        ensures most { result.most ≡ usize.MAX }
        ensures plan { result.plan ≡ plan }
    {
        MemSink {
            bytes: Vec::new(alloc),
            most: usize::MAX,
            plan,
        }
    }

    /// The same sink, whose writes take at most that many bytes each.
    pub fn in_pieces(self, most: usize) -> MemSink
        requires { 0 < most }
        ensures bytes { result.bytes.items ≡ self.bytes.items }
        ensures most { result.most ≡ most }
        ensures plan { result.plan ≡ self.plan }
    {
        MemSink {
            bytes: self.bytes,
            most,
            plan: self.plan,
        }
    }

    /// The bytes that were written.
    pub fn written(&self) -> &[u8]
        ensures { result.now ≡ self.now.bytes.items }
    {
        self.bytes.as_slice()
    }
}

impl Stream for MemSink {
    ghost written = { λ sink. Some sink.bytes.items };

    ghost write_faults = { λ sink. sink.plan.faults };
}

impl Sink for MemSink {
    ghost use Rattle.std.specs.Prelude.{◌≡◌, ◌≤◌, ◌++◌, length, take, min, IsTrue, IsErr, IfOk, OnOk, OnErr};
    ghost use Rattle.ixp_io.specs.Faults.{Rose};
    ghost use Rattle.ixp_io.specs.Plans.{fails_next, after_call};

    fn write(&mut self, bytes: &[u8]) -> Result<usize, Failed>
        ensures fails { IsTrue (fails_next self.old.plan) → IsErr result }
        ensures plan { OnOk result (self.new.plan ≡ after_call self.old.plan) }
        ensures gives { IfOk result (λ n. n ≡ min (length bytes.now) self.old.most) }
        ensures taken { IfOk result (λ n. self.new.bytes.items ≡ self.old.bytes.items ++ take n bytes.now) }
        ensures kept { OnErr result (self.new.bytes.items ≡ self.old.bytes.items) }
        ensures most { self.new.most ≡ self.old.most }
        ensures counts { self.old.plan.faults ≤ self.new.plan.faults }
        ensures cause { OnErr result (Rose self.old.plan.faults self.new.plan.faults) }
    {
        self.plan.count_call()?;
        let count = bytes.len().min(self.most);
        match self.bytes.extend_from_slice(&bytes[..count]) {
            Ok(()) => Ok(count),
            Err(_) => {
                self.plan.faults = self.plan.faults.saturating_add(1);
                Err(Failed)
            }
        }
    }
}
