//! A source in memory.
ghost use Rattle.std.specs.Prelude.{◌≡◌, ◌<◌, ◌≤◌, Some, length, drop};

use crate::{Failed, Plan, Source, Stream};
use ixp_num_tables::Items;

/// A source that gives bytes from memory.
#[derive(Debug, Drop)]
pub struct MemSource {
    pub bytes: Items<u8>,
    /// How many of the bytes were read.
    pub at: usize,
    /// The greatest number of bytes that one read gives, at least 1.
    pub most: usize,
    pub plan: Plan,
    pub ghost within: { at ≤ length bytes },
    pub ghost some: { 0 < most },
}

impl MemSource {
    /// A source with these bytes, whose reads give as much as fits.
    pub fn new(bytes: Items<u8>, plan: Plan) -> MemSource
        ensures bytes { result.bytes ≡ bytes }
        ensures at { result.at ≡ 0 }
        ensures most { result.most ≡ usize.MAX }
        ensures plan { result.plan ≡ plan }
    {
        MemSource {
            bytes,
            at: 0,
            most: usize::MAX,
            plan,
        }
    }

    /// The same source, whose reads give at most that many bytes each.
    pub fn in_pieces(self, most: usize) -> MemSource
        requires { 0 < most }
        ensures bytes { result.bytes ≡ self.bytes }
        ensures at { result.at ≡ self.at }
        ensures most { result.most ≡ most }
        ensures plan { result.plan ≡ self.plan }
    {
        MemSource {
            bytes: self.bytes,
            at: self.at,
            most,
            plan: self.plan,
        }
    }
}

impl Stream for MemSource {
    ghost left = { λ source. Some (drop source.at source.bytes) };

    ghost read_faults = { λ source. source.plan.faults };
}

impl Source for MemSource {
    ghost use Rattle.std.specs.Prelude.{
      ◌≡◌,
      ◌<◌,
      ◌≤◌,
      ◌-◌,
      ◌++◌,
      [],
      length,
      take,
      drop,
      min,
      is_err,
      IfOk,
      OnErr,
    };
    ghost use Rattle.ixp_io.specs.Faults.{Rose};
    ghost use Rattle.ixp_io.specs.Plans.{fails_next, after_call};

    fn read(&mut self, buf: &mut [u8]) -> Result<usize, Failed>
        requires { 0 < length buf.old }
        ensures fails { is_err result ≡ fails_next self.old.plan }
        ensures plan { self.new.plan ≡ after_call self.old.plan }
        ensures gives { IfOk result (λ n.
            n ≡ min (min (length self.old.bytes - self.old.at) self.old.most) (length buf.old)) }
        ensures within { IfOk result (λ n. n ≤ length buf.new) }
        ensures moved { IfOk result (λ n.
            drop self.old.at self.old.bytes ≡ take n buf.new ++ drop self.new.at self.new.bytes) }
        ensures ended { result ≡ Ok 0 → drop self.new.at self.new.bytes ≡ [] }
        ensures kept { OnErr result (self.new.at ≡ self.old.at) }
        ensures bytes { self.new.bytes ≡ self.old.bytes }
        ensures most { self.new.most ≡ self.old.most }
        ensures counts { self.old.plan.faults ≤ self.new.plan.faults }
        ensures cause { OnErr result (Rose self.old.plan.faults self.new.plan.faults) }
    {
        self.plan.count_call()?;
        let left = &self.bytes.as_slice()[self.at..];
        let count = left.len().min(self.most).min(buf.len());
        buf[..count].copy_from_slice(&left[..count]);
        self.at += count;
        Ok(count)
    }
}
