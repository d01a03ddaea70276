//! Links in memory, and a door that gives them.
ghost use Rattle.std.specs.Prelude.{
  ◌≡◌,
  ◌≤◌,
  ◌+◌,
  ◌⊎◌,
  [],
  ◌∷◌,
  Some,
  IsTrue,
  IsErr,
  IfOk,
  OnOk,
  OnErr,
  is_err,
  drop,
};
ghost use Rattle.ixp_io.specs.Faults.{Rose, last_count};
ghost use Rattle.ixp_io.specs.Plans.{fails_next};

use crate::{Door, Failed, MemSink, MemSource, Plan, Sink, Source, Stream};
use std::alloc::Global;
use std::collections::VecDeque;
use std::mem;

/// A link in memory.
#[derive(Debug, Drop)]
pub struct MemLink {
    /// What it gives.
    pub source: MemSource,
    /// What it takes.
    pub sink: MemSink,
}

impl Stream for MemLink {
    ghost left = { λ link. Some (drop link.source.at link.source.bytes) };

    ghost written = { λ link. Some link.sink.bytes.items };

    ghost read_faults = { λ link. link.source.plan.faults };

    ghost write_faults = { λ link. link.sink.plan.faults };
}

impl Source for MemLink {
    fn read(&mut self, buf: &mut [u8]) -> Result<usize, Failed> {
        self.source.read(buf)
    }
}

impl Sink for MemLink {
    fn write(&mut self, bytes: &[u8]) -> Result<usize, Failed> {
        self.sink.write(bytes)
    }
}

/// A door that gives links from memory, the first one first. With none left `accept` counts a fault. Its plan
/// counts the calls of `listen`, `accept` and `second` together.
#[derive(Drop)]
pub struct MemDoor {
    /// The links that are left.
    pub links: VecDeque<MemLink>,
    /// The links that a further door is to give.
    pub further: VecDeque<MemLink>,
    /// How many it gave.
    pub given: u64,
    pub plan: Plan,
    alloc: Global,
}

impl MemDoor {
    /// A door with these links, which gave none yet. A further door is to give those others.
    pub fn new(
        alloc: Global,
        links: VecDeque<MemLink>,
        further: VecDeque<MemLink>,
        plan: Plan,
    ) -> MemDoor
        ensures links { result.links.items ≡ links.items }
        ensures further { result.further.items ≡ further.items }
        ensures given { result.given ≡ 0 }
        ensures plan { result.plan ≡ plan }
    {
        MemDoor {
            links,
            further,
            given: 0,
            plan,
            alloc,
        }
    }
}

impl Door for MemDoor {
    type Link = MemLink;

    ghost links = { λ door. Some door.given };

    ghost faults = { λ door. door.plan.faults };

    fn listen(&mut self, _port: u16) -> Result<(), Failed>
        ensures fails { is_err result ≡ fails_next self.old.plan }
        ensures links { self.new.links.items ≡ self.old.links.items }
        ensures given { self.new.given ≡ self.old.given }
        ensures counts { self.old.plan.faults ≤ self.new.plan.faults }
        ensures cause { OnErr result (Rose self.old.plan.faults self.new.plan.faults) }
    {
        self.plan.count_call()
    }

    fn accept(&mut self) -> Result<MemLink, Failed>
        ensures fails { IsTrue (fails_next self.old.plan) → IsErr result }
        ensures gives { IfOk result (λ link. self.old.links.items ≡ link ∷ self.new.links.items) }
        ensures given { OnOk result (self.new.given ≡ self.old.given + 1) }
        ensures only { OnErr result (IsTrue (fails_next self.old.plan)
            ⊎ (self.old.links.items ≡ []) ⊎ (self.old.given ≡ last_count)) }
        ensures kept { OnErr result (self.new.links.items ≡ self.old.links.items) }
        ensures kept_given { OnErr result (self.new.given ≡ self.old.given) }
        ensures counts { self.old.plan.faults ≤ self.new.plan.faults }
        ensures cause { OnErr result (Rose self.old.plan.faults self.new.plan.faults) }
    {
        self.plan.count_call()?;
        if self.given < u64::MAX
            && let Some(link) = self.links.pop_front()
        {
            self.given += 1;
            return Ok(link);
        }
        self.plan.faults += 1;
        Err(Failed)
    }

    fn second(&mut self, _port: u16) -> Result<MemDoor, Failed>
        ensures fails { is_err result ≡ fails_next self.old.plan }
        ensures gives { IfOk result (λ door. door.links.items ≡ self.old.further.items) }
        ensures fresh { IfOk result (λ door. door.given ≡ 0) }
        ensures no_faults { IfOk result (λ door. door.plan.faults ≡ 0) }
        ensures links { self.new.links.items ≡ self.old.links.items }
        ensures given { self.new.given ≡ self.old.given }
        ensures counts { self.old.plan.faults ≤ self.new.plan.faults }
        ensures cause { OnErr result (Rose self.old.plan.faults self.new.plan.faults) }
    {
        self.plan.count_call()?;
        let alloc = self.alloc;
        let links = mem::replace(&mut self.further, VecDeque::new(alloc));
        Ok(MemDoor::new(alloc, links, VecDeque::new(alloc), Plan::smooth(alloc)))
    }
}
