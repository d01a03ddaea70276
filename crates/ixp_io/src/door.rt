//! What gives links, and what stands where the compile worker passes.
ghost use Rattle.std.specs.Prelude.{◌≡◌, ◌≤◌, ◌+◌, Option, ℕ, IfOk, OnOk, OnErr};
ghost use Rattle.ixp_io.specs.Faults.{Rose};
ghost use Rattle.ixp_io.specs.Told.{Told, WhereTold};

use crate::{Failed, Sink, Source};

/// What gives links.
pub trait Door {
    /// A link is read and written.
    type Link: Source + Sink;

    /// How many links it gave, where that is told.
    ghost links: { Self → Option ℕ };

    /// How often a call failed.
    ghost faults: { Self → ℕ };

    /// Takes links at this port of the machine itself from now on.
    fn listen(&mut self, port: u16) -> Result<(), Failed>
        ensures kept { links self.new ≡ links self.old }
        ensures counts { faults self.old ≤ faults self.new }
        ensures cause { OnErr result (Rose (faults self.old) (faults self.new)) };

    /// The next link.
    fn accept(&mut self) -> Result<Self::Link, Failed>
        ensures gives { OnOk result
            (Told (links self.old) (links self.new) (λ before now. now ≡ before + 1)) }
        ensures kept { OnErr result (links self.new ≡ links self.old) }
        ensures counts { faults self.old ≤ faults self.new }
        ensures cause { OnErr result (Rose (faults self.old) (faults self.new)) };

    /// A further door of its kind, which takes links at this port from now on, gave none yet and had no faults. Its
    /// links are patient: they are for peers that may be silent for an hour.
    fn second(&mut self, port: u16) -> Result<Self, Failed>
    where
        Self: Sized,
        ensures fresh { IfOk result (λ door. WhereTold (links door) (λ given. given ≡ 0)) }
        ensures no_faults { IfOk result (λ door. faults door ≡ 0) }
        ensures kept { links self.new ≡ links self.old }
        ensures counts { faults self.old ≤ faults self.new }
        ensures cause { OnErr result (Rose (faults self.old) (faults self.new)) };
}

/// What the compile worker passes. A test may hold it there; nothing depends on it.
pub trait Gate {
    /// The worker is at this place.
    fn at(&self, place: u32);
}

/// A gate that holds nobody.
#[derive(Clone, Copy, Debug, Drop)]
pub struct FreeGate;

impl Gate for FreeGate {
    fn at(&self, _place: u32) {}
}
