//! The numbers of an edit fit into their types. A proof knows that of a number once it is read, and so they
//! are read here.
ghost use Rattle.std.specs.List.{AllByRecursion};

use ixp_machine_edits::NewRule;
use ixp_num::{Asn, Roa};

/// What a value of the type says is of its width.
pub(crate) trait Fits {
    ghost fits: { Self → Type 0 };

    /// Reads the value.
    fn read(&self)
        ensures { fits self.now };
}

impl Fits for u8 {
    ghost use Rattle.ixp_registry.specs.Widths.{IsByte};

    ghost fits = { IsByte };

    fn read(&self) {
        let _byte = *self;
    }
}

impl Fits for u32 {
    ghost use Rattle.ixp_registry.specs.Widths.{IsNumber};

    ghost fits = { IsNumber };

    fn read(&self) {
        let _number = *self;
    }
}

impl Fits for Asn {
    ghost use Rattle.ixp_registry.specs.Widths.{AsnFits};

    ghost fits = { AsnFits };

    fn read(&self) {
        let _number = self.0;
    }
}

impl Fits for (Asn, Asn) {
    ghost use Rattle.ixp_registry.specs.Widths.{RangeFits};

    ghost fits = { RangeFits };

    fn read(&self) {
        self.0.read();
        self.1.read();
    }
}

impl Fits for Roa {
    ghost use Rattle.ixp_registry.specs.Widths.{RoaFits};

    ghost fits = { RoaFits };

    fn read(&self) {
        self.asn.read();
    }
}

impl Fits for NewRule {
    ghost use Rattle.ixp_machine_edits.specs.Edits.{NewRuleFits};

    ghost fits = { NewRuleFits };

    fn read(&self) {
        if let Some(peer) = self.peer {
            peer.read();
        }
    }
}

/// Reads each of the values.
pub(crate) fn read_all<T: Fits>(values: &[T])
    ensures { AllByRecursion T.fits values.now }
{
    let mut left = values;
    'each: while let Some((value, others)) = left.split_first() {
        value.read();
        left = others;
    }
}
