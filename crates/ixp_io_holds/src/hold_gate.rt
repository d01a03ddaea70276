//! A gate that can be closed.
use crate::Hold;
use ixp_io::Gate;

/// A gate that holds the compile worker at one place. Where the hold fails, the worker goes on.
#[derive(Drop)]
pub struct HoldGate<'a> {
    hold: &'a Hold,
    place: u32,
}

impl<'a> HoldGate<'a> {
    /// A gate that holds the worker at this place.
    pub fn new(hold: &'a Hold, place: u32) -> HoldGate<'a> {
        HoldGate { hold, place }
    }
}

impl Gate for HoldGate<'_> {
    fn at(&self, place: u32) {
        if place == self.place {
            self.hold.pass();
        }
    }
}
