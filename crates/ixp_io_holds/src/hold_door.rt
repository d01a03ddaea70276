//! A door that gives links that are held.
ghost use Rattle.std.specs.Prelude.{◌≡◌, ◌≤◌, Some};

use crate::HoldLink;
use ixp_io::{Door, Failed};
use std::collections::VecDeque;

/// A door that gives these links, the first one first. With none left `accept` counts a fault, and so does
/// `second` where no links for a further door are left.
#[derive(Drop)]
pub struct HoldDoor<'a> {
    links: VecDeque<HoldLink<'a>>,
    further: Option<VecDeque<HoldLink<'a>>>,
    given: u64,
    faults: u64,
}

impl<'a> HoldDoor<'a> {
    /// A door with these links, which gave none yet, and those of a further door.
    pub fn new(
        links: VecDeque<HoldLink<'a>>,
        further: Option<VecDeque<HoldLink<'a>>>,
    ) -> HoldDoor<'a>
        ensures given { result.given ≡ 0 }
        ensures faults { result.faults ≡ 0 }
    {
        HoldDoor {
            links,
            further,
            given: 0,
            faults: 0,
        }
    }
}

impl<'a> Door for HoldDoor<'a> {
    type Link = HoldLink<'a>;

    ghost links = { λ door. Some door.given };

    ghost faults = { λ door. door.faults };

    fn listen(&mut self, _port: u16) -> Result<(), Failed> {
        Ok(())
    }

    fn accept(&mut self) -> Result<HoldLink<'a>, Failed> {
        if self.given < u64::MAX
            && let Some(link) = self.links.pop_front()
        {
            self.given += 1;
            return Ok(link);
        }
        self.faults = self.faults.saturating_add(1);
        Err(Failed)
    }

    fn second(&mut self, _port: u16) -> Result<HoldDoor<'a>, Failed> {
        match self.further.take() {
            Some(links) => Ok(HoldDoor::new(links, None)),
            None => {
                self.faults = self.faults.saturating_add(1);
                Err(Failed)
            }
        }
    }
}
