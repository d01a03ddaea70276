//! Opening a board of holds.
ghost use Rattle.std.specs.Prelude.{◌≡◌, ◌<◌, ◌≤◌, [], IfOk};
ghost use Rattle.ixp_board.specs.Histories.{entries};

use crate::story::HoldStory;
use ixp_board::{Opened, begin};
use ixp_num_tables::{Held, Table};
use std::alloc::{AllocError, Global};
use std::marker::Model;

/// A board of holds that was opened, and has no name yet. Contracts see which board it is, its history, and
/// how many seats it is to have.
#[derive(Drop)]
pub struct Holds {
    pub(crate) alloc: Global,
    pub(crate) opened: Opened<HoldStory>,
    pub(crate) seats: u32,
}

impl Model for Holds {
    ghost use Rattle.std.specs.Prelude.{◌<◌, ℕ, List};
    ghost use Rattle.logbook.specs.Pages.{Book};
    ghost use Rattle.ixp_board.specs.declared.entry.Entry.{Entry};
    ghost use Rattle.ixp_glass_holds.specs.declared.hold.Hold.{Hold};

    ghost Value = { Book × List (Entry (Unit {0}) Hold) × ℕ };

    ghost view = { λ h. (h.opened.0, h.opened.1, h.seats) };

    ghost invariant = { λ h. 0 < h.seats };
}

/// Opens a board of holds, with 1 to 64 seats. Nothing is held.
pub fn open_glass(alloc: Global, seats: u32) -> Result<Holds, AllocError>
    requires some { 0 < seats }
    requires few { seats ≤ 64 }
    ensures begins { IfOk result (λ h. h.1 ≡ entries tt []) }
    ensures seats { IfOk result (λ h. h.2 ≡ seats) }
{
    let rows = Held::new(alloc, Table::new(alloc))?;
    let view = Held::new(alloc, rows)?;
    Ok(Holds {
        alloc,
        opened: begin::<HoldStory>(&(), view),
        seats,
    })
}
