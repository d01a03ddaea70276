//! A lock over a history without turns.
ghost use Rattle.std.specs.Prelude.{◌≡◌, None};
ghost use Rattle.ixp_desk_lock.specs.Openings.{AllZero, BeginsAt};
ghost use Rattle.ixp_desk_lock.specs.Facts.{Stored};

use crate::locked::Locked;
use ixp_board::{BoardName, Note, Pen, Publish};
use ixp_build::Pending;
use ixp_desk_history::DeskStory;
use ixp_io::Keeper;
use ixp_machine_steps::State;
use std::alloc::Global;

impl<P: Keeper + Drop, N: BoardName, W: Publish<Note<DeskStory, N>>> Locked<P, N, W> {
    /// The lock of a desk that was just opened: no seat has made a turn, nothing is pending, and nothing is
    /// owed. The counts are those of the seats, by their numbers. It does not allocate.
    pub fn new(
        alloc: Global,
        state: State,
        keeper: P,
        pen: Pen<DeskStory, N, W>,
        counts: Vec<u64>,
    ) -> Locked<P, N, W>
        requires stored { Stored (P.table keeper) state }
        requires begins { BeginsAt state (P.faults keeper) pen }
        requires counts { AllZero counts.items }
        ensures { result ≡ (pen, None) }
    {
        let _view = pen.view(); // for the proof alone: what is shown is that of the history
        Locked {
            alloc,
            state,
            pending: Pending::new(alloc),
            export: None,
            counts,
            owed: None,
            pen,
            keeper,
        }
    }
}
