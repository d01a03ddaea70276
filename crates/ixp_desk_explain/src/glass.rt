//! A looking glass.
use crate::readings::Readings;
use ixp_board::{BoardName, Note, Publish};
use ixp_desk::DeskSeat;
use ixp_glass::{Glass, SharedReports};
use ixp_glass_holds::{GlassDesk, GlassSeat, HoldStory};
use std::alloc::Global;

/// The routes that sessions are known to announce, the reports that were made of them last, and the
/// configurations that were read last. Threads share it: there is a lock round each.
pub struct LookingGlass<M: BoardName, V: Publish<Note<HoldStory, M>>> {
    pub(crate) holds: GlassDesk<M, V>,
    pub(crate) reports: SharedReports,
    pub(crate) readings: Readings,
}

// It is written out, so that crates above don't prove again how each part is dropped.
impl<M: BoardName, V: Publish<Note<HoldStory, M>>> Drop for LookingGlass<M, V> {
    fn drop(self) {
        let LookingGlass {
            holds: _,
            reports: _,
            readings: _,
        } = self;
    }
}

/// What a link's caller has seen of a desk, and of the routes that sessions hold.
pub type LinkSeats<N, M> = (DeskSeat<N>, GlassSeat<M>);

impl<M: BoardName, V: Publish<Note<HoldStory, M>>> LookingGlass<M, V> {
    /// A looking glass over these holds, of which no report was made and no configuration was read yet. It
    /// does not allocate.
    pub fn new(alloc: Global, holds: GlassDesk<M, V>) -> LookingGlass<M, V> {
        LookingGlass {
            holds,
            reports: SharedReports::new(Glass::open(alloc)),
            readings: Readings::new(alloc),
        }
    }
}
