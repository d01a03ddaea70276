//! Boards of holds with their seats.
ghost use Rattle.std.specs.Prelude.{◌≡◌, length, All, IfOk, IfErr};

use crate::opening::Holds;
use crate::story::HoldStory;
use ixp_board::{BoardName, Copies, Note, OpenPen, Pen, Publish, Seat, open};
use std::sync::Mutex;

/// A caller's seat. Contracts see what it has seen of the history.
pub type GlassSeat<N> = Seat<HoldStory, N>;

/// A board of holds that one caller has alone: its pen.
pub type AloneGlass<N> = OpenPen<HoldStory, N>;

/// A board of holds that threads share: a lock round its pen. Its type keeps which board it is, so a seat of
/// another one can't be used with it.
#[derive(Drop)]
pub struct GlassDesk<N: BoardName, W: Publish<Note<HoldStory, N>>> {
    pub(crate) lock: Mutex<Pen<HoldStory, N, W>>,
}

/// The board as [`Holds::share`] gives it.
pub type SharedGlass<N> = GlassDesk<N, Copies<Note<HoldStory, N>>>;

impl<N: BoardName, W: Publish<Note<HoldStory, N>>> GlassDesk<N, W> {
    /// A lock round the pen. It does not allocate.
    pub fn new(pen: Pen<HoldStory, N, W>) -> GlassDesk<N, W> {
        GlassDesk {
            lock: Mutex::new(pen),
        }
    }
}

impl Holds {
    /// The board for one caller, with its seats, each of which has seen that nothing is held. Where memory
    /// runs out all comes back.
    pub fn alone<N: BoardName>(self) -> Result<(AloneGlass<N>, Vec<GlassSeat<N>>), Holds>
        requires name { self.0 ≡ N.book }
        ensures pen { IfOk result (λ x. x.0 ≡ self.1) }
        ensures count { IfOk result (λ x. length x.1.items ≡ self.2) }
        ensures seats { IfOk result (λ x. All (λ seat. seat ≡ self.1) x.1.items) }
        ensures err { IfErr result (λ h. h ≡ self) }
    {
        let Holds {
            alloc,
            opened,
            seats,
        } = self;
        match open::<HoldStory, N>(alloc, opened, seats) {
            Ok(board) => Ok(board),
            Err((_, opened)) => Err(Holds {
                alloc,
                opened,
                seats,
            }),
        }
    }

    /// The board for threads, likewise.
    pub fn share<N: BoardName>(self) -> Result<(SharedGlass<N>, Vec<GlassSeat<N>>), Holds>
        requires name { self.0 ≡ N.book }
        ensures count { IfOk result (λ x. length x.1.items ≡ self.2) }
        ensures seats { IfOk result (λ x. All (λ seat. seat ≡ self.1) x.1.items) }
        ensures err { IfErr result (λ h. h ≡ self) }
    {
        match self.alone::<N>() {
            Ok((pen, seats)) => Ok((GlassDesk::new(pen), seats)),
            Err(holds) => Err(holds),
        }
    }
}
