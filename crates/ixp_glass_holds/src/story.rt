//! The story that a board tells of holds.
ghost use Rattle.std.specs.Prelude.{◌≡◌, OnOk};
ghost use Rattle.ixp_glass_holds.specs.Holds.{with_hold};

use crate::hold::{Hold, HoldView};
use ixp_board::Story;
use ixp_num_tables::{Copied, Held, Table};
use std::alloc::{AllocError, Global};

/// Makes a session hold what the turn says.
pub(crate) fn set_hold(alloc: Global, rows: &mut Table<Hold>, hold: &Hold) -> Result<(), AllocError>
    ensures { OnOk result (rows.new ≡ with_hold hold.now rows.old) }
{
    if hold.routes.get().is_empty() {
        rows.take_out(&hold.session);
        return Ok(());
    }
    rows.put(hold.copied(alloc)?)
}

/// What a board shows of holds: after each turn what all sessions hold. A board that takes a turn keeps the
/// history legal.
pub struct HoldStory;

impl Story for HoldStory {
    ghost use Rattle.ixp_glass_holds.specs.Holds.{Legal, held_after};

    type First = ();

    type Op = Hold;

    type View = HoldView;

    ghost legal = { Legal };

    ghost fold = { held_after };

    #[tactic(auto, using(crate::proofs::Turns::held_snoc))]
    fn step(alloc: Global, view: &HoldView, hold: &Hold) -> Result<HoldView, AllocError> {
        let mut rows = view.get().get().copied(alloc)?;
        set_hold(alloc, &mut rows, hold)?;
        Held::new(alloc, Held::new(alloc, rows)?)
    }

    fn share(_alloc: Global, view: &HoldView) -> Result<HoldView, AllocError> {
        view.shared()
    }

    fn apart(alloc: Global, view: &HoldView) -> Result<HoldView, AllocError> {
        Held::new(alloc, view.get().shared()?)
    }
}
