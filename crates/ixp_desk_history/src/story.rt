//! The story that a board tells of a desk.
ghost use Rattle.std.specs.Prelude.{◌≡◌, IfOk};

use crate::turn::{First, Shown, Turn, View};
use ixp_board::Story;
use ixp_num_tables::Held;
use std::alloc::{AllocError, Global};

/// What a board shows of a desk: after each turn the view that it carries. A board that takes a turn keeps
/// the history legal.
pub struct DeskStory;

impl Story for DeskStory {
    ghost use Rattle.ixp_desk_history.specs.Legal.{Legal};
    ghost use Rattle.ixp_desk_history.specs.Turns.{shown_after};

    type First = First;

    type Op = Turn;

    type View = View;

    ghost legal = { Legal };

    ghost fold = { shown_after };

    #[tactic(auto, using(crate::proofs::Snocs::shown_snoc))]
    fn step(_alloc: Global, _view: &View, turn: &Turn) -> Result<View, AllocError> {
        turn.view.shared()
    }

    fn share(_alloc: Global, view: &View) -> Result<View, AllocError> {
        view.shared()
    }

    fn apart(alloc: Global, view: &View) -> Result<View, AllocError> {
        let shown = view.get();
        Held::new(
            alloc,
            Shown {
                accepted: shown.accepted,
                keys: shown.keys.shared()?,
                bundle: shown.bundle.shared()?,
            },
        )
    }
}
