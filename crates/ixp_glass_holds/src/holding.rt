//! Turns of the pen that make sessions hold routes.
ghost use Rattle.std.specs.Prelude.{◌≡◌, Some, None, OnOk, OnErr, All};
ghost use mathlib.Core.List.{IsPrefix};
ghost use Rattle.ixp_board.specs.Histories.{IsLegal, with_turn};
ghost use Rattle.ixp_glass_holds.specs.Calls.{Grows, IsRefused, MakesHold};
ghost use Rattle.ixp_glass_holds.specs.Holds.{IsWellFormed, Legal};

use crate::fault::HoldFault;
use crate::hold::Hold;
use crate::looking::is_legal;
use crate::refusing::refusal;
use crate::sharing::GlassSeat;
use crate::story::HoldStory;
use ixp_board::{BoardName, Note, Pen, Publish};
use ixp_num::Family;
use std::alloc::AllocError;
use std::sync::Wait;

/// Why the session may not hold the routes, by what the pen's history has.
fn refused<N: BoardName, W: Publish<Note<HoldStory, N>>>(
    pen: &Pen<HoldStory, N, W>,
    family: Family,
    hold: &Hold,
) -> Option<HoldFault>
    ensures { IsRefused pen.now family hold.now result }
{
    refusal(pen.view().get().get(), family, hold)
}

/// Makes the turn, which the seat then has seen.
fn make<R: Wait, N: BoardName, W: Publish<Note<HoldStory, N>>>(
    rt: &R,
    pen: &mut Pen<HoldStory, N, W>,
    seat: &mut GlassSeat<N>,
    family: Family,
    hold: &Hold,
) -> Result<(), AllocError>
    requires begins { IsPrefix seat.old pen.old }
    requires formed { All IsWellFormed hold.now.routes }
    requires free { IsRefused pen.old family hold.now None }
    ensures ok { OnOk result (seat.new ≡ with_turn pen.old hold.now) }
    ensures err { OnErr result (seat.new ≡ seat.old) }
{
    let _view = pen.view();
    let note = pen.put(rt, hold)?;
    seat.learn(note);
    Ok(())
}

/// Makes the session hold the routes, or says why not.
pub(crate) fn hold_by<R: Wait, N: BoardName, W: Publish<Note<HoldStory, N>>>(
    rt: &R,
    pen: &mut Pen<HoldStory, N, W>,
    seat: &mut GlassSeat<N>,
    family: Family,
    hold: &Hold,
) -> Result<(), HoldFault>
    requires formed { All IsWellFormed hold.now.routes }
    ensures grows { Grows seat.old seat.new }
    ensures makes { MakesHold family hold.now result seat.old seat.new }
{
    is_legal(seat);
    if !pen.covers(seat) {
        return Err(HoldFault::NoMemory);
    }
    if let Some(fault) = refused(pen, family, hold) {
        pen.teach(seat)?;
        is_legal(seat);
        return Err(fault);
    }
    make(rt, pen, seat, family, hold)?;
    is_legal(seat);
    Ok(())
}
