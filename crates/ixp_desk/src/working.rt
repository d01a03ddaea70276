//! Texts that are made while the lock is free.
ghost use Rattle.std.specs.Prelude.{IfOk, IfErr};
ghost use Rattle.ixp_board.specs.Histories.{IsLegal};
ghost use Rattle.ixp_desk_history.specs.Legal.{Legal};
ghost use Rattle.ixp_build.specs.Orders.{HasBounds, made_from};
ghost use Rattle.ixp_desk_lock.specs.Calls.{FaultSays, Grows};
ghost use Rattle.ixp_desk_lock.specs.Facts.{IsOrdered};
ghost use Rattle.ixp_desk.specs.Works.{Finishes, Works};

use crate::shared::Shared;
use ixp_board::{BoardName, Note, Publish};
use ixp_build::{Order, make};
use ixp_desk_history::DeskStory;
use ixp_desk_lock::{DeskSeat, Put, Taken, TurnFault};
use ixp_io::{Gate, Keeper};
use std::alloc::Global;
use std::sync::Wait;

/// What a worker's turn came to.
#[derive(Debug, Drop)]
pub enum WorkTurn {
    /// Texts of the version `upto` were made and installed.
    Built { upto: u64 },
    /// The texts of the present version were shown already. It was installed once more.
    Nothing { built: u64 },
    /// Others were installed while texts were made of the version `asked`: those of `current` are shown. What
    /// was made is dropped.
    Late { current: u64, asked: u64 },
}

/// Makes texts of the order, and installs them.
fn finish<P: Keeper + Drop, N: BoardName, W: Publish<Note<DeskStory, N>>, R: Wait>(
    rt: &R,
    alloc: Global,
    shared: &Shared<P, N, W>,
    seat: &mut DeskSeat<N>,
    order: Order,
) -> Result<WorkTurn, TurnFault>
    requires bounds { HasBounds order }
    requires legal { IsLegal Legal seat.old.2 }
    requires ordered { IsOrdered seat.old.2 (made_from order) }
    ensures grows { Grows seat.old seat.new }
    ensures ok { IfOk result (λ w. Finishes (made_from order) w seat.old seat.new) }
    ensures fault { IfErr result (λ x. FaultSays x seat.old seat.new) }
{
    let made = make(alloc, order)?;
    let put = shared.lock.lock(rt).put_made(rt, seat, made);
    seat.is_legal();
    match put? {
        Put::Built { upto } => Ok(WorkTurn::Built { upto }),
        Put::Late { current, asked } => Ok(WorkTurn::Late { current, asked }),
    }
}

/// Takes an order of all texts that are pending, makes them while the lock is free, and installs them, unless
/// others were installed since. The gate is passed at place 1, between the order and the making.
pub fn worker_turn<
    P: Keeper + Drop,
    N: BoardName,
    W: Publish<Note<DeskStory, N>>,
    R: Wait,
    G: Gate,
>(
    rt: &R,
    alloc: Global,
    shared: &Shared<P, N, W>,
    seat: &mut DeskSeat<N>,
    gate: &G,
) -> Result<WorkTurn, TurnFault>
    ensures grows { Grows seat.old seat.new }
    ensures ok { IfOk result (λ w. Works w seat.old seat.new) }
    ensures fault { IfErr result (λ x. FaultSays x seat.old seat.new) }
{
    seat.is_legal();
    let taken = shared.lock.lock(rt).take_order(rt, seat);
    seat.is_legal();
    match taken? {
        Taken::Nothing { built } => Ok(WorkTurn::Nothing { built }),
        Taken::Ordered(order) => {
            gate.at(1);
            finish(rt, alloc, shared, seat, order)
        }
    }
}
