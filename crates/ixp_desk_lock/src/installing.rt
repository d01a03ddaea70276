//! Installations of texts.
ghost use Rattle.std.specs.Prelude.{◌≡◌, ◌<◌, ◌^◌, ◌-◌, ℕ, None, OnOk, OnErr, IfOk, IfErr};
ghost use mathlib.Core.List.{IsPrefix};
ghost use Rattle.ixp_registry.specs.Valid.{Valid};
ghost use Rattle.ixp_desk_history.specs.declared.turn.Event.TheVariants.{Install};
ghost use Rattle.ixp_build.specs.Orders.{HasBounds, made_from};
ghost use Rattle.ixp_desk_lock.specs.Calls.{Catches, FaultSays, Installs, One, Takes};
ghost use Rattle.ixp_board.specs.Histories.{IsViewOf};
ghost use Rattle.ixp_build.specs.declared.making.Made.{Made as Of};
ghost use Rattle.ixp_desk_history.specs.Legal.{Legal};
ghost use Rattle.ixp_desk_history.specs.Turns.{shown_after};
ghost use Rattle.ixp_desk_lock.specs.Facts.{HasAccepted, HasBuilt, IsOrdered, WasOrdered};
ghost use Rattle.ixp_desk_lock.specs.Publishing.{Adds, CatchesUp, IsInstallation, Level};

use crate::fault::TurnFault;
use crate::locked::Locked;
use crate::preparing::{install_turn, kept_count, raise};
use crate::seat::DeskSeat;
use ixp_board::{BoardName, Note, Publish};
use ixp_build::{Made, Order, Pending, make};
use ixp_desk_history::{DeskStory, Turn, View};
use ixp_io::Keeper;
use ixp_machine_steps::State;
use std::alloc::{AllocError, Global};
use std::sync::Wait;

/// What a worker is to do.
#[derive(Drop)]
pub enum Taken {
    /// Texts are to be made of this order, while the lock is free.
    Ordered(Order),
    /// Nothing: the texts of the present version, with this count, are shown.
    Nothing { built: u64 },
}

/// What an installation of texts that were made while the lock was free came to.
#[derive(Debug, Drop)]
pub enum Put {
    Built { upto: u64 },
    /// Others were installed meanwhile: the texts that are shown are of the version `current`, and the order
    /// was taken for the version `asked`.
    Late { current: u64, asked: u64 },
}

/// The texts of all that is pending, as the registry wants them now.
fn make_pending(
    alloc: Global,
    state: &State,
    pending: &Pending,
    view: &View,
) -> Result<Made, AllocError>
    requires { Valid state.now.registry }
    ensures { IfOk result (CatchesUp state.now pending.now view.now) }
{
    let texts = pending.listed(alloc)?;
    let order = view
        .get()
        .bundle
        .get()
        .order(alloc, &state.registry, state.accepted, &texts)?;
    make(alloc, order)
}

impl<P: Keeper + Drop, N: BoardName, W: Publish<Note<DeskStory, N>>> Locked<P, N, W> {
    /// The version whose texts are shown.
    pub(crate) fn built(&self) -> u64
        requires none { self.now.1 ≡ None }
        ensures { HasBuilt self.now.0 result }
    {
        self.pen.view().get().bundle.get().built()
    }

    /// The turn of a seat that installs texts, which were made of an order that was taken of the version that
    /// is shown.
    pub(crate) fn installation(&self, seat: &DeskSeat<N>, made: Made) -> Result<Turn, AllocError>
        requires none { self.now.1 ≡ None }
        requires ordered { WasOrdered self.now.0 made }
        requires from { HasBuilt self.now.0 made.from }
        ensures { IfOk result (IsInstallation self.now.0 made seat.now) }
    {
        install_turn(
            self.alloc,
            self.pen.view(),
            seat.number(),
            seat.count(),
            made,
        )
    }

    /// Makes the turn of an installation of a seat that is level, which installs the version `upto`.
    pub(crate) fn put_installation<R: Wait>(
        &mut self,
        rt: &R,
        seat: &mut DeskSeat<N>,
        turn: &Turn,
        upto: u64,
    ) -> Result<(), AllocError>
        requires level { Level self.old seat.old }
        requires room { seat.old.1 < 2 ^ 64 - 1 }
        requires turn { (m : Of) × IsInstallation self.old.0 m seat.old turn.now × (m.upto ≡ upto) }
        ensures ok { OnOk result (Adds (One (λ v. v ≡ Install upto)) seat.old seat.new) }
        ensures accepted { OnOk result ((n : ℕ) → HasAccepted self.old.0 n → HasAccepted self.new.0 n) }
        ensures built { OnOk result (HasBuilt self.new.0 upto) }
        ensures view { OnOk result (IsViewOf Legal shown_after self.new.0 turn.now.view) }
        ensures level { OnOk result (Level self.new seat.new) }
        ensures seat { OnErr result (seat.new ≡ seat.old) }
        ensures err { OnErr result (self.new ≡ self.old) }
    {
        let Some(_kept) = kept_count(self.counts.as_slice(), turn.seat) else {
            return Err(AllocError);
        };
        let _view = self.pen.view(); // for the proof alone: what is shown is that of the history
        let note = self.pen.put(rt, turn)?;
        raise(&mut self.counts, turn.seat, turn.number);
        self.pending.settle(self.alloc, upto);
        seat.made(note);
        Ok(())
    }

    /// The texts of all that is pending.
    pub(crate) fn pending_made(&self) -> Result<Made, AllocError>
        requires none { self.now.1 ≡ None }
        ensures ordered { IfOk result (IsOrdered self.now.0) }
        ensures from { IfOk result (λ m. HasBuilt self.now.0 m.from) }
        ensures upto { IfOk result (λ m. HasAccepted self.now.0 m.upto) }
    {
        make_pending(self.alloc, &self.state, &self.pending, self.pen.view())
    }

    /// Installs texts that were made of an order which was taken of the version that is shown, by a turn of a
    /// seat that is level.
    fn install_made<R: Wait>(
        &mut self,
        rt: &R,
        seat: &mut DeskSeat<N>,
        made: Made,
    ) -> Result<u64, AllocError>
        requires level { Level self.old seat.old }
        requires room { seat.old.1 < 2 ^ 64 - 1 }
        requires ordered { WasOrdered self.old.0 made }
        requires from { HasBuilt self.old.0 made.from }
        ensures ok { IfOk result (λ n. Adds (One (λ v. v ≡ Install n)) seat.old seat.new) }
        ensures upto { IfOk result (λ n. n ≡ made.upto) }
        ensures accepted { OnOk result ((n : ℕ) → HasAccepted self.old.0 n → HasAccepted self.new.0 n) }
        ensures level { OnOk result (Level self.new seat.new) }
        ensures seat { OnErr result (seat.new ≡ seat.old) }
        ensures err { OnErr result (self.new ≡ self.old) }
    {
        let upto = made.upto;
        let turn = self.installation(seat, made)?;
        self.put_installation(rt, seat, &turn, upto)?;
        Ok(upto)
    }

    /// Makes and installs all that is pending, by a turn of a seat that is level.
    #[tactic(auto, using(crate::proofs::Installs::ordered_here))]
    fn install_now<R: Wait>(&mut self, rt: &R, seat: &mut DeskSeat<N>) -> Result<u64, AllocError>
        requires level { Level self.old seat.old }
        requires room { seat.old.1 < 2 ^ 64 - 1 }
        ensures ok { IfOk result (λ n. Adds (One (λ v. v ≡ Install n)) seat.old seat.new) }
        ensures upto { IfOk result (HasAccepted self.new.0) }
        ensures accepted { OnOk result ((n : ℕ) → HasAccepted self.old.0 n → HasAccepted self.new.0 n) }
        ensures level { OnOk result (Level self.new seat.new) }
        ensures seat { OnErr result (seat.new ≡ seat.old) }
        ensures err { OnErr result (self.new ≡ self.old) }
    {
        let made = self.pending_made()?;
        self.install_made(rt, seat, made)
    }

    /// Makes and installs all that is pending, and gives the count of the version that is shown then: that of
    /// the edits that were accepted.
    pub fn catch_up<R: Wait>(&mut self, rt: &R, seat: &mut DeskSeat<N>) -> Result<u64, TurnFault>
        ensures number { seat.new.0 ≡ seat.old.0 }
        ensures seen { IsPrefix seat.old.2 seat.new.2 }
        ensures turns { Catches result seat.old seat.new }
    {
        self.level(rt, seat)?;
        let upto = self.install_now(rt, seat)?;
        Ok(upto)
    }

    /// What all texts depend on that are pending.
    fn order(&self) -> Result<Order, AllocError>
        requires none { self.now.1 ≡ None }
        ensures bounds { IfOk result HasBounds }
        ensures ordered { IfOk result (λ o. IsOrdered self.now.0 (made_from o)) }
    {
        let texts = self.pending.listed(self.alloc)?;
        let view = self.pen.view();
        let order = view.get().bundle.get().order(
            self.alloc,
            &self.state.registry,
            self.state.accepted,
            &texts,
        )?;
        Ok(order)
    }

    /// Takes an order of all that is pending, or installs the present version once more where its texts are
    /// shown.
    pub fn take_order<R: Wait>(
        &mut self,
        rt: &R,
        seat: &mut DeskSeat<N>,
    ) -> Result<Taken, TurnFault>
        ensures number { seat.new.0 ≡ seat.old.0 }
        ensures seen { IsPrefix seat.old.2 seat.new.2 }
        ensures taken { IfOk result (λ x. Takes x seat.old seat.new) }
        ensures fault { IfErr result (λ x. FaultSays x seat.old seat.new) }
    {
        self.level(rt, seat)?;
        let accepted = self.accepted();
        if self.built() == accepted {
            let built = self.install_now(rt, seat)?;
            seat.is_legal();
            return Ok(Taken::Nothing { built });
        }
        let order = self.order()?;
        Ok(Taken::Ordered(order))
    }

    /// Installs texts that were made of an order which was taken at what the seat has seen, unless others
    /// were installed since.
    pub fn put_made<R: Wait>(
        &mut self,
        rt: &R,
        seat: &mut DeskSeat<N>,
        made: Made,
    ) -> Result<Put, TurnFault>
        requires { IsOrdered seat.old.2 made }
        ensures number { seat.new.0 ≡ seat.old.0 }
        ensures seen { IsPrefix seat.old.2 seat.new.2 }
        ensures put { IfOk result (λ x. Installs made x seat.old seat.new) }
        ensures fault { IfErr result (λ x. FaultSays x seat.old seat.new) }
    {
        self.level(rt, seat)?;
        let current = self.built();
        if current != made.from {
            return Ok(Put::Late {
                current,
                asked: made.from,
            });
        }
        let upto = self.install_made(rt, seat, made)?;
        Ok(Put::Built { upto })
    }
}
