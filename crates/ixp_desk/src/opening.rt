//! Opening a desk over a store.
ghost use Rattle.std.specs.Prelude.{◌≡◌, ◌<◌, ◌≤◌, [], None, IfOk, IfErr};
ghost use Rattle.ixp_board.specs.Histories.{entries};
ghost use Rattle.ixp_machine_steps.specs.States.{ValidState};
ghost use Rattle.ixp_desk_history.specs.declared.turn.First.{First as Begins};
ghost use Rattle.ixp_desk_lock.specs.Facts.{KeepsStore, Stored};
ghost use Rattle.ixp_desk_lock.specs.Openings.{ShowsFirst};
ghost use Rattle.ixp_desk.specs.Openings.{Opens};

use ixp_board::{Opened, begin};
use ixp_build::Bundle;
use ixp_desk_history::{DeskStory, First, Shown, View};
use ixp_io::Keeper;
use ixp_machine_steps::State;
use ixp_num_tables::Held;
use ixp_store_load::load;
use ixp_store_words::LoadFault;
use std::alloc::{AllocError, Global};
use std::marker::Model;

/// A desk that was opened, and has no name yet. Contracts see which board its history is published on, the
/// history, which has no turns, and how many seats it is to have.
#[derive(Drop)]
pub struct Desk<P: Keeper + Drop> {
    pub(crate) alloc: Global,
    pub(crate) opened: Opened<DeskStory>,
    pub(crate) state: State,
    pub(crate) keeper: P,
    pub(crate) seats: u32,
}

impl<P: Keeper + Drop> Model for Desk<P> {
    ghost use Rattle.std.specs.Prelude.{◌<◌, ℕ, List};
    ghost use Rattle.logbook.specs.Pages.{Book};
    ghost use Rattle.ixp_board.specs.declared.entry.Entry.{Entry};
    ghost use Rattle.ixp_desk_history.specs.declared.turn.First.{First};
    ghost use Rattle.ixp_desk_history.specs.declared.turn.Turn.{Turn};
    ghost use Rattle.ixp_desk_lock.specs.Facts.{Stored};
    ghost use Rattle.ixp_desk_lock.specs.Openings.{BeginsAt};

    ghost Value = { Book × List (Entry First Turn) × ℕ };

    ghost view = { λ d. (d.opened.0, d.opened.1, d.seats) };

    ghost invariant = { λ d. Stored (P.table d.keeper) d.state
        × BeginsAt d.state (P.faults d.keeper) d.opened.1
        × (0 < d.seats) };
}

/// What readers see first, twice: all texts of the state are made.
fn first_views(alloc: Global, state: &State) -> Result<(View, View), AllocError>
    requires { ValidState state.now }
    ensures shows { IfOk result (λ v. ShowsFirst state.now v.0) }
    ensures same { IfOk result (λ v. v.1 ≡ v.0) }
{
    let bundle = Bundle::open(alloc, &state.registry, state.accepted)?;
    let keys = state.registry.keys.copied(alloc)?;
    let shown = Shown {
        accepted: state.accepted,
        keys: Held::new(alloc, keys)?,
        bundle: Held::new(alloc, bundle)?,
    };
    let view = Held::new(alloc, shown)?;
    let same = view.shared()?;
    Ok((view, same))
}

/// Begins the history of the state, with what readers see first. It does not allocate.
fn begun<P: Keeper + Drop>(
    alloc: Global,
    state: State,
    keeper: P,
    view: View,
    same: View,
    seats: u32,
) -> Desk<P>
    requires valid { ValidState state }
    requires stored { Stored (P.table keeper) state }
    requires shows { ShowsFirst state view }
    requires same { same ≡ view }
    requires seats { 0 < seats }
    ensures begins { (first : Begins) × (result.1 ≡ entries first []) × (first.state ≡ state)
        × (first.faults ≡ P.faults keeper) }
    ensures seats { result.2 ≡ seats }
{
    let faults = keeper.faults();
    let first = First {
        state,
        faults,
        view: same,
    };
    let opened = begin::<DeskStory>(&first, view);
    let First {
        state,
        faults: _faults,
        view: _view,
    } = first;
    Desk {
        alloc,
        opened,
        state,
        keeper,
        seats,
    }
}

impl<P: Keeper + Drop> Desk<P> {
    /// A desk over a store that was loaded as this state, with 1 to 64 seats: all texts of the state are
    /// made. Where memory runs out the store comes back.
    pub fn over(alloc: Global, state: State, keeper: P, seats: u32) -> Result<Desk<P>, P>
        requires valid { ValidState state }
        requires stored { Stored (P.table keeper) state }
        requires some { 0 < seats }
        requires few { seats ≤ 64 }
        ensures begins { IfOk result (λ d. (first : Begins) × (d.1 ≡ entries first []) × (first.state ≡ state)
            × (first.faults ≡ P.faults keeper)) }
        ensures seats { IfOk result (λ d. d.2 ≡ seats) }
        ensures err { IfErr result (λ k. k ≡ keeper) }
    {
        match first_views(alloc, &state) {
            Ok((view, same)) => Ok(begun(alloc, state, keeper, view, same, seats)),
            Err(_) => Err(keeper),
        }
    }

    /// Takes the desk apart, and gives the store.
    pub fn close(self) -> P
        ensures { KeepsStore (self.1, None) (P.table result) (P.faults result) }
    {
        let Desk {
            alloc: _alloc,
            opened: _opened,
            state: _state,
            keeper,
            seats: _seats,
        } = self;
        keeper
    }
}

/// Opens a desk over a store, with 1 to 64 seats: loads the state that the store holds, and makes all its
/// texts. A store that can't be opened comes back: K1 where it failed, K2 where a row is damaged, K3 where it
/// is of an older version; it comes back, too, where memory runs out.
pub fn open_desk<P: Keeper + Drop>(
    alloc: Global,
    keeper: P,
    seats: u32,
) -> Result<Desk<P>, (LoadFault, P)>
    requires some { 0 < seats }
    requires few { seats ≤ 64 }
    ensures opens { Opens (λ d. d.1) P.table P.faults keeper result }
    ensures seats { IfOk result (λ d. d.2 ≡ seats) }
{
    let mut keeper = keeper;
    let state = match load(alloc, &mut keeper) {
        Ok(state) => state,
        Err(fault) => return Err((fault, keeper)),
    };
    match Desk::over(alloc, state, keeper, seats) {
        Ok(desk) => Ok(desk),
        Err(keeper) => Err((LoadFault::NoMemory, keeper)),
    }
}
