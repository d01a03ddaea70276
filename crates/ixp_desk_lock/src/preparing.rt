//! What turns are going to leave, with all memory for it.
ghost use Rattle.std.specs.Prelude.{
  ◌≡◌,
  ◌<◌,
  ◌^◌,
  ◌+◌,
  ◌-◌,
  Some,
  None,
  IfOk,
  OnOk,
  OnErr,
  IfSome,
  length,
  get_or,
  set,
};
ghost use Rattle.ixp_build.specs.Orders.{installed};
ghost use Rattle.ixp_build_touches.specs.Touched.{reached};
ghost use Rattle.ixp_registry_change.specs.Changes.{with_change};
ghost use Rattle.ixp_machine.specs.declared.decision.Decision.TheVariants.{Accepted};
ghost use Rattle.ixp_desk_history.specs.declared.turn.Event.TheVariants.{Fault, Install};
ghost use Rattle.ixp_desk_lock.specs.Facts.{
  Accepts,
  IsEdit,
  IsQuestion,
  NotesReach,
  ShowsInstalled,
  ShowsNext,
  noted_owed,
  reach_in,
};

use crate::owed::Owed;
use ixp_build::{Bundle, Made, Pending};
use ixp_build_touches::{Reached, reached_by};
use ixp_desk_commits::keys_after;
use ixp_desk_history::{Answered, Asked, Event, Shown, Turn, View};
use ixp_machine::Decision;
use ixp_machine_steps::{Entry, State};
use ixp_num_tables::Held;
use ixp_registry::Owner;
use ixp_registry_change::RegistryChange;
use std::alloc::{AllocError, Global};
use std::snapshot::Snapshot;

/// What an edit is going to leave.
#[derive(Drop)]
pub(crate) struct Ready {
    pub(crate) turn: Turn,
    pub(crate) reached: Reached,
    /// What readers see before it.
    pub(crate) same: View,
}

/// What readers see after a change.
fn next_view(
    alloc: Global,
    view: &View,
    state: &State,
    change: &RegistryChange,
) -> Result<View, AllocError>
    requires keys { view.now.keys ≡ state.now.registry.keys }
    requires room { state.now.accepted < 2 ^ 64 - 1 }
    ensures accepted { IfOk result (λ v. v.accepted ≡ state.now.accepted + 1) }
    ensures keys { IfOk result (λ v. v.keys ≡ (with_change state.now.registry change.now).keys) }
    ensures bundle { IfOk result (λ v. v.bundle ≡ view.now.bundle) }
{
    let shown = view.get();
    let keys = keys_after(alloc, &shown.keys, change)?;
    let bundle = shown.bundle.shared()?;
    Held::new(
        alloc,
        Shown {
            accepted: state.accepted + 1,
            keys,
            bundle,
        },
    )
}

/// The event of an edit.
pub(crate) fn edit_event(entry: &Entry, decision: &Decision) -> Event
    ensures { IsEdit result entry.now decision.now }
{
    Event::Edit(Snapshot::of(entry), Snapshot::of(decision))
}

/// The event of an edit that is accepted for its owner.
pub(crate) fn accepted_event(owner: Owner, entry: &Entry) -> Event
    ensures { Accepts result entry.now }
{
    edit_event(entry, &Decision::Accepted(owner))
}

/// The event of a question.
pub(crate) fn question_event(asked: Asked, answered: &Answered) -> Event
    ensures { IsQuestion asked answered.now result }
{
    Event::Question(asked, Snapshot::of(answered))
}

/// Makes the turn of a seat ready that says the event, whose edit makes the change.
pub(crate) fn make_ready(
    alloc: Global,
    state: &State,
    view: &View,
    seat: u64,
    number: u64,
    event: Event,
    change: &RegistryChange,
) -> Result<Ready, AllocError>
    requires keys { view.now.keys ≡ state.now.registry.keys }
    requires room { state.now.accepted < 2 ^ 64 - 1 }
    ensures seat { IfOk result (λ r. r.turn.seat ≡ seat) }
    ensures number { IfOk result (λ r. r.turn.number ≡ number) }
    ensures event { IfOk result (λ r. r.turn.event ≡ event) }
    ensures shows { IfOk result (λ r. ShowsNext view.now state.now change.now r.turn.view) }
    ensures reached { IfOk result (λ r. r.reached ≡ reached state.now.registry change.now) }
    ensures same { IfOk result (λ r. r.same ≡ view.now) }
{
    let same = view.shared()?;
    let reached = reached_by(alloc, &state.registry, change)?;
    let view = next_view(alloc, view, state, change)?;
    Ok(Ready {
        turn: Turn {
            seat,
            number,
            event,
            view,
        },
        reached,
        same,
    })
}

/// The edit's turn is owed.
pub(crate) fn take_up(owed: &mut Option<Owed>, ready: Ready)
    ensures { owed.new ≡ Some (record { turn = ready.turn; reached = Some ready.reached }) }
{
    *owed = Some(Owed {
        turn: ready.turn,
        reached: Some(ready.reached),
    });
}

/// The turn of a fault of the store is owed.
pub(crate) fn owe_fault(owed: &mut Option<Owed>, count: u64, ready: Ready)
    ensures { owed.new ≡ Some
        (record {
          turn = record {
            seat = ready.turn.seat;
            number = ready.turn.number;
            event = Fault count;
            view = ready.same;
          };
          reached = None;
        }) }
{
    let turn = Turn {
        seat: ready.turn.seat,
        number: ready.turn.number,
        event: Event::Fault(count),
        view: ready.same,
    };
    *owed = Some(Owed {
        turn,
        reached: None,
    });
}

/// A turn is owed that touches nothing.
pub(crate) fn owe_turn(owed: &mut Option<Owed>, turn: Turn)
    ensures { owed.new ≡ Some (record { turn = turn; reached = None }) }
{
    *owed = Some(Owed {
        turn,
        reached: None,
    });
}

/// The count of a seat's turns, where it has a place.
pub(crate) fn kept_count(counts: &[u64], seat: u64) -> Option<u64>
    ensures there { IfSome result (λ n. seat < length counts.now) }
    ensures count { IfSome result (λ n. n ≡ get_or counts.now seat 0) }
{
    let seat = seat as usize;
    if seat < counts.len() {
        Some(counts[seat])
    } else {
        None
    }
}

/// Counts a turn of a seat, which has made so many before.
pub(crate) fn raise(counts: &mut Vec<u64>, seat: u64, number: u64)
    requires there { seat < length counts.old.items }
    requires room { number < 2 ^ 64 - 1 }
    ensures { counts.new.items ≡ set counts.old.items seat (number + 1) }
{
    counts[seat as usize] = number + 1;
}

/// Notes what the edit touched whose turn is owed. Where memory runs out all is as before.
pub(crate) fn note_owed(
    alloc: Global,
    state: &State,
    pending: &mut Pending,
    owed: &mut Option<Owed>,
) -> Result<(), AllocError>
    requires { IfSome (reach_in owed.old) (λ x. 0 < state.now.accepted) }
    ensures owed { OnOk result (owed.new ≡ noted_owed owed.old) }
    ensures pending { OnOk result (NotesReach state.now (reach_in owed.old) pending.old pending.new) }
    ensures no_owed { OnErr result (owed.new ≡ owed.old) }
    ensures no_pending { OnErr result (pending.new ≡ pending.old) }
{
    let Some(some) = owed else {
        return Ok(());
    };
    let Some(reached) = &some.reached else {
        return Ok(());
    };
    let touch = reached.touch_after(alloc, &state.registry)?;
    pending.note(alloc, &touch, state.accepted)?;
    some.reached = None;
    Ok(())
}

/// The bundle with texts that were made of an order of it.
fn with_texts(alloc: Global, bundle: &Bundle, made: Made) -> Result<Bundle, AllocError>
    ensures { IfOk result (λ b. b ≡ installed bundle.now made) }
{
    let mut next = bundle.share(alloc)?;
    match next.install(alloc, made) {
        Ok(()) => Ok(next),
        Err(_) => Err(AllocError),
    }
}

/// What readers see once the texts are installed.
fn installed_view(alloc: Global, view: &View, made: Made) -> Result<View, AllocError>
    ensures { IfOk result (ShowsInstalled view.now made) }
{
    let shown = view.get();
    let bundle = with_texts(alloc, shown.bundle.get(), made)?;
    let keys = shown.keys.shared()?;
    let bundle = Held::new(alloc, bundle)?;
    Held::new(
        alloc,
        Shown {
            accepted: shown.accepted,
            keys,
            bundle,
        },
    )
}

/// The turn of an installation.
pub(crate) fn install_turn(
    alloc: Global,
    view: &View,
    seat: u64,
    number: u64,
    made: Made,
) -> Result<Turn, AllocError>
    ensures seat { IfOk result (λ t. t.seat ≡ seat) }
    ensures number { IfOk result (λ t. t.number ≡ number) }
    ensures event { IfOk result (λ t. t.event ≡ Install made.upto) }
    ensures shows { IfOk result (λ t. ShowsInstalled view.now made t.view) }
{
    let upto = made.upto;
    let view = installed_view(alloc, view, made)?;
    Ok(Turn {
        seat,
        number,
        event: Event::Install(upto),
        view,
    })
}
