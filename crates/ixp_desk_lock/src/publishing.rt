//! Configurations that are handed out under the lock.
ghost use Rattle.std.specs.Prelude.{◌≡◌, ◌<◌, ◌^◌, ◌-◌, ℕ, None, OnOk, OnErr, IfOk, IfErr};
ghost use mathlib.Core.List.{IsPrefix};
ghost use Rattle.ixp_board.specs.Histories.{IsLegal};
ghost use Rattle.ixp_desk_history.specs.Legal.{Legal};
ghost use Rattle.ixp_desk_lock.specs.Calls.{One};
ghost use Rattle.ixp_desk_lock.specs.Published.{
  Brings,
  IsBuilt,
  IsInstall,
  IsLow,
  PlaceSays,
  Places,
  PubSays,
  Publishes,
  Reads,
  ReadsAt,
  greater,
};
ghost use Rattle.ixp_desk_lock.specs.Publishing.{Adds, Level};

use crate::fault::PubFault;
use crate::locked::Locked;
use crate::seat::DeskSeat;
use ixp_board::{BoardName, Note, Publish};
use ixp_desk_history::{Answered, Asked, DeskStory, Shown, Text};
use ixp_io::Keeper;
use ixp_machine::place_of;
use ixp_num::{Items, Name};
use ixp_registry::Owner;
use std::alloc::{AllocError, Global};
use std::sync::Wait;

/// The text of the router with the handle, of what is shown.
pub fn text_shown(alloc: Global, shown: &Shown, router: &Name) -> Result<Option<Text>, AllocError>
    ensures { IfOk result (Reads shown.now router.now) }
{
    let bundle = shown.bundle.get();
    let Some(bytes) = bundle.text(alloc, router)? else {
        return Ok(None);
    };
    let roas = bundle.shared_roas()?;
    Ok(Some(Text {
        built: bundle.built(),
        bytes: Items::from_vec(bytes),
        roas,
    }))
}

fn greater(a: u64, b: u64) -> u64
    ensures { result ≡ greater a b }
{
    if a < b { b } else { a }
}

impl<P: Keeper + Drop, N: BoardName, W: Publish<Note<DeskStory, N>>> Locked<P, N, W> {
    /// After how many accepted edits the owner's edit stands that was seen, by a turn of the seat; 0 where
    /// none is named.
    fn seen_place<R: Wait>(
        &mut self,
        rt: &R,
        seat: &mut DeskSeat<N>,
        owner: Owner,
        seen: Option<u64>,
    ) -> Result<u64, PubFault>
        requires level { Level self.old seat.old }
        requires room { seat.old.1 < 2 ^ 64 - 1 }
        ensures ok { IfOk result (λ place. Adds (Places owner seen place) seat.old seat.new) }
        ensures low { IfOk result (IsLow self.new.0) }
        ensures level { Level self.new seat.new }
        ensures err { IfErr result (λ x. PlaceSays owner seen x seat.old seat.new) }
    {
        let state = self.state();
        let Some(number) = seen else {
            return Ok(0);
        };
        let place = place_of(state, &owner, number);
        let asked = Asked::Seen { owner, number };
        self.put_question(rt, seat, asked, &Answered::Place(place))?;
        match place {
            Some(place) => Ok(place),
            None => Err(PubFault::SeenUnknown { number }),
        }
    }

    /// The text of the router with the handle, as it is shown.
    fn shown(&self, router: &Name) -> Result<Option<Text>, AllocError>
        requires none { self.now.1 ≡ None }
        ensures { IfOk result
            (λ o. (need : ℕ) → IsBuilt need self.now.0 → ReadsAt self.now.0 need router.now o) }
    {
        text_shown(self.alloc, self.pen.view().get(), router)
    }

    /// The text of the router with the handle of the present version, which is installed by a turn of the
    /// seat. All memory for the text is taken before.
    fn install_text<R: Wait>(
        &mut self,
        rt: &R,
        seat: &mut DeskSeat<N>,
        router: &Name,
    ) -> Result<Option<Text>, AllocError>
        requires level { Level self.old seat.old }
        requires room { seat.old.1 < 2 ^ 64 - 1 }
        ensures turns { OnOk result (Adds (One IsInstall) seat.old seat.new) }
        ensures text { IfOk result
            (λ o. (need : ℕ) → IsLow self.old.0 need → ReadsAt self.new.0 need router.now o) }
        ensures level { Level self.new seat.new }
        ensures err { OnErr result (seat.new ≡ seat.old) }
    {
        let made = self.pending_made()?;
        let upto = made.upto;
        let turn = self.installation(seat, made)?;
        let text = text_shown(self.alloc, turn.view.get(), router)?;
        self.put_installation(rt, seat, &turn, upto)?;
        Ok(text)
    }

    /// The text of the router with the handle, of what is shown if that has `need` accepted edits, and else
    /// of the present version, which is installed.
    fn bring_text<R: Wait>(
        &mut self,
        rt: &R,
        seat: &mut DeskSeat<N>,
        router: &Name,
        need: u64,
    ) -> Result<Option<Text>, AllocError>
        requires level { Level self.old seat.old }
        requires room { seat.old.1 < 2 ^ 64 - 1 }
        requires low { IsLow self.old.0 need }
        ensures turns { OnOk result (Adds (Brings self.old.0 need) seat.old seat.new) }
        ensures text { IfOk result (ReadsAt self.new.0 need router.now) }
        ensures level { Level self.new seat.new }
        ensures err { OnErr result (seat.new ≡ seat.old) }
    {
        seat.is_legal();
        if need <= self.built() {
            return self.shown(router);
        }
        self.install_text(rt, seat, router)
    }

    /// The text of the router with the handle, of a version that has `must` accepted edits and the owner's
    /// edit that was seen; None where that version has no such router. What the seat has seen has at least
    /// `must` accepted edits.
    pub fn publish<R: Wait>(
        &mut self,
        rt: &R,
        seat: &mut DeskSeat<N>,
        owner: Owner,
        router: &Name,
        must: u64,
        seen: Option<u64>,
    ) -> Result<Option<Text>, PubFault>
        requires must { IsLow seat.old.2 must }
        requires legal { IsLegal Legal seat.old.2 }
        ensures number { seat.new.0 ≡ seat.old.0 }
        ensures seen { IsPrefix seat.old.2 seat.new.2 }
        ensures ok { IfOk result (λ o. Publishes owner must seen router.now o seat.old seat.new) }
        ensures fault { IfErr result (λ x. PubSays owner seen x seat.old seat.new) }
    {
        self.level(rt, seat)?;
        let place = self.seen_place(rt, seat, owner, seen)?;
        seat.is_legal();
        let need = greater(must, place);
        let text = self.bring_text(rt, seat, router, need)?;
        Ok(text)
    }
}
