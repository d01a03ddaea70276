//! Questions of callers.
ghost use Rattle.std.specs.Prelude.{◌≡◌, ◌<◌, ◌^◌, ◌-◌, ℕ, None, OnOk, OnErr, IfOk, IfErr};
ghost use mathlib.Core.List.{IsPrefix};
ghost use Rattle.ixp_registry.specs.Valid.{Valid};
ghost use Rattle.ixp_desk_history.specs.declared.turn.Asked.TheVariants as asked;
ghost use Rattle.ixp_desk_history.specs.Answers.{IsAnswered, is_owned, may_read, own_refusal, unless_both};
ghost use Rattle.ixp_desk_lock.specs.Calls.{Asks, FaultSays, One, OwnTexts};
ghost use Rattle.ixp_desk_lock.specs.Facts.{HasAccepted, IsQuestion, KeepsExport, Replies};
ghost use Rattle.ixp_desk_lock.specs.Given.{
  HasRoas,
  IsAnsweredAt,
  IsOwnAnswer,
  answer_given,
  text_given,
};
ghost use Rattle.ixp_desk_lock.specs.Publishing.{Adds, Level};
ghost use Rattle.ixp_desk_lock.specs.Sights.{Looks};

use crate::exporting::{KeptExport, export_at};
use crate::fault::{AskFault, TurnFault};
use crate::locked::Locked;
use crate::preparing::{kept_count, question_event, raise};
use crate::seat::DeskSeat;
use ixp_board::{BoardName, Note, Publish};
use ixp_compile_text::{GenFault, part};
use ixp_desk_history::{Answered, Asked, DeskStory, Text, Turn};
use ixp_io::Keeper;
use ixp_machine::{Answer, AskFault as Unasked, Query, ask};
use ixp_machine_steps::State;
use ixp_members::rights;
use ixp_num::{Items, Name};
use ixp_num_tables::Held;
use ixp_registry::{Handle, Kind, Owner, Refusal, Registry, Right, RowKey};
use ixp_roa::RoaTable;
use std::alloc::{AllocError, Global};
use std::sync::Wait;

/// What a question is answered of a state.
fn answer_of(
    alloc: Global,
    state: &State,
    secret: &[u8],
    query: Query,
) -> Result<Answered, AllocError>
    ensures { IfOk result (IsAnswered state.now (asked.Query secret.now query)) }
{
    match ask(alloc, &state.registry, secret, query) {
        Ok(answer) => Ok(Answered::Answer(answer)),
        Err(Unasked::Refused(refusal)) => Ok(Answered::Refused(refusal)),
        Err(Unasked::NoMemory) => Err(AllocError),
    }
}

/// What a question is answered of a state, whose export may be kept.
fn answer_kept(
    alloc: Global,
    state: &State,
    export: &mut Option<KeptExport>,
    secret: &[u8],
    query: Query,
) -> Result<Answered, AllocError>
    requires kept { KeepsExport state.now.registry export.old }
    ensures answered { IfOk result (IsAnswered state.now (asked.Query secret.now query)) }
    ensures kept { KeepsExport state.now.registry export.new }
{
    match query {
        Query::Ixf { second } => {
            let text = export_at(alloc, &state.registry, export, second)?;
            Ok(Answered::Answer(Answer::Json(text)))
        }
        _ => answer_of(alloc, state, secret, query),
    }
}

/// What is given of an answer to a question.
fn answer_given(answered: Answered) -> Result<Answer, AskFault>
    ensures { result ≡ answer_given answered }
{
    match answered {
        Answered::Answer(answer) => Ok(answer),
        Answered::Refused(refusal) => Err(AskFault::Refused(refusal)),
        Answered::NoSession => Err(AskFault::NoSession),
        Answered::Text(_) => Err(AskFault::NoMemory),
        Answered::Place(_) => Err(AskFault::NoMemory),
    }
}

/// What is given of an answer to a question for a session's own text.
fn text_given(answered: Answered) -> Result<Text, AskFault>
    ensures { result ≡ text_given answered }
{
    match answered {
        Answered::Text(text) => Ok(text),
        Answered::Refused(refusal) => Err(AskFault::Refused(refusal)),
        Answered::NoSession => Err(AskFault::NoSession),
        Answered::Answer(_) => Err(AskFault::NoMemory),
        Answered::Place(_) => Err(AskFault::NoMemory),
    }
}

/// Whether the interface is there, and is the member's.
fn is_owned(registry: &Registry, member: u32, interface: u32) -> bool
    ensures { result ≡ is_owned registry.now member interface }
{
    match registry.interfaces.find(&interface) {
        Some(interface) => interface.member == member,
        None => false,
    }
}

/// Whether the owner may ask for the texts of sessions at the interface.
fn may_read(registry: &Registry, owner: Owner, interface: u32) -> bool
    ensures { result ≡ may_read registry.now owner interface }
{
    match owner {
        Owner::Staff(_) => true,
        Owner::Member(member) => is_owned(registry, member, interface),
    }
}

/// X4, where the interface isn't there, or the router.
fn unless_both(registry: &Registry, router: &Name, interface: u32) -> Option<Refusal>
    ensures { result ≡ unless_both registry.now router.now interface }
{
    if registry.interfaces.find(&interface).is_none() {
        return Some(Refusal::Unknown {
            table: Kind::Interfaces,
            key: RowKey::Number(interface),
        });
    }
    if registry.routers.find(router).is_none() {
        return Some(Refusal::Unknown {
            table: Kind::Routers,
            key: RowKey::Handle(Handle::of(router)),
        });
    }
    None
}

/// Why the text of the router's session at the interface is refused, if it is.
fn own_refusal(registry: &Registry, secret: &[u8], router: &Name, interface: u32) -> Option<Refusal>
    ensures { result ≡ own_refusal registry.now secret.now router.now interface }
{
    let Some(owner) = rights(registry, secret) else {
        return Some(Refusal::NoKey);
    };
    if may_read(registry, owner, interface) {
        return unless_both(registry, router, interface);
    }
    Some(Refusal::Denied {
        right: Right::Staff,
    })
}

/// The text of the router's session at the interface, with a table of the registry's ROAs.
#[tactic(auto, using(ixp_compile_text::proofs::Bounds::high_fits))]
fn own_part(
    alloc: Global,
    state: &State,
    roas: Held<RoaTable>,
    router: &Name,
    interface: u32,
) -> Result<Answered, AllocError>
    requires valid { Valid state.now.registry }
    requires roas { roas ≡ state.now.registry.public.roas }
    ensures { IfOk result (IsOwnAnswer state.now router.now interface) }
{
    match part(alloc, &state.registry, router, interface) {
        Ok(text) => Ok(Answered::Text(Text {
            built: state.accepted,
            bytes: Items::from_vec(text),
            roas,
        })),
        Err(GenFault::NoSession) => Ok(Answered::NoSession),
        Err(_) => Err(AllocError),
    }
}

/// What is answered to a question for the text of the router's session at the interface.
#[tactic(auto, using(crate::proofs::OwnAnswers::own_answered))]
fn own_answer(
    alloc: Global,
    state: &State,
    roas: Held<RoaTable>,
    secret: &[u8],
    router: &Name,
    interface: u32,
) -> Result<Answered, AllocError>
    requires valid { Valid state.now.registry }
    requires roas { roas ≡ state.now.registry.public.roas }
    ensures { IfOk result (IsAnswered state.now (asked.OwnText secret.now router.now interface)) }
{
    if let Some(refusal) = own_refusal(&state.registry, secret, router, interface) {
        return Ok(Answered::Refused(refusal));
    }
    own_part(alloc, state, roas, router, interface)
}

impl<P: Keeper + Drop, N: BoardName, W: Publish<Note<DeskStory, N>>> Locked<P, N, W> {
    /// Makes the seat level: nothing is owed, and the seat has seen the whole history.
    pub(crate) fn level<R: Wait>(&mut self, rt: &R, seat: &mut DeskSeat<N>) -> Result<(), TurnFault>
        ensures looks { Looks seat.old seat.new }
        ensures ok { OnOk result (Level self.new seat.new) }
        ensures room { OnOk result (seat.new.1 < 2 ^ 64 - 2) }
        ensures err { IfErr result (λ x. FaultSays x seat.old seat.new) }
    {
        self.settle(rt)?;
        self.compare(seat)?;
        self.show(seat)?;
        Ok(())
    }

    /// Makes the turn of a question of a seat that is level.
    pub(crate) fn put_question<R: Wait>(
        &mut self,
        rt: &R,
        seat: &mut DeskSeat<N>,
        asked: Asked,
        answered: &Answered,
    ) -> Result<(), AllocError>
        requires level { Level self.old seat.old }
        requires room { seat.old.1 < 2 ^ 64 - 1 }
        requires replies { Replies self.old.0 asked answered.now }
        ensures ok { OnOk result (Adds (One (IsQuestion asked answered.now)) seat.old seat.new) }
        ensures accepted { OnOk result ((n : ℕ) → HasAccepted self.old.0 n → HasAccepted self.new.0 n) }
        ensures level { OnOk result (Level self.new seat.new) }
        ensures seat { OnErr result (seat.new ≡ seat.old) }
        ensures err { OnErr result (self.new ≡ self.old) }
    {
        let Some(_kept) = kept_count(self.counts.as_slice(), seat.number()) else {
            return Err(AllocError);
        };
        let turn = Turn {
            seat: seat.number(),
            number: seat.count(),
            event: question_event(asked, answered),
            view: self.pen.view().shared()?,
        };
        let note = self.pen.put(rt, &turn)?;
        raise(&mut self.counts, turn.seat, turn.number);
        seat.made(note);
        Ok(())
    }

    /// A table of the present registry's ROAs: the bundle's, unless an edit touched them since.
    fn present_roas(&self) -> Result<Held<RoaTable>, AllocError>
        requires none { self.now.1 ≡ None }
        ensures { IfOk result (HasRoas self.now.0) }
    {
        if self.pending.has_roas() {
            let table = RoaTable::new(self.alloc, self.state.registry.public.roas.as_slice())?;
            return Held::new(self.alloc, table);
        }
        self.pen.view().get().bundle.get().shared_roas()
    }

    /// What a question is answered.
    fn answered(&mut self, secret: &[u8], query: Query) -> Result<Answered, AllocError>
        requires none { self.old.1 ≡ None }
        ensures ok { IfOk result (IsAnsweredAt self.old.0 (asked.Query secret.now query)) }
        ensures same { self.new ≡ self.old }
    {
        answer_kept(self.alloc, &self.state, &mut self.export, secret, query)
    }

    /// A question of a caller: its turn says what was answered.
    pub fn ask<R: Wait>(
        &mut self,
        rt: &R,
        seat: &mut DeskSeat<N>,
        secret: &[u8],
        query: Query,
    ) -> Result<Answer, AskFault>
        ensures number { seat.new.0 ≡ seat.old.0 }
        ensures seen { IsPrefix seat.old.2 seat.new.2 }
        ensures turns { Asks secret.now query result seat.old seat.new }
    {
        self.level(rt, seat)?;
        let answered = self.answered(secret, query)?;
        let asked = Asked::Query {
            secret: Items::from_slice(self.alloc, secret)?,
            query,
        };
        self.put_question(rt, seat, asked, &answered)?;
        answer_given(answered)
    }

    /// A caller's question for the text of the router's session at the interface, of the present version.
    pub fn own_text<R: Wait>(
        &mut self,
        rt: &R,
        seat: &mut DeskSeat<N>,
        secret: &[u8],
        router: &Name,
        interface: u32,
    ) -> Result<Text, AskFault>
        ensures number { seat.new.0 ≡ seat.old.0 }
        ensures seen { IsPrefix seat.old.2 seat.new.2 }
        ensures turns { OwnTexts secret.now router.now interface result seat.old seat.new }
    {
        self.level(rt, seat)?;
        let roas = self.present_roas()?;
        let answered = own_answer(self.alloc, self.state(), roas, secret, router, interface)?;
        let asked = Asked::OwnText {
            secret: Items::from_slice(self.alloc, secret)?,
            router: router.copied(self.alloc)?,
            interface,
        };
        self.put_question(rt, seat, asked, &answered)?;
        text_given(answered)
    }
}
