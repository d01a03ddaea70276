//! Edits and questions.
ghost use Rattle.std.specs.Prelude.{◌≡◌, ℕ};
ghost use Rattle.ixp_desk_lock.specs.Calls.{Grows};
ghost use Rattle.ixp_desk_link.specs.Turns.{AskTurn, EditTurn, TimedTurn, answer_outcome, edit_outcome};

use crate::clock::at_second;
use ixp_api::Outcome;
use ixp_board::BoardName;
use ixp_desk::{AskFault, DeskSeat, Desks, SubmitFault};
use ixp_io::Clock;
use ixp_machine::{Answer, Query, Reply};
use ixp_machine_steps::Entry;
use std::sync::Wait;

fn edit_outcome(reply: Result<Reply, SubmitFault>) -> Outcome
    ensures { result ≡ edit_outcome reply }
{
    match reply {
        Ok(reply) => Outcome::Done(reply.number),
        Err(SubmitFault::Refused(refusal)) => Outcome::Refused(refusal),
        Err(SubmitFault::KeeperFault) => Outcome::KeeperFault,
        Err(SubmitFault::SeatCount { seat, kept }) => Outcome::SeatCount { seat, kept },
        Err(SubmitFault::Ended { count }) => Outcome::Ended { count },
        Err(SubmitFault::NoMemory) => Outcome::NoMemory,
    }
}

fn answer_outcome(answer: Result<Answer, AskFault>) -> Outcome
    ensures { result ≡ answer_outcome answer }
{
    match answer {
        Ok(answer) => Outcome::Answered(answer),
        Err(AskFault::Refused(refusal)) => Outcome::Refused(refusal),
        Err(AskFault::NoSession) => Outcome::NoSession,
        Err(AskFault::SeatCount { seat, kept }) => Outcome::SeatCount { seat, kept },
        Err(AskFault::Ended { count }) => Outcome::Ended { count },
        Err(AskFault::NoMemory) => Outcome::NoMemory,
    }
}

/// What an edit is answered.
pub(crate) fn edited<R: Wait, N: BoardName, D: Desks<N>>(
    rt: &R,
    desk: &mut D,
    seat: &mut DeskSeat<N>,
    entry: Entry,
) -> Outcome
    ensures grows { Grows seat.old seat.new }
    ensures turn { EditTurn entry result seat.old seat.new }
{
    edit_outcome(desk.submit(rt, seat, entry))
}

/// What a question is answered, at the clock's second.
pub(crate) fn asked<R: Wait, N: BoardName, D: Desks<N>, C: Clock>(
    rt: &R,
    desk: &mut D,
    seat: &mut DeskSeat<N>,
    clock: &mut C,
    secret: &[u8],
    query: Query,
) -> Outcome
    ensures grows { Grows seat.old seat.new }
    ensures turn { TimedTurn secret.now query (C.given clock.old) (C.given clock.new) result seat.old
        seat.new }
{
    let at = at_second(clock, query);
    answer_outcome(desk.ask(rt, seat, secret, at))
}
