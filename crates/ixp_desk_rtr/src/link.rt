//! The link of a router.
ghost use Rattle.std.specs.Prelude.{◌≡◌, ◌≤◌, IfOk, IfErr, MatchBool};
ghost use Rattle.ixp_io.specs.Faults.{Rose};
ghost use Rattle.ixp_rtr.specs.Answers.{pdus_of};
ghost use Rattle.ixp_desk_rtr.specs.Routers.{IsOther, Serves, WasAnswered};
ghost use Rattle.ixp_desk_rtr.specs.Steps.{end_of, Refuses, Settles, Steps, Tells, WasRefused};

use crate::cache::RoaCache;
use ixp_board::BoardName;
use ixp_desk::{Desks, TurnFault};
use ixp_io::{Sink, Source};
use ixp_rtr::{Answer, Query, QueryFault, read_query, write, write_fault};
use std::sync::{Mutex, Wait};

/// How many queries of a link are answered at most.
pub const QUERY_LIMIT: u32 = 100_000;

/// Why a router's link ended.
#[derive(Clone, Copy, Debug, PartialEq, Eq, Drop)]
pub enum RtrEnd {
    /// The input ended between two queries.
    Closed,
    /// What stood there is no query, or a query of another session. The Error Report on it was written whole.
    Bad,
    /// The router sent an Error Report.
    Peer,
    /// The input ended inside a query.
    Cut,
    /// [`QUERY_LIMIT`] queries were answered.
    Spent,
    /// A read failed.
    ReadFault,
    /// A write failed.
    WriteFault,
    /// Y4: the seat's count of turns isn't the one that is kept.
    SeatCount { seat: u64, kept: u64 },
    /// Y5: the count of the seat's turns is at its end.
    Ended { count: u64 },
    NoMemory,
}

// How a link ends whose query can't be answered.
fn end_of(fault: TurnFault) -> RtrEnd
    ensures { result ≡ end_of fault }
{
    match fault {
        TurnFault::SeatCount { seat, kept } => RtrEnd::SeatCount { seat, kept },
        TurnFault::Ended { count } => RtrEnd::Ended { count },
        TurnFault::NoMemory => RtrEnd::NoMemory,
    }
}

// Whether the answer is the Error Report on a query of another session.
fn is_other(answer: &Answer) -> bool
    ensures { MatchBool result (IsOther (pdus_of answer.now)) (IsOther (pdus_of answer.now) → ⊥) }
{
    matches!(answer, Answer::OtherSession { .. })
}

// Takes the answer to a query, under the lock.
fn take<R: Wait, N: BoardName, D: Desks<N>>(
    rt: &R,
    desk: &mut D,
    cache: &Mutex<RoaCache<N>>,
    query: &Query,
) -> Result<Answer, TurnFault>
    ensures ok { IfOk result (λ a. WasAnswered query.now (pdus_of a)) }
    ensures fault { IfErr result WasRefused }
{
    cache.lock(rt).answer(rt, desk, query)
}

// Writes an answer that was taken. The link ends behind one to a query of another session.
fn write_taken<L: Source + Sink>(link: &mut L, answer: &Answer) -> Option<RtrEnd>
    ensures tells { Tells (pdus_of answer.now) (L.written link.old) (L.written link.new)
        (Rose (L.write_faults link.old) (L.write_faults link.new)) result }
    ensures writes { L.write_faults link.old ≤ L.write_faults link.new }
    ensures left { L.left link.new ≡ L.left link.old }
    ensures reads { L.read_faults link.new ≡ L.read_faults link.old }
{
    if write(answer, link).is_err() {
        return Some(RtrEnd::WriteFault);
    }
    if is_other(answer) {
        return Some(RtrEnd::Bad);
    }
    None
}

// Answers a query that was read.
fn settle<R: Wait, N: BoardName, D: Desks<N>, L: Source + Sink>(
    rt: &R,
    desk: &mut D,
    cache: &Mutex<RoaCache<N>>,
    link: &mut L,
    query: &Query,
) -> Option<RtrEnd>
    ensures settles { Settles query.now (L.written link.old) (L.written link.new)
        (Rose (L.write_faults link.old) (L.write_faults link.new)) result }
    ensures writes { L.write_faults link.old ≤ L.write_faults link.new }
    ensures left { L.left link.new ≡ L.left link.old }
    ensures reads { L.read_faults link.new ≡ L.read_faults link.old }
{
    match take(rt, desk, cache, query) {
        Ok(answer) => write_taken(link, &answer),
        Err(fault) => Some(end_of(fault)),
    }
}

// Reports what is no query, if that may be reported.
fn refuse<L: Source + Sink>(link: &mut L, fault: &QueryFault) -> RtrEnd
    ensures refuses { Refuses fault.now (L.written link.old) (L.written link.new)
        (Rose (L.write_faults link.old) (L.write_faults link.new)) result }
    ensures writes { L.write_faults link.old ≤ L.write_faults link.new }
    ensures left { L.left link.new ≡ L.left link.old }
    ensures reads { L.read_faults link.new ≡ L.read_faults link.old }
{
    if write_fault(fault, link).is_err() {
        return RtrEnd::WriteFault;
    }
    match fault {
        QueryFault::Version { .. }
        | QueryFault::Type { .. }
        | QueryFault::Request { .. }
        | QueryFault::Length { .. } => RtrEnd::Bad,
        QueryFault::Peer => RtrEnd::Peer,
        QueryFault::Cut => RtrEnd::Cut,
        QueryFault::ReadFault => RtrEnd::ReadFault,
    }
}

// Reads the next query of a link and answers it. Where the link ends, says how.
fn exchange<R: Wait, N: BoardName, D: Desks<N>, L: Source + Sink>(
    rt: &R,
    desk: &mut D,
    cache: &Mutex<RoaCache<N>>,
    link: &mut L,
) -> Option<RtrEnd>
    ensures steps { Steps (L.left link.old) (L.left link.new) (L.written link.old) (L.written link.new)
        (Rose (L.read_faults link.old) (L.read_faults link.new))
        (Rose (L.write_faults link.old) (L.write_faults link.new)) result }
    ensures reads { L.read_faults link.old ≤ L.read_faults link.new }
    ensures writes { L.write_faults link.old ≤ L.write_faults link.new }
{
    match read_query(link) {
        Ok(Query::End) => Some(RtrEnd::Closed),
        Ok(Query::Reset) => settle(rt, desk, cache, link, &Query::Reset),
        Ok(Query::Serial { session, serial }) => {
            let query = Query::Serial { session, serial };
            settle(rt, desk, cache, link, &query)
        }
        Err(QueryFault::ReadFault) => Some(RtrEnd::ReadFault),
        Err(fault) => Some(refuse(link, &fault)),
    }
}

/// Serves the link of a router to its end: each query is answered by the cache, once that was brought up to
/// date under its lock. A link has at most [`QUERY_LIMIT`] queries.
pub fn rtr_link<R: Wait, N: BoardName, D: Desks<N>, L: Source + Sink>(
    rt: &R,
    desk: &mut D,
    cache: &Mutex<RoaCache<N>>,
    link: &mut L,
) -> RtrEnd
    ensures serves { Serves (L.left link.old) (L.left link.new) (L.written link.old) (L.written link.new)
        (Rose (L.read_faults link.old) (L.read_faults link.new))
        (Rose (L.write_faults link.old) (L.write_faults link.new)) result }
    ensures reads { L.read_faults link.old ≤ L.read_faults link.new }
    ensures writes { L.write_faults link.old ≤ L.write_faults link.new }
{
    for _answered in 0..QUERY_LIMIT {
        if let Some(end) = exchange(rt, desk, cache, link) {
            return end;
        }
    }
    RtrEnd::Spent
}
