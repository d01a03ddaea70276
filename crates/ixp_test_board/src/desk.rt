//! A small desk: a lock round a pen and a turn that may be owed. It meets what the pen asks of its caller,
//! and what it asks of its own callers is nothing.
ghost use Rattle.std.specs.Prelude.{◌≡◌, OnOk, OnErr, MatchBool, length};
ghost use mathlib.Core.List.{IsPrefix};
ghost use Rattle.ixp_test_board.specs.Desks.{all_of, EndsWith};

use crate::looks::{begun, sum_seen};
use crate::sums::Sum;
use ixp_board::{BoardName, Note, Opened, Pen, Publish, Seat, open};
use std::alloc::{AllocError, Global};
use std::marker::{Brand, Model};
use std::sync::{Mutex, Wait};
use std::test::Fail;
use std::thread::{Threads, join};

/// What lies under the lock. Contracts see the pen's history and the turn that is owed.
#[derive(Drop)]
struct Desk<N: BoardName, W: Publish<Note<Sum<u64>, N>>> {
    pen: Pen<Sum<u64>, N, W>,
    owed: Option<u64>,
}

impl<N: BoardName, W: Publish<Note<Sum<u64>, N>>> Model for Desk<N, W> {
    ghost use Rattle.std.specs.Prelude.{ℕ, List, Option};
    ghost use Rattle.ixp_board.specs.declared.entry.Entry.{Entry};
    ghost use Rattle.ixp_test_board.specs.Desks.{MayMake};

    ghost Value = { List (Entry ℕ ℕ) × Option ℕ };

    ghost view = { λ d. (d.pen, d.owed) };

    ghost invariant = { λ d. MayMake d.pen d.owed };
}

impl<N: BoardName, W: Publish<Note<Sum<u64>, N>>> Desk<N, W> {
    fn new(pen: Pen<Sum<u64>, N, W>) -> Desk<N, W>
        ensures { result ≡ (pen, None) }
    {
        Desk { pen, owed: None }
    }

    /// Makes the turn that is owed, if there is one.
    fn settle<R: Wait>(&mut self, rt: &R) -> Result<(), AllocError>
        ensures ok { OnOk result (self.new ≡ (all_of self.old, None)) }
        ensures err { OnErr result (self.new ≡ self.old) }
    {
        let Some(turn) = &self.owed else {
            return Ok(());
        };
        self.pen.put(rt, turn)?;
        self.owed = None;
        Ok(())
    }

    /// Owes a turn, if the sum stays below 2^64.
    fn owe(&mut self, turn: u64) -> bool
        requires { self.old.1 ≡ None }
        ensures { MatchBool result (self.new ≡ (self.old.0, Some turn)) (self.new ≡ self.old) }
    {
        let Some(_sum) = self.pen.view().get().checked_add(turn) else {
            return false;
        };
        self.owed = Some(turn);
        true
    }

    /// Makes a turn for a seat, which then has seen it. Where memory runs out the turn wasn't made, is owed,
    /// or stands.
    fn submit<R: Wait>(
        &mut self,
        rt: &R,
        seat: &mut Seat<Sum<u64>, N>,
        turn: u64,
    ) -> Result<(), AllocError>
        ensures seen { IsPrefix seat.old seat.new }
        ensures whole { OnOk result (self.new ≡ (seat.new, None)) }
        ensures own { OnOk result (EndsWith seat.old turn seat.new) }
    {
        self.settle(rt)?;
        if !self.pen.covers(seat) || !self.owe(turn) {
            return Err(AllocError);
        }
        self.settle(rt)?;
        self.pen.teach(seat)
    }
}

/// Makes a turn for a seat, in any thread.
fn submit<N: BoardName, W: Publish<Note<Sum<u64>, N>>, R: Wait>(
    rt: &R,
    desk: &Mutex<Desk<N, W>>,
    seat: &mut Seat<Sum<u64>, N>,
    turn: u64,
) -> Result<(), AllocError>
    ensures seen { IsPrefix seat.old seat.new }
    ensures own { OnOk result (EndsWith seat.old turn seat.new) }
{
    desk.lock(rt).submit(rt, seat, turn)
}

/// Whether the desk takes three turns of a seat.
fn three_taken<N: BoardName, W: Publish<Note<Sum<u64>, N>>, R: Wait>(
    rt: &R,
    desk: &Mutex<Desk<N, W>>,
    seat: &mut Seat<Sum<u64>, N>,
    turn: u64,
) -> bool {
    for _ in 0..3 {
        if submit(rt, desk, seat, turn).is_err() {
            return false;
        }
    }
    true
}

/// Whether two threads submit three turns each, after which a third seat looks at the sum of all.
fn both_submit<
    N: BoardName + Send + Sync,
    W: Publish<Note<Sum<u64>, N>> + Send,
    R: Threads + Wait + Sync,
>(rt: &R, desk: &Mutex<Desk<N, W>>, seats: &mut [Seat<Sum<u64>, N>]) -> bool
    requires { length seats.old ≡ 3 }
{
    let (one, rest) = seats.split_at_mut(1);
    let (two, third) = rest.split_at_mut(1);
    let taken = join(
        rt,
        || three_taken(rt, desk, &mut one[0], 1),
        || three_taken(rt, desk, &mut two[0], 10),
    );
    taken == (true, true) && sum_seen(&mut third[0]) == Ok(33)
}

fn both_submit_on_a_desk<N: BoardName + Send + Sync, R: Threads + Wait + Sync>(
    rt: &R,
    alloc: Global,
    opened: Opened<Sum<u64>>,
) -> bool
    requires { opened.0 ≡ N.book }
{
    let Ok((pen, mut seats)) = open::<Sum<u64>, N>(alloc, opened, 3) else {
        return false;
    };
    let desk = Mutex::new(Desk::new(pen));
    both_submit(rt, &desk, seats.as_mut_slice())
}

#[test]
fn two_threads_share_a_desk(rt: HostRuntime) -> Result<(), Fail> {
    let opened = begun(rt.alloc())?;
    assert!(rt; both_submit_on_a_desk::<Brand, _>(&rt, rt.alloc(), opened));
    Ok(())
}
