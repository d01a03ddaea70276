//! A desk with its seats.
ghost use Rattle.std.specs.Prelude.{
  ◌≡◌,
  ◌≤◌,
  [],
  None,
  length,
  All,
  IfOk,
  IfErr,
  vec_len,
  vec_capacity,
};
ghost use Rattle.ixp_desk_lock.specs.Facts.{Log};
ghost use Rattle.ixp_desk_lock.specs.Openings.{AllZero};
ghost use Rattle.ixp_desk.specs.Openings.{AreSeats};

use crate::opening::Desk;
use crate::shared::Shared;
use ixp_board::{BoardName, Copies, Note, Seat, open};
use ixp_desk_history::DeskStory;
use ixp_desk_lock::{DeskSeat, Locked};
use ixp_io::Keeper;
use std::alloc::{AllocError, Global};

/// A desk that one caller has alone.
pub type AloneDesk<P, N> = Locked<P, N, Copies<Note<DeskStory, N>>>;

/// A desk that threads share.
pub type SharedDesk<P, N> = Shared<P, N, Copies<Note<DeskStory, N>>>;

/// The memory for so many seats and for their counts of turns.
fn rooms<N: BoardName>(
    alloc: Global,
    seats: u32,
) -> Result<(Vec<u64>, Vec<DeskSeat<N>>), AllocError>
    ensures counts { IfOk result (λ x. AllZero x.0.items) }
    ensures none { IfOk result (λ x. x.1.items ≡ []) }
    ensures empty { IfOk result (λ x. vec_len x.1 ≡ 0) }
    ensures room { IfOk result (λ x. seats ≤ vec_capacity x.1) }
{
    let mut counts = Vec::new(alloc);
    counts.resize(seats as usize, 0)?;
    let room = Vec::with_capacity(alloc, seats as usize)?;
    Ok((counts, room))
}

/// Seats of the desk, numbered from 0.
fn numbered<N: BoardName>(
    taken: Vec<Seat<DeskStory, N>>,
    room: Vec<DeskSeat<N>>,
) -> Vec<DeskSeat<N>>
    requires empty { vec_len room ≡ 0 }
    requires none { room.items ≡ [] }
    requires room { vec_len taken ≤ vec_capacity room }
    ensures count { length result.items ≡ length taken.items }
    ensures seats { (log : Log) → All (λ s. s ≡ log) taken.items → AreSeats 0 log result.items }
{
    let mut left = taken;
    let mut seats = room;
    let mut number = 0;
    'each: while let Some(seat) = left.pop() {
        seats.push_reserved(DeskSeat::new(number, seat));
        number += 1;
    }
    seats
}

impl<P: Keeper + Drop> Desk<P> {
    /// The desk for one caller, with its seats, none of which has made a turn. Where memory runs out the desk
    /// comes back.
    pub fn alone<N: BoardName>(self) -> Result<(AloneDesk<P, N>, Vec<DeskSeat<N>>), Desk<P>>
        requires name { self.0 ≡ N.book }
        ensures desk { IfOk result (λ x. x.0 ≡ (self.1, None)) }
        ensures count { IfOk result (λ x. length x.1.items ≡ self.2) }
        ensures seats { IfOk result (λ x. AreSeats 0 self.1 x.1.items) }
        ensures err { IfErr result (λ d. d ≡ self) }
    {
        let Desk {
            alloc,
            opened,
            state,
            keeper,
            seats,
        } = self;
        let Ok((counts, room)) = rooms::<N>(alloc, seats) else {
            return Err(Desk {
                alloc,
                opened,
                state,
                keeper,
                seats,
            });
        };
        match open::<DeskStory, N>(alloc, opened, seats) {
            Err((_, opened)) => Err(Desk {
                alloc,
                opened,
                state,
                keeper,
                seats,
            }),
            Ok((pen, taken)) => {
                let desk = Locked::new(alloc, state, keeper, pen, counts);
                Ok((desk, numbered(taken, room)))
            }
        }
    }

    /// The desk for threads, with its seats, none of which has made a turn. Where memory runs out the desk
    /// comes back.
    pub fn share<N: BoardName>(self) -> Result<(SharedDesk<P, N>, Vec<DeskSeat<N>>), Desk<P>>
        requires name { self.0 ≡ N.book }
        ensures count { IfOk result (λ x. length x.1.items ≡ self.2) }
        ensures seats { IfOk result (λ x. AreSeats 0 self.1 x.1.items) }
        ensures err { IfErr result (λ d. d ≡ self) }
    {
        match self.alone::<N>() {
            Err(desk) => Err(desk),
            Ok((desk, seats)) => Ok((Shared::new(desk), seats)),
        }
    }
}
