//! Links that workers serve side by side.
ghost use Rattle.std.specs.Prelude.{◌≤◌, length};

use ixp_io::{Clock, Failed, MemLink, MemSink, MemSource, Plan, SetClock, Sink, Source};
use ixp_io_holds::{Hold, HoldDoor, HoldLink, TURNS};
use ixp_io_workers::{Background, Help, Helpers, Host, serve, serve_helped};
use ixp_num_tables::Items;
use std::alloc::{AllocError, Global};
use std::collections::VecDeque;
use std::sync::atomic::{AtomicU64, Ordering};
use std::sync::{Condvar, Mutex, Wait};
use std::test::Fail;
use std::thread::Threads;

/// Whether there is work, and whether more may come.
#[derive(Drop)]
struct Bell {
    rung: bool,
    ended: bool,
}

/// Answers each byte with the byte itself. What it does in the background is to count. A seat counts what is
/// done on it, from a number of its own on.
#[derive(Drop)]
struct Echo {
    ended: AtomicU64,
    seats: AtomicU64,
    turns: AtomicU64,
    bell: Mutex<Bell>,
    heard: Condvar,
}

impl Echo {
    fn new() -> Echo {
        Echo {
            ended: AtomicU64::new(0),
            seats: AtomicU64::new(0),
            turns: AtomicU64::new(0),
            bell: Mutex::new(Bell {
                rung: false,
                ended: false,
            }),
            heard: Condvar::new(),
        }
    }
}

impl Background for Echo {
    type Seat = u64;

    fn turn<R: Wait>(&self, _rt: &R, seat: &mut u64) {
        *seat = seat.saturating_add(1);
        self.turns.store(*seat, Ordering::SeqCst);
    }

    fn has_work<R: Wait>(&self, rt: &R) -> bool {
        let mut bell = self
            .heard
            .wait_while(rt, self.bell.lock(rt), |bell| !bell.rung && !bell.ended);
        let rung = bell.rung;
        bell.rung = false;
        rung
    }

    fn end<R: Wait>(&self, rt: &R) {
        self.bell.lock(rt).ended = true;
        self.heard.notify_all();
    }
}

// Reads a byte and writes it back. False where the link has ended.
fn answer<L: Source + Sink>(link: &mut L) -> Result<bool, Failed> {
    let mut byte = [0];
    if link.read(&mut byte)? == 0 {
        return Ok(false);
    }
    link.write(&byte)?;
    Ok(true)
}

fn answer_all<L: Source + Sink>(link: &mut L) -> Result<(), Failed> {
    for _ in 0..100u32 {
        if !answer(link)? {
            return Ok(());
        }
    }
    Err(Failed)
}

impl<L: Source + Sink> Host<L> for Echo {
    ghost hosted = { λ before link after left. Unit {0} };

    fn host<R: Wait, C: Clock>(&self, rt: &R, seat: &mut u64, link: &mut L, clock: &mut C) {
        *seat = seat.saturating_add(1);
        self.seats.fetch_add(*seat, Ordering::SeqCst);
        if answer_all(link).is_ok() && clock.now() == 7 {
            self.ended.fetch_add(1, Ordering::SeqCst);
        }
        self.bell.lock(rt).rung = true;
        self.heard.notify_one();
    }
}

/// Answers as [`Echo`] does, and counts the links that ended as they should.
#[derive(Drop)]
struct Counting<'a> {
    ended: &'a AtomicU64,
}

impl<L: Source + Sink> Help<L> for Counting<'_> {
    ghost helped = { λ before after. Unit {0} };

    fn help<R: Wait>(&self, _rt: &R, link: &mut L) {
        if answer_all(link).is_ok() {
            self.ended.fetch_add(1, Ordering::SeqCst);
        }
    }
}

fn link<'a>(alloc: Global, hold: &'a Hold, told: &'a Hold) -> Result<HoldLink<'a>, AllocError> {
    let link = MemLink {
        source: MemSource::new(Items::from_slice(alloc, b"ab")?, Plan::smooth(alloc)),
        sink: MemSink::new(alloc, Plan::smooth(alloc)),
    };
    Ok(HoldLink::new(link, 1, hold, told))
}

// Two links that wait for each other.
fn waiting<'a>(
    alloc: Global,
    first: &'a Hold,
    second: &'a Hold,
) -> Result<VecDeque<HoldLink<'a>>, AllocError> {
    first.close();
    second.close();
    let mut links = VecDeque::new(alloc);
    links.push_back(link(alloc, first, second)?)?;
    links.push_back(link(alloc, second, first)?)?;
    Ok(links)
}

fn door<'a>(alloc: Global, first: &'a Hold, second: &'a Hold) -> Result<HoldDoor<'a>, AllocError> {
    Ok(HoldDoor::new(waiting(alloc, first, second)?, None))
}

/// What came of links.
#[derive(PartialEq, Drop)]
struct Outcome {
    /// How many ended as they should.
    ended: u64,
    /// The sum of what the seats stood at, each time that one served a link.
    seats: u64,
    /// There was a turn in the background.
    turned: bool,
    /// The door failed.
    failed: bool,
}

// Serves so many links of the door, and tells whether the door failed.
fn fails<R: Threads + Wait + Sync>(
    rt: &R,
    alloc: Global,
    door: &mut HoldDoor<'_>,
    host: &Echo,
    seats: &[u64],
    links: u64,
) -> Result<bool, AllocError>
    requires { 1 ≤ length seats.now }
{
    let seats = Vec::from_slice(alloc, seats)?;
    let mut clock = SetClock::new(7);
    let done = serve(rt, alloc, door, &mut clock, host, seats, links)?;
    Ok(done.is_err())
}

/// By links that wait for each other for so many turns.
fn served<R: Threads + Wait + Sync>(
    rt: &R,
    alloc: Global,
    turns: u32,
    seats: &[u64],
    links: u64,
) -> Result<Outcome, AllocError>
    requires { 1 ≤ length seats.now }
{
    let first = Hold::for_turns(turns);
    let second = Hold::for_turns(turns);
    let mut door = door(alloc, &first, &second)?;
    let host = Echo::new();
    let failed = fails(rt, alloc, &mut door, &host, seats, links)?;
    Ok(Outcome {
        ended: host.ended.load(Ordering::SeqCst),
        seats: host.seats.load(Ordering::SeqCst),
        turned: host.turns.load(Ordering::SeqCst) > 0,
        failed,
    })
}

// Two links that wait for each other are served side by side, so each of two seats serves one of them.
#[test]
fn links_that_wait_for_each_other_have_a_seat_each(rt: HostRuntime) -> Result<(), Fail> {
    let have = served(&rt, rt.alloc(), TURNS, &[0, 200, 300], 2)?;
    let want = Outcome {
        ended: 2,
        seats: 201 + 301,
        turned: true,
        failed: false,
    };
    assert!(rt; have == want);
    Ok(())
}

// One seat serves both links: beside the background's, or with its work.
#[test]
fn one_seat_leaves_a_link_waiting(rt: HostRuntime) -> Result<(), Fail> {
    let worker = served(&rt, rt.alloc(), 100, &[0, 200], 2)?;
    let alone = served(&rt, rt.alloc(), 100, &[0], 2)?;
    let want = |seats| Outcome {
        ended: 1,
        seats,
        turned: true,
        failed: false,
    };
    assert!(rt; worker == want(201 + 202));
    assert!(rt; alone == want(1 + 3));
    Ok(())
}

#[test]
fn a_door_without_a_further_link_fails(rt: HostRuntime) -> Result<(), Fail> {
    let have = served(&rt, rt.alloc(), TURNS, &[0, 200, 300], 3)?;
    assert!(rt; have.ended == 2 && have.failed);
    Ok(())
}

// How many links of a further door are asked for, and how many it gave and ended as they should, while the
// first door gives none.
fn helped<R: Threads + Wait + Sync>(
    rt: &R,
    alloc: Global,
    links: u64,
) -> Result<(u64, u64), AllocError> {
    let first = Hold::for_turns(TURNS);
    let second = Hold::for_turns(TURNS);
    let further = HoldDoor::new(waiting(alloc, &first, &second)?, None);
    let ended = AtomicU64::new(0);
    let helpers = Helpers::new(further, links, Counting { ended: &ended });
    let mut door = HoldDoor::new(VecDeque::new(alloc), None);
    let mut clock = SetClock::new(7);
    let mut seats = Vec::new(alloc);
    seats.push(0)?;
    let host = Echo::new();
    let _served = serve_helped(rt, alloc, &mut door, &mut clock, &host, seats, 0, &helpers)?;
    let (given, _further) = helpers.finish(rt);
    Ok((given, ended.load(Ordering::SeqCst)))
}

// Two links that wait for each other are served side by side; a door without a third one gives two.
#[test]
fn helpers_serve_links_side_by_side(rt: HostRuntime) -> Result<(), Fail> {
    assert!(rt; helped(&rt, rt.alloc(), 2)? == (2, 2));
    assert!(rt; helped(&rt, rt.alloc(), 3)? == (2, 2));
    Ok(())
}
