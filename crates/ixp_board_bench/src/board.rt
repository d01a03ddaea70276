//! A board whose turns publish the same bytes again.
ghost use Rattle.std.specs.Prelude.{◌≡◌, ◌<◌};

use ixp_board::{BoardName, Note, Opened, Pen, Publish, Seat, Story, begin, open};
use ixp_num_tables::{Held, Items};
use std::alloc::{AllocError, Global};
use std::rt::Clock;
use std::sync::Wait;
use std::sync::atomic::{AtomicU64, Ordering};
use std::thread;
use std::thread::{Threads, for_each_mut, join};
use std::time::Duration;

/// Bytes that all views share. A view counts its own owners, in the outer part.
type Bytes = Held<Held<Items<u8>>>;

/// Each turn publishes the bytes of the beginning again.
pub struct Again;

impl Story for Again {
    ghost use Rattle.std.specs.Prelude.{ℕ, List};

    type First = Bytes;

    type Op = ();

    type View = Bytes;

    ghost legal = { λ first turns. Unit {0} };

    ghost fold = { λ first turns. first };

    fn step(_alloc: Global, view: &Bytes, _op: &()) -> Result<Bytes, AllocError> {
        view.shared()
    }

    fn share(_alloc: Global, view: &Bytes) -> Result<Bytes, AllocError> {
        view.shared()
    }

    fn apart(alloc: Global, view: &Bytes) -> Result<Bytes, AllocError> {
        Held::new(alloc, view.get().shared()?)
    }
}

/// A board with so many bytes.
pub fn begun(alloc: Global, bytes: usize) -> Result<Opened<Again>, AllocError> {
    let mut items = Vec::new(alloc);
    items.resize(bytes, 0)?;
    let bytes = Held::new(alloc, Items::from_vec(items))?;
    let first = Held::new(alloc, bytes)?;
    let view = first.shared()?;
    Ok(begin(&first, view))
}

/// How a reader looks.
#[derive(Clone, Copy)]
pub enum Way {
    /// It takes a share of the view each time.
    Shared,
    /// The seat lends it the view.
    Lent,
}

/// Looks once. Whether it had its memory.
fn look_once<N: BoardName>(seat: &mut Seat<Again, N>, way: Way) -> bool {
    match way {
        Way::Shared => seat.look().is_ok(),
        Way::Lent => seat.refresh().is_ok(),
    }
}

/// Looks so many times. Whether each look had its memory.
fn look<N: BoardName>(seat: &mut Seat<Again, N>, way: Way, times: u64) -> bool {
    for _ in 0..times {
        if !look_once(seat, way) {
            return false;
        }
    }
    true
}

/// Looks in as many threads as there are seats, and counts the readers that are done and those that wanted
/// memory.
fn look_all<N: BoardName + Send + Sync, R: Threads + Sync>(
    rt: &R,
    seats: &mut [Seat<Again, N>],
    way: Way,
    times: u64,
    done: &AtomicU64,
    failed: &AtomicU64,
) {
    let threads = seats.len().max(1);
    for_each_mut(
        rt,
        seats,
        threads,
        &|_, seat: &mut Seat<Again, N>| {
            if !look(seat, way, times) {
                failed.fetch_add(1, Ordering::SeqCst);
            }
            done.fetch_add(1, Ordering::SeqCst);
        },
    );
}

/// Makes one turn. Where memory runs out the next one publishes the same.
fn turn<N: BoardName, W: Publish<Note<Again, N>>, R: Wait>(rt: &R, pen: &mut Pen<Again, N, W>) {
    let _view = pen.view();
    let _ = pen.put(rt, &());
}

/// Rests between two turns.
fn rest<R: Clock>(rt: &R, pause: Duration) {
    if pause.is_zero() {
        thread::yield_now();
    } else {
        thread::sleep(rt, pause);
    }
}

/// Makes turns until so many readers are done, and tells how many it made.
fn make_turns<N: BoardName, W: Publish<Note<Again, N>>, R: Wait + Clock>(
    rt: &R,
    pen: &mut Pen<Again, N, W>,
    pause: Duration,
    readers: u64,
    done: &AtomicU64,
) -> u64 {
    for made in 0..u64::MAX {
        if done.load(Ordering::SeqCst) == readers {
            return made;
        }
        turn(rt, pen);
        rest(rt, pause);
    }
    u64::MAX
}

/// How a board is looked at.
#[derive(Clone, Copy)]
pub struct Trial {
    pub readers: u32,
    pub way: Way,
    /// How often each reader looks.
    pub times: u64,
    /// How long the pen rests after each turn.
    pub pause: Duration,
}

/// The readers look while the pen makes turns. How many turns it made, or none where a look had no memory.
pub fn looks_beside_turns<N: BoardName + Send + Sync, R: Threads + Wait + Clock + Sync>(
    rt: &R,
    alloc: Global,
    opened: Opened<Again>,
    trial: Trial,
) -> Option<u64>
    requires name { opened.0 ≡ N.book }
    requires readers { 0 < trial.readers }
{
    let Ok((mut pen, mut seats)) = open::<Again, N>(alloc, opened, trial.readers) else {
        return None;
    };
    let Trial {
        readers,
        way,
        times,
        pause,
    } = trial;
    let done = AtomicU64::new(0);
    let failed = AtomicU64::new(0);
    let (made, _) = join(
        rt,
        || make_turns(rt, &mut pen, pause, u64::from(readers), &done),
        || look_all(rt, seats.as_mut_slice(), way, times, &done, &failed),
    );
    (failed.load(Ordering::SeqCst) == 0).then_some(made)
}
