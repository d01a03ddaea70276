//! Looks at what was published, on one thread and beside the pen.
ghost use Rattle.std.specs.Prelude.{◌≡◌, length};

use crate::sums::{Adds, Sum, put};
use ixp_board::{BoardName, Note, Opened, Pen, Publish, Seat, begin, open};
use ixp_num_tables::Held;
use std::alloc::{AllocError, Global};
use std::marker::Brand;
use std::sync::Wait;
use std::test::Fail;
use std::thread::{Threads, join};

/// A board whose first sum is 0.
pub fn begun<T: Adds>(alloc: Global) -> Result<Opened<Sum<T>>, AllocError> {
    let view = Held::new(alloc, 0)?;
    Ok(begin(&0, view))
}

/// The sum that the seat looks at.
pub fn sum_seen<T: Adds, N: BoardName>(seat: &mut Seat<Sum<T>, N>) -> Result<u64, AllocError> {
    let view = seat.look()?;
    Ok(*view.get())
}

/// Whether each seat looks at the sum once it has learnt what the pen tells.
fn all_learn<N: BoardName, W: Publish<Note<Sum<u64>, N>>>(
    pen: &Pen<Sum<u64>, N, W>,
    seats: &mut [Seat<Sum<u64>, N>],
    sum: u64,
) -> bool {
    for seat in seats {
        let Ok(note) = pen.tell() else {
            return false;
        };
        seat.learn(note);
        if sum_seen(seat) != Ok(sum) {
            return false;
        }
    }
    true
}

/// The sum that the seat looks at once it has learnt of a turn.
fn learnt<N: BoardName, W: Publish<Note<Sum<u64>, N>>, R: Wait>(
    rt: &R,
    pen: &mut Pen<Sum<u64>, N, W>,
    seat: &mut Seat<Sum<u64>, N>,
) -> Option<u64> {
    seat.learn(put(rt, pen, &5).ok()?);
    Some(*seat.view().get())
}

/// The sum that the seat looks at after a turn of which it learns nothing.
fn published<N: BoardName, W: Publish<Note<Sum<u64>, N>>, R: Wait>(
    rt: &R,
    pen: &mut Pen<Sum<u64>, N, W>,
    seat: &mut Seat<Sum<u64>, N>,
) -> Option<u64> {
    put(rt, pen, &7).ok()?;
    sum_seen(seat).ok()
}

/// The sum that the seat lends once it has looked.
fn lent<N: BoardName>(seat: &mut Seat<Sum<u64>, N>) -> Option<u64> {
    seat.refresh().ok()?;
    Some(*seat.view().get())
}

/// What two seats look at after a turn that the first learns of, and after one that neither does.
fn two_turns<N: BoardName, W: Publish<Note<Sum<u64>, N>>, R: Wait>(
    rt: &R,
    pen: &mut Pen<Sum<u64>, N, W>,
    seats: &mut [Seat<Sum<u64>, N>],
) -> [Option<u64>; 3]
    requires { length seats.old ≡ 2 }
{
    let (seat, other) = seats.split_at_mut(1);
    let first = learnt(rt, pen, &mut seat[0]);
    let second = published(rt, pen, &mut other[0]);
    [first, second, lent(&mut seat[0])]
}

fn two_turns_on_a_board<N: BoardName, R: Wait>(
    rt: &R,
    alloc: Global,
    opened: Opened<Sum<u64>>,
) -> [Option<u64>; 3]
    requires { opened.0 ≡ N.book }
{
    let Ok((mut pen, mut seats)) = open::<Sum<u64>, N>(alloc, opened, 2) else {
        return [None; 3];
    };
    two_turns(rt, &mut pen, seats.as_mut_slice())
}

#[test]
fn a_seat_looks_at_what_was_published_last(rt: HostRuntime) -> Result<(), Fail> {
    let opened = begun(rt.alloc())?;
    let seen = two_turns_on_a_board::<Brand, _>(&rt, rt.alloc(), opened);
    assert!(rt; seen == [Some(5), Some(12), Some(12)]);
    Ok(())
}

const TURNS: u64 = 1000;

/// Makes so many turns, each of which adds 1.
fn put_ones<N: BoardName, W: Publish<Note<Sum<u64>, N>>, R: Wait>(
    rt: &R,
    pen: &mut Pen<Sum<u64>, N, W>,
) -> bool {
    for _ in 0..TURNS {
        if put(rt, pen, &1).is_err() {
            return false;
        }
    }
    true
}

/// Whether the sum never falls in as many looks.
fn rises<N: BoardName>(seats: &mut [Seat<Sum<u64>, N>]) -> bool {
    let mut last = 0;
    for seat in seats {
        for _ in 0..TURNS {
            let Ok(sum) = sum_seen(seat) else {
                return false;
            };
            if sum < last {
                return false;
            }
            last = sum;
        }
    }
    true
}

/// Whether the pen makes its turns while the looks of three threads rise.
fn beside<
    N: BoardName + Send + Sync,
    W: Publish<Note<Sum<u64>, N>> + Send,
    R: Threads + Wait + Sync,
>(rt: &R, pen: &mut Pen<Sum<u64>, N, W>, seats: &mut [Seat<Sum<u64>, N>]) -> bool
    requires { length seats.old ≡ 3 }
{
    let (first, rest) = seats.split_at_mut(1);
    let (second, third) = rest.split_at_mut(1);
    let (made, rose) = join(
        rt,
        || put_ones(rt, pen),
        || join(
            rt,
            || rises(first),
            || join(rt, || rises(second), || rises(third)),
        ),
    );
    made && rose == (true, (true, true))
}

fn beside_on_a_board<N: BoardName + Send + Sync, R: Threads + Wait + Sync>(
    rt: &R,
    alloc: Global,
    opened: Opened<Sum<u64>>,
) -> bool
    requires { opened.0 ≡ N.book }
{
    let Ok((mut pen, mut seats)) = open::<Sum<u64>, N>(alloc, opened, 3) else {
        return false;
    };
    let rose = beside(rt, &mut pen, seats.as_mut_slice());
    rose && all_learn(&pen, seats.as_mut_slice(), TURNS)
}

#[test]
fn looks_rise_beside_the_pen(rt: HostRuntime) -> Result<(), Fail> {
    let opened = begun(rt.alloc())?;
    assert!(rt; beside_on_a_board::<Brand, _>(&rt, rt.alloc(), opened));
    Ok(())
}
