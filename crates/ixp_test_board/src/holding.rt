//! Looks go on while a turn is being made.
ghost use Rattle.std.specs.Prelude.{◌≡◌, length};

use crate::looks::{begun, sum_seen};
use crate::sums::{Adds, Sum, put};
use ixp_board::{BoardName, Note, Opened, Pen, Publish, Seat, open};
use std::alloc::{AllocError, Global};
use std::marker::Brand;
use std::sync::atomic::{AtomicU64, Ordering};
use std::sync::{Arc, Wait};
use std::test::Fail;
use std::thread;
use std::thread::{Threads, join};

const CLOSED: u64 = 0;

const HELD: u64 = 1;

const FREED: u64 = 2;

const GIVEN_UP: u64 = 3;

/// After so many turns of the processor nobody waits any more, and the test fails.
const PATIENCE: u64 = 10_000_000;

/// A turn that adds 1, and that is held while it is being made until its gate is opened.
#[derive(Drop)]
struct Gated {
    gate: Arc<AtomicU64>,
}

impl Adds for Gated {
    ghost number_of = { λ g. 1 };

    fn number(&self) -> u64 {
        1
    }

    fn hold(&self) {
        self.gate.store(HELD, Ordering::SeqCst);
        if !comes(&self.gate, FREED) {
            self.gate.store(GIVEN_UP, Ordering::SeqCst);
        }
    }
}

/// Whether the gate comes to this state.
fn comes(gate: &AtomicU64, state: u64) -> bool {
    for _ in 0..PATIENCE {
        if gate.load(Ordering::SeqCst) == state {
            return true;
        }
        thread::yield_now();
    }
    false
}

/// Whether 1,000 looks show no sum while the turn is held throughout. Then it is freed.
fn looks_at_nothing<N: BoardName>(seat: &mut Seat<Sum<Gated>, N>, gate: &AtomicU64) -> bool {
    let mut nothing = comes(gate, HELD);
    for _ in 0..1000 {
        nothing = nothing && sum_seen(seat) == Ok(0);
    }
    let held = gate.compare_exchange(HELD, FREED, Ordering::SeqCst, Ordering::SeqCst);
    nothing && held.is_ok()
}

/// Whether a seat looks at 0 while the turn is held in one thread, and at 1 afterwards.
fn held<
    N: BoardName + Send + Sync,
    W: Publish<Note<Sum<Gated>, N>> + Send,
    R: Threads + Wait + Sync,
>(rt: &R, pen: &mut Pen<Sum<Gated>, N, W>, seat: &mut Seat<Sum<Gated>, N>, turn: &Gated) -> bool {
    let gate: &AtomicU64 = &turn.gate;
    let (made, looked) = join(
        rt,
        || put(rt, pen, turn).is_ok(),
        || looks_at_nothing(seat, gate),
    );
    made && looked && sum_seen(seat) == Ok(1)
}

fn held_on_a_board<N: BoardName + Send + Sync, R: Threads + Wait + Sync>(
    rt: &R,
    alloc: Global,
    opened: Opened<Sum<Gated>>,
    turn: &Gated,
) -> bool
    requires { opened.0 ≡ N.book }
{
    let Ok((mut pen, mut seats)) = open::<Sum<Gated>, N>(alloc, opened, 1) else {
        return false;
    };
    held(rt, &mut pen, &mut seats[0], turn)
}

#[test]
fn looks_go_on_while_a_turn_is_held(rt: HostRuntime) -> Result<(), Fail> {
    let turn = Gated {
        gate: Arc::new(rt.alloc(), AtomicU64::new(CLOSED))?,
    };
    let opened = begun(rt.alloc())?;
    assert!(rt; held_on_a_board::<Brand, _>(&rt, rt.alloc(), opened, &turn));
    Ok(())
}
