//! Links in scoped threads.
ghost use Rattle.std.specs.Prelude.{◌≡◌, ◌≤◌, OnOk, OnErr, IfOk, vec_len};
ghost use Rattle.ixp_io.specs.Faults.{Rose};
ghost use Rattle.ixp_io_workers.specs.Doors.{Gave};

use crate::background::start_background;
use crate::helping::start_helpers;
use crate::seats::Seats;
use crate::working::start_workers;
use crate::{Help, Helpers, Host, Queue, SharedClock};
use ixp_io::{Clock, Door, Failed};
use std::alloc::{AllocError, Global};
use std::sync::{Mutex, Wait};
use std::thread;
use std::thread::Threads;

/// Which threads the caller has beside its own.
#[derive(Clone, Copy)]
struct Started {
    workers: u32,
    background: bool,
}

// Hands a link to the workers, and does what no thread was started for.
fn hand_on<R: Wait, C: Clock, L: Drop, H: Host<L>>(
    rt: &R,
    queue: &Queue<L>,
    clock: &Mutex<C>,
    host: &H,
    seats: &Seats<H::Seat>,
    started: Started,
    link: L,
)
where
    H::Seat: Drop,
{
    if started.workers > 0 {
        queue.put(rt, link);
    } else {
        let mut seat = seats.own().lock(rt);
        let mut link = link;
        host.host(rt, &mut *seat, &mut link, &mut SharedClock::new(rt, clock));
    }
    if !started.background {
        host.turn(rt, &mut *seats.background.lock(rt));
    }
}

// Accepts so many links, one after the other.
fn accept_all<R: Wait, D: Door, C: Clock, H: Host<D::Link>>(
    rt: &R,
    door: &mut D,
    queue: &Queue<D::Link>,
    clock: &Mutex<C>,
    host: &H,
    seats: &Seats<H::Seat>,
    links: u64,
    started: Started,
) -> Result<(), Failed>
where
    D::Link: Drop,
    H::Seat: Drop,
    ensures gave { OnOk result (Gave (D.links door.old) (D.links door.new) links) }
    ensures counts { D.faults door.old ≤ D.faults door.new }
    ensures cause { OnErr result (Rose (D.faults door.old) (D.faults door.new)) }
{
    for _ in 0..links {
        let link = door.accept()?;
        hand_on(rt, queue, clock, host, seats, started, link);
    }
    Ok(())
}

/// What the caller does while the workers run. It hands back what it was lent: a scope tells what its closure
/// returns, and nothing of what the closure captured.
trait Errand<L: Drop, C, H: Host<L>>
where
    H::Seat: Drop,
{
    type Output;

    ghost gives: { Self → Self.Output → Type 0 };

    fn run<R: Wait>(
        self,
        rt: &R,
        queue: &Queue<L>,
        clock: &Mutex<C>,
        host: &H,
        seats: &Seats<H::Seat>,
        started: Started,
    ) -> Self::Output
        ensures { gives self result };
}

/// Accepts the links of a door.
#[derive(Drop)]
struct Accepting<'a, D: Door> {
    door: &'a mut D,
    links: u64,
}

impl<'a, D: Door, C: Clock, H: Host<D::Link>> Errand<D::Link, C, H> for Accepting<'a, D>
where
    D::Link: Drop,
    H::Seat: Drop,
{
    type Output = (&'a mut D, Result<(), Failed>);

    ghost gives = { λ it given. (given.0.ghost_name ≡ it.door.ghost_name)
        × OnOk given.1 (Gave (D.links it.door.now) (D.links given.0.now) it.links)
        × (D.faults it.door.now ≤ D.faults given.0.now)
        × OnErr given.1 (Rose (D.faults it.door.now) (D.faults given.0.now)) };

    fn run<R: Wait>(
        self,
        rt: &R,
        queue: &Queue<D::Link>,
        clock: &Mutex<C>,
        host: &H,
        seats: &Seats<H::Seat>,
        started: Started,
    ) -> (&'a mut D, Result<(), Failed>) {
        let Accepting { door, links } = self;
        let done = accept_all(rt, door, queue, clock, host, seats, links, started);
        (door, done)
    }
}

// Runs the errand while workers serve the links of the queue; all have ended when it returns.
fn beside_workers<
    R: Threads + Wait + Sync,
    C: Clock + Send,
    L: Drop + Send,
    H: Host<L> + Sync,
    T: Errand<L, C, H> + Drop,
>(
    rt: &R,
    queue: &Queue<L>,
    clock: &Mutex<C>,
    host: &H,
    seats: &Seats<H::Seat>,
    background: bool,
    errand: T,
) -> T::Output
where
    H::Seat: Send + Drop,
    ensures { T.gives errand result }
{
    thread::scope(
        thread::scope_env(),
        rt,
        move |scope| -> T::Output
            ensures { T.gives errand result }
        {
            let workers = start_workers(scope, rt, queue, clock, host, &seats.workers);
            let started = Started {
                workers,
                background,
            };
            let given = errand.run(rt, queue, clock, host, seats, started);
            queue.close(rt);
            given
        },
    )
}

// Runs the errand and the workers while the background's work is done; it ends once all links were served.
// Whoever has one seat alone starts no thread.
fn beside_all<
    R: Threads + Wait + Sync,
    C: Clock + Send,
    L: Drop + Send,
    H: Host<L> + Sync,
    T: Errand<L, C, H> + Drop,
>(
    rt: &R,
    queue: &Queue<L>,
    clock: &Mutex<C>,
    host: &H,
    seats: &Seats<H::Seat>,
    errand: T,
) -> T::Output
where
    H::Seat: Send + Drop,
    ensures { T.gives errand result }
{
    thread::scope(
        thread::scope_env(),
        rt,
        move |scope| -> T::Output
            ensures { T.gives errand result }
        {
            let background = start_background(scope, rt, host, seats);
            let given = beside_workers(rt, queue, clock, host, seats, background, errand);
            host.end(rt);
            given
        },
    )
}

// The same while helpers serve links of their own: it ends once these were served, too.
fn beside_helpers<
    R: Threads + Wait + Sync,
    C: Clock + Send,
    L: Drop + Send,
    H: Host<L> + Sync,
    E: Door + Send,
    K: Help<E::Link> + Sync,
    T: Errand<L, C, H> + Drop,
>(
    rt: &R,
    queue: &Queue<L>,
    clock: &Mutex<C>,
    host: &H,
    seats: &Seats<H::Seat>,
    helpers: &Helpers<E, K>,
    errand: T,
) -> T::Output
where
    H::Seat: Send + Drop,
    E::Link: Drop + Send,
    ensures { T.gives errand result }
{
    thread::scope(
        thread::scope_env(),
        rt,
        move |scope| -> T::Output
            ensures { T.gives errand result }
        {
            start_helpers(scope, rt, helpers);
            beside_all(rt, queue, clock, host, seats, errand)
        },
    )
}

// Does nothing, but this use of a returned reference ties it, for the borrow checker, to the parameter that
// lent it.
fn take_back<T>(it: &mut T)
    ensures { it.new ≡ it.old }
{}

/// Serves so many links of a door. The first seat is the background's, each further one a worker's, who has
/// it for all links that it serves. Where no worker can be started the caller serves each link itself, on a
/// worker's seat; where the background's work can't, the caller does a turn of it after each link that it
/// accepts, on the background's seat. With one seat alone no thread is started, and the caller does both on
/// it. All memory is taken before the first link is accepted.
pub fn serve<R: Threads + Wait + Sync, D: Door + Send, C: Clock + Send, H: Host<D::Link> + Sync>(
    rt: &R,
    alloc: Global,
    door: &mut D,
    clock: &mut C,
    host: &H,
    seats: Vec<H::Seat>,
    links: u64,
) -> Result<Result<(), Failed>, AllocError>
where
    D::Link: Drop + Send,
    H::Seat: Drop + Send,
    requires seats { 1 ≤ vec_len seats }
    ensures gave { IfOk result (λ done. OnOk done (Gave (D.links door.old) (D.links door.new) links)) }
    ensures cause { IfOk result (λ done. OnErr done (Rose (D.faults door.old) (D.faults door.new))) }
    ensures counts { D.faults door.old ≤ D.faults door.new }
    ensures kept { OnErr result (door.new ≡ door.old) }
{
    let queue = Queue::new(alloc)?;
    let seats = Seats::new(alloc, seats)?;
    let clock = Mutex::new(&mut *clock);
    let lent = &mut *door;
    let errand = Accepting { door: lent, links };
    let (back, done) = beside_all(rt, &queue, &clock, host, &seats, errand);
    take_back(back);
    Ok(done)
}

/// The same, while helpers serve the links of a further door. It ends once these were served, too, or once
/// their door failed.
pub fn serve_helped<
    R: Threads + Wait + Sync,
    D: Door + Send,
    C: Clock + Send,
    H: Host<D::Link> + Sync,
    E: Door + Send,
    K: Help<E::Link> + Sync,
>(
    rt: &R,
    alloc: Global,
    door: &mut D,
    clock: &mut C,
    host: &H,
    seats: Vec<H::Seat>,
    links: u64,
    helpers: &Helpers<E, K>,
) -> Result<Result<(), Failed>, AllocError>
where
    D::Link: Drop + Send,
    H::Seat: Drop + Send,
    E::Link: Drop + Send,
    requires seats { 1 ≤ vec_len seats }
    ensures gave { IfOk result (λ done. OnOk done (Gave (D.links door.old) (D.links door.new) links)) }
    ensures cause { IfOk result (λ done. OnErr done (Rose (D.faults door.old) (D.faults door.new))) }
    ensures counts { D.faults door.old ≤ D.faults door.new }
    ensures kept { OnErr result (door.new ≡ door.old) }
{
    let queue = Queue::new(alloc)?;
    let places = Seats::new(alloc, seats)?;
    let clock = Mutex::new(&mut *clock);
    let lent = &mut *door;
    let errand = Accepting { door: lent, links };
    let (back, done) = beside_helpers(rt, &queue, &clock, host, &places, helpers, errand);
    take_back(back);
    Ok(done)
}
