//! The links of a door over a desk that threads share.
ghost use Rattle.std.specs.Prelude.{◌≡◌, ◌<◌, ◌≤◌, ◌+◌, true, is_some, IfOk, OnOk, OnErr, vec_len};
ghost use Rattle.ixp_io.specs.Faults.{Rose};
ghost use Rattle.ixp_io_workers.specs.Doors.{Gave};
ghost use Rattle.ixp_desk_serve.specs.Servers.{DoorEnds, KeepsSome, ServerEnds, end_of};

use crate::hosting::{Hosting, Routers};
use crate::lent::{Lending, Lent, Loan, take_back};
use ixp_board::{BoardName, Copies, Note, Publish};
use ixp_desk::{Desk, DeskSeat, Shared, open_desk};
use ixp_desk_explain::{LinkSeats, LookingGlass};
use ixp_desk_history::DeskStory;
use ixp_desk_rtr::RoaCache;
use ixp_glass_holds::{GlassSeat, HoldStory, Holds, open_glass};
use ixp_io::{Clock, Door, Failed, Gate, Keeper};
use ixp_io_workers::{Helpers, serve, serve_helped};
use ixp_store_words::LoadFault;
use std::alloc::{AllocError, Global};
use std::marker::{Brand, PhantomData};
use std::sync::{Mutex, Wait};
use std::thread::Threads;

/// A further door, for routers that ask for ROAs.
#[derive(Clone, Copy, Debug, PartialEq, Eq, Drop)]
pub struct RtrDoor {
    pub port: u16,
    /// How many links are to be served.
    pub links: u64,
}

/// How a server ended.
#[derive(Debug, Drop)]
pub enum ServerEnd {
    /// The store couldn't be loaded.
    Unopened(LoadFault),
    NoMemory,
    /// The door failed, or the further one couldn't be opened.
    DoorFault,
    /// As many links were served as were asked for, and so many of routers: as many as were asked for,
    /// unless the further door failed.
    Served { routers: Option<u64> },
}

/// How the links of the door ended, with those of routers.
fn end_of(served: Result<Result<(), Failed>, AllocError>, routers: Option<u64>) -> ServerEnd
    ensures { result ≡ end_of served routers }
{
    match served {
        Err(_) => ServerEnd::NoMemory,
        Ok(Err(_)) => ServerEnd::DoorFault,
        Ok(Ok(())) => ServerEnd::Served { routers },
    }
}

/// Each seat of the desk with one of the looking glass.
fn pairs_of<N: BoardName, M: BoardName>(
    alloc: Global,
    seats: Vec<DeskSeat<N>>,
    holders: Vec<GlassSeat<M>>,
) -> Result<Vec<LinkSeats<N, M>>, AllocError>
    ensures { IfOk result (λ pairs. vec_len pairs ≡ vec_len seats) }
{
    let mut left = seats;
    let mut holders = holders;
    let mut pairs = Vec::new(alloc);
    'each: while let Some(seat) = left.pop() {
        let Some(holder) = holders.pop() else {
            return Err(AllocError);
        };
        pairs.push((seat, holder))?;
    }
    Ok(pairs)
}

/// Serves so many links of the door by threads, each with one pair of the seats but the last, while helpers
/// serve those of routers at a further door, by a cache on that one. The cache's session is the clock's
/// second.
fn serve_both<
    R: Threads + Wait + Sync,
    N: BoardName + Send + Sync,
    M: BoardName + Send + Sync,
    P: Keeper + Drop + Send,
    W: Publish<Note<DeskStory, N>> + Send,
    V: Publish<Note<HoldStory, M>> + Send,
    C: Clock + Send,
    D: Door + Drop + Send,
    G: Gate + Sync,
>(
    rt: &R,
    alloc: Global,
    shared: &Shared<P, N, W>,
    glass: &LookingGlass<M, V>,
    seats: Vec<LinkSeats<N, M>>,
    clock: &mut C,
    door: &mut D,
    gate: &G,
    links: u64,
    at: RtrDoor,
) -> ServerEnd
where
    D::Link: Drop + Send,
    requires seats { 2 ≤ vec_len seats }
    ensures ends { DoorEnds true (D.links door.old) (D.links door.new) (D.faults door.old) (D.faults door.new)
        links result }
    ensures counts { D.faults door.old ≤ D.faults door.new }
{
    let Ok(further) = door.second(at.port) else {
        return ServerEnd::DoorFault;
    };
    let mut seats = seats;
    let Some((seat, _holder)) = seats.pop() else {
        return ServerEnd::NoMemory;
    };
    let session = (clock.now() % 65536) as u16;
    let Ok(cache) = RoaCache::open(alloc, seat, session) else {
        return ServerEnd::NoMemory;
    };
    let routers = Routers {
        shared,
        cache: Mutex::new(cache),
    };
    let host = Hosting {
        alloc,
        shared,
        glass,
        gate,
    };
    let helpers = Helpers::new(further, at.links, routers);
    let served = serve_helped(rt, alloc, door, clock, &host, seats, links, &helpers);
    let (given, _further) = helpers.finish(rt);
    end_of(served, Some(given))
}

/// Serves so many links of the door at the port by threads, each with one pair of the seats, and those of
/// routers.
fn serve_shared<
    R: Threads + Wait + Sync,
    N: BoardName + Send + Sync,
    M: BoardName + Send + Sync,
    P: Keeper + Drop + Send,
    W: Publish<Note<DeskStory, N>> + Send,
    V: Publish<Note<HoldStory, M>> + Send,
    C: Clock + Send,
    D: Door + Drop + Send,
    G: Gate + Sync,
>(
    rt: &R,
    alloc: Global,
    shared: &Shared<P, N, W>,
    glass: &LookingGlass<M, V>,
    seats: Vec<LinkSeats<N, M>>,
    clock: &mut C,
    door: &mut D,
    gate: &G,
    port: u16,
    links: u64,
    routers: Option<RtrDoor>,
) -> ServerEnd
where
    D::Link: Drop + Send,
    requires seats { 1 ≤ vec_len seats }
    requires more { is_some routers ≡ true → 2 ≤ vec_len seats }
    ensures ends { DoorEnds (is_some routers) (D.links door.old) (D.links door.new) (D.faults door.old)
        (D.faults door.new) links result }
    ensures counts { D.faults door.old ≤ D.faults door.new }
{
    if door.listen(port).is_err() {
        return ServerEnd::DoorFault;
    }
    match routers {
        Some(at) => serve_both(
            rt, alloc, shared, glass, seats, clock, door, gate, links, at,
        ),
        None => {
            let host = Hosting {
                alloc,
                shared,
                glass,
                gate,
            };
            let served = serve(rt, alloc, door, clock, &host, seats, links);
            end_of(served, None)
        }
    }
}

/// Serves the links by the desk that threads share, and these holds.
fn serve_glass<
    R: Threads + Wait + Sync,
    N: BoardName + Send + Sync,
    M: BoardName + Send + Sync,
    P: Keeper + Drop + Send,
    W: Publish<Note<DeskStory, N>> + Send,
    C: Clock + Send,
    D: Door + Drop + Send,
    G: Gate + Sync,
>(
    rt: &R,
    alloc: Global,
    shared: &Shared<P, N, W>,
    seats: Vec<DeskSeat<N>>,
    holds: Holds,
    clock: &mut C,
    door: &mut D,
    gate: &G,
    port: u16,
    links: u64,
    routers: Option<RtrDoor>,
) -> ServerEnd
where
    D::Link: Drop + Send,
    requires name { holds.0 ≡ M.book }
    requires seats { 1 ≤ vec_len seats }
    requires more { is_some routers ≡ true → 2 ≤ vec_len seats }
    ensures ends { DoorEnds (is_some routers) (D.links door.old) (D.links door.new) (D.faults door.old)
        (D.faults door.new) links result }
    ensures counts { D.faults door.old ≤ D.faults door.new }
{
    let Ok((holds, holders)) = holds.share::<M>() else {
        return ServerEnd::NoMemory;
    };
    let glass = LookingGlass::new(alloc, holds);
    match pairs_of(alloc, seats, holders) {
        Ok(seats) => serve_shared(
            rt, alloc, shared, &glass, seats, clock, door, gate, port, links, routers,
        ),
        Err(_) => ServerEnd::NoMemory,
    }
}

/// Serves the links by the desk, which has so many seats, and takes it apart.
fn serve_desk<
    R: Threads + Wait + Sync,
    N: BoardName + Send + Sync,
    P: Keeper + Drop + Send,
    C: Clock + Send,
    D: Door + Drop + Send,
    G: Gate + Sync,
>(
    rt: &R,
    alloc: Global,
    desk: Desk<P>,
    seats: u32,
    clock: &mut C,
    door: &mut D,
    gate: &G,
    port: u16,
    links: u64,
    routers: Option<RtrDoor>,
) -> (ServerEnd, P)
where
    D::Link: Drop + Send,
    requires name { desk.0 ≡ N.book }
    requires count { desk.2 ≡ seats }
    requires some { 0 < seats }
    requires few { seats ≤ 64 }
    requires more { is_some routers ≡ true → 1 < seats }
    ensures ends { DoorEnds (is_some routers) (D.links door.old) (D.links door.new) (D.faults door.old)
        (D.faults door.new) links
        result.0 }
    ensures counts { D.faults door.old ≤ D.faults door.new }
    ensures store { KeepsSome (P.table result.1) (P.faults result.1) }
{
    let Ok(holds) = open_glass(alloc, seats) else {
        return (ServerEnd::NoMemory, desk.close());
    };
    match desk.share::<N>() {
        Err(desk) => (ServerEnd::NoMemory, desk.close()),
        Ok((shared, seats)) => {
            let end = serve_glass::<R, N, Brand, P, Copies<Note<DeskStory, N>>, C, D, G>(
                rt, alloc, &shared, seats, holds, clock, door, gate, port, links, routers,
            );
            (end, shared.into_desk().into_store())
        }
    }
}

/// Serves the links over the store that is lent by this reference, and gives it back.
fn serve_lent<
    'a,
    R: Threads + Wait + Sync,
    L: Lending + Send,
    P: Keeper + Send,
    C: Clock + Send,
    D: Door + Drop + Send,
    G: Gate + Sync,
>(
    rt: &R,
    alloc: Global,
    loan: Loan<'a, P>,
    clock: &mut C,
    door: &mut D,
    gate: &G,
    port: u16,
    workers: u32,
    links: u64,
    routers: Option<RtrDoor>,
) -> (ServerEnd, &'a mut P)
where
    D::Link: Drop + Send,
    requires name { loan.it.ghost_name ≡ L.lent }
    requires few { workers ≤ 62 }
    ensures back { result.1.ghost_name ≡ loan.entry.it.ghost_name }
    ensures ends { ServerEnds (is_some routers) (P.table loan.entry.it.now) (P.table result.1.now)
        (P.faults loan.entry.it.now) (P.faults result.1.now) (D.links door.old) (D.links door.new)
        (D.faults door.old) (D.faults door.new) links result.0 }
    ensures counts { D.faults door.old ≤ D.faults door.new }
{
    let Loan { it: keeper } = loan;
    let lent: Lent<'a, P, L> = Lent {
        keeper,
        of: PhantomData,
    };
    let beside = if routers.is_some() { 2 } else { 1 };
    let seats = workers + beside;
    match open_desk(alloc, lent, seats) {
        Err(refused) => {
            let (fault, lent) = refused;
            let Lent { keeper, of: _of } = lent;
            (ServerEnd::Unopened(fault), keeper)
        }
        Ok(desk) => {
            let (end, lent) = serve_desk::<R, Brand, Lent<'a, P, L>, C, D, G>(
                rt, alloc, desk, seats, clock, door, gate, port, links, routers,
            );
            let Lent { keeper, of: _of } = lent;
            (end, keeper)
        }
    }
}

/// Loads the store, and serves so many links of the door at the port: each by one of the workers, which are
/// threads with a seat each, while one thread more makes the texts that edits touched. What no thread could
/// be started for is done by the caller. It ends once all links were served to their end.
///
/// Where routers are to be served, a further door is opened for them, and up to sixteen of their links are
/// served at a time, by one cache of the desk's ROAs. A fault of that door once it listens ends what it
/// gives, and nothing else.
pub fn serve_door<
    R: Threads + Wait + Sync,
    P: Keeper + Send,
    C: Clock + Send,
    D: Door + Drop + Send,
    G: Gate + Sync,
>(
    rt: &R,
    alloc: Global,
    keeper: &mut P,
    clock: &mut C,
    door: &mut D,
    gate: &G,
    port: u16,
    workers: u32,
    links: u64,
    routers: Option<RtrDoor>,
) -> ServerEnd
where
    D::Link: Drop + Send,
    requires few { workers ≤ 62 }
    ensures ends { ServerEnds (is_some routers) (P.table keeper.old) (P.table keeper.new)
        (P.faults keeper.old) (P.faults keeper.new)
        (D.links door.old) (D.links door.new) (D.faults door.old) (D.faults door.new) links result }
    ensures counts { D.faults door.old ≤ D.faults door.new }
{
    let lent = &mut *keeper;
    let loan = Loan { it: lent };
    let (end, back) = serve_lent::<R, Brand, P, C, D, G>(
        rt, alloc, loan, clock, door, gate, port, workers, links, routers,
    );
    take_back(back);
    end
}
