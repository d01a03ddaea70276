//! What the threads of a server do.
use ixp_board::{BoardName, Note, Publish};
use ixp_desk::{Shared, worker_turn};
use ixp_desk_explain::{LinkSeats, LookingGlass};
use ixp_desk_history::DeskStory;
use ixp_desk_link::serve_link;
use ixp_desk_rtr::{RoaCache, rtr_link};
use ixp_glass_holds::HoldStory;
use ixp_io::{Clock, Gate, Keeper, Sink, Source};
use ixp_io_workers::{Background, Help, Host};
use std::alloc::Global;
use std::sync::{Mutex, Wait};

/// A desk and a looking glass whose links are served by threads, while one more makes the texts that edits
/// touched.
#[derive(Drop)]
pub(crate) struct Hosting<
    'a,
    P: Keeper + Drop,
    N: BoardName,
    M: BoardName,
    W: Publish<Note<DeskStory, N>>,
    V: Publish<Note<HoldStory, M>>,
    G,
> {
    pub(crate) alloc: Global,
    pub(crate) shared: &'a Shared<P, N, W>,
    pub(crate) glass: &'a LookingGlass<M, V>,
    /// What the thread that makes texts passes between two holds of the lock.
    pub(crate) gate: &'a G,
}

impl<
    P: Keeper + Drop,
    N: BoardName,
    M: BoardName,
    W: Publish<Note<DeskStory, N>>,
    V: Publish<Note<HoldStory, M>>,
    G: Gate,
> Background for Hosting<'_, P, N, M, W, V, G> {
    type Seat = LinkSeats<N, M>;

    fn turn<R: Wait>(&self, rt: &R, seats: &mut LinkSeats<N, M>) {
        let _turn = worker_turn(rt, self.alloc, self.shared, &mut seats.0, self.gate);
    }

    fn has_work<R: Wait>(&self, rt: &R) -> bool {
        self.shared.wait_for_work(rt)
    }

    fn end<R: Wait>(&self, rt: &R) {
        self.shared.close_bell(rt);
    }
}

impl<
    P: Keeper + Drop,
    N: BoardName,
    M: BoardName,
    W: Publish<Note<DeskStory, N>>,
    V: Publish<Note<HoldStory, M>>,
    G: Gate,
    L: Source + Sink,
> Host<L> for Hosting<'_, P, N, M, W, V, G> {
    ghost use Rattle.ixp_io.specs.Faults.{Rose};
    ghost use Rattle.ixp_desk_serve.specs.Servers.{IsHosted};

    ghost hosted = { λ s l t m. IsHosted s t (L.left l) (L.left m) (L.written l) (L.written m)
        (Rose (L.read_faults l) (L.read_faults m)) (Rose (L.write_faults l) (L.write_faults m)) };

    fn host<R: Wait, C: Clock>(
        &self,
        rt: &R,
        seats: &mut LinkSeats<N, M>,
        link: &mut L,
        clock: &mut C,
    ) {
        let mut desk = self.shared;
        let _served = serve_link(rt, self.alloc, &mut desk, self.glass, seats, link, clock);
    }
}

/// A desk whose ROAs are given to routers: helpers serve their links by one cache.
#[derive(Drop)]
pub(crate) struct Routers<'a, P: Keeper + Drop, N: BoardName, W: Publish<Note<DeskStory, N>>> {
    pub(crate) shared: &'a Shared<P, N, W>,
    pub(crate) cache: Mutex<RoaCache<N>>,
}

impl<P: Keeper + Drop, N: BoardName, W: Publish<Note<DeskStory, N>>, L: Source + Sink> Help<L>
    for Routers<'_, P, N, W> {
    ghost use Rattle.ixp_io.specs.Faults.{Rose};
    ghost use Rattle.ixp_desk_serve.specs.Servers.{IsRouted};

    ghost helped = { λ l m. IsRouted (L.left l) (L.left m) (L.written l) (L.written m)
        (Rose (L.read_faults l) (L.read_faults m)) (Rose (L.write_faults l) (L.write_faults m)) };

    fn help<R: Wait>(&self, rt: &R, link: &mut L) {
        let mut desk = self.shared;
        let _end = rtr_link(rt, &mut desk, &self.cache, link);
    }
}
