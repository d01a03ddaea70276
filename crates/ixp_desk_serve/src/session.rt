//! One link over a desk of one seat.
ghost use Rattle.std.specs.Prelude.{◌≡◌, [], None};
ghost use Rattle.ixp_io.specs.Faults.{Rose};
ghost use Rattle.ixp_board.specs.Histories.{entries};
ghost use Rattle.ixp_desk_serve.specs.Sessions.{ServesAlone, ServesLink, SessionEnds};

use crate::lent::{Lending, Lent, Loan, take_back};
use crate::line::{Joining, Line};
use ixp_board::{BoardName, Copies, Note, Publish};
use ixp_desk::{Desk, DeskSeat, Locked, open_desk};
use ixp_desk_explain::{LinkSeats, LookingGlass};
use ixp_desk_history::DeskStory;
use ixp_desk_link::serve_link;
use ixp_glass_holds::{HoldStory, Holds, open_glass};
use ixp_http_link::{LinkEnd, Served};
use ixp_io::{Clock, Keeper, Sink, Source};
use ixp_store_words::LoadFault;
use std::alloc::Global;
use std::marker::{Brand, PhantomData};
use std::sync::Wait;

/// How a session ended.
#[derive(Debug, Drop)]
pub enum SessionEnd {
    /// The store couldn't be loaded.
    Unopened(LoadFault),
    /// Memory ran out before the link was served.
    NoMemory,
    /// The link was served, and ended so.
    Served(Served),
}

/// Serves the link by the seats, and takes the desk apart.
fn serve_seats<
    R: Wait,
    N: BoardName,
    M: BoardName,
    P: Keeper + Drop,
    W: Publish<Note<DeskStory, N>>,
    V: Publish<Note<HoldStory, M>>,
    L: Source + Sink,
    C: Clock,
>(
    rt: &R,
    alloc: Global,
    desk: Locked<P, N, W>,
    glass: &LookingGlass<M, V>,
    seats: LinkSeats<N, M>,
    link: &mut L,
    clock: &mut C,
) -> (Served, P)
    ensures { ServesLink seats (C.given clock.old) (C.given clock.new) (L.left link.old) (L.left link.new)
        (L.written link.old) (L.written link.new)
        (Rose (L.read_faults link.old) (L.read_faults link.new))
        (Rose (L.write_faults link.old) (L.write_faults link.new)) (P.table result.1) (P.faults result.1)
        result.0 }
{
    let mut desk = desk;
    let mut seats = seats;
    let served = serve_link(rt, alloc, &mut desk, glass, &mut seats, link, clock);
    let is_covered = desk.covers(&seats.0);
    let keeper = desk.into_store();
    if is_covered {
        return (served, keeper);
    }
    let end = LinkEnd::NoMemory;
    let requests = served.requests;
    (Served { end, requests }, keeper)
}

/// Serves the link by the desk's one seat and these holds, and takes the desk apart. None where memory runs
/// out before.
fn serve_glass<
    R: Wait,
    N: BoardName,
    M: BoardName,
    P: Keeper + Drop,
    W: Publish<Note<DeskStory, N>>,
    L: Source + Sink,
    C: Clock,
>(
    rt: &R,
    alloc: Global,
    desk: Locked<P, N, W>,
    seat: DeskSeat<N>,
    holds: Holds,
    link: &mut L,
    clock: &mut C,
) -> (Option<Served>, P)
    requires name { holds.0 ≡ M.book }
    requires nothing { holds.1 ≡ entries tt [] }
    ensures { ServesAlone desk seat (C.given clock.old) (C.given clock.new) (L.left link.old) (L.left
        link.new)
        (L.written link.old) (L.written link.new) (L.read_faults link.old) (L.read_faults link.new)
        (L.write_faults link.old) (L.write_faults link.new) (P.table result.1) (P.faults result.1)
        result.0 }
{
    match holds.share::<M>() {
        Err(_) => (None, desk.into_store()),
        Ok((holds, mut seats)) => match seats.pop() {
            None => (None, desk.into_store()),
            Some(holder) => {
                let glass = LookingGlass::new(alloc, holds);
                let (served, keeper) = serve_seats(
                    rt,
                    alloc,
                    desk,
                    &glass,
                    (seat, holder),
                    link,
                    clock,
                );
                (Some(served), keeper)
            }
        },
    }
}

/// Serves the link by the desk's one seat, and takes the desk apart. None where memory runs out before.
fn serve_alone<R: Wait, N: BoardName, P: Keeper + Drop, L: Source + Sink, C: Clock>(
    rt: &R,
    alloc: Global,
    desk: Desk<P>,
    link: &mut L,
    clock: &mut C,
) -> (Option<Served>, P)
    requires name { desk.0 ≡ N.book }
    requires one { desk.2 ≡ 1 }
    ensures { ServesAlone (desk.1, None) (0, 0, desk.1) (C.given clock.old) (C.given clock.new) (L.left
        link.old)
        (L.left link.new) (L.written link.old) (L.written link.new) (L.read_faults link.old)
        (L.read_faults link.new) (L.write_faults link.old) (L.write_faults link.new) (P.table result.1)
        (P.faults result.1) result.0 }
{
    let Ok(holds) = open_glass(alloc, 1) else {
        return (None, desk.close());
    };
    match desk.alone::<N>() {
        Err(desk) => (None, desk.close()),
        Ok((desk, mut seats)) => match seats.pop() {
            None => (None, desk.into_store()),
            Some(seat) => {
                serve_glass::<R, N, Brand, P, Copies<Note<DeskStory, N>>, L, C>(
                    rt, alloc, desk, seat, holds, link, clock,
                )
            }
        },
    }
}

/// Serves the link over the store that is lent by this reference, and gives it back.
fn serve_lent<'a, R: Wait, M: Lending, P: Keeper, L: Source + Sink, C: Clock>(
    rt: &R,
    alloc: Global,
    loan: Loan<'a, P>,
    link: &mut L,
    clock: &mut C,
) -> (SessionEnd, &'a mut P)
    requires name { loan.it.ghost_name ≡ M.lent }
    ensures back { result.1.ghost_name ≡ loan.entry.it.ghost_name }
    ensures ends { SessionEnds
        (record {
          rows = P.table loan.entry.it.now;
          faults = P.faults loan.entry.it.now;
          left = L.left link.old;
          reads = L.read_faults link.old;
          written = L.written link.old;
          writes = L.write_faults link.old;
          given = C.given clock.old;
        })
        (record {
          rows = P.table result.1.now;
          faults = P.faults result.1.now;
          left = L.left link.new;
          reads = L.read_faults link.new;
          written = L.written link.new;
          writes = L.write_faults link.new;
          given = C.given clock.new;
        }) result.0 }
{
    let Loan { it: keeper } = loan;
    let lent: Lent<'a, P, M> = Lent {
        keeper,
        of: PhantomData,
    };
    match open_desk(alloc, lent, 1) {
        Err(refused) => {
            let (fault, lent) = refused;
            let Lent { keeper, of: _of } = lent;
            (SessionEnd::Unopened(fault), keeper)
        }
        Ok(desk) => {
            let (served, lent) = serve_alone::<R, Brand, Lent<'a, P, M>, L, C>(
                rt, alloc, desk, link, clock,
            );
            let Lent { keeper, of: _of } = lent;
            match served {
                Some(served) => (SessionEnd::Served(served), keeper),
                None => (SessionEnd::NoMemory, keeper),
            }
        }
    }
}

/// Loads the store, and serves the link by a desk of one seat.
fn serve_store<R: Wait, P: Keeper, L: Source + Sink, C: Clock>(
    rt: &R,
    alloc: Global,
    keeper: &mut P,
    link: &mut L,
    clock: &mut C,
) -> SessionEnd
    ensures { SessionEnds
        (record {
          rows = P.table keeper.old;
          faults = P.faults keeper.old;
          left = L.left link.old;
          reads = L.read_faults link.old;
          written = L.written link.old;
          writes = L.write_faults link.old;
          given = C.given clock.old;
        })
        (record {
          rows = P.table keeper.new;
          faults = P.faults keeper.new;
          left = L.left link.new;
          reads = L.read_faults link.new;
          written = L.written link.new;
          writes = L.write_faults link.new;
          given = C.given clock.new;
        }) result }
{
    let lent = &mut *keeper;
    let loan = Loan { it: lent };
    let (end, back) = serve_lent::<R, Brand, P, L, C>(rt, alloc, loan, link, clock);
    take_back(back);
    end
}

/// The same of a link of two objects that are lent by these references, which it gives back.
fn serve_joined<'a, 'b, R: Wait, J: Joining, P: Keeper, S: Source, K: Sink, C: Clock>(
    rt: &R,
    alloc: Global,
    keeper: &mut P,
    source: Loan<'a, S>,
    sink: Loan<'b, K>,
    clock: &mut C,
) -> (SessionEnd, &'a mut S, &'b mut K)
    requires input { source.it.ghost_name ≡ J.input }
    requires output { sink.it.ghost_name ≡ J.output }
    ensures input { result.1.ghost_name ≡ source.entry.it.ghost_name }
    ensures output { result.2.ghost_name ≡ sink.entry.it.ghost_name }
    ensures ends { SessionEnds
        (record {
          rows = P.table keeper.old;
          faults = P.faults keeper.old;
          left = S.left source.entry.it.now;
          reads = S.read_faults source.entry.it.now;
          written = K.written sink.entry.it.now;
          writes = K.write_faults sink.entry.it.now;
          given = C.given clock.old;
        })
        (record {
          rows = P.table keeper.new;
          faults = P.faults keeper.new;
          left = S.left result.1.now;
          reads = S.read_faults result.1.now;
          written = K.written result.2.now;
          writes = K.write_faults result.2.now;
          given = C.given clock.new;
        }) result.0 }
{
    let Loan { it: input } = source;
    let Loan { it: output } = sink;
    let mut line: Line<'a, 'b, S, K, J> = Line {
        input,
        output,
        of: PhantomData,
    };
    let end = serve_store(rt, alloc, keeper, &mut line, clock);
    let Line {
        input,
        output,
        of: _of,
    } = line;
    (end, input, output)
}

/// Loads the store, and serves the input and the output as one link by a desk of one seat.
pub fn serve_session<R: Wait, P: Keeper, S: Source, K: Sink, C: Clock>(
    rt: &R,
    alloc: Global,
    keeper: &mut P,
    input: &mut S,
    output: &mut K,
    clock: &mut C,
) -> SessionEnd
    ensures { SessionEnds
        (record {
          rows = P.table keeper.old;
          faults = P.faults keeper.old;
          left = S.left input.old;
          reads = S.read_faults input.old;
          written = K.written output.old;
          writes = K.write_faults output.old;
          given = C.given clock.old;
        })
        (record {
          rows = P.table keeper.new;
          faults = P.faults keeper.new;
          left = S.left input.new;
          reads = S.read_faults input.new;
          written = K.written output.new;
          writes = K.write_faults output.new;
          given = C.given clock.new;
        }) result }
{
    let source = Loan { it: &mut *input };
    let sink = Loan { it: &mut *output };
    let (end, read, written) = serve_joined::<R, Brand, P, S, K, C>(
        rt, alloc, keeper, source, sink, clock,
    );
    take_back(read);
    take_back(written);
    end
}
