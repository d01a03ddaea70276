//! The link of two seats.
ghost use Rattle.std.specs.Prelude.{◌≡◌, ◌≤◌};
ghost use Rattle.ixp_io.specs.Faults.{Rose};
ghost use Rattle.ixp_io.specs.Told.{WhereTold};
ghost use Rattle.ixp_http_link.specs.Left.{Leaves};
ghost use Rattle.ixp_http_link.specs.Links.{Serves};
ghost use Rattle.ixp_http_link.specs.Whole.{IsComplete, IsExact};
ghost use Rattle.ixp_http_link.specs.declared.ends.LinkEnd.TheVariants as end;
ghost use Rattle.ixp_desk_link.specs.Turns.{LinkTurn, SeesMore};

use crate::caller::Caller;
use ixp_board::{BoardName, Note, Publish};
use ixp_desk::Desks;
use ixp_desk_explain::{LinkSeats, LookingGlass};
use ixp_glass_holds::HoldStory;
use ixp_http_link::{Served, serve};
use ixp_io::{Clock, Sink, Source};
use std::alloc::Global;
use std::marker::PhantomData;
use std::sync::Wait;

/// Serves one link to its end by a seat of the desk and one of the looking glass: reads its requests, has
/// the two answer those that are calls, and writes the replies in their order.
pub fn serve_link<
    R: Wait,
    N: BoardName,
    M: BoardName,
    D: Desks<N>,
    V: Publish<Note<HoldStory, M>>,
    L: Source + Sink,
    C: Clock,
>(
    rt: &R,
    alloc: Global,
    desk: &mut D,
    glass: &LookingGlass<M, V>,
    seats: &mut LinkSeats<N, M>,
    link: &mut L,
    clock: &mut C,
) -> Served
    ensures serves { Serves LinkTurn (seats.old, C.given clock.old) (seats.new, C.given clock.new)
        (L.left link.old) (L.written link.old) (L.written link.new)
        (Rose (L.read_faults link.old) (L.read_faults link.new))
        (Rose (L.write_faults link.old) (L.write_faults link.new)) result }
    ensures leaves { Leaves (L.left link.old) (L.left link.new) result }
    ensures exact { WhereTold (L.left link.old)
        (λ bytes. IsExact LinkTurn (seats.old, C.given clock.old) (seats.new, C.given clock.new) bytes
        (L.written link.old) (L.written link.new) result) }
    ensures complete { WhereTold (L.left link.old)
        (λ bytes. IsComplete LinkTurn (seats.old, C.given clock.old) (seats.new, C.given clock.new) bytes
        (L.written link.old) (L.written link.new)
        (Rose (L.read_faults link.old) (L.read_faults link.new))
        (Rose (L.write_faults link.old) (L.write_faults link.new)) result) }
    ensures sees { SeesMore seats.old seats.new }
    ensures read_fault { result.end ≡ end.ReadFault
        → Rose (L.read_faults link.old) (L.read_faults link.new) }
    ensures write_fault { result.end ≡ end.WriteFault
        → Rose (L.write_faults link.old) (L.write_faults link.new) }
    ensures reads { L.read_faults link.old ≤ L.read_faults link.new }
    ensures writes { L.write_faults link.old ≤ L.write_faults link.new }
{
    let mut caller = Caller {
        rt,
        desk,
        glass,
        of: PhantomData,
    };
    serve(alloc, &mut caller, seats, clock, link)
}
