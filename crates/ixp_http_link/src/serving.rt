//! The loop of a link.
ghost use Rattle.std.specs.Prelude.{◌≡◌, ◌≤◌, ◌<◌, [], None, IfSome, length};
ghost use Rattle.ixp_io.specs.Faults.{Rose};
ghost use Rattle.ixp_io.specs.Told.{Takes, WhereTold};
ghost use Rattle.ixp_http.specs.Heads.{chunk};
ghost use Rattle.ixp_http_link.specs.Left as left;
ghost use Rattle.ixp_http_link.specs.Links as links;
ghost use Rattle.ixp_http_link.specs.Steps as spec;
ghost use Rattle.ixp_http_link.specs.Whole as whole;

use crate::answering::settle;
use crate::desk::Desk;
use crate::ends::{LinkEnd, Served};
use crate::telling::{refuse, tell_memory};
use ixp_api::Paths;
use ixp_http::{Buf, HttpFault, Next, next_request};
use ixp_io::{Sink, Source};
use std::alloc::Global;

// Reads the next request of a link, before which so many were answered, and answers it. Where the link ends,
// says how.
fn exchange<P, C, D: Desk<P, C>, L: Source + Sink>(
    alloc: Global,
    paths: &Paths,
    desk: &mut D,
    store: &mut P,
    clock: &mut C,
    link: &mut L,
    buf: &mut Buf,
    answered: u32,
) -> Option<Served>
    requires few { answered < links.request_limit }
    requires fits { D.fits desk.old store.old }
    ensures steps { spec.Steps D.turn answered (desk.old, store.old, clock.old)
        (desk.new, store.new, clock.new) (L.left link.old) (L.left link.new) buf.old buf.new
        (Takes (L.written link.old) (L.written link.new))
        (Rose (L.read_faults link.old) (L.read_faults link.new))
        (Rose (L.write_faults link.old) (L.write_faults link.new)) result }
    ensures held { result ≡ None → length buf.old ≤ chunk → length buf.new ≤ chunk }
    ensures leaves { IfSome result (λ served. length buf.old ≤ chunk
        → left.LeavesFrom answered (L.left link.old) (L.left link.new) buf.old served) }
    ensures reads { L.read_faults link.old ≤ L.read_faults link.new }
    ensures writes { L.write_faults link.old ≤ L.write_faults link.new }
    ensures fits { D.fits desk.new store.new }
{
    match next_request(alloc, link, buf) {
        Ok(Next::Request(request)) => settle(
            alloc, paths, desk, store, clock, link, &request, answered,
        ),
        Ok(Next::End) => Some(Served {
            end: LinkEnd::Closed,
            requests: answered,
        }),
        Err(HttpFault::Bad(status)) => Some(Served {
            end: refuse(alloc, link, status),
            requests: answered,
        }),
        Err(HttpFault::Cut) => Some(Served {
            end: LinkEnd::Cut,
            requests: answered,
        }),
        Err(HttpFault::ReadFault) => Some(Served {
            end: LinkEnd::ReadFault,
            requests: answered,
        }),
        Err(_) => {
            tell_memory(alloc, link);
            Some(Served {
                end: LinkEnd::NoMemory,
                requests: answered,
            })
        }
    }
}

fn serve_with<P, C, D: Desk<P, C>, L: Source + Sink>(
    alloc: Global,
    paths: &Paths,
    desk: &mut D,
    store: &mut P,
    clock: &mut C,
    link: &mut L,
) -> Served
    requires { D.fits desk.old store.old }
    ensures serves { links.Serves D.turn (desk.old, store.old, clock.old) (desk.new, store.new, clock.new)
        (L.left link.old) (L.written link.old) (L.written link.new)
        (Rose (L.read_faults link.old) (L.read_faults link.new))
        (Rose (L.write_faults link.old) (L.write_faults link.new)) result }
    ensures leaves { left.Leaves (L.left link.old) (L.left link.new) result }
    ensures reads { L.read_faults link.old ≤ L.read_faults link.new }
    ensures writes { L.write_faults link.old ≤ L.write_faults link.new }
    ensures fits { D.fits desk.new store.new }
{
    let mut buf = Buf::new(alloc);
    let mut answered = 0;
    loop {
        match exchange(alloc, paths, desk, store, clock, link, &mut buf, answered) {
            Some(served) => return served,
            None => answered += 1,
        }
    }
}

/// Serves one link to its end: reads its requests, has the desk answer those that are calls, and writes the
/// replies in their order, one write for each that is short. A link has at most 100,000 requests. Nothing
/// is read behind a request with which it ends.
pub fn serve<P, C, D: Desk<P, C>, L: Source + Sink>(
    alloc: Global,
    desk: &mut D,
    store: &mut P,
    clock: &mut C,
    link: &mut L,
) -> Served
    requires { D.fits desk.old store.old }
    ensures serves { links.Serves D.turn (desk.old, store.old, clock.old) (desk.new, store.new, clock.new)
        (L.left link.old) (L.written link.old) (L.written link.new)
        (Rose (L.read_faults link.old) (L.read_faults link.new))
        (Rose (L.write_faults link.old) (L.write_faults link.new)) result }
    ensures leaves { left.Leaves (L.left link.old) (L.left link.new) result }
    ensures exact { WhereTold (L.left link.old)
        (λ bytes. whole.IsExact D.turn (desk.old, store.old, clock.old) (desk.new, store.new, clock.new) bytes
        (L.written link.old) (L.written link.new) result) }
    ensures complete { WhereTold (L.left link.old)
        (λ bytes. whole.IsComplete D.turn (desk.old, store.old, clock.old)
        (desk.new, store.new, clock.new) bytes (L.written link.old) (L.written link.new)
        (Rose (L.read_faults link.old) (L.read_faults link.new))
        (Rose (L.write_faults link.old) (L.write_faults link.new)) result) }
    ensures read_fault { result.end ≡ LinkEnd.ReadFault
        → Rose (L.read_faults link.old) (L.read_faults link.new) }
    ensures write_fault { result.end ≡ LinkEnd.WriteFault
        → Rose (L.write_faults link.old) (L.write_faults link.new) }
    ensures reads { L.read_faults link.old ≤ L.read_faults link.new }
    ensures writes { L.write_faults link.old ≤ L.write_faults link.new }
    ensures fits { D.fits desk.new store.new }
{
    match Paths::new(alloc) {
        Ok(paths) => serve_with(alloc, &paths, desk, store, clock, link),
        Err(_) => {
            tell_memory(alloc, link);
            Served {
                end: LinkEnd::NoMemory,
                requests: 0,
            }
        }
    }
}
