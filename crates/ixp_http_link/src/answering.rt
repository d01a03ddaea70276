//! The answer to a request.
ghost use Rattle.std.specs.Prelude.{◌≡◌, ◌⊎◌, ◌≤◌, ◌<◌, ◌+◌, List, ℕ, IfSome};
ghost use Rattle.ixp_io.specs.Faults.{Rose};
ghost use Rattle.ixp_io.specs.Told.{Takes};
ghost use Rattle.ixp_http_link.specs.Links as links;
ghost use Rattle.ixp_http_link.specs.Steps as spec;

use crate::desk::Desk;
use crate::ends::{LinkEnd, Served};
use crate::telling::tell;
use ixp_api::{Outcome, Paths, route};
use ixp_http::Request;
use ixp_io::Sink;
use std::alloc::Global;

/// So many requests of a link are answered.
const REQUEST_LIMIT: u32 = 100_000;

// How a request ends: a call by the desk's answer, what is no call without it.
fn outcome_of<P, C, D: Desk<P, C>>(
    alloc: Global,
    paths: &Paths,
    desk: &mut D,
    store: &mut P,
    clock: &mut C,
    request: &Request,
) -> Outcome
    requires { D.fits desk.old store.old }
    ensures becomes { spec.Becomes D.turn (desk.old, store.old, clock.old) request.now result
        (desk.new, store.new, clock.new) }
    ensures fits { D.fits desk.new store.new }
{
    match route(alloc, paths, request) {
        Ok(call) => desk.answer(alloc, store, clock, call),
        Err(fault) => Outcome::Called(fault),
    }
}

// Whether the link ends with a request, before which so many were answered.
fn is_last(request: &Request, answered: u32) -> bool
    requires { answered < links.request_limit }
    ensures { result ≡ links.ends_at answered request.now }
{
    request.closes || answered + 1 == REQUEST_LIMIT
}

/// Has the desk answer a request, before which so many were answered, and writes the reply. Where the link
/// ends with it, says how.
pub(crate) fn settle<P, C, D: Desk<P, C>, K: Sink>(
    alloc: Global,
    paths: &Paths,
    desk: &mut D,
    store: &mut P,
    clock: &mut C,
    output: &mut K,
    request: &Request,
    answered: u32,
) -> Option<Served>
    requires few { answered < links.request_limit }
    requires fits { D.fits desk.old store.old }
    ensures settles { (rest : List ℕ)
        → spec.Settles D.turn answered (desk.old, store.old, clock.old)
        (desk.new, store.new, clock.new) request.now rest
        (Takes (K.written output.old) (K.written output.new))
        (Rose (K.write_faults output.old) (K.write_faults output.new)) result }
    ensures counts { K.write_faults output.old ≤ K.write_faults output.new }
    ensures left { K.left output.new ≡ K.left output.old }
    ensures read_faults { K.read_faults output.new ≡ K.read_faults output.old }
    ensures requests { IfSome result
        (λ s. (s.requests ≡ answered) ⊎ (s.requests ≡ answered + 1)) }
    ensures fits { D.fits desk.new store.new }
{
    let outcome = outcome_of(alloc, paths, desk, store, clock, request);
    let closes = is_last(request, answered);
    match tell(alloc, output, outcome, closes) {
        Err(end) => Some(Served {
            end,
            requests: answered,
        }),
        Ok(()) => {
            if closes {
                Some(Served {
                    end: if request.closes {
                        LinkEnd::Closed
                    } else {
                        LinkEnd::Spent
                    },
                    requests: answered + 1,
                })
            } else {
                None
            }
        }
    }
}
