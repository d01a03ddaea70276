//! The command `session`: it answers the HTTP requests of the input, one after the other, and writes the
//! replies to the output.
ghost use Rattle.std.specs.Prelude.{◌≡◌};
ghost use Rattle.ixp_cli.specs.Ends.{code_of, end_of};
ghost use Rattle.ixp_cli.specs.Waits.{SessionRuns};

use ixp_cli_plain::{End, LinkCode, unloaded};
use ixp_desk_serve::{SessionEnd, serve_session};
use ixp_http_link::{LinkEnd, Served};
use ixp_io::{Clock, Keeper, Sink, Source};
use std::alloc::Global;
use std::sync::Wait;

/// The code of a message that is no request, by the status of its reply.
fn code_of(status: u16) -> LinkCode
    ensures { result ≡ code_of status }
{
    if status == 431 {
        LinkCode::H2
    } else if status == 413 {
        LinkCode::H3
    } else if status == 501 {
        LinkCode::H4
    } else {
        LinkCode::H1
    }
}

/// How a session ends, by how its link ended.
fn end_of(served: Served) -> End
    ensures { result ≡ end_of served }
{
    let requests = served.requests;
    match served.end {
        LinkEnd::Closed => End::Done,
        LinkEnd::BadMessage(status) => End::BadLink {
            code: code_of(status),
            requests,
        },
        LinkEnd::Cut => End::BadLink {
            code: LinkCode::H5,
            requests,
        },
        LinkEnd::Spent => End::BadLink {
            code: LinkCode::S1,
            requests,
        },
        LinkEnd::ReadFault => End::ReadFault,
        LinkEnd::WriteFault => End::WriteFault,
        LinkEnd::NoMemory => End::NoMemory,
    }
}

/// Loads the store's state, and serves the input and the output as one link.
pub(crate) fn run_session<R: Wait, S: Source, K: Sink, P: Keeper, C: Clock>(
    rt: &R,
    alloc: Global,
    input: &mut S,
    output: &mut K,
    keeper: &mut P,
    clock: &mut C,
) -> End
    ensures { SessionRuns
        (record {
          rows = P.table keeper.old;
          faults = P.faults keeper.old;
          left = S.left input.old;
          reads = S.read_faults input.old;
          written = K.written output.old;
          writes = K.write_faults output.old;
          given = C.given clock.old;
        })
        (record {
          rows = P.table keeper.new;
          faults = P.faults keeper.new;
          left = S.left input.new;
          reads = S.read_faults input.new;
          written = K.written output.new;
          writes = K.write_faults output.new;
          given = C.given clock.new;
        }) result }
{
    match serve_session(rt, alloc, keeper, input, output, clock) {
        SessionEnd::Unopened(fault) => unloaded(alloc, fault),
        SessionEnd::NoMemory => End::NoMemory,
        SessionEnd::Served(served) => end_of(served),
    }
}
