//! Writing replies.
ghost use Rattle.std.specs.Prelude.{◌≡◌, ◌≤◌, IfOk};
ghost use Rattle.ixp_io.specs.Faults.{Rose};
ghost use Rattle.ixp_io.specs.Told.{Takes};
ghost use Rattle.ixp_http.specs.Replies.{reply_bytes};
ghost use Rattle.ixp_api_replies.specs.Replies as replies;
ghost use Rattle.ixp_http_link.specs.Turns as turns;
ghost use Rattle.ixp_http_link.specs.Links as links;
ghost use Rattle.ixp_http_link.specs.Steps as spec;

use crate::ends::LinkEnd;
use ixp_api::{CallFault, Outcome, reply_of};
use ixp_http::{HttpReply, write_reply};
use ixp_io::Sink;
use std::alloc::{AllocError, Global};

// Whether memory was wanting.
fn wants_memory(outcome: &Outcome) -> bool
    ensures { result ≡ turns.wants_memory outcome.now }
{
    match outcome {
        Outcome::NoMemory => true,
        Outcome::Called(fault) => *fault == CallFault::NoMemory,
        _ => false,
    }
}

// The reply of an outcome, with which the link ends or doesn't.
fn reply_with(alloc: Global, outcome: Outcome, closes: bool) -> Result<HttpReply, AllocError>
    ensures { IfOk result (λ r. r ≡ links.closing_if closes (replies.reply outcome)) }
{
    let mut reply = reply_of(alloc, outcome)?;
    if closes {
        reply.closes = true;
    }
    Ok(reply)
}

/// Tries to write the reply of running out of memory, which takes none.
pub(crate) fn tell_memory<K: Sink>(alloc: Global, output: &mut K)
    ensures tried { links.Tried (Takes (K.written output.old) (K.written output.new))
        (Rose (K.write_faults output.old) (K.write_faults output.new)) (reply_bytes replies.no_memory) }
    ensures counts { K.write_faults output.old ≤ K.write_faults output.new }
    ensures left { K.left output.new ≡ K.left output.old }
    ensures read_faults { K.read_faults output.new ≡ K.read_faults output.old }
{
    if let Ok(reply) = reply_of(alloc, Outcome::NoMemory) {
        let _ = write_reply(output, &reply);
    }
}

/// Writes the reply of an outcome, or that of running out of memory. An error is why the link ends.
pub(crate) fn tell<K: Sink>(
    alloc: Global,
    output: &mut K,
    outcome: Outcome,
    closes: bool,
) -> Result<(), LinkEnd>
    ensures tells { spec.Tells outcome closes (Takes (K.written output.old) (K.written output.new))
        (Rose (K.write_faults output.old) (K.write_faults output.new)) result }
    ensures counts { K.write_faults output.old ≤ K.write_faults output.new }
    ensures left { K.left output.new ≡ K.left output.old }
    ensures read_faults { K.read_faults output.new ≡ K.read_faults output.old }
{
    if wants_memory(&outcome) {
        tell_memory(alloc, output);
        return Err(LinkEnd::NoMemory);
    }
    let Ok(reply) = reply_with(alloc, outcome, closes) else {
        tell_memory(alloc, output);
        return Err(LinkEnd::NoMemory);
    };
    match write_reply(output, &reply) {
        Ok(()) => Ok(()),
        Err(_) => Err(LinkEnd::WriteFault),
    }
}

/// Answers a message that is no request, with this status.
pub(crate) fn refuse<K: Sink>(alloc: Global, output: &mut K, status: u16) -> LinkEnd
    ensures refuses { spec.Refuses status (Takes (K.written output.old) (K.written output.new))
        (Rose (K.write_faults output.old) (K.write_faults output.new)) result }
    ensures counts { K.write_faults output.old ≤ K.write_faults output.new }
    ensures left { K.left output.new ≡ K.left output.old }
    ensures read_faults { K.read_faults output.new ≡ K.read_faults output.old }
{
    match tell(alloc, output, Outcome::Head(status), false) {
        Ok(()) => LinkEnd::BadMessage(status),
        Err(end) => end,
    }
}
