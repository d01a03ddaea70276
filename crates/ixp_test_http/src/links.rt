//! Links in memory that are served by a desk that has no memory.
use ixp_api::{Call, Outcome};
use ixp_http_link::{Desk, Served, serve};
use ixp_io::{MemLink, MemSink, MemSource, Plan};
use ixp_num_tables::{Items, put};
use std::alloc::{AllocError, Global};
use std::str::from_utf8;

/// A desk that counts the calls in its store. It makes each edit, and has no memory for questions.
#[derive(Drop)]
struct Counter {
    done: u64,
}

impl Desk<u64, ()> for Counter {
    ghost fits = { λ desk calls. Unit {0} };

    ghost turn = { λ before call outcome after. Unit {0} };

    fn answer(&mut self, _alloc: Global, calls: &mut u64, _clock: &mut (), call: Call) -> Outcome {
        *calls = calls.saturating_add(1);
        self.done = self.done.saturating_add(1);
        match call {
            Call::Edit(entry) => Outcome::Done(entry.number),
            Call::Ask(_, _) => Outcome::NoMemory,
            Call::Published(_, _, _) => Outcome::NoRouter,
            Call::Explain(_) => Outcome::NoSession,
            Call::Hold(_, _, _, _) => Outcome::Held(0),
            Call::Glass(_, _, _) => Outcome::NotHeld,
            Call::GlassPlace(_, _, _, _) => Outcome::NotHeld,
        }
    }
}

// Adds the status of each reply, and whether the link was to end with it.
fn put_statuses(out: &mut Vec<u8>, written: &[u8]) -> Result<(), AllocError> {
    let text = from_utf8(written).unwrap_or("no text");
    for reply in text.split("HTTP/1.1 ").skip(1) {
        put(out, b" ")?;
        put(out, reply.get(..3).unwrap_or("none").as_bytes())?;
        if reply.contains("Connection: close") {
            put(out, b" closes")?;
        }
    }
    Ok(())
}

// Serves a link that is read in pieces, and tells how it ended, how many requests were answered, how many
// calls there were, and the replies.
fn told(alloc: Global, text: &str, most: usize) -> Result<Vec<u8>, AllocError> {
    let bytes = Items::from_slice(alloc, text.as_bytes())?;
    let mut link = MemLink {
        source: MemSource::new(bytes, Plan::smooth(alloc)).in_pieces(most.max(1)),
        sink: MemSink::new(alloc, Plan::smooth(alloc)),
    };
    let mut desk = Counter { done: 0 };
    let mut calls = 0;
    let Served { end, requests } = serve(alloc, &mut desk, &mut calls, &mut (), &mut link);
    let text = format!(in alloc; "{end:?} {requests} {calls}")?;
    let mut out = Vec::from_slice(alloc, text.as_bytes())?;
    put_statuses(&mut out, link.sink.written())?;
    Ok(out)
}

// Whether a link with this text is served so.
fn is_told(alloc: Global, text: &str, most: usize, want: &str) -> bool {
    match told(alloc, text, most) {
        Ok(have) => have.as_slice() == want.as_bytes(),
        Err(_) => false,
    }
}

/// Requests that want memory: the link ends with the reply, whatever the request asks for.
const WANTS: &[&str] = &[
    "GET /members/1 HTTP/1.1\r\n\r\nGET /nothing HTTP/1.1\r\n\r\n",
    "GET /members/1 HTTP/1.0\r\n\r\n",
];

#[test]
fn want_of_memory_ends_the_link(rt: HostRuntime) {
    for text in WANTS {
        for most in [1, 7, 4096] {
            assert!(rt;
                is_told(rt.alloc(), text, most, "NoMemory 0 1 507 closes"),
                "{text}"
            );
        }
    }
}
