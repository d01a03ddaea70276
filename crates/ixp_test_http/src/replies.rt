//! The bytes of replies.
use ixp_api::{Outcome, reply_of};
use ixp_http::{HttpReply, write_reply};
use ixp_io::{MemSink, Plan};
use std::alloc::Global;

// Whether the reply is written with these bytes, by one write.
fn is_written(alloc: Global, reply: &HttpReply, want: &str) -> bool {
    let mut link = MemSink::new(alloc, Plan::smooth(alloc));
    write_reply(&mut link, reply).is_ok()
        && link.written() == want.as_bytes()
        && link.plan.calls == 1
}

fn has_bytes(alloc: Global, outcome: Outcome, want: &str) -> bool {
    match reply_of(alloc, outcome) {
        Ok(reply) => is_written(alloc, &reply, want),
        Err(_) => false,
    }
}

#[test]
fn memory_ran_out(rt: HostRuntime) {
    let want =
        "HTTP/1.1 507 Insufficient Storage\r\nContent-Type: application/json\r\nContent-Length: 29\r\nConnection: close\r\n\r\n{\"detail\":\"\",\"rule\":\"memory\"}";
    assert!(rt; has_bytes(rt.alloc(), Outcome::NoMemory, want));
}

#[test]
fn a_seat_has_another_count(rt: HostRuntime) {
    let want =
        "HTTP/1.1 500 Internal Server Error\r\nContent-Type: application/json\r\nContent-Length: 28\r\n\r\n{\"detail\":\"3 4\",\"rule\":\"Y4\"}";
    assert!(rt; has_bytes(rt.alloc(), Outcome::SeatCount { seat: 3, kept: 4 }, want));
}
