//! Clocks, doors and gates, and that what is held in memory may go to another thread.
use crate::streams::source;
use ixp_io::{
    Clock, Door, FreeGate, Gate, LAST_SECOND, MemDoor, MemKeeper, MemLink, MemSink, Plan,
    ReadSource, SetClock, WriteSink, read_whole, write_all,
};
use std::alloc::{AllocError, Global};
use std::collections::VecDeque;
use std::test::Fail;

#[test]
fn a_set_clock_gives_its_second(rt: HostRuntime) {
    let mut clock = SetClock::new(7);
    let first = clock.now();
    clock.second = u64::MAX;
    assert!(rt; first == 7 && (&mut clock).now() == LAST_SECOND);
}

// A door with links of one and two bytes.
fn door(alloc: Global, failing: &[u64]) -> Result<MemDoor, AllocError> {
    let mut links = VecDeque::new(alloc);
    for count in 1..=2 {
        let source = source(alloc, count, 1, &[])?;
        let sink = MemSink::new(alloc, Plan::smooth(alloc));
        links.push_back(MemLink { source, sink })?;
    }
    let mut further = VecDeque::new(alloc);
    let source = source(alloc, 3, 1, &[])?;
    let sink = MemSink::new(alloc, Plan::smooth(alloc));
    further.push_back(MemLink { source, sink })?;
    let plan = Plan::failing(alloc, failing)?;
    Ok(MemDoor::new(alloc, links, further, plan))
}

// How many bytes the next link gives; 0 where there is none.
fn next_length(alloc: Global, door: &mut MemDoor) -> usize {
    let Ok(mut link) = door.accept() else {
        return 0;
    };
    if write_all(&mut link, b"hello").is_err() || link.sink.written() != b"hello".as_slice() {
        return 0;
    }
    read_whole(alloc, &mut link, 9).map_or(0, |all| all.len())
}

/// What the links of the door give, of which the second call fails; behind the last one there is none.
const LENGTHS: &[usize] = &[1, 0, 2, 0];

#[test]
fn a_door_gives_its_links_in_order(rt: HostRuntime) -> Result<(), Fail> {
    let mut door = door(rt.alloc(), &[3])?;
    assert!(rt; door.listen(80) == Ok(()));
    FreeGate.at(1);
    for length in LENGTHS {
        assert!(rt; next_length(rt.alloc(), &mut door) == *length);
    }
    assert!(rt; (door.given, door.plan.faults) == (2, 2));
    Ok(())
}

// What the first link of the further door gives; 0 where there is none.
fn further_length(alloc: Global, door: &mut MemDoor) -> usize {
    match door.second(1) {
        Ok(mut further) => next_length(alloc, &mut further),
        Err(_) => 0,
    }
}

#[test]
fn a_further_door_gives_links_of_its_own(rt: HostRuntime) -> Result<(), Fail> {
    let mut door = door(rt.alloc(), &[1])?;
    assert!(rt; further_length(rt.alloc(), &mut door) == 0);
    assert!(rt; further_length(rt.alloc(), &mut door) == 3);
    assert!(rt; further_length(rt.alloc(), &mut door) == 0);
    assert!(rt; next_length(rt.alloc(), &mut door) == 1);
    Ok(())
}

fn is_send<T: Send>(_value: &T) {}

fn is_sync<T: Sync>(_value: &T) {}

#[test]
fn objects_go_to_other_threads(rt: HostRuntime) {
    let alloc = rt.alloc();
    let mut keeper = MemKeeper::new(alloc, Plan::smooth(alloc));
    is_send(&&mut keeper);
    is_send(&MemDoor::new(
        alloc,
        VecDeque::new(alloc),
        VecDeque::new(alloc),
        Plan::smooth(alloc),
    ));
    is_send(&SetClock::new(0));
    is_send(&ReadSource::new(rt.stdin()));
    is_send(&WriteSink::new(rt.stdout()));
    is_sync(&FreeGate);
}
