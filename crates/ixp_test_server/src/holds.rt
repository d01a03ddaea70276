//! Who is held waits until it may go on.
use ixp_io::{Change, Gate, Keeper, MemKeeper, Plan, RowName};
use ixp_io_holds::{Hold, HoldGate, HoldKeeper};
use ixp_num_tables::Items;
use std::alloc::{AllocError, Global};
use std::sync::atomic::{AtomicBool, Ordering};
use std::test::Fail;
use std::thread;

fn batch(alloc: Global) -> Result<Vec<Change>, AllocError> {
    let mut changes = Vec::new(alloc);
    changes.push(Change {
        name: RowName {
            kind: 0,
            key: Items::new(alloc),
        },
        body: Some(Items::new(alloc)),
    })?;
    Ok(changes)
}

// Commits, and says so.
fn commits(alloc: Global, keeper: &mut HoldKeeper<'_>, done: &AtomicBool) -> bool {
    let Ok(changes) = batch(alloc) else {
        return false;
    };
    let is_made = keeper.commit(alloc, changes.as_slice()).is_ok();
    done.store(true, Ordering::SeqCst);
    is_made
}

// Passes a gate, and says so.
fn passes(hold: &Hold, done: &AtomicBool) -> bool {
    let gate = HoldGate::new(hold, 1);
    gate.at(2);
    gate.at(1);
    done.store(true, Ordering::SeqCst);
    true
}

// Waits until the other is held, sees that it isn't done, and lets it go on.
fn lets_go_on(hold: &Hold, done: &AtomicBool) -> bool {
    let is_held = hold.is_reached() && !done.load(Ordering::SeqCst);
    hold.open();
    is_held
}

#[test]
fn a_commit_is_held(rt: HostRuntime) {
    let alloc = rt.alloc();
    let hold = Hold::new();
    let done = AtomicBool::new(false);
    let mut keeper = HoldKeeper::new(MemKeeper::new(alloc, Plan::smooth(alloc)), &hold);
    assert!(rt; commits(alloc, &mut keeper, &done));
    hold.close();
    done.store(false, Ordering::SeqCst);
    let (is_made, is_held) = thread::join(
        &rt,
        || commits(alloc, &mut keeper, &done),
        || lets_go_on(&hold, &done),
    );
    assert!(rt; is_made && is_held && !hold.has_failed());
}

#[test]
fn a_gate_is_held(rt: HostRuntime) {
    let hold = Hold::new();
    hold.close();
    let done = AtomicBool::new(false);
    let (_, is_held) = thread::join(&rt, || passes(&hold, &done), || lets_go_on(&hold, &done));
    assert!(rt; is_held && !hold.has_failed());
}

#[test]
fn a_hold_that_nobody_ends_is_a_fault(rt: HostRuntime) -> Result<(), Fail> {
    let alloc = rt.alloc();
    let hold = Hold::for_turns(100);
    hold.close();
    let done = AtomicBool::new(false);
    let mut keeper = HoldKeeper::new(MemKeeper::new(alloc, Plan::smooth(alloc)), &hold);
    assert!(rt; !commits(alloc, &mut keeper, &done));
    assert!(rt; hold.has_failed() && keeper.faults() == 1);
    assert!(rt; matches!(keeper.next_row(alloc, None), Ok(None)));
    Ok(())
}
