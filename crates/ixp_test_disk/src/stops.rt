//! A machine that stops at each call of its disk in turn. When it comes back, what is loaded is the
//! registry after the edits that were answered Ok, or after these and the one in work. The same requests,
//! sent again, bring the rest.
use crate::disk::{Stop, Stopping, close, come_back, files, open, stopping};
use crate::edits::{EDITS, Loaded, found_in, is_step, on_a_store, put_demo, steps};
use sqlite::Files;
use std::alloc::Global;
use std::sync::Wait;
use std::test::Fail;

/// The file of a store that has the demo exchange.
fn demo_file(alloc: Global) -> Option<Vec<u8>> {
    let mut keeper = open(alloc, files(alloc, b"")?).ok()?;
    if !put_demo(alloc, &mut keeper) {
        return None;
    }
    let (is_copied, files) = close(keeper)?;
    if !is_copied {
        return None;
    }
    Vec::from_slice(alloc, files.db.inner().bytes()).ok()
}

/// What was done before the machine stopped.
struct Stopped {
    /// How many requests were answered Ok.
    answered: u64,
    is_copied: bool,
    files: Files<Stopping>,
}

fn run<R: Wait>(rt: &R, alloc: Global, files: Files<Stopping>) -> Option<Stopped> {
    let keeper = match open(alloc, files) {
        Ok(keeper) => keeper,
        Err(files) => {
            return Some(Stopped {
                answered: 0,
                is_copied: false,
                files,
            });
        }
    };
    let (answered, keeper) = on_a_store(rt, alloc, keeper, EDITS);
    let (is_copied, files) = close(keeper)?;
    Some(Stopped {
        answered,
        is_copied,
        files,
    })
}

/// Whether the store has the registry after so many requests or one more, and that after all once they were
/// sent again.
fn comes_back<R: Wait>(
    rt: &R,
    alloc: Global,
    files: Files<Stopping>,
    steps: &[Loaded],
    answered: u64,
) -> Option<bool> {
    let mut keeper = open(alloc, files).ok()?;
    let back = found_in(alloc, &mut keeper)?;
    let (again, mut keeper) = on_a_store(rt, alloc, keeper, EDITS);
    let last = found_in(alloc, &mut keeper)?;
    let is_prefix = is_step(&back, steps, answered)
        || is_step(&back, steps, answered.saturating_add(1));
    Some(is_prefix && again == EDITS && is_step(&last, steps, EDITS))
}

/// Whether the registry is right as the machine comes back, and whether all was done before it stopped.
fn trial<R: Wait>(
    rt: &R,
    alloc: Global,
    db: &[u8],
    steps: &[Loaded],
    stop: Stop,
) -> Option<(bool, bool)> {
    let Stopped {
        answered,
        is_copied,
        files,
    } = run(rt, alloc, stopping(alloc, db, stop)?)?;
    let files = come_back(alloc, files, stop)?;
    let is_right = comes_back(rt, alloc, files, steps, answered)?;
    Some((is_right, is_copied && answered == EDITS))
}

/// How many calls of a disk the requests make at most.
const MOST_CALLS: u64 = 1000;

/// How many stops were tried, up to a run that is done before its stop; or the first stop after which the
/// registry was wrong.
fn each_stop<R: Wait>(
    rt: &R,
    alloc: Global,
    is_log: bool,
    loses: bool,
) -> Result<u64, Option<Stop>> {
    let steps = steps(rt, alloc).ok_or(None)?;
    let db = demo_file(alloc).ok_or(None)?;
    for calls in 0..MOST_CALLS {
        let stop = Stop {
            is_log,
            calls,
            loses,
        };
        match trial(rt, alloc, db.as_slice(), steps.as_slice(), stop) {
            Some((true, true)) => return Ok(calls),
            Some((true, false)) => (),
            _ => return Err(Some(stop)),
        }
    }
    Err(None)
}

#[test]
fn edits_outlast_a_log_that_loses_what_was_not_synced(rt: HostRuntime) -> Result<(), Fail> {
    let stops = each_stop(&rt, rt.alloc(), true, true);
    assert!(rt; matches!(stops, Ok(20..)), "{stops:?}");
    Ok(())
}

#[test]
fn edits_outlast_a_log_that_keeps_what_was_not_synced(rt: HostRuntime) -> Result<(), Fail> {
    let stops = each_stop(&rt, rt.alloc(), true, false);
    assert!(rt; matches!(stops, Ok(20..)), "{stops:?}");
    Ok(())
}

#[test]
fn edits_outlast_a_file_that_stops(rt: HostRuntime) -> Result<(), Fail> {
    let stops = each_stop(&rt, rt.alloc(), false, true);
    assert!(rt; matches!(stops, Ok(5..)), "{stops:?}");
    Ok(())
}
