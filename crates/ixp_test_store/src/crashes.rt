//! A machine that stops at a call of a disk has the rows of the batches that were told, or these and those of
//! the one in work.
use crate::batches::{shown, step};
use ixp_io::{KeepFault, Keeper, MemKeeper, Plan};
use ixp_keeper_sql::SqlKeeper;
use sqlite::{FileStore, Files, Options};
use sqlite_disk::{Crash, Fuse, Memory};
use std::alloc::Global;
use std::test::Fail;

type Stopping = Fuse<Memory>;

type Store = FileStore<Stopping>;

const BATCHES: u8 = 4;

/// How many calls of a disk all that is done here makes at most.
const MOST_CALLS: u64 = 400;

fn open(alloc: Global, files: Files<Stopping>) -> Result<SqlKeeper<Store>, Files<Stopping>> {
    if !files.may_be_used() {
        return Err(files);
    }
    match SqlKeeper::open_files(alloc, files, Options::new(1)) {
        Ok(keeper) => Ok(keeper),
        Err((_, left)) => Err(left),
    }
}

// Copies the log into the file.
fn close(mut store: Store) -> (bool, Files<Stopping>) {
    let copied = store.checkpoint().is_ok();
    (copied, store.close())
}

// Makes the batches up to the first that fails, and tells how many it made.
fn commit_all<P: Keeper>(alloc: Global, keeper: &mut P, batches: u8) -> Result<u8, KeepFault> {
    let mut told = 0u8;
    for number in 0..batches {
        let batch = step(alloc, number)?;
        if keeper.commit(alloc, batch.as_slice()).is_err() {
            break;
        }
        told = told.saturating_add(1);
    }
    Ok(told)
}

/// What was done before the machine stopped.
struct Stopped {
    told: u8,
    closed: bool,
    files: Files<Stopping>,
}

fn run(alloc: Global, files: Files<Stopping>) -> Result<Stopped, KeepFault> {
    let mut keeper = match open(alloc, files) {
        Ok(keeper) => keeper,
        Err(files) => {
            return Ok(Stopped {
                told: 0,
                closed: false,
                files,
            });
        }
    };
    let told = commit_all(alloc, &mut keeper, BATCHES);
    let Some(store) = keeper.into_store() else {
        return Err(KeepFault::Failed);
    };
    let (closed, files) = close(store);
    Ok(Stopped {
        told: told?,
        closed,
        files,
    })
}

fn come_back(files: &mut Files<Stopping>) {
    files.log.crash();
    files.db.crash();
}

// The rows of a database.
fn rows_in(alloc: Global, mut keeper: SqlKeeper<Store>) -> Result<Vec<u8>, KeepFault> {
    let rows = shown(alloc, &mut keeper);
    if let Some(store) = keeper.into_store() {
        let _files = store.close();
    }
    rows
}

// The rows after the machine came back.
fn rows_after(alloc: Global, mut files: Files<Stopping>) -> Result<Vec<u8>, KeepFault> {
    come_back(&mut files);
    match open(alloc, files) {
        Ok(keeper) => rows_in(alloc, keeper),
        Err(_files) => Err(KeepFault::Failed),
    }
}

// The rows that so many batches make.
fn rows_of(alloc: Global, batches: u8) -> Result<Vec<u8>, KeepFault> {
    let mut keeper = MemKeeper::new(alloc, Plan::smooth(alloc));
    commit_all(alloc, &mut keeper, batches)?;
    shown(alloc, &mut keeper)
}

fn stopping(alloc: Global, log_calls: u64, db_calls: u64) -> Files<Stopping> {
    Files {
        log: Fuse::new(Memory::new(alloc), log_calls),
        db: Fuse::new(Memory::new(alloc), db_calls),
    }
}

// Whether the rows are as told, and whether all was done before the machine stopped.
fn trial(alloc: Global, log_calls: u64, db_calls: u64) -> Result<(bool, bool), KeepFault> {
    let Stopped {
        told,
        closed,
        files,
    } = run(alloc, stopping(alloc, log_calls, db_calls))?;
    let rows = rows_after(alloc, files)?;
    let is_told = rows.as_slice() == rows_of(alloc, told)?.as_slice();
    let is_in_work = told < BATCHES
        && rows.as_slice() == rows_of(alloc, told.saturating_add(1))?.as_slice();
    Ok((is_told || is_in_work, closed && told == BATCHES))
}

// Stops the log, or the file, at each call in turn. It tells at how many, and None where the rows were wrong.
fn trials(alloc: Global, is_log: bool) -> Result<Option<u64>, KeepFault> {
    for calls in 0..MOST_CALLS {
        let (log_calls, db_calls) = if is_log {
            (calls, u64::MAX)
        } else {
            (u64::MAX, calls)
        };
        let (is_right, is_done) = trial(alloc, log_calls, db_calls)?;
        if !is_right {
            return Ok(None);
        }
        if is_done {
            return Ok(Some(calls));
        }
    }
    Ok(None)
}

#[test]
fn a_stopped_log_keeps_what_was_told(rt: HostRuntime) -> Result<(), Fail> {
    let stops = trials(rt.alloc(), true);
    assert!(rt; matches!(stops, Ok(Some(20..))), "{stops:?}");
    Ok(())
}

#[test]
fn a_stopped_file_keeps_what_was_told(rt: HostRuntime) -> Result<(), Fail> {
    let stops = trials(rt.alloc(), false);
    assert!(rt; matches!(stops, Ok(Some(5..))), "{stops:?}");
    Ok(())
}
