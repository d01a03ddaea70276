//! Files in memory that stop at a call.
use ixp_keeper_sql::SqlKeeper;
use sqlite::{FileStore, Files, Options};
use sqlite_disk::{Crash, Disk, Fuse, Memory};
use std::alloc::Global;

pub type Stopping = Fuse<Memory>;

/// Where a machine stops.
#[derive(Clone, Copy, Debug)]
pub struct Stop {
    /// Whether the log's calls are counted, or the file's.
    pub is_log: bool,
    /// So many of them are carried out.
    pub calls: u64,
    /// Whether what was written and not synced is lost.
    pub loses: bool,
}

fn filled(alloc: Global, bytes: &[u8], calls: u64) -> Option<Stopping> {
    let mut memory = Memory::new(alloc);
    memory.write_at(0, bytes).ok()?;
    memory.sync().ok()?;
    Some(Fuse::new(memory, calls))
}

/// An empty log and a file with these bytes, on a machine that doesn't stop.
pub fn files(alloc: Global, db: &[u8]) -> Option<Files<Stopping>> {
    Some(Files {
        log: filled(alloc, b"", u64::MAX)?,
        db: filled(alloc, db, u64::MAX)?,
    })
}

/// The same on a machine that stops.
pub fn stopping(alloc: Global, db: &[u8], stop: Stop) -> Option<Files<Stopping>> {
    let (log_calls, db_calls) = if stop.is_log {
        (stop.calls, u64::MAX)
    } else {
        (u64::MAX, stop.calls)
    };
    Some(Files {
        log: filled(alloc, b"", log_calls)?,
        db: filled(alloc, db, db_calls)?,
    })
}

/// The files as the machine finds them when it comes back.
pub fn come_back(alloc: Global, mut files: Files<Stopping>, stop: Stop) -> Option<Files<Stopping>> {
    if stop.loses {
        files.log.crash();
        files.db.crash();
        return Some(files);
    }
    Some(Files {
        log: filled(alloc, files.log.inner().bytes(), u64::MAX)?,
        db: filled(alloc, files.db.inner().bytes(), u64::MAX)?,
    })
}

/// Few pages are kept in memory, so that calls read the disk.
fn few_pages() -> Options {
    let mut options = Options::new(1);
    options.cache_pages = 8;
    options
}

pub type DiskKeeper = SqlKeeper<FileStore<Stopping>>;

/// A store over these files, or what is left of them where they can't be opened.
pub fn open(alloc: Global, files: Files<Stopping>) -> Result<DiskKeeper, Files<Stopping>> {
    if !files.may_be_used() {
        return Err(files);
    }
    match SqlKeeper::open_files(alloc, files, few_pages()) {
        Ok(keeper) => Ok(keeper),
        Err((_, left)) => Err(left),
    }
}

/// The files of a store, and whether the log was copied into the file.
pub fn close(keeper: DiskKeeper) -> Option<(bool, Files<Stopping>)> {
    let mut store = keeper.into_store()?;
    let is_copied = store.checkpoint().is_ok();
    Some((is_copied, store.close()))
}
