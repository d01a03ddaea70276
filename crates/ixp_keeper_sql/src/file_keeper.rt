//! A keeper over a file that is opened at its first call.
ghost use Rattle.std.specs.Prelude.{◌≡◌, ◌≤◌, None, IfOk};

use crate::SqlKeeper;
use crate::refusals::counted;
use ixp_io::{Change, KeepFault, Keeper, Row, RowName};
use sqlite::{Alter, Error, ErrorCode, File, FileStore, Unknown};
use sqlite_disk::Files;
use sqlite_pager::Options;
use sqlite_std_file::OpenError;
use sqlite_trees::store::Store;
use std::alloc::{AllocError, Global};
use std::fs::OpenOptions;
use std::hash::{BuildHasher, RandomState};
use std::os::unix::fs::OpenOptionsExt;
use std::{fs, io};

/// A keeper over the store at a path. It is generic so that it may go to another thread.
pub struct PathKeeper<S: Alter> {
    rt: HostRuntime,
    path: String,
    open: Option<SqlKeeper<S>>,
    /// A read found no file. Then a file that is there at the first commit is another program's.
    is_absent: bool,
    faults: u64,
}

/// A keeper over the file at a path, and the log beside it, whose name ends in `-wal`. A file that isn't
/// there has no rows; the first commit makes it, for its owner alone to read and write. Another program that
/// has it open or made it in between, a file that is no database and a database of another program are
/// faults. The file is opened once: where a commit that failed may stand in its log, it has to be read anew
/// by a program that starts.
pub type FileKeeper = PathKeeper<FileStore<File>>;

// It is written out, so that a caller doesn't prove again how each part is dropped.
impl<S: Alter + Drop> Drop for PathKeeper<S> {
    fn drop(self) {
        let PathKeeper {
            rt: _,
            path: _,
            open: _,
            is_absent: _,
            faults: _,
        } = self;
    }
}

type Opened = SqlKeeper<FileStore<File>>;

// The file and its log, locked.
fn files_at(rt: &HostRuntime, path: &str) -> Result<Files<File>, Error> {
    match sqlite_std_file::open(rt, path, Unknown) {
        Ok(files) => Ok(files),
        Err(OpenError::OutOfMemory) => Err(Error::SqliteFailure(ErrorCode::OutOfMemory)),
        Err(OpenError::Busy) => Err(Error::SqliteFailure(ErrorCode::DatabaseBusy)),
        Err(OpenError::Io(error)) => Err(refusal_of(&error)),
        Err(OpenError::HotJournal) => Err(Error::SqliteFailure(ErrorCode::CannotOpen)),
    }
}

/// How many pages that were read are kept in memory at most: 128 MB.
const MOST_PAGES: u64 = 32768;

/// The size of a page, in most files.
const PAGE: u64 = 4096;

// How many pages are kept in memory: those of the file.
fn pages_of(rt: &HostRuntime, path: &str) -> u64 {
    match fs::metadata(rt, path) {
        Ok(found) => (found.len() / PAGE).min(MOST_PAGES),
        Err(_) => 0,
    }
}

// With a random number, which a new log gets.
fn options(rt: &HostRuntime, path: &str) -> Result<Options, Error> {
    let mut options = match RandomState::new(rt) {
        Ok(state) => Options::new(state.hash_one(&0u8)),
        Err(error) => return Err(refusal_of(&error)),
    };
    options.cache_pages = options.cache_pages.max(pages_of(rt, path) as usize);
    Ok(options)
}

fn open_at(rt: &HostRuntime, path: &str) -> Result<Opened, Error> {
    let options = options(rt, path)?;
    let files = files_at(rt, path)?;
    if !files.may_be_used() {
        return Err(Error::SqliteFailure(ErrorCode::CannotOpen));
    }
    match SqlKeeper::open_files(rt.alloc(), files, options) {
        Ok(keeper) => Ok(keeper),
        Err((error, _)) => Err(error),
    }
}

/// The store has API keys and passwords of sessions: nobody but its owner may read it.
const OWNER_ALONE: u32 = 0o600;

fn refusal_of(error: &io::Error) -> Error {
    Error::SqliteFailure(match error.kind() {
        io::ErrorKind::OutOfMemory => ErrorCode::OutOfMemory,
        _ => ErrorCode::CannotOpen,
    })
}

// Makes the file. Where it is there, that is a refusal if it wasn't there when it was read.
fn make_file(rt: &HostRuntime, path: &str, is_absent: bool) -> Result<(), Error> {
    let mut how = OpenOptions::new();
    how.read(true)
        .write(true)
        .create_new(true)
        .mode(OWNER_ALONE);
    match how.open(rt, path) {
        Ok(_) => Ok(()),
        Err(error) if error.kind() == io::ErrorKind::AlreadyExists && !is_absent => Ok(()),
        Err(error) => Err(refusal_of(&error)),
    }
}

// Whether there is no file. Where that can't be told, opening it tells why.
fn is_missing(rt: &HostRuntime, path: &str) -> bool {
    matches!(fs::exists(rt, path), Ok(false))
}

// Copies the log into the file, and closes both.
fn shut(mut store: FileStore<File>) {
    store.rollback();
    let _ = store.checkpoint();
    let _files = store.close();
}

impl PathKeeper<FileStore<File>> {
    /// A keeper over the file at this path, which isn't opened yet.
    pub fn new(rt: &HostRuntime, path: &str) -> Result<FileKeeper, AllocError>
        ensures { IfOk result (λ keeper. ⟦<PathKeeper<FileStore<File>> as Keeper>⟧.faults keeper ≡ 0) }
    {
        Ok(PathKeeper {
            rt: *rt,
            path: String::from_str(rt.alloc(), path)?,
            open: None,
            is_absent: false,
            faults: 0,
        })
    }

    // Opens the file, where it isn't open.
    fn begin(&mut self) -> Result<(), Error>
        ensures { self.new.faults ≡ self.old.faults }
    {
        if self.open.is_none() {
            self.open = Some(open_at(&self.rt, self.path.as_str())?);
        }
        Ok(())
    }

    /// Copies the log into the file, and lets both go. Where the log can't be copied, the rows stay in the
    /// two of them.
    pub fn close(self) {
        let PathKeeper {
            rt: _,
            path: _,
            open,
            is_absent: _,
            faults: _,
        } = self;
        if let Some(keeper) = open {
            if let Some(store) = keeper.into_store() {
                shut(store);
            }
        }
    }
}

impl Keeper for PathKeeper<FileStore<File>> {
    ghost table = { λ _. None };

    ghost faults = { λ keeper. keeper.faults };

    fn commit(&mut self, alloc: Global, batch: &[Change]) -> Result<(), KeepFault> {
        if self.faults == u64::MAX {
            return Err(KeepFault::Failed);
        }
        if self.open.is_none() {
            if let Err(refusal) = make_file(&self.rt, self.path.as_str(), self.is_absent) {
                return Err(counted(&mut self.faults, &refusal));
            }
            self.is_absent = false;
        }
        if let Err(refusal) = self.begin() {
            return Err(counted(&mut self.faults, &refusal));
        }
        let done = match &mut self.open {
            Some(keeper) => keeper.commit(alloc, batch),
            None => Err(KeepFault::Failed),
        };
        if let Err(KeepFault::Failed) = &done {
            self.faults += 1;
        }
        done
    }

    fn next_row(
        &mut self,
        alloc: Global,
        after: Option<&RowName>,
    ) -> Result<Option<Row>, KeepFault> {
        if self.faults == u64::MAX {
            return Err(KeepFault::Failed);
        }
        if self.open.is_none() && is_missing(&self.rt, self.path.as_str()) {
            self.is_absent = true;
            return Ok(None);
        }
        if let Err(refusal) = self.begin() {
            return Err(counted(&mut self.faults, &refusal));
        }
        let found = match &mut self.open {
            Some(keeper) => keeper.next_row(alloc, after),
            None => Err(KeepFault::Failed),
        };
        if let Err(KeepFault::Failed) = &found {
            self.faults += 1;
        }
        found
    }

    fn faults(&self) -> u64 {
        self.faults
    }
}
