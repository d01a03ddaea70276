//! A keeper over an open connection.
ghost use Rattle.std.specs.Prelude.{◌≡◌, ◌≤◌, None, IfOk, IsTrue};

use crate::opening::{OWN, open_own};
use crate::refusals::{counted, made};
use crate::statements::{Statements, ensure_table, prepare_all, read_next, write_batch};
use crate::trees::{Trees, places_in};
use crate::walking::row_after;
use crate::writing::change_rows;
use ixp_io::{Change, KeepFault, Keeper, Row, RowName};
use sqlite::{Alter, Connection, Error, ErrorCode, FileStore};
use sqlite_disk::{Disk, Files};
use sqlite_pager::Options;
use std::alloc::Global;

/// A keeper over a connection. It doesn't tell its rows. Once its count of faults stands at its last value,
/// each call fails. After a sync that failed the database takes no more commits: whether that batch will be
/// there after a crash is not known then.
pub struct SqlKeeper<S: Alter> {
    /// The connection, until its store stands in the trees.
    conn: Option<Connection<S>>,
    /// Those of a database that has other objects too.
    statements: Option<Statements>,
    /// Those of a database that has the table alone.
    trees: Option<Trees<S>>,
    faults: u64,
}

const CLOSED: Error = Error::SqliteFailure(ErrorCode::Closed);

// It is written out, so that a caller doesn't prove again how each part is dropped.
impl<S: Alter + Drop> Drop for SqlKeeper<S> {
    fn drop(self) {
        let SqlKeeper {
            conn: _,
            statements: _,
            trees: _,
            faults: _,
        } = self;
    }
}

impl<S: Alter + Drop> SqlKeeper<S> {
    /// A keeper over this connection. It does not allocate; the first call makes the table, where the
    /// database is empty.
    pub fn adopt(conn: Connection<S>) -> SqlKeeper<S>
        ensures { ⟦<SqlKeeper<S> as Keeper>⟧.faults result ≡ 0 }
    {
        SqlKeeper {
            conn: Some(conn),
            statements: None,
            trees: None,
            faults: 0,
        }
    }

    /// The store, as its last commit left it.
    pub fn into_store(self) -> Option<S> {
        let SqlKeeper {
            conn,
            statements: _,
            trees,
            faults: _,
        } = self;
        if let Some(trees) = trees {
            return Some(trees.into_store());
        }
        match conn {
            Some(conn) => Some(conn.into_store()),
            None => None,
        }
    }

    fn begin(&mut self, alloc: Global) -> Result<(), Error>
        ensures { self.new.faults ≡ self.old.faults }
    {
        if self.trees.is_some() || self.statements.is_some() {
            return Ok(());
        }
        let Some(mut conn) = self.conn.take() else {
            return Err(CLOSED);
        };
        let ready = ensure_table(&mut conn);
        if ready.is_err() {
            self.conn = Some(conn);
            return ready;
        }
        if let Some(places) = places_in(&conn) {
            self.trees = Some(Trees::over(alloc, conn.into_store(), places, true));
            return Ok(());
        }
        let prepared = prepare_all(&mut conn);
        self.conn = Some(conn);
        self.statements = Some(prepared?);
        Ok(())
    }

    fn write(&mut self, alloc: Global, batch: &[Change]) -> Result<(), Error>
        ensures { self.new.faults ≡ self.old.faults }
    {
        self.begin(alloc)?;
        if let Some(trees) = &mut self.trees {
            return made(change_rows(trees, batch));
        }
        let Some(conn) = &mut self.conn else {
            return Err(CLOSED);
        };
        match &self.statements {
            Some(statements) => write_batch(conn, statements, batch),
            None => Err(CLOSED),
        }
    }

    fn read(&mut self, alloc: Global, after: Option<&RowName>) -> Result<Option<Row>, Error>
        ensures { self.new.faults ≡ self.old.faults }
    {
        self.begin(alloc)?;
        if let Some(trees) = &mut self.trees {
            return made(row_after(trees, after));
        }
        let Some(conn) = &mut self.conn else {
            return Err(CLOSED);
        };
        match &self.statements {
            Some(statements) => read_next(conn, statements, after),
            None => Err(CLOSED),
        }
    }
}

/// A keeper over a store that has the table alone.
fn over_own<S: Alter + Drop>(alloc: Global, store: S) -> SqlKeeper<S>
    ensures { result.faults ≡ 0 }
{
    SqlKeeper {
        conn: None,
        statements: None,
        trees: Some(Trees::over(alloc, store, OWN, false)),
        faults: 0,
    }
}

/// A keeper over files that a connection opens, or makes where there is no database.
fn over_any<D: Disk + Drop>(
    alloc: Global,
    files: Files<D>,
    options: Options,
) -> Result<SqlKeeper<FileStore<D>>, (Error, Files<D>)>
    ensures { IfOk result (λ keeper. keeper.faults ≡ 0) }
{
    if !files.may_be_used() {
        return Err((CLOSED, files));
    }
    match Connection::open_files(alloc, files, options) {
        Ok(conn) => Ok(SqlKeeper::adopt(conn)),
        Err((error, left)) => Err((error, left.into_files())),
    }
}

impl<D: Disk + Drop> SqlKeeper<FileStore<D>> {
    /// A keeper over these files, whose pages are checked, and which are made a database where they are none.
    /// That the table and its index agree is tested until the last row is read or the first one is changed.
    /// An error comes with the files: that of the disk, of memory, or that they hold no sound database.
    pub fn open_files(
        alloc: Global,
        files: Files<D>,
        options: Options,
    ) -> Result<SqlKeeper<FileStore<D>>, (Error, Files<D>)>
        requires log { IsTrue (D.Disk.is_usable files.log) }
        requires db { IsTrue (D.Disk.is_usable files.db) }
        ensures { IfOk result
            (λ keeper. ⟦<SqlKeeper<FileStore<D>> as Keeper>⟧.faults keeper ≡ 0) }
    {
        match open_own(alloc, files, options) {
            Ok(store) => Ok(over_own(alloc, store)),
            Err(files) => over_any(alloc, files, options),
        }
    }
}

impl<S: Alter + Drop> Keeper for SqlKeeper<S> {
    ghost table = { λ _. None };

    ghost faults = { λ keeper. keeper.faults };

    fn commit(&mut self, alloc: Global, batch: &[Change]) -> Result<(), KeepFault> {
        if self.faults == u64::MAX {
            return Err(KeepFault::Failed);
        }
        match self.write(alloc, batch) {
            Ok(()) => Ok(()),
            Err(refusal) => Err(counted(&mut self.faults, &refusal)),
        }
    }

    fn next_row(
        &mut self,
        alloc: Global,
        after: Option<&RowName>,
    ) -> Result<Option<Row>, KeepFault> {
        if self.faults == u64::MAX {
            return Err(KeepFault::Failed);
        }
        match self.read(alloc, after) {
            Ok(row) => Ok(row),
            Err(refusal) => Err(counted(&mut self.faults, &refusal)),
        }
    }

    fn faults(&self) -> u64 {
        self.faults
    }
}
