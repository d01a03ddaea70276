//! The statements of a keeper: that which makes the table, and those that change and read rows where the
//! database has other objects beside it. Any other database is changed and read by `trees.rt`.
//!
//! Each call of the connection stands in a function without a clause of its own: a proof that carries what
//! several of them say of a database takes minutes.
use ixp_io::{Change, Row, RowName};
use ixp_num_tables::Items;
use sqlite::{Alter, Connection, Error, ErrorCode, Statement, Transaction, params};

/// The table. The schema of a database holds this very text.
pub const TABLE: &str =
    "CREATE TABLE entry (kind INTEGER NOT NULL, name BLOB NOT NULL, body BLOB NOT NULL, PRIMARY KEY (kind, name))";

/// How many tables were made by this text.
const TABLES: &str = "SELECT count(*) FROM sqlite_schema WHERE type = 'table' AND sql = ?1";

/// How many tables, indexes and views there are.
const OBJECTS: &str = "SELECT count(*) FROM sqlite_schema";

const SET: &str =
    "INSERT INTO entry (kind, name, body) VALUES (?1, ?2, ?3) ON CONFLICT (kind, name) DO UPDATE SET body = excluded.body";

const DELETE: &str = "DELETE FROM entry WHERE kind = ?1 AND name = ?2";

/// The next row of the same kind. It and [`NEXT_KIND`] are searches of the key; one statement for both, with
/// OR, would read all rows from the first on.
const NEXT_IN_KIND: &str =
    "SELECT kind, name, body FROM entry WHERE kind = ?1 AND name > ?2 ORDER BY name LIMIT 1";

/// The first row of a later kind.
const NEXT_KIND: &str =
    "SELECT kind, name, body FROM entry WHERE kind > ?1 ORDER BY kind, name LIMIT 1";

/// The statements, prepared once for all calls.
#[derive(Drop)]
pub struct Statements {
    set: Statement,
    delete: Statement,
    next_in_kind: Statement,
    next_kind: Statement,
}

fn number<S: Alter>(conn: &mut Connection<S>, text: &str) -> Result<i64, Error> {
    conn.query_row(text, &[])?.get(0)
}

fn number_made<S: Alter>(conn: &mut Connection<S>, by: &str) -> Result<i64, Error> {
    conn.query_row(TABLES, params![by])?.get(0)
}

fn make_table<S: Alter>(conn: &mut Connection<S>) -> Result<(), Error> {
    conn.execute(TABLE, &[])?;
    Ok(())
}

/// Makes the table in an empty database. A database of another program is refused and stays as it is.
pub fn ensure_table<S: Alter>(conn: &mut Connection<S>) -> Result<(), Error> {
    if number_made(conn, TABLE)? == 1 {
        return Ok(());
    }
    if number(conn, OBJECTS)? != 0 {
        return Err(Error::SqliteFailure(ErrorCode::NotADatabase));
    }
    make_table(conn)
}

fn prepare<S: Alter>(conn: &mut Connection<S>, text: &str) -> Result<Statement, Error> {
    conn.prepare(text)
}

/// Prepares the statements.
pub fn prepare_all<S: Alter>(conn: &mut Connection<S>) -> Result<Statements, Error> {
    Ok(Statements {
        set: prepare(conn, SET)?,
        delete: prepare(conn, DELETE)?,
        next_in_kind: prepare(conn, NEXT_IN_KIND)?,
        next_kind: prepare(conn, NEXT_KIND)?,
    })
}

fn set<S: Alter>(
    tx: &mut Transaction<'_, S>,
    statement: &Statement,
    name: &RowName,
    body: &[u8],
) -> Result<(), Error> {
    tx.execute_prepared(
        statement,
        params![i64::from(name.kind), name.key.as_slice(), body],
    )?;
    Ok(())
}

fn delete<S: Alter>(
    tx: &mut Transaction<'_, S>,
    statement: &Statement,
    name: &RowName,
) -> Result<(), Error> {
    tx.execute_prepared(
        statement,
        params![i64::from(name.kind), name.key.as_slice()],
    )?;
    Ok(())
}

fn make_all<S: Alter>(
    tx: &mut Transaction<'_, S>,
    statements: &Statements,
    batch: &[Change],
) -> Result<(), Error> {
    for change in batch {
        match &change.body {
            Some(body) => set(tx, &statements.set, &change.name, body.as_slice())?,
            None => delete(tx, &statements.delete, &change.name)?,
        }
    }
    Ok(())
}

/// Makes the changes of a batch in one transaction, which is rolled back where one of them is refused.
pub fn write_batch<S: Alter>(
    conn: &mut Connection<S>,
    statements: &Statements,
    batch: &[Change],
) -> Result<(), Error> {
    if !conn.is_autocommit() {
        return Err(Error::SqliteFailure(ErrorCode::TransactionState));
    }
    let mut tx = conn.transaction();
    make_all(&mut tx, statements, batch)?;
    tx.commit()
}

/// No name has a kind above 255.
fn row_of(row: &sqlite::Row) -> Result<Row, Error> {
    let kind: u32 = row.get(0)?;
    let Ok(kind) = u8::try_from(kind) else {
        return Err(Error::IntegralValueOutOfRange(0));
    };
    let key: Vec<u8> = row.get(1)?;
    let body: Vec<u8> = row.get(2)?;
    Ok(Row {
        name: RowName {
            kind,
            key: Items::from_vec(key),
        },
        body: Items::from_vec(body),
    })
}

fn find_in_kind<S: Alter>(
    conn: &mut Connection<S>,
    statement: &Statement,
    name: &RowName,
) -> Result<Option<Row>, Error> {
    match statement.query_row(conn, params![i64::from(name.kind), name.key.as_slice()]) {
        Ok(row) => Ok(Some(row_of(&row)?)),
        Err(Error::QueryReturnedNoRows) => Ok(None),
        Err(error) => Err(error),
    }
}

fn find_kind<S: Alter>(
    conn: &mut Connection<S>,
    statement: &Statement,
    kind: i64,
) -> Result<Option<Row>, Error> {
    match statement.query_row(conn, params![kind]) {
        Ok(row) => Ok(Some(row_of(&row)?)),
        Err(Error::QueryReturnedNoRows) => Ok(None),
        Err(error) => Err(error),
    }
}

/// The row with the least name that is greater, or the first of all.
pub fn read_next<S: Alter>(
    conn: &mut Connection<S>,
    statements: &Statements,
    after: Option<&RowName>,
) -> Result<Option<Row>, Error> {
    let Some(name) = after else {
        return find_kind(conn, &statements.next_kind, -1);
    };
    let row = find_in_kind(conn, &statements.next_in_kind, name)?;
    if row.is_some() {
        return Ok(row);
    }
    find_kind(conn, &statements.next_kind, i64::from(name.kind))
}
