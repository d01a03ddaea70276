//! Keepers over files.
use crate::batches::{change, count, shown, step};
use ixp_io::{Change, KeepFault, Keeper};
use ixp_keeper_sql::FileKeeper;
use sqlite::{Connection, Error, File, FileStore};
use sqlite_trees::error::StoreError;
use sqlite_trees::store::{Shape, Store};
use std::alloc::{AllocError, Global};
use std::fs;
use std::os::unix::fs::PermissionsExt;
use std::test::Fail;

/// A file and the log beside it.
type Names = [&'static str; 2];

// Removes what an earlier run has left.
fn clear(rt: &HostRuntime, names: Names) {
    for name in names {
        let _ = fs::remove_file(rt, name);
    }
}

const BATCHES: u32 = 20;

const ROWS: u32 = 1000;

// Rows with the numbers from this one on.
fn numbered(alloc: Global, first: u32) -> Result<Vec<Change>, AllocError> {
    let mut batch = Vec::new(alloc);
    for number in 0..ROWS {
        let key = first.saturating_add(number).to_be_bytes();
        batch.push(change(alloc, 2, key.as_slice(), Some([b'x'; 80].as_slice()))?)?;
    }
    Ok(batch)
}

fn fill<P: Keeper>(alloc: Global, keeper: &mut P) -> Result<(), KeepFault> {
    for number in 0..BATCHES {
        let batch = numbered(alloc, number.saturating_mul(ROWS))?;
        keeper.commit(alloc, batch.as_slice())?;
    }
    Ok(())
}

fn filled(rt: &HostRuntime, path: &str) -> Result<u64, KeepFault> {
    let mut keeper = FileKeeper::new(rt, path)?;
    let done = fill(rt.alloc(), &mut keeper);
    let faults = keeper.faults();
    keeper.close();
    done?;
    Ok(faults)
}

fn counted(rt: &HostRuntime, path: &str) -> Result<u32, KeepFault> {
    let mut keeper = FileKeeper::new(rt, path)?;
    let rows = count(rt.alloc(), &mut keeper, 100_000);
    keeper.close();
    rows
}

const MANY: Names = ["many.db", "many.db-wal"];

#[test]
fn twenty_thousand_rows_are_loaded(rt: HostRuntime) {
    clear(&rt, MANY);
    assert!(rt; filled(&rt, "many.db") == Ok(0));
    assert!(rt; counted(&rt, "many.db") == Ok(20_000));
    clear(&rt, MANY);
}

// A batch that drops these rows and sets them again, one of them with another body.
fn again(alloc: Global) -> Result<Vec<Change>, AllocError> {
    let mut batch = Vec::new(alloc);
    for number in 0..ROWS {
        batch.push(change(alloc, 2, number.to_be_bytes().as_slice(), None)?)?;
    }
    for number in 0..ROWS {
        let body = if number == 500 { b"other" } else { b"xxxxx" };
        let key = number.to_be_bytes();
        batch.push(change(alloc, 2, key.as_slice(), Some(body.as_slice()))?)?;
    }
    Ok(batch)
}

// The length of the body of the row with the number, and that of the row after it.
fn lengths<P: Keeper>(alloc: Global, keeper: &mut P, number: u32) -> Result<[usize; 2], KeepFault> {
    let mut found = [0, 0];
    let mut last = change(alloc, 2, number.to_be_bytes().as_slice(), None)?.name;
    for at in 0..2 {
        if let Some(row) = keeper.next_row(alloc, Some(&last))? {
            found[at] = row.body.as_slice().len();
            last = row.name;
        }
    }
    Ok(found)
}

/// How long two rows are before and after a batch that sets all again, and how many rows there are then.
type Lengths = ([usize; 2], [usize; 2], u32);

fn put_twice<P: Keeper>(alloc: Global, keeper: &mut P) -> Result<Lengths, KeepFault> {
    let first = numbered(alloc, 0)?;
    keeper.commit(alloc, first.as_slice())?;
    let before = lengths(alloc, keeper, 498)?;
    let second = again(alloc)?;
    keeper.commit(alloc, second.as_slice())?;
    let after = lengths(alloc, keeper, 498)?;
    Ok((before, after, count(alloc, keeper, 100_000)?))
}

fn put_again(rt: &HostRuntime, path: &str) -> Result<Lengths, KeepFault> {
    let mut keeper = FileKeeper::new(rt, path)?;
    let found = put_twice(rt.alloc(), &mut keeper);
    keeper.close();
    found
}

const AGAIN: Names = ["again.db", "again.db-wal"];

#[test]
fn rows_that_are_put_again_are_read_anew(rt: HostRuntime) {
    clear(&rt, AGAIN);
    let have = put_again(&rt, "again.db");
    assert!(rt; have == Ok(([80, 80], [5, 5], 1000)), "{have:?}");
    clear(&rt, AGAIN);
}

fn commit<P: Keeper>(alloc: Global, keeper: &mut P, number: u8) -> Result<(), KeepFault> {
    let batch = step(alloc, number)?;
    keeper.commit(alloc, batch.as_slice())
}

// Makes a batch by a keeper of its own.
fn made(rt: &HostRuntime, path: &str, number: u8) -> Result<(), KeepFault> {
    let mut keeper = FileKeeper::new(rt, path)?;
    let done = commit(rt.alloc(), &mut keeper, number);
    keeper.close();
    done
}

fn rows_in(rt: &HostRuntime, path: &str) -> Result<Vec<u8>, KeepFault> {
    let mut keeper = FileKeeper::new(rt, path)?;
    let rows = shown(rt.alloc(), &mut keeper);
    keeper.close();
    rows
}

// The rows after two batches.
fn stepped(rt: &HostRuntime, path: &str) -> Result<Vec<u8>, KeepFault> {
    made(rt, path, 1)?;
    made(rt, path, 2)?;
    rows_in(rt, path)
}

const STEPPED: &[u8] = b"\x00\x01\x02\x02\x01\x00\xff\x01x\x02\x02\x00\xff\x01x\x03\x02\x00";

const KEPT: Names = ["kept.db", "kept.db-wal"];

#[test]
fn a_file_keeps_rows_between_programs(rt: HostRuntime) -> Result<(), Fail> {
    clear(&rt, KEPT);
    match stepped(&rt, "kept.db") {
        Ok(rows) => assert!(rt; rows.as_slice() == STEPPED, "{rows:?}"),
        Err(fault) => assert!(rt; false, "{fault:?}"),
    }
    clear(&rt, KEPT);
    Ok(())
}

/// What a question and a commit are answered, and the count of faults.
type Answers = (Option<KeepFault>, Option<KeepFault>, u64);

fn answers<P: Keeper>(alloc: Global, keeper: &mut P) -> Answers {
    let row = keeper.next_row(alloc, None).err();
    let done = commit(alloc, keeper, 1).err();
    (row, done, keeper.faults())
}

fn asked(rt: &HostRuntime, path: &str) -> Result<Answers, AllocError> {
    let mut keeper = FileKeeper::new(rt, path)?;
    let answers = answers(rt.alloc(), &mut keeper);
    keeper.close();
    Ok(answers)
}

const REFUSED: Answers = (Some(KeepFault::Failed), Some(KeepFault::Failed), 2);

const TEXT: Names = ["text.db", "text.db-wal"];

#[test]
fn a_file_that_is_no_database_is_a_fault(rt: HostRuntime) -> Result<(), Fail> {
    clear(&rt, TEXT);
    fs::write(&rt, "text.db", [b'#'; 8192].as_slice())?;
    assert!(rt; asked(&rt, "text.db")? == REFUSED);
    assert!(rt; fs::read(&rt, "text.db")?.as_slice() == [b'#'; 8192].as_slice());
    clear(&rt, TEXT);
    Ok(())
}

type FileConnection = Connection<FileStore<File>>;

fn make_table(conn: &mut FileConnection) -> Result<(), Error> {
    conn.execute("CREATE TABLE note (title TEXT NOT NULL)", &[])?;
    Ok(())
}

fn number_of_objects(conn: &mut FileConnection) -> Result<i64, Error> {
    conn.query_row("SELECT count(*) FROM sqlite_schema", &[])?
        .get(0)
}

fn make_notes(rt: &HostRuntime, path: &str) -> Result<(), Error> {
    let mut conn = Connection::open(rt, path)?;
    let made = make_table(&mut conn);
    conn.close()?;
    made
}

fn objects(rt: &HostRuntime, path: &str) -> Result<i64, Error> {
    let mut conn = Connection::open(rt, path)?;
    let number = number_of_objects(&mut conn);
    conn.close()?;
    number
}

const NOTES: Names = ["notes.db", "notes.db-wal"];

#[test]
fn another_programs_file_is_a_fault_and_stays(rt: HostRuntime) -> Result<(), Fail> {
    clear(&rt, NOTES);
    assert!(rt; make_notes(&rt, "notes.db").is_ok());
    assert!(rt; asked(&rt, "notes.db")? == REFUSED);
    assert!(rt; objects(&rt, "notes.db") == Ok(1));
    clear(&rt, NOTES);
    Ok(())
}

fn make_index(conn: &mut FileConnection) -> Result<(), Error> {
    conn.execute("CREATE INDEX more ON entry (body)", &[])?;
    Ok(())
}

fn add_index(rt: &HostRuntime, path: &str) -> Result<(), Error> {
    let mut conn = Connection::open(rt, path)?;
    let made = make_index(&mut conn);
    conn.close()?;
    made
}

// Takes the row with the rowid 1 out of the table, and leaves its entry in the index.
fn cut<S: Store>(store: &mut S) -> Result<bool, StoreError> {
    let Shape::Table = store.shape(0) else {
        return Ok(false);
    };
    store.delete(0, 1)?;
    store.commit()?;
    Ok(true)
}

fn cut_row(rt: &HostRuntime, path: &str) -> Option<bool> {
    let mut store = Connection::open(rt, path).ok()?.into_store();
    let done = cut(&mut store);
    let _files = store.close();
    done.ok()
}

const TORN: Names = ["torn.db", "torn.db-wal"];

#[test]
fn an_index_that_has_no_row_for_an_entry_is_a_fault(rt: HostRuntime) -> Result<(), Fail> {
    clear(&rt, TORN);
    assert!(rt; made(&rt, "torn.db", 1).is_ok());
    assert!(rt; cut_row(&rt, "torn.db") == Some(true));
    assert!(rt; asked(&rt, "torn.db")? == REFUSED);
    clear(&rt, TORN);
    Ok(())
}

// The rows after two batches, between which someone adds an index.
fn stepped_beside(rt: &HostRuntime, path: &str) -> Result<Vec<u8>, KeepFault> {
    made(rt, path, 1)?;
    if add_index(rt, path).is_err() {
        return Err(KeepFault::Failed);
    }
    made(rt, path, 2)?;
    rows_in(rt, path)
}

const BESIDE: Names = ["beside.db", "beside.db-wal"];

#[test]
fn an_index_beside_the_table_does_no_harm(rt: HostRuntime) -> Result<(), Fail> {
    clear(&rt, BESIDE);
    match stepped_beside(&rt, "beside.db") {
        Ok(rows) => assert!(rt; rows.as_slice() == STEPPED, "{rows:?}"),
        Err(fault) => assert!(rt; false, "{fault:?}"),
    }
    assert!(rt; objects(&rt, "beside.db") == Ok(3));
    clear(&rt, BESIDE);
    Ok(())
}

/// What a commit is answered, and what a second keeper over the file is, which is asked while the first one
/// has it open.
fn second(rt: &HostRuntime, path: &str) -> Result<(Option<KeepFault>, Answers), AllocError> {
    let mut first = FileKeeper::new(rt, path)?;
    let before = commit(rt.alloc(), &mut first, 1).err();
    let answers = asked(rt, path);
    first.close();
    Ok((before, answers?))
}

const TAKEN: Names = ["taken.db", "taken.db-wal"];

#[test]
fn a_second_program_over_the_file_is_a_fault(rt: HostRuntime) {
    clear(&rt, TAKEN);
    assert!(rt; second(&rt, "taken.db") == Ok((None, REFUSED)));
    clear(&rt, TAKEN);
}

fn is_send<T: Send>(_it: &T) {}

#[test]
fn a_keeper_may_go_to_another_thread(rt: HostRuntime) -> Result<(), Fail> {
    let keeper = FileKeeper::new(&rt, "ixpm.db")?;
    is_send(&keeper);
    keeper.close();
    Ok(())
}

const NEW: Names = ["new.db", "new.db-wal"];

/// Who may do what with a file.
fn mode_of(rt: &HostRuntime, path: &str) -> Option<u32> {
    let found = fs::metadata(rt, path).ok()?;
    Some(found.permissions().mode() & 0o777)
}

/// Whether there is a file after a read, and the modes of the file and its log after a commit.
type Made = (Option<bool>, Option<u32>, Option<u32>);

fn made_anew(rt: &HostRuntime, names: Names) -> Result<Made, KeepFault> {
    let mut keeper = FileKeeper::new(rt, names[0])?;
    let found = count(rt.alloc(), &mut keeper, 10);
    let there = fs::exists(rt, names[0]).ok();
    let done = commit(rt.alloc(), &mut keeper, 1);
    let modes = (mode_of(rt, names[0]), mode_of(rt, names[1]));
    keeper.close();
    done?;
    if found? != 0 {
        return Err(KeepFault::Failed);
    }
    Ok((there, modes.0, modes.1))
}

#[test]
fn the_first_commit_makes_a_file_for_its_owner_alone(rt: HostRuntime) {
    clear(&rt, NEW);
    let have = made_anew(&rt, NEW);
    assert!(rt;
        have == Ok((Some(false), Some(0o600), Some(0o600))),
        "{have:?}"
    );
    clear(&rt, NEW);
}

const RACED: Names = ["raced.db", "raced.db-wal"];

/// What a commit is answered by a keeper that saw no file, where another one has made it and let it go since.
fn raced(rt: &HostRuntime, path: &str) -> Result<Option<KeepFault>, KeepFault> {
    let mut late = FileKeeper::new(rt, path)?;
    let found = count(rt.alloc(), &mut late, 10);
    let other = made(rt, path, 1);
    let done = commit(rt.alloc(), &mut late, 2);
    late.close();
    other?;
    if found? != 0 {
        return Err(KeepFault::Failed);
    }
    Ok(done.err())
}

#[test]
fn a_file_that_came_in_between_is_a_fault(rt: HostRuntime) {
    clear(&rt, RACED);
    let have = raced(&rt, "raced.db");
    assert!(rt; have == Ok(Some(KeepFault::Failed)), "{have:?}");
    clear(&rt, RACED);
}
