//! Cases that are run over objects in memory, and where what comes of them differs from what they want.
use crate::case::{Case, Part, Run, Want};
use crate::http::{Replies, replies_in};
use crate::texts::bytes_of;
use ixp_cli::{run, run_plain};
use ixp_io::{FreeGate, Keeper, MemDoor, MemKeeper, MemSink, MemSource, Plan, RowName, SetClock};
use ixp_num_tables::Items;
use std::alloc::{AllocError, Global};
use std::collections::VecDeque;
use std::sync::Wait;
use std::thread::Threads;

/// A difference, and the line of the field that it is from.
#[derive(Drop)]
pub struct Difference {
    pub line: usize,
    pub what: String,
}

/// What a run gave.
#[derive(Drop)]
struct Given {
    status: u8,
    output: String,
    errors: String,
    replies: Replies,
}

/// Runs a command over the store, by reads of so many bytes at most, and a door that has no link.
fn play_run<R: Threads + Wait + Sync>(
    rt: &R,
    alloc: Global,
    asked: &Run,
    most: usize,
    keeper: &mut MemKeeper,
) -> Result<Given, AllocError> {
    let mut words = Vec::new(alloc);
    for word in asked.words.iter() {
        words.push(word.as_str())?;
    }
    keeper.plan = Plan::failing(alloc, asked.failing_calls.as_slice())?;
    let bytes = Items::from_vec(bytes_of(alloc, asked.input.as_str())?);
    let reads = Plan::failing(alloc, asked.failing_reads.as_slice())?;
    let writes = Plan::failing(alloc, asked.failing_writes.as_slice())?;
    let mut input = MemSource::new(bytes, reads).in_pieces(most.max(1));
    let mut output = MemSink::new(alloc, writes).in_pieces((asked.most_written as usize).max(1));
    let mut errors = MemSink::new(alloc, Plan::smooth(alloc));
    let none = VecDeque::new(alloc);
    let mut door = MemDoor::new(alloc, none, VecDeque::new(alloc), Plan::smooth(alloc));
    let status = run(
        rt,
        alloc,
        words.as_slice(),
        &mut input,
        &mut output,
        &mut errors,
        keeper,
        &mut SetClock::new(asked.second),
        &mut door,
        &FreeGate,
    );
    given_of(alloc, status, output.written(), errors.written())
}

fn given_of(alloc: Global, status: u8, output: &[u8], errors: &[u8]) -> Result<Given, AllocError> {
    let output = String::from_utf8_lossy(alloc, output)?;
    let replies = replies_in(alloc, output.as_str())?;
    Ok(Given {
        status,
        errors: String::from_utf8_lossy(alloc, errors)?,
        output,
        replies,
    })
}

/// Adds a row as cases write it.
fn put_row(alloc: Global, out: &mut String, name: &RowName, body: &[u8]) -> Result<(), AllocError> {
    let kind = name.kind;
    let key = String::from_utf8_lossy(alloc, name.key.as_slice())?;
    let key = if key.is_empty() { "-" } else { key.as_str() };
    let body = String::from_utf8_lossy(alloc, body)?;
    writeln!(out, "{kind} {key} = {body}")
}

/// The rows of a store, a line each.
fn rows_text(alloc: Global, keeper: &MemKeeper) -> Result<String, AllocError> {
    let mut out = String::new(alloc);
    for (name, body) in keeper.rows.iter() {
        put_row(alloc, &mut out, name, body.as_slice())?;
    }
    Ok(out)
}

/// The text of a part of what a run gave.
fn part_of(
    alloc: Global,
    given: &Given,
    store: &MemKeeper,
    part: Part,
) -> Result<String, AllocError> {
    match part {
        Part::Status => format!(in alloc; "{}\n", given.status),
        Part::Output => given.output.clone(),
        Part::Errors => given.errors.clone(),
        Part::Replies => given.replies.statuses.clone(),
        Part::Reply(place) => match given.replies.each.get(place) {
            Some(reply) => reply.clone(),
            None => String::from_str(alloc, "no reply"),
        },
        Part::Rows => rows_text(alloc, store),
    }
}

/// The first line in which two texts differ, if they do.
fn first_difference(alloc: Global, wanted: &str, had: &str) -> Result<Option<String>, AllocError> {
    let mut others = had.split('\n');
    for (place, line) in wanted.split('\n').enumerate() {
        let other = others.next();
        if other != Some(line) {
            let number = place.saturating_add(1);
            let what = format!(in alloc; "line {number}: wanted {line:?}, had {other:?}")?;
            return Ok(Some(what));
        }
    }
    match others.next() {
        Some(more) => Ok(Some(format!(in alloc; "wanted no more, had {more:?}")?)),
        None => Ok(None),
    }
}

/// How a text differs from what is wanted, in which three dots stand for anything. Behind a last line of
/// three dots no line feed is wanted.
fn difference_by_dots(
    alloc: Global,
    wanted: &str,
    had: &str,
) -> Result<Option<String>, AllocError> {
    let Some((front, back)) = wanted.split_once("...") else {
        return first_difference(alloc, wanted, had);
    };
    let back = if back == "\n" { "" } else { back };
    let start = had.get(..front.len()).unwrap_or(had);
    let end = had
        .get(had.len().saturating_sub(back.len())..)
        .unwrap_or(had);
    match first_difference(alloc, front, start)? {
        Some(what) => Ok(Some(what)),
        None => first_difference(alloc, back, end),
    }
}

/// Adds how what was given differs from what is wanted of it, if it does.
fn compare(
    alloc: Global,
    given: &Given,
    store: &MemKeeper,
    want: &Want,
    found: &mut Vec<Difference>,
) -> Result<(), AllocError> {
    let had = part_of(alloc, given, store, want.part)?;
    if let Some(what) = difference_by_dots(alloc, want.text.as_str(), had.as_str())? {
        let part = want.part;
        found.push(Difference {
            line: want.line,
            what: format!(in alloc; "{part:?}: {what}")?,
        })?;
    }
    Ok(())
}

fn play_and_compare<R: Threads + Wait + Sync>(
    rt: &R,
    alloc: Global,
    asked: &Run,
    most: usize,
    keeper: &mut MemKeeper,
    found: &mut Vec<Difference>,
) -> Result<(), AllocError> {
    let given = play_run(rt, alloc, asked, most, keeper)?;
    for want in asked.wants.iter() {
        compare(alloc, &given, keeper, want, found)?;
    }
    Ok(())
}

/// Restores a dump into an empty store.
fn restore(alloc: Global, dump: &str, keeper: &mut MemKeeper) -> Result<bool, AllocError> {
    let bytes = Items::from_slice(alloc, dump.as_bytes())?;
    let mut input = MemSource::new(bytes, Plan::smooth(alloc));
    let mut output = MemSink::new(alloc, Plan::smooth(alloc));
    let mut errors = MemSink::new(alloc, Plan::smooth(alloc));
    let status = run_plain(
        alloc,
        &["restore"],
        &mut input,
        &mut output,
        &mut errors,
        keeper,
        &mut SetClock::new(0),
    );
    Ok(status == Some(0))
}

/// The store that a case begins with; none where its dump can't be restored.
fn store_of(alloc: Global, case: &Case) -> Result<Option<MemKeeper>, AllocError> {
    let mut keeper = MemKeeper::new(alloc, Plan::smooth(alloc));
    if !case.store.is_empty() && !restore(alloc, case.store.as_str(), &mut keeper)? {
        return Ok(None);
    }
    match keeper.commit(alloc, case.rows.as_slice()) {
        Ok(()) => Ok(Some(keeper)),
        Err(_) => Ok(None),
    }
}

/// Plays the runs of a case, one after the other.
fn play_once<R: Threads + Wait + Sync>(
    rt: &R,
    alloc: Global,
    case: &Case,
    most: usize,
    found: &mut Vec<Difference>,
) -> Result<(), AllocError> {
    let Some(mut keeper) = store_of(alloc, case)? else {
        let what = String::from_str(alloc, "the store can't be restored")?;
        found.push(Difference { line: 0, what })?;
        return Ok(());
    };
    for asked in case.runs.iter() {
        play_and_compare(rt, alloc, asked, most, &mut keeper, found)?;
    }
    Ok(())
}

/// Plays a case, once for each size of its reads, and tells how what comes of it differs from what it wants.
pub fn play<R: Threads + Wait + Sync>(
    rt: &R,
    alloc: Global,
    case: &Case,
) -> Result<Vec<Difference>, AllocError> {
    let mut found = Vec::new(alloc);
    for most in case.pieces.iter() {
        play_once(rt, alloc, case, *most as usize, &mut found)?;
    }
    Ok(found)
}
