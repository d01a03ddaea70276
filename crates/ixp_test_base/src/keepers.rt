//! A keeper gives its rows in order, and each of its calls fails in turn.
use ixp_io::{Change, KeepFault, Keeper, MemKeeper, Plan, Row, RowName};
use ixp_num_tables::Items;
use std::alloc::{AllocError, Global};
use std::test::Fail;

fn name(alloc: Global, kind: u8, key: &[u8]) -> Result<RowName, AllocError> {
    let key = Items::from_slice(alloc, key)?;
    Ok(RowName { kind, key })
}

fn body(alloc: Global, text: Option<&[u8]>) -> Result<Option<Items<u8>>, AllocError> {
    match text {
        None => Ok(None),
        Some(text) => Ok(Some(Items::from_slice(alloc, text)?)),
    }
}

type Line = (u8, &'static [u8], Option<&'static [u8]>);

fn batch(alloc: Global, lines: &[Line]) -> Result<Vec<Change>, AllocError> {
    let mut changes = Vec::new(alloc);
    for (kind, key, text) in lines {
        let name = name(alloc, *kind, key)?;
        let body = body(alloc, *text)?;
        changes.push(Change { name, body })?;
    }
    Ok(changes)
}

// A row as its kind, a blank, its key, `=`, its body and a semicolon.
fn show(out: &mut Vec<u8>, row: &Row) -> Result<(), AllocError> {
    out.push(row.name.kind)?;
    out.push(b' ')?;
    out.extend_from_slice(row.name.key.as_slice())?;
    out.push(b'=')?;
    out.extend_from_slice(row.body.as_slice())?;
    out.push(b';')?;
    Ok(())
}

// All rows, from the first on.
fn shown<P: Keeper>(alloc: Global, keeper: &mut P) -> Result<Vec<u8>, KeepFault> {
    let mut out = Vec::new(alloc);
    let mut last = None;
    for _ in 0..100 {
        let Some(row) = keeper.next_row(alloc, last.as_ref())? else {
            break;
        };
        show(&mut out, &row)?;
        last = Some(row.name);
    }
    Ok(out)
}

// The rows after the batch.
fn after_batch(
    alloc: Global,
    keeper: &mut MemKeeper,
    lines: &[Line],
) -> Result<Vec<u8>, KeepFault> {
    let changes = batch(alloc, lines)?;
    keeper.commit(alloc, changes.as_slice())?;
    let mut lent = keeper;
    shown(alloc, &mut lent)
}

const FIRST: &[Line] = &[
    (b'2', b"b", Some(b"1")),
    (b'2', b"a9", Some(b"2")),
    (b'2', b"a10", Some(b"3")),
    (b'1', b"z", Some(b"4")),
    (b'2', b"", Some(b"5")),
    (b'2', b"b", Some(b"6")),
    (b'3', b"gone", Some(b"7")),
    (b'3', b"gone", None),
    (b'3', b"never", None),
];

const SECOND: &[Line] = &[(b'2', b"a9", None), (b'1', b"z", Some(b""))];

#[test]
fn a_keeper_gives_its_rows_in_order(rt: HostRuntime) -> Result<(), Fail> {
    let alloc = rt.alloc();
    let mut keeper = MemKeeper::new(alloc, Plan::smooth(alloc));
    let rows = after_batch(alloc, &mut keeper, FIRST)?;
    assert!(rt; rows.as_slice() == b"1 z=4;2 =5;2 a10=3;2 a9=2;2 b=6;".as_slice());
    let rows = after_batch(alloc, &mut keeper, SECOND)?;
    assert!(rt; rows.as_slice() == b"1 z=;2 =5;2 a10=3;2 b=6;".as_slice());
    Ok(())
}

// Three batches of one row, where the call with this number fails: how many of them were made, and the count
// of faults.
fn commits(alloc: Global, number: u64) -> Result<(usize, u64), KeepFault> {
    let mut keeper = MemKeeper::new(alloc, Plan::failing(alloc, &[number])?);
    let mut made = 0usize;
    for kind in [b'1', b'2', b'3'] {
        let changes = batch(alloc, &[(kind, b"", Some(b""))])?;
        if keeper.commit(alloc, changes.as_slice()) == Ok(()) {
            made = made.saturating_add(1);
        }
    }
    let rows = shown(alloc, &mut keeper)?;
    assert_rows(made, rows.len())?;
    Ok((made, keeper.faults()))
}

// Each row is shown as four bytes.
fn assert_rows(made: usize, length: usize) -> Result<(), KeepFault> {
    if made.checked_mul(4) == Some(length) {
        Ok(())
    } else {
        Err(KeepFault::Failed)
    }
}

/// The number of a call that fails, and what comes of it.
const CALLS: &[(u64, Option<(usize, u64)>)] = &[
    (1, Some((2, 1))),
    (2, Some((2, 1))),
    (3, Some((2, 1))),
    (4, None),
    (8, Some((3, 0))),
];

#[test]
fn each_call_of_a_keeper_fails_in_turn(rt: HostRuntime) {
    for &(number, want) in CALLS {
        assert!(rt; commits(rt.alloc(), number).ok() == want, "call {number}");
    }
}
