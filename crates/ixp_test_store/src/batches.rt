//! Batches of changes, and what a keeper holds after them.
use ixp_io::{Change, KeepFault, Keeper, Row, RowName};
use ixp_num_tables::Items;
use std::alloc::{AllocError, Global};

/// What becomes of the row of this kind and key.
pub fn change(
    alloc: Global,
    kind: u8,
    key: &[u8],
    body: Option<&[u8]>,
) -> Result<Change, AllocError> {
    let key = Items::from_slice(alloc, key)?;
    let body = match body {
        None => None,
        Some(body) => Some(Items::from_slice(alloc, body)?),
    };
    Ok(Change {
        name: RowName { kind, key },
        body,
    })
}

/// A batch that sets one row anew, makes one, and deletes the one that the batch before it made.
pub fn step(alloc: Global, number: u8) -> Result<Vec<Change>, AllocError> {
    let mut batch = Vec::new(alloc);
    batch.push(change(alloc, 0, b"", Some(&[number]))?)?;
    batch.push(change(alloc, 3, &[number], Some(b"".as_slice()))?)?;
    batch.push(change(alloc, 3, &[number.saturating_sub(1)], None)?)?;
    batch.push(change(alloc, 2, &[number, 0, 255], Some(b"x".as_slice()))?)?;
    Ok(batch)
}

// A row as its kind, its key, the length of its body and its body.
fn show(out: &mut Vec<u8>, row: &Row) -> Result<(), AllocError> {
    out.push(row.name.kind)?;
    out.extend_from_slice(row.name.key.as_slice())?;
    out.push(u8::try_from(row.body.as_slice().len()).unwrap_or(255))?;
    out.extend_from_slice(row.body.as_slice())?;
    Ok(())
}

/// All rows, from the first on.
pub fn shown<P: Keeper>(alloc: Global, keeper: &mut P) -> Result<Vec<u8>, KeepFault> {
    let mut out = Vec::new(alloc);
    let mut last = None;
    for _ in 0..100 {
        let Some(row) = keeper.next_row(alloc, last.as_ref())? else {
            break;
        };
        show(&mut out, &row)?;
        last = Some(row.name);
    }
    Ok(out)
}

/// How many rows there are, each with a greater name than the one before it.
pub fn count<P: Keeper>(alloc: Global, keeper: &mut P, most: u32) -> Result<u32, KeepFault> {
    let mut rows = 0u32;
    let mut last: Option<RowName> = None;
    for _ in 0..most {
        let Some(row) = keeper.next_row(alloc, last.as_ref())? else {
            break;
        };
        if !is_greater(&row.name, last.as_ref()) {
            break;
        }
        rows = rows.saturating_add(1);
        last = Some(row.name);
    }
    Ok(rows)
}

fn is_greater(name: &RowName, last: Option<&RowName>) -> bool {
    match last {
        None => true,
        Some(last) => last < name,
    }
}
