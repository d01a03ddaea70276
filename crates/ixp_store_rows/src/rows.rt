//! Rows of lines.
ghost use Rattle.std.specs.Prelude.{◌≡◌, ◌++◌, OnOk, IfOk, map};
ghost use Rattle.ixp_rows_lines.specs.declared.version.Version.TheVariants.{Two};
ghost use Rattle.ixp_store_rows.specs.Names.{fields_row, line_body, name_fields, name_of};
ghost use Rattle.ixp_store_rows.specs.States.{drop_row, set_row};

use crate::keys::{Stored, place_of};
use ixp_io::{Change, RowName};
use ixp_num_tables::Items;
use ixp_rows_lines::{Lined, Version};
use std::alloc::{AllocError, Global};

/// The name of a row.
pub(crate) fn name_of<R: Stored>(alloc: Global, row: &R) -> Result<RowName, AllocError>
    ensures { IfOk result
        (λ name. name ≡ name_of R.Lined.row_kind
        (name_fields R.Lined.row_kind (R.Lined.fields Two row.now))) }
{
    let mut key = Vec::new(alloc);
    row.print_key(&mut key)?;
    Ok(RowName {
        kind: place_of(R::kind()),
        key: Items::from_vec(key),
    })
}

/// The line of a row, without its end.
fn body_of<R: Lined>(alloc: Global, row: &R) -> Result<Items<u8>, AllocError>
    ensures { IfOk result (λ body. body ≡ line_body R.row_kind (R.fields Two row.now)) }
{
    let mut text = Vec::new(alloc);
    row.print(Version::Two, &mut text)?;
    text.pop();
    Ok(Items::from_vec(text))
}

/// Puts a row into the store.
#[tactic(auto, unfolding(crate::specs::Names::fields_row))]
pub fn set_row<R: Stored>(alloc: Global, row: &R) -> Result<Change, AllocError>
    ensures { IfOk result
        (λ change. change ≡ set_row (fields_row R.Lined.row_kind (R.Lined.fields Two row.now))) }
{
    Ok(Change {
        name: name_of(alloc, row)?,
        body: Some(body_of(alloc, row)?),
    })
}

/// Takes a row out of the store.
#[tactic(auto, unfolding(crate::specs::Names::fields_row))]
pub fn drop_row<R: Stored>(alloc: Global, row: &R) -> Result<Change, AllocError>
    ensures { IfOk result
        (λ change. change ≡ drop_row (fields_row R.Lined.row_kind (R.Lined.fields Two row.now))) }
{
    Ok(Change {
        name: name_of(alloc, row)?,
        body: None,
    })
}

/// Adds that the rows are taken out of the store.
pub fn drop_rows<R: Stored>(
    alloc: Global,
    rows: &[R],
    batch: &mut Vec<Change>,
) -> Result<(), AllocError>
    ensures { OnOk result
        (batch.new.items ≡ batch.old.items
        ++ map drop_row (map (λ row. fields_row R.Lined.row_kind (R.Lined.fields Two row)) rows.now)) }
{
    for row in rows {
        batch.push(drop_row(alloc, row)?)?;
    }
    Ok(())
}

/// Adds that the rows are put into the store.
pub fn set_rows<R: Stored>(
    alloc: Global,
    rows: &[R],
    batch: &mut Vec<Change>,
) -> Result<(), AllocError>
    ensures { OnOk result
        (batch.new.items ≡ batch.old.items
        ++ map set_row (map (λ row. fields_row R.Lined.row_kind (R.Lined.fields Two row)) rows.now)) }
{
    for row in rows {
        batch.push(set_row(alloc, row)?)?;
    }
    Ok(())
}
