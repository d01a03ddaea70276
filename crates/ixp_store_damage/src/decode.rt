//! Rows of lines, and faults of rows.
ghost use Rattle.std.specs.Prelude.{◌≡◌, ◌<◌, ◌↔◌, length, IfOk, IfSome, IsTrue, option_map};
ghost use Rattle.ixp_rows_lines.specs.declared.version.Version.TheVariants.{Two};
ghost use Rattle.ixp_store_damage.specs.Damages.{IsLineRow};
ghost use Rattle.ixp_store_damage.specs.Loading.{front_at};
ghost use Rattle.ixp_store_damage.specs.Walking.{IsRowFault};
ghost use Rattle.ixp_io.specs.Tables.{row_entry};
ghost use Rattle.ixp_store_rows.specs.States.{set_row};

use ixp_io::{Change, Row, RowName};
use ixp_rows_lines::{Lined, Unread, Version, word_of};
use ixp_store_rows::{Stored, set_row};
use ixp_store_words::{Damage, NoState};
use std::alloc::{AllocError, Global};

/// The fault of a damaged row.
pub fn damaged(alloc: Global, name: &RowName) -> NoState
    ensures { IsRowFault name.now result }
{
    match name.copied(alloc) {
        Ok(name) => NoState::Damaged {
            name,
            damage: Damage::Row,
        },
        Err(_) => NoState::NoMemory,
    }
}

/// Whether the change puts this very row into the store.
pub fn sets(change: &Change, row: &Row) -> bool
    ensures { IsTrue result ↔ change.now ≡ set_row (row_entry row.now) }
{
    if change.name.kind != row.name.kind || change.name.key.as_slice() != row.name.key.as_slice() {
        return false;
    }
    match &change.body {
        Some(body) => body.as_slice() == row.body.as_slice(),
        None => false,
    }
}

/// The row whose line stands at the front of the text, and what is behind it.
#[tactic(auto, using(ixp_rows_lines::proofs::Lengths::fields_less))]
pub(crate) fn front_line<R: Lined + Drop>(
    alloc: Global,
    text: &[u8],
) -> Result<Option<(R, &[u8])>, AllocError>
    ensures shorter { IfOk result (λ o. IfSome o (λ x. length x.1.now < length text.now)) }
    ensures reads { IfOk result
        (λ o. option_map (λ x. (R.Lined.fields Two x.0, x.1.now)) o ≡ front_at R.Lined.row_kind text.now) }
{
    let Some(rest) = text.strip_prefix(word_of(R::kind())) else {
        return Ok(None);
    };
    match R::read(alloc, Version::Two, rest) {
        Ok((row, behind)) => Ok(Some((row, behind))),
        Err(Unread::Bad) => Ok(None),
        Err(Unread::NoMemory) => Err(AllocError),
    }
}

/// Whether the row is one of a line of the kind.
pub(crate) fn is_row<R: Stored + Drop>(alloc: Global, row: &Row) -> Result<bool, AllocError>
    ensures { IfOk result (λ is. IsTrue is ↔ IsLineRow R.Lined.row_kind (row_entry row.now)) }
{
    let mut text = Vec::from_slice(alloc, row.body.as_slice())?;
    text.push(b'\n')?;
    let Some((typed, _)) = front_line::<R>(alloc, text.as_slice())? else {
        return Ok(false);
    };
    let change = set_row(alloc, &typed)?;
    Ok(sets(&change, row))
}
