//! All rows of a keeper.
ghost use Rattle.std.specs.Prelude.{
  ◌≡◌,
  ◌≤◌,
  ◌<◌,
  IfOk,
  IfErr,
  IsErrOf,
  Err,
  IsSome,
  IfSome,
  None,
  length,
  map,
  option_map,
};
ghost use Rattle.std.specs.FinMap.{entries, len};
ghost use Rattle.ixp_io.specs.Faults.{Rose};
ghost use Rattle.ixp_io.specs.Tables.{row_entry};
ghost use Rattle.ixp_io.specs.Told.{WhereTold};
ghost use Rattle.ixp_store_damage.specs.Damages.{IsOneTooMany};
ghost use Rattle.ixp_store_damage.specs.Reading.{ComesNext, IsFront, above_last, name_before};
ghost use Rattle.ixp_store_words.specs.Faults.{IsKeepers};
ghost use Rattle.ixp_store_words.specs.declared.fault.LoadFault.TheVariants.{KeeperFault};

use ixp_io::{Keeper, Row, RowName};
use ixp_store_words::LoadFault;
use std::alloc::Global;

/// No valid state has as many rows.
const MOST_ROWS: usize = 8_000_000;

fn last_name(rows: &[Row]) -> Option<&RowName>
    ensures { option_map (λ name. name.now) result ≡ name_before rows.now }
{
    match rows.last() {
        Some(row) => Some(&row.name),
        None => None,
    }
}

/// What the keeper gives after the rows that were read.
#[tactic(auto, using(crate::proofs::Reading::comes_where_told, crate::proofs::Faults::keepers))]
fn ask_next<P: Keeper>(
    alloc: Global,
    keeper: &mut P,
    rows: &[Row],
) -> Result<Option<Row>, LoadFault>
    ensures next { IfOk result (λ row. WhereTold (P.table keeper.old) (λ t. ComesNext t rows.now row)) }
    ensures faults { IfErr result IsKeepers }
    ensures kept { P.table keeper.new ≡ P.table keeper.old }
    ensures counts { P.faults keeper.old ≤ P.faults keeper.new }
    ensures cause { IsErrOf result KeeperFault → Rose (P.faults keeper.old) (P.faults keeper.new) }
    ensures answered { Rose (P.faults keeper.old) (P.faults keeper.new) → result ≡ Err KeeperFault }
{
    let row = keeper.next_row(alloc, last_name(rows))?;
    Ok(row)
}

/// Whether the row's name is above those of the rows.
fn is_above(rows: &[Row], row: &Row) -> bool
    ensures { result ≡ above_last rows.now row.now }
{
    match rows.last() {
        Some(last) => last.name < row.name,
        None => true,
    }
}

/// All rows of the keeper in the order of their names, and none; or its first rows, and the name of the row
/// after them, where it doesn't come after them in the order of names, or would be one too many.
#[tactic(auto, using(crate::proofs::Reading::none_read, crate::proofs::Reading::all_read, crate::proofs::Reading::more_read, crate::proofs::Reading::never_below, crate::proofs::Reading::too_many))]
pub(crate) fn read_rows<P: Keeper>(
    alloc: Global,
    keeper: &mut P,
) -> Result<(Vec<Row>, Option<RowName>), LoadFault>
    ensures front { IfOk result (λ x. WhereTold (P.table keeper.old) (λ t. IsFront t x.0.items)) }
    ensures all { IfOk result
        (λ x. x.1 ≡ None → WhereTold (P.table keeper.old) (λ t. map row_entry x.0.items ≡ entries t)) }
    ensures many { IfOk result (λ x. IsSome x.1 → WhereTold (P.table keeper.old) (λ t. 8000000 < len t)) }
    ensures beyond { IfOk result
        (λ x. IfSome x.1 (λ name. WhereTold (P.table keeper.old) (λ t. IsOneTooMany t name))) }
    ensures most { IfOk result (λ x. length x.0.items ≤ 8000000) }
    ensures some { IfOk result (λ x. IsSome x.1 → 0 < length x.0.items) }
    ensures faults { IfErr result IsKeepers }
    ensures kept { P.table keeper.new ≡ P.table keeper.old }
    ensures counts { P.faults keeper.old ≤ P.faults keeper.new }
    ensures cause { IsErrOf result KeeperFault → Rose (P.faults keeper.old) (P.faults keeper.new) }
    ensures answered { Rose (P.faults keeper.old) (P.faults keeper.new) → result ≡ Err KeeperFault }
{
    let mut rows: Vec<Row> = Vec::new(alloc);
    'rows: while rows.len() < MOST_ROWS {
        let Some(row) = ask_next(alloc, keeper, rows.as_slice())? else {
            return Ok((rows, None));
        };
        if !is_above(rows.as_slice(), &row) {
            return Ok((rows, Some(row.name)));
        }
        rows.push(row)?;
    }
    match ask_next(alloc, keeper, rows.as_slice())? {
        Some(row) => Ok((rows, Some(row.name))),
        None => Ok((rows, None)),
    }
}
