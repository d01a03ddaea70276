//! The lines of a store's rows, kind by kind in the order of a dump.
ghost use Rattle.std.specs.Prelude.{
  ◌≡◌,
  ◌≢◌,
  ◌++◌,
  List,
  IfOk,
  IfSome,
  IsSome,
  OnOk,
  IsTrue,
  Some,
  map,
  flat_map,
  option_map,
};
ghost use Rattle.std.specs.List.{AllByRecursion};
ghost use Rattle.std.specs.List.Sorted.{IsPermutation};
ghost use Rattle.ixp_io.specs.Tables.{row_entry};
ghost use Rattle.ixp_num_tables.specs.Sums.{Pairs};
ghost use Rattle.ixp_num_tables.specs.Tables.{Ascends};
ghost use Rattle.ixp_rows_lines.specs.declared.version.Version.TheVariants.{Two};
ghost use Rattle.ixp_rows_lines.specs.Lines.{place_of};
ghost use Rattle.ixp_store_rows.specs.Names.{Entry};
ghost use Rattle.ixp_store_damage.specs.Loading.{kind_rows, line_said, line_key, line_end, row_text};
ghost use Rattle.ixp_store_damage.specs.Placing.{Adds, placed_entry, ref_entry};
ghost use Rattle.ixp_store_words.specs.Sorting.{Rises, Same};

use crate::decode::front_line;
use ixp_io::Row;
use ixp_num_tables::put;
use ixp_rows_lines::{Kind, Lined};
use ixp_store_rows::place_of;
use std::alloc::{AllocError, Global};

/// A row of a store, and the line that its body begins with.
#[derive(Drop)]
struct Placed<'a, R> {
    line: R,
    row: &'a Row,
}

/// The line that the row's body begins with, where it begins with one of the kind.
#[tactic(auto, unfolding(crate::specs::Loading::line_said))]
fn typed_of<R: Lined + Drop>(alloc: Global, row: &Row) -> Result<Option<R>, AllocError>
    ensures { IfOk result
        (λ o. option_map (R.Lined.fields Two) o ≡ line_said R.Lined.row_kind (row_entry row.now)) }
{
    let mut text = Vec::from_slice(alloc, row.body.as_slice())?;
    text.push(b'\n')?;
    match front_line::<R>(alloc, text.as_slice())? {
        Some((typed, _)) => Ok(Some(typed)),
        None => Ok(None),
    }
}

/// The rows of the kind, as they stand; None where one of them begins with no line of it.
fn placed_rows<R: Lined + Drop>(
    alloc: Global,
    rows: &[Row],
) -> Result<Option<Vec<Placed<'_, R>>>, AllocError>
    ensures rows { IfOk result
        (λ o. IfSome o (λ v. map placed_entry v.items
        ≡ kind_rows (place_of R.Lined.row_kind) (map row_entry rows.now))) }
    ensures said { IfOk result
        (λ o. IfSome o (λ v. AllByRecursion
        (λ p. line_said R.Lined.row_kind (placed_entry p)
        ≡ Some (R.Lined.fields Two p.line)) v.items)) }
    ensures complete { AllByRecursion (λ e. IsSome (line_said R.Lined.row_kind e))
        (kind_rows (place_of R.Lined.row_kind) (map row_entry rows.now)) → IfOk result (λ o. IsSome o) }
{
    let mut placed: Vec<Placed<R>> = Vec::new(alloc);
    let mut left = rows;
    'rows: while let Some((row, others)) = left.split_first() {
        if row.name.kind == place_of(R::kind()) {
            match typed_of::<R>(alloc, row)? {
                Some(line) => placed.push(Placed { line, row })?,
                None => return Ok(None),
            }
        }
        left = others;
    }
    Ok(Some(placed))
}

/// Puts rows into the order of their lines.
fn sort_placed<R: Lined>(rows: &mut Vec<Placed<R>>)
    ensures moved { IsPermutation rows.old.items rows.new.items }
    ensures rises { Rises (λ p. R.Lined.key p.line) rows.new.items }
{
    rows.sort_unstable_by(|a, b| a.line.order_lines(&b.line));
}

/// What stands behind a row's body in a dump. The body of a list's row has whole lines.
fn line_end(kind: Kind) -> &'static [u8]
    ensures { result.now ≡ line_end kind }
{
    match kind {
        Kind::Prefixes | Kind::Origins => b"",
        _ => b"\n",
    }
}

fn put_bodies<R: Lined>(rows: &[Placed<R>], out: &mut Vec<u8>) -> Result<(), AllocError>
    ensures { OnOk result
        (out.new.items ≡ out.old.items
        ++ flat_map (λ p. row_text R.Lined.row_kind (placed_entry p)) rows.now) }
{
    for placed in rows {
        put(out, placed.row.body.as_slice())?;
        put(out, line_end(R::kind()))?;
    }
    Ok(())
}

/// Adds the lines of the rows of a kind, in the order of a dump; not where one of them begins with no line of
/// the kind.
pub(crate) fn put_section<R: Lined + Drop>(
    alloc: Global,
    rows: &[Row],
    out: &mut Vec<u8>,
) -> Result<bool, AllocError>
    ensures complete { (es : List Entry)
        → Same (kind_rows (place_of R.Lined.row_kind) (map row_entry rows.now)) es
        → Pairs (λ a b. a ≢ b) (map row_entry rows.now) → Ascends (line_key R.Lined.row_kind) es
        → AllByRecursion (λ e. IsSome (line_said R.Lined.row_kind e)) es
        → IfOk result (λ done. IsTrue done
        × (out.new.items ≡ out.old.items ++ flat_map (row_text R.Lined.row_kind) es)) }
{
    match placed_rows::<R>(alloc, rows)? {
        None => Ok(false),
        Some(mut placed) => {
            sort_placed(&mut placed);
            put_bodies(placed.as_slice(), out)?;
            Ok(true)
        }
    }
}

fn add_rows<'a, R>(rows: &[Placed<'a, R>], ordered: &mut Vec<&'a Row>) -> Result<(), AllocError>
    ensures { OnOk result
        (map ref_entry ordered.new.items ≡ map ref_entry ordered.old.items ++ map placed_entry rows.now) }
{
    for placed in rows {
        ordered.push(placed.row)?;
    }
    Ok(())
}

/// Adds the rows of a kind, in the order of a dump; not where one of them begins with no line of the kind.
pub(crate) fn add_section<'a, R: Lined + Drop>(
    alloc: Global,
    rows: &'a [Row],
    ordered: &mut Vec<&'a Row>,
) -> Result<bool, AllocError>
    ensures { Adds R.Lined.row_kind (map row_entry rows.now) result (map ref_entry ordered.old.items)
        (map ref_entry ordered.new.items) }
{
    match placed_rows::<R>(alloc, rows)? {
        None => Ok(false),
        Some(mut placed) => {
            sort_placed(&mut placed);
            add_rows(placed.as_slice(), ordered)?;
            Ok(true)
        }
    }
}
