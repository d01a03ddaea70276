//! The tables of a trial's ROAs.
ghost use Rattle.std.specs.Prelude.{◌≡◌, ℕ, List, IfOk, OnOk};
ghost use Rattle.ixp_lang.specs.Values.{values_of};
ghost use Rattle.ixp_eval_trial.specs.Tables.{AreTables, rows_named, with_table};

use ixp_lang::Groups;
use ixp_num::{Items, Name, Roa};
use ixp_num_tables::Held;
use ixp_roa::RoaTable;
use std::alloc::{AllocError, Global};

/// The ROAs by the names of their tables, in the order of their lines.
fn grouped(alloc: Global, roas: &[(Name, Roa)]) -> Result<Groups<'_, Roa>, AllocError>
    ensures { IfOk result (λ groups. (n : List ℕ) → values_of groups n ≡ rows_named n roas.now) }
{
    let mut groups = Groups::new(alloc);
    let mut left = roas;
    'each: while let Some(((name, roa), others)) = left.split_first() {
        groups.add(alloc, name.as_bytes(), *roa)?;
        left = others;
    }
    Ok(groups)
}

/// Adds a table of these ROAs, where there are any.
fn add_table(
    alloc: Global,
    tables: &mut Items<(Name, Held<RoaTable>)>,
    name: &Name,
    rows: &[Roa],
) -> Result<(), AllocError>
    ensures { OnOk result (tables.new ≡ with_table tables.old name.now rows.now) }
{
    match rows {
        [] => Ok(()),
        [_, ..] => {
            let table = Held::new(alloc, RoaTable::new(alloc, rows)?)?;
            tables.push((name.copied(alloc)?, table))?;
            Ok(())
        }
    }
}

/// The tables of ROAs by their names, each with the ROAs of its lines. It fails only where memory runs out.
pub fn tables_of(
    alloc: Global,
    roas: &[(Name, Roa)],
) -> Result<Items<(Name, Held<RoaTable>)>, AllocError>
    ensures { IfOk result (AreTables roas.now) }
{
    let mut groups = grouped(alloc, roas)?;
    let mut tables = Items::new(alloc);
    let mut left = roas;
    'each: while let Some(((name, _), others)) = left.split_first() {
        let rows = groups.take(alloc, name.as_bytes());
        add_table(alloc, &mut tables, name, rows.as_slice())?;
        left = others;
    }
    Ok(tables)
}
