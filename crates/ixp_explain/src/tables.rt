//! The tables of ROAs that the texts of a route server ask.
ghost use Rattle.std.specs.Prelude.{◌≡◌, [], ◌∷◌, true, IfOk, codes};
ghost use Rattle.ixp_num.specs.Names.{is_name};

use ixp_num::{Items, Name};
use ixp_num_tables::Held;
use ixp_roa::RoaTable;
use std::alloc::{AllocError, Global};

/// The table, with the name by which filters ask it.
fn table_named(
    alloc: Global,
    name: &[u8],
    roas: &Held<RoaTable>,
) -> Result<(Name, Held<RoaTable>), AllocError>
    requires { is_name name.now ≡ true }
    ensures { IfOk result (λ t. t ≡ (name.now, roas.now)) }
{
    let name = Name::new(alloc, name)?;
    let table = roas.shared()?;
    Ok((name, table))
}

/// The tables `roas4` and `roas6` of a registry's ROAs: one table, of either family, which both share.
pub fn tables_of(
    alloc: Global,
    roas: &Held<RoaTable>,
) -> Result<Items<(Name, Held<RoaTable>)>, AllocError>
    ensures { IfOk result (λ tables. tables ≡ (codes "roas4", roas.now) ∷ (codes "roas6", roas.now) ∷ []) }
{
    let mut tables = Items::new(alloc);
    tables.push(table_named(alloc, b"roas4", roas)?)?;
    tables.push(table_named(alloc, b"roas6", roas)?)?;
    Ok(tables)
}
