//! What a filter sees beside the route.
ghost use Rattle.std.specs.Prelude.{◌≡◌};
ghost use Rattle.std.specs.Option.{option_copied};
ghost use Rattle.ixp_lang.specs.Meaning.{find_named};

use crate::names::same_name;
use ixp_num::{Addr, Name};
use ixp_num_tables::Held;
use ixp_roa::RoaTable;

/// What a filter sees beside the route.
#[derive(Clone, Copy)]
pub struct Env<'a> {
    /// The address of the neighbour that sent the route.
    pub from: Addr,
    /// The ROA tables by name. The first of a name counts.
    pub roas: &'a [(Name, Held<RoaTable>)],
}

/// The table of the name.
pub fn table_named<'a>(tables: &'a [(Name, Held<RoaTable>)], name: &Name) -> Option<&'a RoaTable>
    ensures { option_copied result ≡ find_named tables.now name.now }
{
    'tables: for (table_name, table) in tables {
        if same_name(table_name, name) {
            return Some(table.get());
        }
    }
    None
}
