//! The rows that a store holds of one row of a table.
ghost use Rattle.std.specs.Prelude.{◌≡◌, ◌++◌, List, OnOk, IfOk, map};
ghost use Rattle.ixp_registry.specs.Registries.{address_rows as addresses_in};
ghost use Rattle.ixp_rows_lines.specs.Lines.{address_line};
ghost use Rattle.ixp_store_rows.specs.Names.{Entry, line_row};
ghost use Rattle.ixp_store_rows.specs.States.{address_rows, drop_row, set_row};

use crate::keys::Stored;
use crate::lists::{list_name, set_addresses_of, set_interface, set_irr, set_origins, set_rules};
use crate::rows::{drop_row, drop_rows, set_row};
use ixp_io::Change;
use ixp_num_tables::Copied;
use ixp_registry::{AddressRow, IfAddr, Interface, IrrList, OriginList, RuleList};
use ixp_rows_lines::Kind;
use std::alloc::{AllocError, Global};

/// A row of a table, of which a store holds rows.
pub trait Rows {
    ghost entries: { Self → List Entry };

    /// Adds that its rows are put into the store.
    fn set(&self, alloc: Global, batch: &mut Vec<Change>) -> Result<(), AllocError>
        ensures { OnOk result (batch.new.items ≡ batch.old.items ++ map set_row (entries self.now)) };

    /// Adds that its rows are taken out of the store.
    fn clear(&self, alloc: Global, batch: &mut Vec<Change>) -> Result<(), AllocError>
        ensures { OnOk result (batch.new.items ≡ batch.old.items ++ map drop_row (entries self.now)) };
}

/// A row of which a store holds one row.
impl<R: Stored> Rows for R {
    ghost use Rattle.std.specs.Prelude.{◌∷◌, []};
    ghost use Rattle.ixp_rows_lines.specs.declared.version.Version.TheVariants.{Two};
    ghost use Rattle.ixp_store_rows.specs.Names.{fields_row};

    ghost entries = { λ row. fields_row R.Lined.row_kind (R.Lined.fields Two row) ∷ [] };

    fn set(&self, alloc: Global, batch: &mut Vec<Change>) -> Result<(), AllocError> {
        batch.push(set_row(alloc, self)?)?;
        Ok(())
    }

    fn clear(&self, alloc: Global, batch: &mut Vec<Change>) -> Result<(), AllocError> {
        batch.push(drop_row(alloc, self)?)?;
        Ok(())
    }
}

fn drop_address(alloc: Global, interface: u32, address: &IfAddr) -> Result<Change, AllocError>
    ensures { IfOk result
        (λ change. change ≡ drop_row
        (line_row (address_line (record { interface = interface; address = address.now })))) }
{
    let row = AddressRow {
        interface,
        address: address.copied(alloc)?,
    };
    drop_row(alloc, &row)
}

fn clear_column(
    alloc: Global,
    interface: u32,
    column: &Option<IfAddr>,
    batch: &mut Vec<Change>,
) -> Result<(), AllocError>
    ensures { OnOk result
        (batch.new.items ≡ batch.old.items
        ++ map drop_row (map (λ a. line_row (address_line a)) (addresses_in interface column.now))) }
{
    if let Some(address) = column {
        batch.push(drop_address(alloc, interface, address)?)?;
    }
    Ok(())
}

fn clear_addresses_of(
    alloc: Global,
    interface: &Interface,
    batch: &mut Vec<Change>,
) -> Result<(), AllocError>
    ensures { OnOk result (batch.new.items ≡ batch.old.items ++ map drop_row (address_rows interface.now)) }
{
    clear_column(alloc, interface.number, &interface.v4, batch)?;
    clear_column(alloc, interface.number, &interface.v6, batch)
}

impl Rows for Interface {
    ghost use Rattle.std.specs.Prelude.{◌∷◌};
    ghost use Rattle.ixp_rows_lines.specs.Lines.{interface_line};
    ghost use Rattle.ixp_registry.specs.Registries.{bare};
    ghost use Rattle.ixp_store_rows.specs.Names.{line_row};
    ghost use Rattle.ixp_store_rows.specs.States.{address_rows};

    ghost entries = { λ row. line_row (interface_line (bare row)) ∷ address_rows row };

    fn set(&self, alloc: Global, batch: &mut Vec<Change>) -> Result<(), AllocError> {
        batch.push(set_interface(alloc, self)?)?;
        set_addresses_of(alloc, self, batch)
    }

    fn clear(&self, alloc: Global, batch: &mut Vec<Change>) -> Result<(), AllocError> {
        batch.push(drop_row(alloc, &self.bare())?)?;
        clear_addresses_of(alloc, self, batch)
    }
}

impl Rows for IrrList {
    ghost use Rattle.std.specs.Prelude.{◌∷◌, []};
    ghost use Rattle.ixp_store_rows.specs.Names.{irr_row};

    ghost entries = { λ row. irr_row row ∷ [] };

    fn set(&self, alloc: Global, batch: &mut Vec<Change>) -> Result<(), AllocError> {
        batch.push(set_irr(alloc, self)?)?;
        Ok(())
    }

    fn clear(&self, alloc: Global, batch: &mut Vec<Change>) -> Result<(), AllocError> {
        batch.push(Change {
            name: list_name(alloc, Kind::Prefixes, self.member, self.family)?,
            body: None,
        })?;
        Ok(())
    }
}

impl Rows for OriginList {
    ghost use Rattle.std.specs.Prelude.{◌∷◌, []};
    ghost use Rattle.ixp_store_rows.specs.Names.{origins_row};

    ghost entries = { λ row. origins_row row ∷ [] };

    fn set(&self, alloc: Global, batch: &mut Vec<Change>) -> Result<(), AllocError> {
        batch.push(set_origins(alloc, self)?)?;
        Ok(())
    }

    fn clear(&self, alloc: Global, batch: &mut Vec<Change>) -> Result<(), AllocError> {
        batch.push(Change {
            name: list_name(alloc, Kind::Origins, self.member, self.family)?,
            body: None,
        })?;
        Ok(())
    }
}

impl Rows for RuleList {
    ghost use Rattle.ixp_store_rows.specs.States.{rule_rows};

    ghost entries = { rule_rows };

    fn set(&self, alloc: Global, batch: &mut Vec<Change>) -> Result<(), AllocError> {
        set_rules(alloc, self, batch)
    }

    fn clear(&self, alloc: Global, batch: &mut Vec<Change>) -> Result<(), AllocError> {
        drop_rows(alloc, self.rules.as_slice(), batch)
    }
}
