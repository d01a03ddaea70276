//! The ROAs by which routes are explained.
ghost use Rattle.std.specs.Prelude.{◌≡◌, ◌↔◌, IfOk, IsTrue};
ghost use Rattle.ixp_glass.specs.Reports.{tables_named};

use crate::compare::are_same;
use ixp_explain::tables_of;
use ixp_num::{Items, Name, Roa};
use ixp_num_tables::Held;
use ixp_roa::RoaTable;
use std::alloc::{AllocError, Global};
use std::marker::Model;

/// ROAs as a list, which can be compared with another one, and as the table by which filters ask them. To
/// share them costs the same however many they are.
#[derive(Drop)]
pub struct GlassRoas {
    rows: Held<Items<Roa>>,
    table: Held<RoaTable>,
}

impl Model for GlassRoas {
    ghost use Rattle.std.specs.Prelude.{◌≡◌, List};
    ghost use Rattle.ixp_num.specs.declared.roa.Roa.{Roa};

    ghost Value = { List Roa };

    ghost view = { λ r. r.rows };

    ghost invariant = { λ r. r.table ≡ r.rows };
}

impl GlassRoas {
    /// The ROAs that a table was made of.
    pub fn of(alloc: Global, table: &Held<RoaTable>) -> Result<GlassRoas, AllocError>
        ensures { IfOk result (λ r. r ≡ table.now) }
    {
        let rows = Items::from_vec(table.get().roas(alloc)?);
        let rows = Held::new(alloc, rows)?;
        let table = table.shared()?;
        Ok(GlassRoas { rows, table })
    }

    /// The same ROAs for one more owner.
    pub fn shared(&self) -> Result<GlassRoas, AllocError>
        ensures { IfOk result (λ r. r ≡ self.now) }
    {
        let rows = self.rows.shared()?;
        let table = self.table.shared()?;
        Ok(GlassRoas { rows, table })
    }

    /// Whether these are the same ROAs in the same order. It does not allocate.
    pub fn are_same(&self, other: &GlassRoas) -> bool
        ensures { IsTrue result ↔ (self.now ≡ other.now) }
    {
        are_same(self.rows.get().as_slice(), other.rows.get().as_slice())
    }

    /// These ROAs, by the owner whose they are where they are the same, else by the other one.
    pub(crate) fn shared_or(&self, other: &GlassRoas) -> Result<GlassRoas, AllocError>
        ensures { IfOk result (λ r. r ≡ other.now) }
    {
        if self.are_same(other) {
            return self.shared();
        }
        other.shared()
    }

    /// The tables by which the texts of a route server ask them.
    pub(crate) fn tables(&self, alloc: Global) -> Result<Items<(Name, Held<RoaTable>)>, AllocError>
        ensures { IfOk result (λ tables. tables ≡ tables_named self.now) }
    {
        tables_of(alloc, &self.table)
    }
}
