//! Rows and their lines.
ghost use Rattle.std.specs.Prelude.{◌≡◌, ◌++◌, List, ℕ, OnOk, IfOk, flat_map, take};
ghost use Rattle.ixp_num_tables.specs.Tables.{order};
ghost use Rattle.ixp_registry.specs.declared.kind.Kind.{Kind as RowKind};
ghost use Rattle.ixp_rows_lines.specs.declared.version.Version.{Version as Format};
ghost use Rattle.ixp_rows_lines.specs.Fields.{Field};
ghost use Rattle.ixp_rows_lines.specs.Lines.{form_of, text_of, key_length, field_key};
ghost use Rattle.ixp_rows_lines.specs.Reading.{Gives, fields_at};

use crate::{Kind, Unread, Version};
use std::alloc::{AllocError, Global};
use std::cmp::Ordering;

/// Rows that have lines of a kind of their own.
pub trait Lined: Sized {
    ghost row_kind: { RowKind };

    /// The fields of a row's line.
    ghost fields: { Format → Self → List Field };

    /// The numbers by which lines of the kind ascend.
    ghost key: { Self → List ℕ };

    /// What a row of the version is, beside its fields.
    ghost of_version: { Format → Self → Type 0 } = { λ version row. Unit {0} };

    /// The kind of the lines.
    fn kind() -> Kind
        ensures { result ≡ row_kind };

    /// The row whose fields stand at the front, and what is behind the line's end.
    fn read(alloc: Global, version: Version, rest: &[u8]) -> Result<(Self, &[u8]), Unread>
        ensures reads { Gives (λ x. (fields version x.0, x.1.now)) result
            (fields_at (form_of version row_kind) rest.now) }
        ensures of_version { IfOk result (λ x. of_version version x.0) };

    /// Adds the row's line.
    fn print(&self, version: Version, out: &mut Vec<u8>) -> Result<(), AllocError>
        ensures { OnOk result (out.new.items ≡ out.old.items ++ text_of row_kind (fields version self.now)) };

    /// How the row's line stands to another of the kind.
    fn order_lines(&self, other: &Self) -> Ordering
        ensures { result ≡ order (key self.now) (key other.now) };

    /// The key is what the first fields say.
    ghost keyed: { (version : Format) (row : Self)
        → flat_map field_key (take (key_length row_kind) (fields version row)) ≡ key row };
}
