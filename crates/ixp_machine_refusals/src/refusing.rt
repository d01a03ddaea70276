//! What a test says where it fails.
ghost use Rattle.std.specs.Prelude.{◌≡◌, ◌<◌, ◌^◌, nat_le, not, option_map};
ghost use Rattle.ixp_registry.specs.declared.refusal.Refusal.TheVariants.{
  Unknown,
  BadText,
  Taken,
  InUse,
  Exists,
  BadRule,
};
ghost use Rattle.ixp_registry.specs.declared.refusal.RowKey.TheVariants as key;
ghost use Rattle.ixp_registry.specs.declared.kind.Kind.TheVariants as kind;
ghost use Rattle.ixp_machine_edits.specs.Tests.{full, beyond, too_heavy};

use ixp_num::Name;
use ixp_registry::{Handle, Kind, Limited, Refusal, RowKey, TextField};

/// No row of the kind has the number.
pub(crate) fn unknown(table: Kind, number: u32) -> Refusal
    ensures { result ≡ Unknown table (key.Number number) }
{
    Refusal::Unknown {
        table,
        key: RowKey::Number(number),
    }
}

/// The row with the number is there already.
pub(crate) fn exists(number: u32) -> Refusal
    ensures { result ≡ Exists (key.Number number) }
{
    Refusal::Exists {
        key: RowKey::Number(number),
    }
}

/// The row with the number has what is asked for.
pub(crate) fn taken(table: Kind, number: u32) -> Refusal
    ensures { result ≡ Taken table (key.Number number) }
{
    Refusal::Taken {
        table,
        key: RowKey::Number(number),
    }
}

/// The router has the address that is asked for.
pub(crate) fn taken_by_router(handle: &Name) -> Refusal
    ensures { result ≡ Taken kind.Routers (key.Handle handle.now) }
{
    Refusal::Taken {
        table: Kind::Routers,
        key: RowKey::Handle(Handle::of(handle)),
    }
}

/// The row with the number names the one that is to go.
pub(crate) fn in_use(table: Kind, number: u32) -> Refusal
    ensures { result ≡ InUse table (key.Number number) }
{
    Refusal::InUse {
        table,
        key: RowKey::Number(number),
    }
}

pub(crate) fn bad_text(field: TextField) -> Refusal
    ensures { result ≡ BadText field }
{
    Refusal::BadText { field }
}

/// A number that is no rule's is out of its bounds.
pub(crate) fn out_of_bounds() -> Refusal
    ensures { result ≡ BadRule 0 }
{
    Refusal::BadRule { place: 0 }
}

/// With one row more there would be too many.
pub(crate) fn full(table: Kind, have: usize, most: usize) -> Option<Refusal>
    requires { have < 2 ^ 63 }
    ensures { result ≡ full table have most }
{
    if have < most {
        return None;
    }
    Some(Refusal::TooMany {
        table: Limited::Rows(table),
        have: have as u64 + 1,
        limit: most as u64,
    })
}

/// So many rows are too many.
pub(crate) fn beyond(table: Kind, have: u64, most: u64) -> Option<Refusal>
    ensures { result ≡ beyond table have most }
{
    if have <= most {
        return None;
    }
    Some(Refusal::TooMany {
        table: Limited::Rows(table),
        have,
        limit: most,
    })
}

/// The sessions would read too many rows of prefix lists.
pub(crate) fn too_heavy(weight: u64) -> Option<Refusal>
    ensures { result ≡ too_heavy weight }
{
    if weight <= 8000000 {
        return None;
    }
    Some(Refusal::TooMany {
        table: Limited::Weight,
        have: weight,
        limit: 8000000,
    })
}
