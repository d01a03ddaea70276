//! The registry that a store's rows tell.
ghost use Rattle.std.specs.Prelude.{
  ◌≡◌,
  ◌++◌,
  ◌-◌,
  ◌≤◌,
  IfOk,
  OnOk,
  IfSome,
  IsTrue,
  Some,
  length,
  map,
  flat_map,
  option_map,
};
ghost use Rattle.ixp_io.specs.Tables.{row_entry};
ghost use Rattle.ixp_registry.specs.declared.registry.Registry.{Registry as Told};
ghost use Rattle.ixp_registry.specs.Registries.{rows_of};
ghost use Rattle.ixp_registry.specs.Valid.{Valid};
ghost use Rattle.ixp_rows_lines.specs.declared.version.Version.TheVariants.{Two};
ghost use Rattle.ixp_rows.specs.Printing.{kind_lines, all_kinds};
ghost use Rattle.ixp_rows.specs.Reading.{breaks, head_text, end_text};
ghost use Rattle.ixp_rows.specs.Texts.{dump_text};
ghost use Rattle.ixp_store_damage.specs.Loading.{AreRowsOf, KindAdded};

use crate::sections::put_section;
use ixp_io::Row;
use ixp_num::{Asn, Pattern, Roa};
use ixp_num_tables::{put, put_number};
use ixp_registry::{
    AddressRow, ApiKey, Contact, InterfaceRow, KINDS, Member, MemberOrigin, MemberPrefix,
    MemberRule, Port, Registry, Router, Site, Switch, Vlan,
};
use ixp_rows::{DumpFault, read_dump};
use ixp_rows_lines::Kind;
use std::alloc::{AllocError, Global};

/// Adds the lines of the rows of a kind, where each of them is a row of it.
fn put_kind(alloc: Global, kind: Kind, rows: &[Row], out: &mut Vec<u8>) -> Result<bool, AllocError>
    ensures { KindAdded (map row_entry rows.now) result out.old.items out.new.items kind }
{
    match kind {
        Kind::Sites => put_section::<Site>(alloc, rows, out),
        Kind::Members => put_section::<Member>(alloc, rows, out),
        Kind::Contacts => put_section::<Contact>(alloc, rows, out),
        Kind::Keys => put_section::<ApiKey>(alloc, rows, out),
        Kind::Switches => put_section::<Switch>(alloc, rows, out),
        Kind::Ports => put_section::<Port>(alloc, rows, out),
        Kind::Vlans => put_section::<Vlan>(alloc, rows, out),
        Kind::Interfaces => put_section::<InterfaceRow>(alloc, rows, out),
        Kind::Addresses => put_section::<AddressRow>(alloc, rows, out),
        Kind::Routers => put_section::<Router>(alloc, rows, out),
        Kind::Prefixes => put_section::<MemberPrefix>(alloc, rows, out),
        Kind::Origins => put_section::<MemberOrigin>(alloc, rows, out),
        Kind::Rules => put_section::<MemberRule>(alloc, rows, out),
        Kind::Bogons => put_section::<Pattern>(alloc, rows, out),
        Kind::BogonAs => put_section::<(Asn, Asn)>(alloc, rows, out),
        Kind::Transit => put_section::<Asn>(alloc, rows, out),
        Kind::Roas => put_section::<Roa>(alloc, rows, out),
    }
}

/// Adds the lines of the rows of these kinds, one kind after the other.
fn put_kinds(
    alloc: Global,
    kinds: &[Kind],
    rows: &[Row],
    out: &mut Vec<u8>,
) -> Result<bool, AllocError>
    ensures { (r : Told) → Valid r → AreRowsOf r (map row_entry rows.now)
        → IfOk result (λ done. IsTrue done
        × (out.new.items ≡ out.old.items ++ flat_map (kind_lines Two (rows_of r)) kinds.now)) }
{
    let mut left = kinds;
    'each: while let Some((kind, others)) = left.split_first() {
        if !put_kind(alloc, *kind, rows, out)? {
            return Ok(false);
        }
        left = others;
    }
    Ok(true)
}

pub(crate) fn breaks(text: &[u8]) -> usize
    ensures count { result ≡ breaks text.now }
    ensures most { result ≤ length text.now }
{
    let mut count: usize = 0;
    let mut left = text;
    'each: while let Some((byte, others)) = left.split_first() {
        if *byte == b'\n' {
            count += 1;
        }
        left = others;
    }
    count
}

/// Adds a dump's end behind its head and lines.
pub(crate) fn put_end(out: &mut Vec<u8>) -> Result<(), AllocError>
    ensures { OnOk result (out.new.items ≡ out.old.items ++ end_text (breaks out.old.items - 1)) }
{
    let lines = breaks(out.as_slice()).saturating_sub(1);
    put(out, b"end ")?;
    put_number(out, lines as u64)?;
    put(out, b"\n")
}

/// The dump of a registry's rows.
fn dump_of(alloc: Global, rows: &[Row]) -> Result<Option<Vec<u8>>, AllocError>
    ensures { (r : Told) → Valid r → AreRowsOf r (map row_entry rows.now)
        → IfOk result (λ o. option_map (λ text. text.items) o ≡ Some (dump_text Two (rows_of r))) }
{
    let mut text = Vec::new(alloc);
    put(&mut text, b"ixp-registry 2\n")?;
    if !put_kinds(alloc, &KINDS, rows, &mut text)? {
        return Ok(None);
    }
    put_end(&mut text)?;
    Ok(Some(text))
}

/// The valid registry whose dump the text is.
fn registry_in(alloc: Global, text: &[u8]) -> Result<Option<Registry>, AllocError>
    ensures valid { IfOk result (λ o. IfSome o Valid) }
    ensures complete { (r : Told) → Valid r → text.now ≡ dump_text Two (rows_of r)
        → IfOk result (λ o. o ≡ Some r) }
{
    match read_dump(alloc, text) {
        Ok(registry) => Ok(Some(registry)),
        Err(DumpFault::NoMemory) => Err(AllocError),
        Err(DumpFault::BadLine { .. }) => Ok(None),
        Err(DumpFault::Order { .. }) => Ok(None),
        Err(DumpFault::Twice { .. }) => Ok(None),
        Err(DumpFault::Invalid { .. }) => Ok(None),
    }
}

/// The valid registry whose rows these are, among rows of other kinds.
pub fn registry_told(alloc: Global, rows: &[Row]) -> Result<Option<Registry>, AllocError>
    ensures valid { IfOk result (λ o. IfSome o Valid) }
    ensures complete { (r : Told) → Valid r → AreRowsOf r (map row_entry rows.now)
        → IfOk result (λ o. o ≡ Some r) }
{
    match dump_of(alloc, rows)? {
        None => Ok(None),
        Some(text) => registry_in(alloc, text.as_slice()),
    }
}
