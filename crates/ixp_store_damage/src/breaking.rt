//! The first rule that the rows of a registry break, and the row that breaks it.
ghost use Rattle.std.specs.Prelude.{
  ◌≡◌,
  ◌++◌,
  ◌+◌,
  ◌<◌,
  ◌≤◌,
  List,
  IfOk,
  IfErr,
  IfSome,
  IsOk,
  IsSome,
  OnOk,
  map,
};
ghost use Rattle.ixp_io.specs.Tables.{row_entry};
ghost use Rattle.ixp_num_tables.specs.Tables.{Ascends};
ghost use Rattle.ixp_rows.specs.Reading.{breaks};
ghost use Rattle.ixp_rows.specs.Printing.{all_kinds};
ghost use Rattle.ixp_store_rows.specs.Names.{Entry};
ghost use Rattle.ixp_store_damage.specs.Damages.{
  AreAllRight,
  HasLine,
  entries_dump,
  entries_text,
  entry_text,
  has_whole_lines,
};
ghost use Rattle.ixp_store_words.specs.Opening.{entry_name};
ghost use Rattle.ixp_store_damage.specs.Placing.{Adds, AddsKinds, AreSections, ref_entry};
ghost use Rattle.ixp_store_damage.specs.Walking.{TellsLine, TellsRegistry, TellsRule};

use crate::dumped::{breaks, put_end};
use crate::lines::missing;
use crate::sections::add_section;
use ixp_io::Row;
use ixp_num::{Asn, Pattern, Roa};
use ixp_num_tables::put;
use ixp_registry::{
    AddressRow, ApiKey, Contact, InterfaceRow, KINDS, Member, MemberOrigin, MemberPrefix,
    MemberRule, Port, Router, Site, Switch, Vlan,
};
use ixp_rows::{DumpFault, read_dump};
use ixp_rows_lines::Kind;
use ixp_store_rows::VERSION;
use ixp_store_words::{Damage, NoState};
use std::alloc::{AllocError, Global};

/// Adds the rows of a kind in the order of their lines; not where the body of one of them doesn't begin with
/// a line of the kind.
fn add_kind<'a>(
    alloc: Global,
    kind: Kind,
    rows: &'a [Row],
    ordered: &mut Vec<&'a Row>,
) -> Result<bool, AllocError>
    ensures { Adds kind (map row_entry rows.now) result (map ref_entry ordered.old.items)
        (map ref_entry ordered.new.items) }
{
    match kind {
        Kind::Sites => add_section::<Site>(alloc, rows, ordered),
        Kind::Members => add_section::<Member>(alloc, rows, ordered),
        Kind::Contacts => add_section::<Contact>(alloc, rows, ordered),
        Kind::Keys => add_section::<ApiKey>(alloc, rows, ordered),
        Kind::Switches => add_section::<Switch>(alloc, rows, ordered),
        Kind::Ports => add_section::<Port>(alloc, rows, ordered),
        Kind::Vlans => add_section::<Vlan>(alloc, rows, ordered),
        Kind::Interfaces => add_section::<InterfaceRow>(alloc, rows, ordered),
        Kind::Addresses => add_section::<AddressRow>(alloc, rows, ordered),
        Kind::Routers => add_section::<Router>(alloc, rows, ordered),
        Kind::Prefixes => add_section::<MemberPrefix>(alloc, rows, ordered),
        Kind::Origins => add_section::<MemberOrigin>(alloc, rows, ordered),
        Kind::Rules => add_section::<MemberRule>(alloc, rows, ordered),
        Kind::Bogons => add_section::<Pattern>(alloc, rows, ordered),
        Kind::BogonAs => add_section::<(Asn, Asn)>(alloc, rows, ordered),
        Kind::Transit => add_section::<Asn>(alloc, rows, ordered),
        Kind::Roas => add_section::<Roa>(alloc, rows, ordered),
    }
}

/// Adds the rows of these kinds, one kind after the other.
fn add_kinds<'a>(
    alloc: Global,
    kinds: &[Kind],
    rows: &'a [Row],
    ordered: &mut Vec<&'a Row>,
) -> Result<bool, AllocError>
    ensures { AddsKinds kinds.now (map row_entry rows.now) result (map ref_entry ordered.old.items)
        (map ref_entry ordered.new.items) }
{
    let mut left = kinds;
    'each: while let Some((kind, others)) = left.split_first() {
        if !add_kind(alloc, *kind, rows, ordered)? {
            return Ok(false);
        }
        left = others;
    }
    Ok(true)
}

/// Whether the row's body has whole lines, as a list's has.
fn has_whole_lines(row: &Row) -> bool
    ensures { result ≡ has_whole_lines (row_entry row.now) }
{
    row.name.kind == 11 || row.name.kind == 12
}

/// How many lines of a dump a row is.
fn lines_of(row: &Row) -> usize
    ensures { result ≡ breaks (entry_text (row_entry row.now)) }
{
    let lines = breaks(row.body.as_slice());
    if has_whole_lines(row) {
        lines
    } else {
        lines + 1
    }
}

fn put_row(row: &Row, text: &mut Vec<u8>) -> Result<(), AllocError>
    ensures { OnOk result (text.new.items ≡ text.old.items ++ entry_text (row_entry row.now)) }
{
    put(text, row.body.as_slice())?;
    if has_whole_lines(row) {
        return Ok(());
    }
    put(text, b"\n")
}

fn put_rows(rows: &[&Row], text: &mut Vec<u8>) -> Result<(), AllocError>
    ensures { OnOk result (text.new.items ≡ text.old.items ++ entries_text (map ref_entry rows.now)) }
{
    for row in rows {
        put_row(row, text)?;
    }
    Ok(())
}

/// The dump of rows in the order of their lines.
fn dump_of(alloc: Global, rows: &[&Row]) -> Result<Vec<u8>, AllocError>
    ensures { IfOk result (λ text. text.items ≡ entries_dump (map ref_entry rows.now)) }
{
    let mut text = Vec::new(alloc);
    put(&mut text, b"ixp-registry 2\n")?;
    put_rows(rows, &mut text)?;
    put_end(&mut text)?;
    Ok(text)
}

/// The row that has the line of the dump of these rows. The first row's is line 2.
fn row_at<'a>(rows: &[&'a Row], line: usize) -> Option<&'a Row>
    ensures line { IfSome result (λ row. HasLine (map ref_entry rows.now) row.now.name line) }
    ensures some { 2 ≤ line → line < breaks (entries_text (map ref_entry rows.now)) + 2 → IsSome result }
{
    let mut skip = line.checked_sub(2)?;
    for row in rows {
        let lines = lines_of(row);
        if skip < lines {
            return Some(row);
        }
        skip -= lines;
    }
    None
}

/// The fault of a rule that the rows break at this line of their dump.
fn broken(alloc: Global, rows: &[&Row], line: usize, rule: u32) -> NoState
    ensures { 2 ≤ line → line < breaks (entries_text (map ref_entry rows.now)) + 2
        → TellsLine (map ref_entry rows.now) line rule result }
{
    let Some(row) = row_at(rows, line) else {
        return missing(alloc, VERSION);
    };
    match row.name.copied(alloc) {
        Ok(name) => NoState::Damaged {
            name,
            damage: Damage::Rule(rule),
        },
        Err(_) => NoState::NoMemory,
    }
}

/// Whether rows in the order of their lines in a dump are those of a valid registry.
fn are_sound(alloc: Global, rows: &[&Row]) -> Result<(), NoState>
    ensures sound { (es : List Entry) → AreSections es all_kinds (map ref_entry rows.now) → IsOk result
        → TellsRegistry es }
    ensures broken { (es : List Entry) → Ascends entry_name es → AreAllRight es
        → AreSections es all_kinds (map ref_entry rows.now) → IfErr result (TellsRule es) }
{
    let text = dump_of(alloc, rows)?;
    match read_dump(alloc, text.as_slice()) {
        Ok(_) => Ok(()),
        Err(DumpFault::NoMemory) => Err(NoState::NoMemory),
        Err(DumpFault::Invalid { rule, line }) => Err(broken(alloc, rows, line, rule)),
        Err(DumpFault::BadLine { .. }) => Err(missing(alloc, VERSION)),
        Err(DumpFault::Order { .. }) => Err(missing(alloc, VERSION)),
        Err(DumpFault::Twice { .. }) => Err(missing(alloc, VERSION)),
    }
}

/// Whether the rows of a registry among these are those of a valid one.
pub fn sound_registry(alloc: Global, rows: &[Row]) -> Result<(), NoState>
    ensures sound { Ascends entry_name (map row_entry rows.now) → AreAllRight (map row_entry rows.now)
        → IsOk result → TellsRegistry (map row_entry rows.now) }
    ensures broken { Ascends entry_name (map row_entry rows.now) → AreAllRight (map row_entry rows.now)
        → IfErr result (TellsRule (map row_entry rows.now)) }
{
    let mut ordered = Vec::new(alloc);
    if add_kinds(alloc, &KINDS, rows, &mut ordered)? {
        are_sound(alloc, ordered.as_slice())
    } else {
        Err(missing(alloc, VERSION))
    }
}
