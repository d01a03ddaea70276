//! CSV texts of ROAs.
ghost use Rattle.std.specs.Prelude.{◌≡◌, ◌≤◌, ◌==◌, ◌&&◌, ℕ, List};
ghost use Rattle.csv.specs.Records.{fields_of};
ghost use Rattle.ixp_roa.specs.CsvRoas.{
  RowAnswer,
  is_header,
  AreRead,
  RowTaken,
  TextAnswer,
  OrderedAnswer,
  ListAnswer,
};

use crate::csv_rows::roa_in;
use crate::fault::{Misfit, RoaFault};
use csv::{ByteRecord, ReaderBuilder};
use ixp_num::Roa;
use ixp_num_sorted::Sorted;
use std::alloc::Global;

/// The ROA of a row.
#[tactic(auto, using(crate::proofs::CsvRows::row_fields, crate::proofs::CsvRows::row_short, crate::proofs::CsvRows::row_without_net, crate::proofs::CsvRows::row_without_asn))]
fn roa_of_row(row: &ByteRecord) -> Result<Roa, Misfit>
    ensures { RowAnswer (fields_of row.now) result }
{
    let Some(asn) = row.get(0) else {
        return Err(Misfit::Form);
    };
    let Some(net) = row.get(1) else {
        return Err(Misfit::Form);
    };
    let Some(max) = row.get(2) else {
        return Err(Misfit::Form);
    };
    roa_in(asn, net, max)
}

/// Whether a row begins with `ASN`.
fn is_header(row: &ByteRecord) -> bool
    ensures { result ≡ is_header (fields_of row.now) }
{
    match row.get(0) {
        Some(field) => field == b"ASN".as_slice(),
        None => false,
    }
}

/// Whether a row behind so many others is a header.
fn is_header_behind(count: usize, row: &ByteRecord) -> bool
    ensures { result ≡ (count == 0 && is_header (fields_of row.now)) }
{
    count == 0 && is_header(row)
}

/// Reads one more row, behind so many rows of a header and those of the ROAs, and tells how many rows the
/// header has now.
fn take_row(roas: &mut Vec<Roa>, before: usize, row: &ByteRecord) -> Result<usize, RoaFault>
    requires { before ≤ 1 }
    ensures { (rows : List (List (List ℕ))) → AreRead rows before roas.old.items
        → RowTaken rows (fields_of row.now) roas.new.items result }
{
    if is_header_behind(before + roas.len(), row) {
        return Ok(1);
    }
    match roa_of_row(row) {
        Ok(roa) => match roas.push(roa) {
            Ok(()) => Ok(before),
            Err(_) => Err(RoaFault::NoMemory),
        },
        Err(Misfit::Form) => Err(RoaFault::Row {
            n: before + roas.len() + 1,
        }),
        Err(Misfit::MaxLength) => Err(RoaFault::MaxLength {
            n: before + roas.len() + 1,
        }),
    }
}

/// The ROAs of a text's rows, in their order. It holds one row at a time; the rows may differ in their number
/// of fields.
fn roas_of(alloc: Global, t: &[u8]) -> Result<Vec<Roa>, RoaFault>
    ensures { TextAnswer t.now result }
{
    let rdr = ReaderBuilder::new()
        .has_headers(false)
        .flexible(true)
        .from_reader(alloc, t);
    let mut roas = Vec::new(alloc);
    let mut before = 0;
    for row in rdr.into_byte_records() {
        match row {
            Ok(row) => match take_row(&mut roas, before, &row) {
                Ok(now) => before = now,
                Err(fault) => return Err(fault),
            },
            Err(_) => return Err(RoaFault::NoMemory),
        }
    }
    Ok(roas)
}

/// The ROAs in order, if they aren't too many.
fn in_order(roas: Vec<Roa>, most: usize) -> Result<Sorted<Roa>, RoaFault>
    ensures { OrderedAnswer most roas.items result }
{
    let sorted = Sorted::from_items(roas);
    if most < sorted.len() {
        return Err(RoaFault::TooMany { have: sorted.len() });
    }
    Ok(sorted)
}

/// The ROAs of a text, in order, of which at most so many may be distinct.
pub(crate) fn listed(alloc: Global, t: &[u8], most: usize) -> Result<Sorted<Roa>, RoaFault>
    ensures { ListAnswer most t.now result }
{
    match roas_of(alloc, t) {
        Ok(roas) => in_order(roas, most),
        Err(fault) => Err(fault),
    }
}
