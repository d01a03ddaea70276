//! The PDUs that a cache sends.
ghost use Rattle.std.specs.Prelude.{◌≡◌, ◌≤◌, OnOk, OnErr};
ghost use Rattle.std.specs.List.{flat_map};
ghost use Rattle.ixp_io.specs.Faults.{Rose};
ghost use Rattle.ixp_io.specs.Told.{Takes};
ghost use Rattle.ixp_rtr.specs.Batches.{gathered};
ghost use Rattle.ixp_rtr.specs.Headers as headers;
ghost use Rattle.ixp_rtr.specs.Pdus as spec;

use crate::batch::Batch;
use crate::header::Header;
use ixp_io::{Failed, Sink};
use ixp_num::{Family, Roa};

/// A PDU that a cache sends (RFC 8210 sections 5.5 to 5.9 and 5.11).
#[derive(Clone, Copy, Debug, PartialEq, Eq, Drop)]
pub enum Pdu {
    /// Opens an answer.
    CacheResponse { session: u16 },
    /// An IPv4 Prefix or IPv6 Prefix that announces or withdraws a ROA.
    Prefix { announces: bool, roa: Roa },
    /// Closes an answer; the router has the set of this serial now.
    EndOfData { session: u16, serial: u32 },
    /// The cache can't say what has changed since the router's serial; the router has to ask for all.
    CacheReset,
    /// Why a PDU with this header isn't answered. `code` is one of RFC 8210 section 12.
    ErrorReport { code: u16, faulty: Header },
}

// The bytes of a header of version 1.
fn header_bytes(kind: u8, session: u16, length: u32) -> [u8; 8]
    ensures { result ≡ headers.header_bytes (spec.header kind session length) }
{
    let [s, t] = session.to_be_bytes();
    let [a, b, c, d] = length.to_be_bytes();
    [1, kind, s, t, a, b, c, d]
}

// Writes the pieces in order.
fn write_pieces<L: Sink>(link: &mut L, batch: &mut Batch, pieces: &[&[u8]]) -> Result<(), Failed>
    ensures ok { OnOk result (Takes (gathered (L.written link.old) batch.old)
        (gathered (L.written link.new) batch.new) (flat_map (λ p. p.now) pieces.now)) }
    ensures counts { L.write_faults link.old ≤ L.write_faults link.new }
    ensures cause { OnErr result (Rose (L.write_faults link.old) (L.write_faults link.new)) }
    ensures left { L.left link.new ≡ L.left link.old }
    ensures read_faults { L.read_faults link.new ≡ L.read_faults link.old }
{
    for piece in pieces {
        batch.put(link, piece)?;
    }
    Ok(())
}

// Writes an IPv4 Prefix or an IPv6 Prefix, by the ROA's family.
fn write_prefix<L: Sink>(
    link: &mut L,
    batch: &mut Batch,
    announces: bool,
    roa: &Roa,
) -> Result<(), Failed>
    ensures ok { OnOk result (Takes (gathered (L.written link.old) batch.old)
        (gathered (L.written link.new) batch.new)
        (spec.prefix_bytes roa.now.prefix.family announces roa.now)) }
    ensures counts { L.write_faults link.old ≤ L.write_faults link.new }
    ensures cause { OnErr result (Rose (L.write_faults link.old) (L.write_faults link.new)) }
    ensures left { L.left link.new ≡ L.left link.old }
    ensures read_faults { L.read_faults link.new ≡ L.read_faults link.old }
{
    let fields = [u8::from(announces), roa.prefix.len, roa.max, 0];
    let asn = roa.asn.0.to_be_bytes();
    match roa.prefix.family {
        Family::V4 => {
            let value = (roa.prefix.value as u32).to_be_bytes();
            write_pieces(
                link,
                batch,
                &[&header_bytes(4, 0, 20), &fields, &value, &asn],
            )
        }
        Family::V6 => {
            let value = roa.prefix.value.to_be_bytes();
            write_pieces(
                link,
                batch,
                &[&header_bytes(6, 0, 32), &fields, &value, &asn],
            )
        }
    }
}

// Writes End of Data, with the times that RFC 8210 section 6 recommends.
fn write_end<L: Sink>(
    link: &mut L,
    batch: &mut Batch,
    session: u16,
    serial: u32,
) -> Result<(), Failed>
    ensures ok { OnOk result (Takes (gathered (L.written link.old) batch.old)
        (gathered (L.written link.new) batch.new) (spec.end_bytes session serial)) }
    ensures counts { L.write_faults link.old ≤ L.write_faults link.new }
    ensures cause { OnErr result (Rose (L.write_faults link.old) (L.write_faults link.new)) }
    ensures left { L.left link.new ≡ L.left link.old }
    ensures read_faults { L.read_faults link.new ≡ L.read_faults link.old }
{
    let times = [0, 0, 14, 16, 0, 0, 2, 88, 0, 0, 28, 32];
    write_pieces(
        link,
        batch,
        &[&header_bytes(7, session, 24), &serial.to_be_bytes(), &times],
    )
}

/// Writes a PDU. It does not allocate.
pub(crate) fn write_pdu<L: Sink>(link: &mut L, batch: &mut Batch, pdu: &Pdu) -> Result<(), Failed>
    ensures ok { OnOk result (Takes (gathered (L.written link.old) batch.old)
        (gathered (L.written link.new) batch.new) (spec.pdu_bytes pdu.now)) }
    ensures counts { L.write_faults link.old ≤ L.write_faults link.new }
    ensures cause { OnErr result (Rose (L.write_faults link.old) (L.write_faults link.new)) }
    ensures left { L.left link.new ≡ L.left link.old }
    ensures read_faults { L.read_faults link.new ≡ L.read_faults link.old }
{
    match pdu {
        Pdu::CacheResponse { session } => batch.put(link, &header_bytes(3, *session, 8)),
        Pdu::Prefix { announces, roa } => write_prefix(link, batch, *announces, roa),
        Pdu::EndOfData { session, serial } => write_end(link, batch, *session, *serial),
        Pdu::CacheReset => batch.put(link, &header_bytes(8, 0, 8)),
        Pdu::ErrorReport { code, faulty } => write_report(link, batch, *code, faulty),
    }
}

// Writes an Error Report with the header of the PDU it is about, and without a text.
fn write_report<L: Sink>(
    link: &mut L,
    batch: &mut Batch,
    code: u16,
    faulty: &Header,
) -> Result<(), Failed>
    ensures ok { OnOk result (Takes (gathered (L.written link.old) batch.old)
        (gathered (L.written link.new) batch.new) (spec.report_bytes code faulty.now)) }
    ensures counts { L.write_faults link.old ≤ L.write_faults link.new }
    ensures cause { OnErr result (Rose (L.write_faults link.old) (L.write_faults link.new)) }
    ensures left { L.left link.new ≡ L.left link.old }
    ensures read_faults { L.read_faults link.new ≡ L.read_faults link.old }
{
    let [s, t] = faulty.session.to_be_bytes();
    let [a, b, c, d] = faulty.length.to_be_bytes();
    let quoted = [faulty.version, faulty.kind, s, t, a, b, c, d];
    write_pieces(
        link,
        batch,
        &[
            &header_bytes(10, code, 24),
            &[0, 0, 0, 8],
            &quoted,
            &[0, 0, 0, 0],
        ],
    )
}
