//! What a router asks.
ghost use Rattle.std.specs.Prelude.{◌≡◌, ◌≢◌, ◌<◌, ◌≤◌, length, take, IfOk, OnErr};
ghost use Rattle.ixp_io.specs.Faults.{Rose};
ghost use Rattle.ixp_io.specs.Told.{Told, Moves, IsDone};
ghost use Rattle.ixp_rtr.specs.Queries as spec;

use crate::header::{Header, header_of};
use ixp_io::{Failed, Source};

/// What a router asks (RFC 8210 sections 5.3 and 5.4).
#[derive(Clone, Copy, Debug, PartialEq, Eq, Drop)]
pub enum Query {
    /// Reset Query: all of the present set. Its session ID is ignored.
    Reset,
    /// Serial Query: what has changed since the set of this serial.
    Serial { session: u16, serial: u32 },
    /// Nothing: the input ended between two PDUs.
    End,
}

/// Why no query was read. `faulty` is the header that an Error Report on it has to carry.
#[derive(Clone, Copy, Debug, PartialEq, Eq, Drop)]
pub enum QueryFault {
    /// The version isn't 1.
    Version { found: u8, faulty: Header },
    /// An Error Report of the router, which no Error Report may answer (RFC 8210 section 5.11).
    Peer,
    /// Version 1 has no PDU of this type.
    Type { found: u8, faulty: Header },
    /// A PDU of another type than the two queries.
    Request { found: u8, faulty: Header },
    /// The length isn't that of a query of its type: 12 for a Serial Query, 8 for a Reset Query.
    Length { have: u32, faulty: Header },
    /// The input ended inside a header or a Serial Query.
    Cut,
    /// A read failed.
    ReadFault,
}

impl From<Failed> for QueryFault {
    ghost use Rattle.std.specs.Prelude.{◌≡◌};
    ghost use Rattle.ixp_rtr.specs.declared.query.QueryFault.TheVariants.{ReadFault};

    ghost from_gives = { λ _ e. e ≡ ReadFault };

    fn from(_: Failed) -> QueryFault {
        QueryFault::ReadFault
    }
}

// Reads until the buffer is full or the input ends, and returns how many bytes were read.
fn fill<L: Source>(link: &mut L, buf: &mut [u8]) -> Result<usize, Failed>
    ensures within { IfOk result (λ n. n ≤ length buf.new) }
    ensures moves { IfOk result (λ n. Moves (L.left link.old) (L.left link.new) (take n buf.new)) }
    ensures done { IfOk result (λ n. n < length buf.new → IsDone (L.left link.new)) }
    ensures counts { L.read_faults link.old ≤ L.read_faults link.new }
    ensures cause { OnErr result (Rose (L.read_faults link.old) (L.read_faults link.new)) }
    ensures written { L.written link.new ≡ L.written link.old }
    ensures write_faults { L.write_faults link.new ≡ L.write_faults link.old }
{
    let mut at = 0;
    while at < buf.len() {
        let count = link.read(&mut buf[at..])?;
        if count == 0 {
            return Ok(at);
        }
        at += count;
    }
    Ok(at)
}

// What is wrong with the header of a query, tested in the order of the variants of `QueryFault`.
fn fault_of(header: &Header) -> Option<QueryFault>
    ensures { result ≡ spec.fault_of header.now }
{
    let found = header.kind;
    let faulty = *header;
    if header.version != 1 {
        return Some(QueryFault::Version {
            found: header.version,
            faulty,
        });
    }
    match found {
        10 => Some(QueryFault::Peer),
        5 | 11.. => Some(QueryFault::Type { found, faulty }),
        0 | 3.. => Some(QueryFault::Request { found, faulty }),
        1 | 2 => length_fault(header),
    }
}

// A fault unless the length is that of a query of its type.
fn length_fault(header: &Header) -> Option<QueryFault>
    ensures { result ≡ spec.length_fault header.now }
{
    let wanted = if header.kind == 1 { 12 } else { 8 };
    if header.length == wanted {
        None
    } else {
        Some(QueryFault::Length {
            have: header.length,
            faulty: *header,
        })
    }
}

// The rest of a Serial Query, whose header was read.
fn read_serial<L: Source>(link: &mut L, session: u16) -> Result<Query, QueryFault>
    ensures answers { result ≢ Err QueryFault.ReadFault
        → Told (L.left link.old) (L.left link.new)
        (λ left rest. spec.with_serial session left ≡ (result, rest)) }
    ensures failed { result ≡ Err QueryFault.ReadFault
        → Rose (L.read_faults link.old) (L.read_faults link.new) }
    ensures counts { L.read_faults link.old ≤ L.read_faults link.new }
    ensures written { L.written link.new ≡ L.written link.old }
    ensures write_faults { L.write_faults link.new ≡ L.write_faults link.old }
{
    let mut bytes = [0; 4];
    let count = fill(link, &mut bytes)?;
    if count < 4 {
        return Err(QueryFault::Cut);
    }
    Ok(Query::Serial {
        session,
        serial: u32::from_be_bytes(bytes),
    })
}

/// Reads the next query of a link. It does not allocate. No more is read than the query; where the header
/// is faulty, no more than the header. A fault `ReadFault` comes only where the link's count of read faults
/// rose.
pub fn read_query<L: Source>(link: &mut L) -> Result<Query, QueryFault>
    ensures answers { result ≢ Err QueryFault.ReadFault
        → Told (L.left link.old) (L.left link.new) (λ left rest. spec.first left ≡ (result, rest)) }
    ensures failed { result ≡ Err QueryFault.ReadFault
        → Rose (L.read_faults link.old) (L.read_faults link.new) }
    ensures counts { L.read_faults link.old ≤ L.read_faults link.new }
    ensures written { L.written link.new ≡ L.written link.old }
    ensures write_faults { L.write_faults link.new ≡ L.write_faults link.old }
{
    let mut bytes = [0; 8];
    let count = fill(link, &mut bytes)?;
    if count == 0 {
        return Ok(Query::End);
    }
    if count < 8 {
        return Err(QueryFault::Cut);
    }
    let header = header_of(&bytes);
    if let Some(fault) = fault_of(&header) {
        return Err(fault);
    }
    if header.kind == 2 {
        return Ok(Query::Reset);
    }
    read_serial(link, header.session)
}
