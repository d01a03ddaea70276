//! An RTR cache over links in memory. The bytes are written out by the figures of RFC 8210 section 5.
use ixp_io::{MemSink, MemSource, Plan};
use ixp_num::{Asn, Family, Prefix, Roa};
use ixp_num_tables::Items;
use ixp_rtr::{
    Answer, Query, QueryFault, RtrCache, answer_of, read_query, write, write_answer, write_fault,
};
use std::alloc::{AllocError, Global};
use std::test::Fail;

// Reset Query (5.4).
const RESET: [u8; 8] = [1, 2, 0, 0, 0, 0, 0, 8];

// Serial Query (5.3) of session 7 and serial 0.
const SINCE: [u8; 12] = [1, 1, 0, 7, 0, 0, 0, 12, 0, 0, 0, 0];

// Cache Response (5.5) of session 7.
const RESPONSE: [u8; 8] = [1, 3, 0, 7, 0, 0, 0, 8];

// IPv4 Prefix (5.6): 203.0.113.0/24, max length 24, AS 65001.
const ANNOUNCED: [u8; 20] = [
    1, 4, 0, 0, 0, 0, 0, 20, 1, 24, 24, 0, 203, 0, 113, 0, 0, 0, 253, 233,
];

const WITHDRAWN: [u8; 20] = [
    1, 4, 0, 0, 0, 0, 0, 20, 0, 24, 24, 0, 203, 0, 113, 0, 0, 0, 253, 233,
];

// IPv6 Prefix (5.7): 2001:db8::/32, max length 48, AS 4200000000.
const ANNOUNCED_6: [u8; 32] = [
    1, 6, 0, 0, 0, 0, 0, 32, 1, 32, 48, 0, 0x20, 0x01, 0x0d, 0xb8, 0, 0, 0, 0, 0, 0, 0, 0, 0, 0, 0,
    0, 0xfa, 0x56, 0xea, 0x00,
];

// What a link with these bytes asks. Reads give at most three bytes.
fn asked(alloc: Global, bytes: &[u8]) -> Result<Result<Query, QueryFault>, AllocError> {
    let bytes = Items::from_slice(alloc, bytes)?;
    let mut link = MemSource::new(bytes, Plan::smooth(alloc)).in_pieces(3);
    Ok(read_query(&mut link))
}

// What is written to the query, or on the fault. Writes take at most five bytes.
fn answered(alloc: Global, cache: &RtrCache, bytes: &[u8]) -> Result<MemSink, AllocError> {
    let mut link = MemSink::new(alloc, Plan::smooth(alloc)).in_pieces(5);
    let _ = match asked(alloc, bytes)? {
        Ok(query) => write_answer(cache, &query, &mut link),
        Err(fault) => write_fault(&fault, &mut link),
    };
    Ok(link)
}

// The answer to a query, not written yet.
fn taken(alloc: Global, cache: &RtrCache, bytes: &[u8]) -> Result<Answer, AllocError> {
    match asked(alloc, bytes)? {
        Ok(query) => answer_of(cache, &query),
        Err(_) => Ok(Answer::Nothing),
    }
}

fn written(alloc: Global, answer: &Answer) -> MemSink {
    let mut link = MemSink::new(alloc, Plan::smooth(alloc));
    let _ = write(answer, &mut link);
    link
}

// Pieces, one after the other.
fn joined(alloc: Global, pieces: &[&[u8]]) -> Result<Vec<u8>, AllocError> {
    let mut bytes = Vec::new(alloc);
    for piece in pieces {
        bytes.extend_from_slice(piece)?;
    }
    Ok(bytes)
}

// End of Data (5.8) of session 7: refresh 3600 s, retry 600 s, expire 7200 s.
fn end(alloc: Global, serial: u8) -> Result<Vec<u8>, AllocError> {
    joined(
        alloc,
        &[
            &[1, 7, 0, 7, 0, 0, 0, 24, 0, 0, 0, serial],
            &[0, 0, 14, 16, 0, 0, 2, 88, 0, 0, 28, 32],
        ],
    )
}

// Whether the bytes are Cache Response, this Prefix PDU and End of Data with this serial.
fn is_answer(alloc: Global, link: &MemSink, prefix: &[u8], serial: u8) -> Result<bool, AllocError> {
    let end = end(alloc, serial)?;
    let wanted = joined(alloc, &[&RESPONSE, prefix, end.as_slice()])?;
    Ok(link.written() == wanted.as_slice())
}

fn roa(family: Family, value: u128, len: u8, max: u8, asn: u32) -> Option<Roa> {
    let prefix = Prefix::new(family, value, len)?;
    Some(Roa {
        prefix,
        max,
        asn: Asn(asn),
    })
}

#[test]
fn a_set_and_a_withdrawal(rt: HostRuntime) -> Result<(), Fail> {
    let alloc = rt.alloc();
    let one = roa(Family::V4, 0xCB00_7100, 24, 24, 65001).ok_or("a ROA")?;
    let mut cache = RtrCache::open(alloc, 7, &[one])?;
    let all = answered(alloc, &cache, &RESET)?;
    assert!(rt; is_answer(alloc, &all, &ANNOUNCED, 0)?);
    let early = taken(alloc, &cache, &RESET)?;
    assert!(rt; cache.update(alloc, &[])?);
    assert!(rt; !cache.update(alloc, &[])?);
    let changed = answered(alloc, &cache, &SINCE)?;
    assert!(rt; is_answer(alloc, &changed, &WITHDRAWN, 1)?);
    let late = written(alloc, &early);
    assert!(rt; is_answer(alloc, &late, &ANNOUNCED, 0)?);
    Ok(())
}

#[test]
fn an_ipv6_prefix(rt: HostRuntime) -> Result<(), Fail> {
    let alloc = rt.alloc();
    let value = 0x2001_0db8_0000_0000_0000_0000_0000_0000;
    let one = roa(Family::V6, value, 32, 48, 4_200_000_000).ok_or("a ROA")?;
    let cache = RtrCache::open(alloc, 7, &[one, one])?;
    let all = answered(alloc, &cache, &RESET)?;
    assert!(rt; is_answer(alloc, &all, &ANNOUNCED_6, 0)?);
    Ok(())
}

// What comes in, and the one PDU that a cache of session 7 with one earlier set answers.
const OTHERS: &[(&[u8], &[u8])] = &[
    // a serial that has no set: Cache Reset (5.9)
    (
        &[1, 1, 0, 7, 0, 0, 0, 12, 0, 0, 0, 5],
        &[1, 8, 0, 0, 0, 0, 0, 8],
    ),
    // another session: Error Report (5.11), Corrupt Data
    (
        &[1, 1, 0, 8, 0, 0, 0, 12, 0, 0, 0, 0],
        &[
            1, 10, 0, 0, 0, 0, 0, 24, 0, 0, 0, 8, 1, 1, 0, 8, 0, 0, 0, 12, 0, 0, 0, 0,
        ],
    ),
    // version 0: Unsupported Protocol Version
    (
        &[0, 2, 0, 0, 0, 0, 0, 8],
        &[
            1, 10, 0, 4, 0, 0, 0, 24, 0, 0, 0, 8, 0, 2, 0, 0, 0, 0, 0, 8, 0, 0, 0, 0,
        ],
    ),
    // type 5: Unsupported PDU Type
    (
        &[1, 5, 0, 0, 0, 0, 0, 8],
        &[
            1, 10, 0, 5, 0, 0, 0, 24, 0, 0, 0, 8, 1, 5, 0, 0, 0, 0, 0, 8, 0, 0, 0, 0,
        ],
    ),
    // Cache Reset of a router: Invalid Request
    (
        &[1, 8, 0, 0, 0, 0, 0, 8],
        &[
            1, 10, 0, 3, 0, 0, 0, 24, 0, 0, 0, 8, 1, 8, 0, 0, 0, 0, 0, 8, 0, 0, 0, 0,
        ],
    ),
    // a Reset Query of 12 bytes: Corrupt Data
    (
        &[1, 2, 0, 0, 0, 0, 0, 12, 0, 0, 0, 0],
        &[
            1, 10, 0, 0, 0, 0, 0, 24, 0, 0, 0, 8, 1, 2, 0, 0, 0, 0, 0, 12, 0, 0, 0, 0,
        ],
    ),
    // an Error Report is not answered, nor is the end
    (&[1, 10, 0, 0, 0, 0, 0, 16], &[]),
    (&[], &[]),
];

#[test]
fn a_single_pdu(rt: HostRuntime) -> Result<(), Fail> {
    let alloc = rt.alloc();
    let mut cache = RtrCache::open(alloc, 7, &[])?;
    let one = roa(Family::V4, 0xCB00_7100, 24, 24, 65001).ok_or("a ROA")?;
    assert!(rt; cache.update(alloc, &[one])?);
    for (bytes, wanted) in OTHERS {
        let link = answered(alloc, &cache, bytes)?;
        assert_eq!(rt; link.written(), *wanted);
    }
    Ok(())
}

#[test]
fn an_input_that_ends(rt: HostRuntime) -> Result<(), Fail> {
    let alloc = rt.alloc();
    assert!(rt; asked(alloc, &[])? == Ok(Query::End));
    assert!(rt; asked(alloc, &[1, 2, 0])? == Err(QueryFault::Cut));
    assert!(rt; asked(alloc, &[1, 1, 0, 7, 0, 0, 0, 12, 0])? == Err(QueryFault::Cut));
    assert!(rt; asked(alloc, &[1, 10, 0, 0, 0, 0, 0, 16])? == Err(QueryFault::Peer));
    Ok(())
}
