//! Route texts, read and written.
use ixp_lang::{RouteFault, print_route, read_route};
use std::test::Fail;

/// The route that the text spells, written again, or the fault's code and place.
fn told(rt: &HostRuntime, text: &[u8]) -> Result<Vec<u8>, Fail> {
    match read_route(rt.alloc(), text) {
        Ok(route) => {
            let mut out = Vec::new(rt.alloc());
            print_route(&route, &mut out)?;
            Ok(out)
        }
        Err(fault) => told_fault(rt, &fault),
    }
}

fn told_fault(rt: &HostRuntime, fault: &RouteFault) -> Result<Vec<u8>, Fail> {
    let text = match fault {
        RouteFault::Text { at } => format!(in rt.alloc(); "E1 {at}")?,
        RouteFault::Family => format!(in rt.alloc(); "E2")?,
        RouteFault::Set { at } => format!(in rt.alloc(); "E3 {at}")?,
        RouteFault::TooLong { at } => format!(in rt.alloc(); "E4 {at}")?,
        RouteFault::NoMemory => format!(in rt.alloc(); "memory")?,
    };
    Ok(text.into_bytes())
}

const CASES: &[(&[u8], &[u8])] = &[
    (
        b"203.0.113.0/24 65001 10.1.0.1 - -",
        b"203.0.113.0/24 65001 10.1.0.1 - -",
    ),
    (
        b"203.0.113.0/24 - 10.1.0.1 0:65001,65500:0 65500:1101:6",
        b"203.0.113.0/24 - 10.1.0.1 0:65001,65500:0 65500:1101:6",
    ),
    (
        b"2001:DB8:0::/32 4294967295,0 2001:db8::0:1 - 0:0:4294967295",
        b"2001:db8::/32 4294967295,0 2001:db8::1 - 0:0:4294967295",
    ),
    (b"", b"E1 0"),
    (b"203.0.113.0/24", b"E1 14"),
    (b"203.0.113.0 - 10.1.0.1 - -", b"E1 11"),
    (b"203.0.113.0/33 - 10.1.0.1 - -", b"E1 12"),
    (b"203.0.113.1/24 x", b"E1 0"),
    (b"203.0.113.0/24  - 10.1.0.1 - -", b"E1 15"),
    (b"203.0.113.0/24 65001,{65002} 10.1.0.1 - -", b"E3 21"),
    (b"203.0.113.0/24 {65002} 10.1.0.1 - -", b"E3 15"),
    (b"203.0.113.0/24 65001{ 10.1.0.1 - -", b"E3 20"),
    (b"203.0.113.0/24 65001,4294967296,{", b"E1 21"),
    (b"203.0.113.0/24 65001 {", b"E1 21"),
    (b"203.0.113.0/24 -{", b"E3 16"),
    (b"203.0.113.0/24 01{", b"E1 16"),
    (b"203.0.113.0/24 -,1 10.1.0.1 - -", b"E1 16"),
    (b"203.0.113.0/24 65001, 10.1.0.1 - -", b"E1 21"),
    (b"203.0.113.0/24 - 10.1.0.256 - -", b"E1 24"),
    (b"300.x", b"E1 0"),
    (b"300x", b"E1 3"),
    (b"10.300", b"E1 3"),
    (b"10.0.300x/24 - 10.1.0.1 - -", b"E1 5"),
    (b"203.0.113.0/33x", b"E1 12"),
    (b"2001:db8::/129x", b"E1 11"),
    (b"2001:db8::/33x", b"E1 13"),
    (b"::ffff:1.2.256.x", b"E1 11"),
    (b"203.0.113.0/24 - 10.1.256. - -", b"E1 22"),
    (b"203.0.113.0/24 - 10.1.0.1 65536:1 -", b"E1 26"),
    (b"203.0.113.0/24 - 10.1.0.1 1:65536 -", b"E1 28"),
    (b"203.0.113.0/24 - 10.1.0.1 1 -", b"E1 27"),
    (b"203.0.113.0/24 - 10.1.0.1 - 1:2:3:4", b"E1 33"),
    (b"203.0.113.0/24 - 10.1.0.1 - - ", b"E1 29"),
    (b"203.0.113.0/24 - 2001:db8::1 - -", b"E2"),
    (b"203.0.113.0/24 - 2001:db8::1 - x", b"E1 31"),
];

#[test]
fn routes_are_read_or_refused_at_their_place(rt: HostRuntime) -> Result<(), Fail> {
    for &(text, want) in CASES {
        let have = told(&rt, text)?;
        assert!(rt; have.as_slice() == want, "{want:?}");
    }
    Ok(())
}

/// A route text whose path has so many numbers, and then this.
fn with_path(rt: &HostRuntime, count: usize, end: &[u8]) -> Result<Vec<u8>, Fail> {
    let mut text = Vec::new(rt.alloc());
    text.extend_from_slice(b"203.0.113.0/24 ")?;
    for _ in 1..count {
        text.extend_from_slice(b"1,")?;
    }
    text.extend_from_slice(b"1")?;
    text.extend_from_slice(end)?;
    Ok(text)
}

/// What is told of it.
fn told_of_path(rt: &HostRuntime, count: usize, end: &[u8]) -> Result<Vec<u8>, Fail> {
    let text = with_path(rt, count, end)?;
    told(rt, text.as_slice())
}

/// What stands behind a thousand numbers, and what is told: 15 bytes stand before the path, and two for each
/// number.
const ENDS: &[(&[u8], &[u8])] = &[
    (b",1 10.1.0.1 - -", b"E4 2015"),
    (b",01", b"E4 2015"),
    (b",4294967296", b"E1 2015"),
    (b",{", b"E3 2015"),
    (b",", b"E1 2015"),
    (b",x", b"E1 2015"),
];

#[test]
fn a_list_has_at_most_a_thousand_items(rt: HostRuntime) -> Result<(), Fail> {
    let whole = with_path(&rt, 1000, b" 10.1.0.1 - -")?;
    let read = told(&rt, whole.as_slice())?;
    assert!(rt; read.as_slice() == whole.as_slice());
    for &(end, want) in ENDS {
        let have = told_of_path(&rt, 1000, end)?;
        assert!(rt; have.as_slice() == want, "{want:?}");
    }
    Ok(())
}
