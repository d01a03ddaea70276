//! Whois data of several registries. What is wanted was worked out by hand from RFC 2622 and RFC 4012, and
//! from the rules of `ixp_rpsl_sources`.
use crate::rpsl::{put_asns, put_nets, put_sets};
use ixp_num::{Family, Name};
use ixp_num_tables::{put, put_number};
use ixp_rpsl::{Item, Objects, RpslFault};
use ixp_rpsl_sources::{
    origins_from, prefixes_from, read_counted, read_member, read_sources, sets_from,
};
use std::alloc::{AllocError, Global};
use std::process::Abort;
use std::test::Fail;

fn put_fault(fault: RpslFault, out: &mut Vec<u8>) -> Result<(), AllocError> {
    match fault {
        RpslFault::NoSet => put(out, b"J2"),
        _ => put(out, b"other"),
    }
}

/// Lines, each with `!` before it.
fn put_lines(lines: &[usize], out: &mut Vec<u8>) -> Result<(), AllocError> {
    for line in lines {
        put(out, b"!")?;
        put_number(out, *line as u64)?;
        put(out, b" ")?;
    }
    Ok(())
}

fn put_listings(
    alloc: Global,
    objects: &Objects,
    root: &Item,
    family: Family,
    out: &mut Vec<u8>,
) -> Result<(), AllocError> {
    match sets_from(alloc, objects, root) {
        Ok(sets) => put_sets(sets.as_slice(), out)?,
        Err(fault) => return put_fault(fault, out),
    }
    match origins_from(alloc, objects, root) {
        Ok(asns) => put_asns(asns.as_slice(), out)?,
        Err(fault) => put_fault(fault, out)?,
    }
    match prefixes_from(alloc, objects, root, family) {
        Ok(nets) => put_nets(nets.as_slice(), out),
        Err(fault) => put_fault(fault, out),
    }
}

fn put_all(
    alloc: Global,
    text: &[u8],
    sources: &[Name],
    root: &Item,
    family: Family,
    out: &mut Vec<u8>,
) -> Result<(), AllocError> {
    let counted = read_counted(alloc, text, sources)?;
    put_lines(counted.passed.as_slice(), out)?;
    put_listings(alloc, &counted.objects, root, family, out)
}

fn expanded(
    alloc: Global,
    text: &[u8],
    root: &str,
    family: Family,
    sources: &str,
) -> Result<Vec<u8>, AllocError> {
    let mut out = Vec::new(alloc);
    let Some(sources) = read_sources(alloc, sources.as_bytes())? else {
        put(&mut out, b"no sources")?;
        return Ok(out);
    };
    match read_member(alloc, root.as_bytes())? {
        Some(root) => put_all(alloc, text, sources.as_slice(), &root, family, &mut out)?,
        None => put(&mut out, b"no name")?,
    }
    Ok(out)
}

type Case = (
    &'static str,
    &'static str,
    Family,
    &'static str,
    &'static str,
);

/// Two registries have a set of one name.
const TWO: &str = "as-set: AS-A
members: AS1, AS-B
source: RIPE

as-set: as-a
members: AS2, AS-C
source: RADB

as-set: AS-B
members: RADB::AS-A, ARIN::AS-A
source: RADB

route: 192.0.2.0/24
origin: AS1
source: RIPE

route: 198.51.100.0/24
origin: AS2
source: RADB

route: 203.0.113.0/24
origin: AS1
source: ARIN
";

/// What a stranger may do to the data.
const FAULTS: &str = "% a server's line
as-set: AS-A
members: AS1 AS2, AS3, , RS-X, ANY
members: AS-FOO.BAR,
+ AS_FOO, AS4
source: RIPE # Filtered

as-set: ANY
members: AS9
source: RIPE

route: 192.0.2.1/24
origin: AS3
source: RIPE

route: 192.0.2.0/24
origin: AS3
no colon
source: RIPE

route: 192.0.2.0/24
origin: AS3

<html>
source: RIPE

<html>
source: ELSEWHERE

route: 192.0.2.1/24
origin: AS3
source: ELSEWHERE

person: somebody

aut-num: AS-A
source: ripe

route: 203.0.113.0/24
origin: AS4
source: ripe
";

/// The sets of RFC 2622 section 5.1.
const BY_REF: &str = "as-set: as-foo
members: AS1, AS2
mbrs-by-ref: MNTR-ME
source: T

aut-num: AS3
member-of: as-foo
mnt-by: MNTR-ME
source: T

aut-num: AS4
member-of: as-foo
mnt-by: MNTR-OTHER
source: T

aut-num: AS5
member-of: as-foo
mnt-by: MNTR-OTHER, mntr-me
source: U

as-set: as-bar
member-of: as-foo, as-any
mnt-by: mntr-me
members: AS6
source: T

as-set: as-any
mbrs-by-ref: ANY
source: T

as-set: as-bar
member-of: as-alone
mnt-by: MNTR-ME
source: U

as-set: as-alone
mbrs-by-ref: mntr-me
source: T

as-set: as-none
source: T

aut-num: AS7
member-of: as-none
mnt-by: MNTR-ME
source: T
";

/// Lines that end by a carriage return and a line feed, in any case.
const RETURNS: &str = "as-set: AS-A\r\nMEMBERS: as1,\r\n\tAs2\r\nSource:\tT\r\n\r\n\
route6: 2001:db8::/32\r\norigin: as2\r\nsource: t\r\n";

const CASES: &[Case] = &[
    (
        TWO,
        "AS-A",
        Family::V4,
        "RIPE",
        "AS-A 0, AS-B 1, 1, 192.0.2.0/24, ",
    ),
    (
        TWO,
        "as-a",
        Family::V4,
        "radb",
        "AS-A 0, AS-C 1, 2, 198.51.100.0/24, ",
    ),
    (
        TWO,
        "AS-A",
        Family::V4,
        "RIPE,RADB",
        "AS-A 0, AS-B 1, RADB::AS-A 2, ARIN::AS-A 2, AS-C 3, 1, 2, 192.0.2.0/24, 198.51.100.0/24, ",
    ),
    (
        TWO,
        "AS-A",
        Family::V4,
        "RADB,RIPE",
        "AS-A 0, AS-C 1, 2, 198.51.100.0/24, ",
    ),
    (
        TWO,
        "ripe::as-a",
        Family::V4,
        "RADB,RIPE",
        "RIPE::AS-A 0, AS-B 1, RADB::AS-A 2, ARIN::AS-A 2, AS-C 3, 1, 2, 192.0.2.0/24, 198.51.100.0/24, ",
    ),
    (TWO, "RIPE::AS-A", Family::V4, "RADB", "J2"),
    (TWO, "AS-C", Family::V4, "RADB,RIPE", "J2"),
    (
        TWO,
        "AS1",
        Family::V4,
        "ARIN,RIPE",
        "1, 192.0.2.0/24, 203.0.113.0/24, ",
    ),
    (TWO, "AS1", Family::V6, "RIPE", "1, "),
    (TWO, "AS-A", Family::V4, "RIPE,ripe", "no sources"),
    (TWO, "AS-A", Family::V4, "RIPE,", "no sources"),
    (TWO, "AS-A", Family::V4, "", "no sources"),
    (TWO, "AS-A", Family::V4, "RI PE", "no sources"),
    (
        TWO,
        "AS-A",
        Family::V4,
        "a,b,c,d,e,f,g,h,i,j,k,l,m,n,o,p,q",
        "no sources",
    ),
    (
        TWO,
        "AS-A",
        Family::V4,
        "a,b,c,d,e,f,g,h,i,j,k,l,m,n,o,p",
        "J2",
    ),
    (
        TWO,
        "AS-A",
        Family::V4,
        "aaaaaaaaaaaaaaaaaaaaaaaaaaaaaaaaa",
        "no sources",
    ),
    (TWO, ":AS-A", Family::V4, "RIPE", "no name"),
    (TWO, "RIPE::AS1", Family::V4, "RIPE", "no name"),
    (
        FAULTS,
        "AS-A",
        Family::V4,
        "RIPE",
        "!3 !3 !3 !4 !4 !8 !12 !16 !21 !24 !36 AS-A 0, 3, 4, 203.0.113.0/24, ",
    ),
    (
        BY_REF,
        "AS-FOO",
        Family::V4,
        "T",
        "AS-FOO 0, AS-BAR 1, 1, 2, 3, 6, ",
    ),
    (
        BY_REF,
        "AS-FOO",
        Family::V4,
        "T,U",
        "AS-FOO 0, AS-BAR 1, 1, 2, 3, 5, 6, ",
    ),
    (
        BY_REF,
        "AS-FOO",
        Family::V4,
        "U,T",
        "AS-FOO 0, 1, 2, 3, 5, ",
    ),
    (BY_REF, "AS-ANY", Family::V4, "T", "AS-ANY 0, AS-BAR 1, 6, "),
    (BY_REF, "AS-ALONE", Family::V4, "T,U", "AS-ALONE 0, "),
    (
        BY_REF,
        "AS-ALONE",
        Family::V4,
        "U,T",
        "AS-ALONE 0, AS-BAR 1, ",
    ),
    (BY_REF, "AS-NONE", Family::V4, "T", "AS-NONE 0, "),
    (
        RETURNS,
        "as-a",
        Family::V6,
        "t",
        "AS-A 0, 1, 2, 2001:db8::/32, ",
    ),
    (
        "as-set: AS-A\nmembers: AS1\nsource: T\n\nas-set: AS-A\nmembers: AS2\nsource: T\n",
        "AS-A",
        Family::V4,
        "T",
        "AS-A 0, 1, ",
    ),
];

fn are_expanded(rt: &impl Abort, alloc: Global, cases: &[Case]) -> Result<(), Fail> {
    for &(text, root, family, sources, want) in cases {
        let have = expanded(alloc, text.as_bytes(), root, family, sources)?;
        assert!(rt;
            have.as_slice() == want.as_bytes(),
            "{root} {sources} {want}"
        );
    }
    Ok(())
}

#[test]
fn sets_are_expanded_by_sources(rt: HostRuntime) -> Result<(), Fail> {
    are_expanded(&rt, rt.alloc(), CASES)
}

#[test]
fn a_mark_is_passed_by(rt: HostRuntime) -> Result<(), Fail> {
    let text = b"\xef\xbb\xbfas-set: AS-A\nmembers: AS1\nsource: T\n";
    let have = expanded(rt.alloc(), text, "AS-A", Family::V4, "T")?;
    assert!(&rt; have.as_slice() == b"AS-A 0, 1, ".as_slice(), "a mark");
    Ok(())
}
