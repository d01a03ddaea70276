//! Whois data, and what sets of autonomous systems expand to. What is wanted was worked out by hand from RFC
//! 2622 and from the rules of `ixp_rpsl`.
use ixp_num::{Asn, Family, Prefix, print_prefix};
use ixp_num_tables::{Items, put, put_number};
use ixp_rpsl::{
    Objects, Reach, RpslFault, check_reach, expand, origins_of, prefixes_of, read_objects,
    read_set_name,
};
use std::alloc::{AllocError, Global};
use std::process::Abort;
use std::test::Fail;

fn put_fault(fault: RpslFault, out: &mut Vec<u8>) -> Result<(), AllocError> {
    match fault {
        RpslFault::Line { n } => {
            put(out, b"J1 ")?;
            put_number(out, n as u64)
        }
        RpslFault::NoSet => put(out, b"J2"),
        RpslFault::TooMany { have } => {
            put(out, b"J3 ")?;
            put_number(out, have as u64)
        }
        RpslFault::NoMemory => put(out, b"no memory"),
    }
}

/// Sets, each with its place and a comma.
pub fn put_sets(sets: &[Reach], out: &mut Vec<u8>) -> Result<(), AllocError> {
    for reach in sets {
        put(out, reach.set.as_bytes())?;
        put(out, b" ")?;
        put_number(out, reach.by)?;
        put(out, b", ")?;
    }
    Ok(())
}

/// AS numbers, each with a comma.
pub fn put_asns(asns: &[Asn], out: &mut Vec<u8>) -> Result<(), AllocError> {
    for asn in asns {
        put_number(out, u64::from(asn.0))?;
        put(out, b", ")?;
    }
    Ok(())
}

/// Prefixes, each with a comma.
pub fn put_nets(nets: &[Prefix], out: &mut Vec<u8>) -> Result<(), AllocError> {
    for net in nets {
        print_prefix(net, out)?;
        put(out, b", ")?;
    }
    Ok(())
}

fn put_prefixes(
    alloc: Global,
    objects: &Objects,
    asns: &[Asn],
    family: Family,
    out: &mut Vec<u8>,
) -> Result<(), AllocError> {
    match prefixes_of(alloc, objects, asns, family) {
        Ok(nets) => put_nets(nets.as_slice(), out),
        Err(fault) => put_fault(fault, out),
    }
}

fn put_origins(
    alloc: Global,
    objects: &Objects,
    sets: &[Reach],
    family: Family,
    out: &mut Vec<u8>,
) -> Result<(), AllocError> {
    match origins_of(alloc, objects, sets) {
        Ok(asns) => {
            put_asns(asns.as_slice(), out)?;
            put_prefixes(alloc, objects, asns.as_slice(), family, out)
        }
        Err(fault) => put_fault(fault, out),
    }
}

/// The expansion of a set: its sets, AS numbers and prefixes.
fn put_expansion(
    alloc: Global,
    objects: &Objects,
    root: &str,
    family: Family,
    out: &mut Vec<u8>,
) -> Result<(), AllocError> {
    let Some(root) = read_set_name(alloc, root.as_bytes())? else {
        return put(out, b"no set name");
    };
    match expand(alloc, objects, &root) {
        Ok(sets) => {
            put_sets(sets.as_slice(), out)?;
            put_origins(alloc, objects, sets.as_slice(), family, out)
        }
        Err(fault) => put_fault(fault, out),
    }
}

fn expanded(alloc: Global, text: &str, root: &str, family: Family) -> Result<Vec<u8>, AllocError> {
    let mut out = Vec::new(alloc);
    match read_objects(alloc, text.as_bytes()) {
        Ok(objects) => put_expansion(alloc, &objects, root, family, &mut out)?,
        Err(fault) => put_fault(fault, &mut out)?,
    }
    Ok(out)
}

const EXAMPLE: &str = "as-set: AS-A
members: AS65001, as-b,

as-set: AS-B
members: AS-A, AS-C
+ , AS65002

route: 203.0.113.0/24
origin: AS65001
";

type Case = (&'static str, &'static str, Family, &'static str);

const EXPANSIONS: &[Case] = &[
    (
        EXAMPLE,
        "AS-A",
        Family::V4,
        "AS-A 0, AS-B 1, AS-C 2, 65001, 65002, 203.0.113.0/24, ",
    ),
    (
        EXAMPLE,
        "as-b",
        Family::V6,
        "AS-B 0, AS-A 1, AS-C 1, 65001, 65002, ",
    ),
    (EXAMPLE, "AS-Z", Family::V4, "J2"),
    (EXAMPLE, "AS65001", Family::V4, "no set name"),
    (
        "% a line of the server's\r\n\r\n\r\nas-set:\tAS-A\r\nmembers: AS1 # one\r\n\t, AS2\r\n",
        "AS-A",
        Family::V4,
        "AS-A 0, 1, 2, ",
    ),
    (
        "as-set: AS-A\nmembers: AS-C\n\nas-set: AS-B\n\nas-set: as-a\nmembers: AS-B, AS1\n",
        "AS-A",
        Family::V4,
        "AS-A 0, AS-C 1, AS-B 1, 1, ",
    ),
    (
        "as-set: as1:as-x:as2\nmembers: AS7\n\nroute6: 2001:db8::/32\norigin: as7\n",
        "AS1:AS-X:AS2",
        Family::V6,
        "AS1:AS-X:AS2 0, 7, 2001:db8::/32, ",
    ),
];

const FAULTS: &[Case] = &[
    (
        "route 10.0.0.0/8\norigin: AS1\n",
        "AS-A",
        Family::V4,
        "J1 1",
    ),
    (
        "route: 10.0.0.0/8\norigin: AS1\norigin: AS2\n",
        "AS-A",
        Family::V4,
        "J1 3",
    ),
    (
        "person: A\n\nroute: 10.0.0.0/8\ndescr: none\n",
        "AS-A",
        Family::V4,
        "J1 3",
    ),
    (
        "route6: 10.0.0.0/8\norigin: AS1\n",
        "AS-A",
        Family::V4,
        "J1 1",
    ),
    (
        "as-set: AS-A\nmembers: AS1,\n AS2 AS3\n",
        "AS-A",
        Family::V4,
        "J1 2",
    ),
    ("person: A\nno colon\n", "AS-A", Family::V4, "J1 2"),
];

fn are_expanded(rt: &impl Abort, alloc: Global, cases: &[Case]) -> Result<(), Fail> {
    for &(text, root, family, want) in cases {
        let have = expanded(alloc, text, root, family)?;
        assert!(rt; have.as_slice() == want.as_bytes(), "{root} {want}");
    }
    Ok(())
}

#[test]
fn sets_are_expanded(rt: HostRuntime) -> Result<(), Fail> {
    are_expanded(&rt, rt.alloc(), EXPANSIONS)?;
    are_expanded(&rt, rt.alloc(), FAULTS)
}

/// Adds a set to an expansion, and tells whether the word is a set name.
fn put_reach(
    alloc: Global,
    list: &mut Items<Reach>,
    word: &str,
    by: u64,
) -> Result<bool, AllocError> {
    match read_set_name(alloc, word.as_bytes())? {
        Some(set) => {
            list.push(Reach { set, by })?;
            Ok(true)
        }
        None => Ok(false),
    }
}

/// Whether a list of sets is an expansion of AS-A by the example.
fn is_expansion(alloc: Global, list: &[(&str, u64)]) -> Result<bool, AllocError> {
    let mut sets = Items::new(alloc);
    for &(word, by) in list {
        if !put_reach(alloc, &mut sets, word, by)? {
            return Ok(false);
        }
    }
    is_checked(alloc, sets.as_slice())
}

fn is_checked(alloc: Global, sets: &[Reach]) -> Result<bool, AllocError> {
    let Some(root) = read_set_name(alloc, b"AS-A")? else {
        return Ok(false);
    };
    match read_objects(alloc, EXAMPLE.as_bytes()) {
        Ok(objects) => Ok(check_reach(&objects, &root, sets)),
        Err(_) => Ok(false),
    }
}

type Chain = (&'static [(&'static str, u64)], bool);

const CHAINS: &[Chain] = &[
    (&[("AS-A", 0), ("AS-B", 1), ("AS-C", 2)], true),
    (&[("AS-A", 0), ("AS-B", 1)], false),
    (&[("AS-A", 0), ("AS-B", 1), ("AS-C", 2), ("AS-D", 2)], false),
];

#[test]
fn expansions_are_checked(rt: HostRuntime) -> Result<(), Fail> {
    for &(list, want) in CHAINS {
        assert!(rt; is_expansion(rt.alloc(), list)? == want, "{}", list.len());
    }
    Ok(())
}
