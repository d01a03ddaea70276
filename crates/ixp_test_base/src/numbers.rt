//! Texts of the standards (RFC 4291 sections 2.2 and 2.3, RFC 5952 sections 1, 2 and 4.2), and places of
//! faults counted by hand.
use ixp_num::{
    NumFault, Pattern, print_addr, print_asn, print_pattern, print_pattern_bounds, print_prefix,
    read_addr, read_asn, read_pattern, read_prefix,
};
use ixp_num_tables::{put, put_number};
use std::alloc::{AllocError, Global};
use std::process::Abort;
use std::test::Fail;

#[derive(Clone, Copy)]
enum Kind {
    Addr,
    Prefix,
    /// The prefix that is one bit shorter.
    Parent,
    Pattern,
    Asn,
}

fn put_place(word: &[u8], at: usize, out: &mut Vec<u8>) -> Result<(), AllocError> {
    put(out, word)?;
    put_number(out, at as u64)
}

fn put_fault(fault: NumFault, out: &mut Vec<u8>) -> Result<(), AllocError> {
    match fault {
        NumFault::Text { at } => put_place(b"text ", at, out),
        NumFault::Range { at } => put_place(b"range ", at, out),
        NumFault::HostBits => put(out, b"host bits"),
    }
}

/// A pattern is written in its short and in its long form.
fn put_pattern(pattern: &Pattern, out: &mut Vec<u8>) -> Result<(), AllocError> {
    print_pattern(pattern, out)?;
    out.push(b' ')?;
    print_pattern_bounds(pattern, out)
}

fn put_addr(text: &[u8], out: &mut Vec<u8>) -> Result<(), AllocError> {
    match read_addr(text) {
        Ok(addr) => print_addr(&addr, out),
        Err(fault) => put_fault(fault, out),
    }
}

fn put_prefix(text: &[u8], out: &mut Vec<u8>) -> Result<(), AllocError> {
    match read_prefix(text) {
        Ok(prefix) => print_prefix(&prefix, out),
        Err(fault) => put_fault(fault, out),
    }
}

fn put_parent(text: &[u8], out: &mut Vec<u8>) -> Result<(), AllocError> {
    match read_prefix(text) {
        Ok(prefix) => match prefix.parent() {
            Some(parent) => print_prefix(&parent, out),
            None => put(out, b"none"),
        },
        Err(fault) => put_fault(fault, out),
    }
}

/// What is read of the text, written again, or the fault and its place.
fn told(alloc: Global, kind: Kind, text: &[u8]) -> Result<Vec<u8>, AllocError> {
    let mut out = Vec::new(alloc);
    match kind {
        Kind::Addr => put_addr(text, &mut out)?,
        Kind::Prefix => put_prefix(text, &mut out)?,
        Kind::Parent => put_parent(text, &mut out)?,
        Kind::Pattern => match read_pattern(text) {
            Ok(pattern) => put_pattern(&pattern, &mut out)?,
            Err(fault) => put_fault(fault, &mut out)?,
        },
        Kind::Asn => match read_asn(text) {
            Ok(asn) => print_asn(asn, &mut out)?,
            Err(fault) => put_fault(fault, &mut out)?,
        },
    }
    Ok(out)
}

type Case = (Kind, &'static str, &'static str);

const SPELLINGS: &[Case] = &[
    (Kind::Addr, "192.0.2.1", "192.0.2.1"),
    (Kind::Addr, "0.0.0.0", "0.0.0.0"),
    (Kind::Addr, "255.255.255.255", "255.255.255.255"),
    (
        Kind::Addr,
        "ABCD:EF01:2345:6789:ABCD:EF01:2345:6789",
        "abcd:ef01:2345:6789:abcd:ef01:2345:6789",
    ),
    (
        Kind::Addr,
        "2001:DB8:0:0:8:800:200C:417A",
        "2001:db8::8:800:200c:417a",
    ),
    (Kind::Addr, "FF01:0:0:0:0:0:0:101", "ff01::101"),
    (Kind::Addr, "0:0:0:0:0:0:0:1", "::1"),
    (Kind::Addr, "0:0:0:0:0:0:0:0", "::"),
    (Kind::Addr, "::", "::"),
    (Kind::Addr, "0:0:0:0:0:0:13.1.68.3", "::d01:4403"),
    (Kind::Addr, "::13.1.68.3", "::d01:4403"),
    (
        Kind::Addr,
        "0:0:0:0:0:FFFF:129.144.52.38",
        "::ffff:8190:3426",
    ),
    (Kind::Addr, "::FFFF:129.144.52.38", "::ffff:8190:3426"),
    (Kind::Addr, "2001:db8:0:0:1:0:0:1", "2001:db8::1:0:0:1"),
    (Kind::Addr, "2001:0db8:0:0:1:0:0:1", "2001:db8::1:0:0:1"),
    (Kind::Addr, "2001:db8::0:1:0:0:1", "2001:db8::1:0:0:1"),
    (Kind::Addr, "2001:db8:0000:0:1::1", "2001:db8::1:0:0:1"),
    (Kind::Addr, "2001:DB8:0:0:1::1", "2001:db8::1:0:0:1"),
    (Kind::Addr, "2001:db8::1:1:1:1:1", "2001:db8:0:1:1:1:1:1"),
    (Kind::Addr, "2001:0:0:1:0:0:0:1", "2001:0:0:1::1"),
    (Kind::Addr, "2001:db8::", "2001:db8::"),
    (Kind::Addr, "1:2:3:4:5:6:7::", "1:2:3:4:5:6:7:0"),
    (Kind::Addr, "1:2:3:4:5:6:1.2.3.4", "1:2:3:4:5:6:102:304"),
    (Kind::Prefix, "0.0.0.0/0", "0.0.0.0/0"),
    (Kind::Prefix, "192.0.2.0/24", "192.0.2.0/24"),
    (
        Kind::Prefix,
        "2001:0DB8:0000:CD30:0000:0000:0000:0000/60",
        "2001:db8:0:cd30::/60",
    ),
    (
        Kind::Prefix,
        "2001:0DB8::CD30:0:0:0:0/60",
        "2001:db8:0:cd30::/60",
    ),
    (
        Kind::Prefix,
        "2001:0DB8:0:CD30::/60",
        "2001:db8:0:cd30::/60",
    ),
    (Kind::Prefix, "::/0", "::/0"),
    (Kind::Prefix, "::1/128", "::1/128"),
    (Kind::Pattern, "10.0.0.0/8", "10.0.0.0/8 10.0.0.0/8{8,8}"),
    (
        Kind::Pattern,
        "10.0.0.0/8{8,8}",
        "10.0.0.0/8 10.0.0.0/8{8,8}",
    ),
    (
        Kind::Pattern,
        "10.0.0.0/8{8,32}",
        "10.0.0.0/8{8,32} 10.0.0.0/8{8,32}",
    ),
    (
        Kind::Pattern,
        "10.0.0.0/8{255,0}",
        "10.0.0.0/8{255,0} 10.0.0.0/8{255,0}",
    ),
    (
        Kind::Pattern,
        "2001:DB8::/32{32,48}",
        "2001:db8::/32{32,48} 2001:db8::/32{32,48}",
    ),
    (Kind::Parent, "192.0.2.128/25", "192.0.2.0/24"),
    (Kind::Parent, "::/0", "none"),
    (Kind::Asn, "4294967295", "4294967295"),
    (Kind::Asn, "0", "0"),
];

/// `01` begins an IPv6 address, `12345` an IPv4 address. A text that isn't one has no number out of range.
const FAULTS: &[Case] = &[
    (Kind::Addr, "", "text 0"),
    (Kind::Addr, "g", "text 0"),
    (Kind::Addr, "1.2.3", "text 5"),
    (Kind::Addr, "1.2.3.4 ", "text 7"),
    (Kind::Addr, "1.2.3.04", "text 7"),
    (Kind::Addr, "10.01.2.3", "text 4"),
    (Kind::Addr, "01.2.3.4", "text 2"),
    (Kind::Addr, "1.2.3.256", "range 6"),
    (Kind::Addr, "300.400.1.2", "range 0"),
    (Kind::Addr, "99999999999999999999999999.1.2.3", "range 0"),
    (Kind::Addr, "300.1.2", "text 7"),
    (Kind::Addr, ":1", "text 1"),
    (Kind::Addr, "1::2::3", "text 5"),
    (Kind::Addr, "1:2:3:4:5:6:7", "text 13"),
    (Kind::Addr, "1:2:3:4:5:6:7:8:", "text 15"),
    (Kind::Addr, "1:2:3:4:5:6:7:8::", "text 15"),
    (Kind::Addr, "1:2:3:4::5:6:7:8", "text 14"),
    (Kind::Addr, "12345::", "text 5"),
    (Kind::Addr, "1:12345", "text 6"),
    (Kind::Addr, "::12345", "text 7"),
    (Kind::Addr, "::1.2.3.256", "range 8"),
    (Kind::Addr, "::1.2.3.4.5", "text 9"),
    (Kind::Addr, "1::1.2.3.4:5", "text 10"),
    (Kind::Addr, "1:2:3:4:5:6:7:1.2.3.4", "text 15"),
    (Kind::Prefix, "10.0.0.0", "text 8"),
    (Kind::Prefix, "10.0.0.0/", "text 9"),
    (Kind::Prefix, "10.0.0.0/08", "text 10"),
    (Kind::Prefix, "10.0.0.0/33", "range 9"),
    (Kind::Prefix, "256.0.0.0/33", "range 0"),
    (Kind::Prefix, "10.0.0.1/33", "range 9"),
    (Kind::Prefix, "10.0.0.1/8", "host bits"),
    (Kind::Prefix, "::/129", "range 3"),
    (Kind::Prefix, "2001:0DB8:0:CD3/60", "text 15"),
    (Kind::Prefix, "2001:0DB8::CD30/60", "host bits"),
    (Kind::Prefix, "2001:0DB8::CD3/60", "host bits"),
    (Kind::Pattern, "10.0.0.0/8{8,256}", "range 13"),
    (Kind::Pattern, "10.0.0.0/8{256,300}", "range 11"),
    (Kind::Pattern, "10.0.0.0/8{8}", "text 12"),
    (Kind::Pattern, "10.0.0.0/8{8,24", "text 15"),
    (Kind::Pattern, "10.0.0.0/8 ", "text 10"),
    (Kind::Pattern, "10.0.0.1/8{8,24}", "host bits"),
    (Kind::Asn, "", "text 0"),
    (Kind::Asn, "AS1", "text 0"),
    (Kind::Asn, "007", "text 1"),
    (Kind::Asn, "65001x", "text 5"),
    (Kind::Asn, "4294967296", "range 0"),
];

fn each_is_told(rt: &impl Abort, alloc: Global, cases: &[Case]) -> Result<(), AllocError> {
    for (kind, text, want) in cases {
        let have = told(alloc, *kind, text.as_bytes())?;
        assert!(rt; have.as_slice() == want.as_bytes(), "{text}");
    }
    Ok(())
}

#[test]
fn texts_have_one_spelling_or_a_fault(rt: HostRuntime) -> Result<(), Fail> {
    each_is_told(&rt, rt.alloc(), SPELLINGS)?;
    each_is_told(&rt, rt.alloc(), FAULTS)?;
    Ok(())
}

/// Whether the pattern matches the net.
fn matched(net: &str, pattern: &str) -> Option<bool> {
    let net = read_prefix(net.as_bytes()).ok()?;
    let pattern = read_pattern(pattern.as_bytes()).ok()?;
    Some(pattern.matches(&net))
}

const MATCHES: &[(&str, &str, bool)] = &[
    ("192.0.2.128/25", "192.0.2.0/24{25,32}", true),
    ("192.0.2.0/24", "192.0.2.0/24{25,32}", false),
    ("192.0.3.0/25", "192.0.2.0/24{25,32}", false),
    ("192.0.2.0/24", "192.0.2.0/24", true),
    ("192.0.2.0/25", "192.0.2.0/24{24,24}", false),
];

#[test]
fn nets_are_matched(rt: HostRuntime) {
    for &(net, pattern, want) in MATCHES {
        assert!(rt; matched(net, pattern) == Some(want), "{net} {pattern}");
    }
}
