//! Functions of other forms, in texts that are written by hand.
use crate::samples::{Question, is_told};
use ixp_num::Asn;
use std::alloc::{AllocError, Global};

const ROUTE: &str = "203.0.113.0/24 65001 10.1.0.1 - -";

const HEAD: &str = "router id 10.1.0.254;
ipv4 table master4;
";

const FOOT: &str = "ipv4 table t_1;
filter in_1 { accept; }
protocol pipe pp_1 { table master4; peer table t_1; import all; export all; }
protocol bgp b_1 { local as 65500; neighbor 10.1.0.1 as 65001; ipv4 { table t_1; import filter in_1; export all; }; }
";

const TAGGED: &str = "tagged 65001 10.1.0.1 - -\npassed\n";

const UP: &str = "filter up_1 { accept; }\n";

const COUNT: &str = "function ixp_count(int p) { return p; }\n";

const SENDS: &str = "function ixp_sends(int p) { return p != 9; }\n";

/// The filter up, the functions, the peers, and what is told behind the first two lines, or in their place.
const CASES: &[(&str, &str, &str, &[Asn], &str)] = &[
    (
        UP,
        SENDS,
        COUNT,
        &[Asn(9), Asn(3), Asn(255)],
        "ask 9 no\nask 3 3\nask 255 255\n",
    ),
    (UP, SENDS, COUNT, &[Asn(3), Asn(256)], "shape ixp_count\n"),
    (UP, SENDS, COUNT, &[], ""),
    // the forms are tested though no peer is asked, and though the filter up rejects
    (
        UP,
        "function ixp_sends(int p) { return p; }\n",
        COUNT,
        &[],
        "shape ixp_sends\n",
    ),
    (
        UP,
        "function ixp_sends(bool p) { return p; }\n",
        COUNT,
        &[],
        "shape ixp_sends\n",
    ),
    (
        UP,
        "function ixp_sends(int p; int q) { return p = q; }\n",
        COUNT,
        &[],
        "shape ixp_sends\n",
    ),
    (
        UP,
        "function ixp_sends() { return true; }\n",
        COUNT,
        &[],
        "shape ixp_sends\n",
    ),
    (
        UP,
        "function ixp_sends(int p) { if p = 1 then accept; }\n",
        COUNT,
        &[],
        "shape ixp_sends\n",
    ),
    (
        UP,
        "filter ixp_sends { accept; }\n",
        COUNT,
        &[],
        "shape ixp_sends\n",
    ),
    (
        UP,
        "define ixp_sends = true;\n",
        COUNT,
        &[],
        "shape ixp_sends\n",
    ),
    (
        UP,
        SENDS,
        "function ixp_count(int p) { case p { 1: return true; else: return false; } }\n",
        &[],
        "shape ixp_count\n",
    ),
    (
        UP,
        "function ixp_sends(int p) { return p; }\n",
        "function ixp_count(int p) { return true; }\n",
        &[Asn(1)],
        "shape ixp_sends\n",
    ),
    (
        "filter up_1 { reject; }\n",
        SENDS,
        "function ixp_count(int p) { return true; }\n",
        &[Asn(1)],
        "shape ixp_count\n",
    ),
    ("filter up_1 { reject; }\n", SENDS, COUNT, &[Asn(1)], ""),
    // what the filter up can't tell comes first
    (
        "filter up_1 { if false then accept; }\n",
        "function ixp_sends(int p) { return p; }\n",
        COUNT,
        &[Asn(1)],
        "fault V3\n",
    ),
    ("", SENDS, COUNT, &[Asn(1)], "fault V4\n"),
    // other forms that are right
    (
        UP,
        "define yes = true;\nfunction ixp_sends(int p) { return yes; }\n",
        COUNT,
        &[Asn(1)],
        "ask 1 1\n",
    ),
    (
        UP,
        "function small(int q) { return q < 5; }\nfunction ixp_sends(int p) { if p = 1 then { if true then { } else return small(7); } return small(p); }\n",
        COUNT,
        &[Asn(4), Asn(6)],
        "ask 4 4\nask 6 no\n",
    ),
    (
        UP,
        SENDS,
        "function ixp_count(int p) { return net.len; }\n",
        &[Asn(1)],
        "ask 1 24\n",
    ),
    // functions that aren't there, or end otherwise
    (UP, "", COUNT, &[], ""),
    (UP, "", COUNT, &[Asn(1)], "fault V4\n"),
    (UP, SENDS, "", &[Asn(9)], "ask 9 no\n"),
    (UP, SENDS, "", &[Asn(9), Asn(1)], "fault V4\n"),
    (
        UP,
        "function ixp_sends(int p) { if p = 1 then accept; return true; }\n",
        COUNT,
        &[Asn(2), Asn(1)],
        "fault V5\n",
    ),
    (
        UP,
        "function ixp_sends(int p) { if p = 1 then return true; }\n",
        COUNT,
        &[Asn(1), Asn(2)],
        "fault V2\n",
    ),
];

fn text_of(alloc: Global, up: &str, sends: &str, count: &str) -> Result<String, AllocError> {
    format!(in alloc; "{HEAD}{sends}{count}{up}{FOOT}")
}

/// Whether this is told by the text, or behind the first two lines.
fn is_right(alloc: Global, text: &str, question: Question, want: &str) -> Result<bool, AllocError> {
    let bytes = Some(Vec::from_slice(alloc, text.as_bytes())?);
    let behind = format!(in alloc; "{TAGGED}{want}")?;
    Ok(is_told(alloc, &bytes, question, want) || is_told(alloc, &bytes, question, behind.as_str()))
}

fn is_shaped(
    alloc: Global,
    up: &str,
    sends: &str,
    count: &str,
    question: Question,
    want: &str,
) -> Result<bool, AllocError> {
    let text = text_of(alloc, up, sends, count)?;
    is_right(alloc, text.as_str(), question, want)
}

#[test]
fn forms(rt: HostRuntime) {
    for &(up, sends, count, peers, want) in CASES {
        let question = Question {
            interface: 1,
            route: ROUTE,
            peers: Some(peers),
        };
        let right = is_shaped(rt.alloc(), up, sends, count, question, want);
        assert!(rt; right == Ok(true), "{sends}{count}{want}");
    }
}
