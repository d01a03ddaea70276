//! What staff are told of a route by a router's text.
use crate::samples::{Question, altered, exchange_text, is_told};
use std::alloc::Global;

const PLAIN: &str = "203.0.113.0/24 65001 10.1.0.1 - -";

/// Parts of the text and what stands in their places, the interface, the route, and what is told.
const CASES: &[(&str, &str, u32, &str, &str)] = &[
    // the text counts, and not the rows
    (
        "ixp_drop(7);",
        "ixp_drop(8);",
        1,
        "203.0.113.0/24 65002 10.1.0.1 - -",
        "tagged 65002 10.1.0.1 - 65500:1101:8
stopped
number Some(8)
",
    ),
    // the first tag counts that this end's number has
    (
        "  if bgp_path.first != 65001",
        "  bgp_large_community.add((65501, 1101, 3));\n  bgp_large_community.add((65500, 1101, 4));\n  if bgp_path.first != 65001",
        1,
        "203.0.113.0/24 65002 10.1.0.1 - -",
        "tagged 65002 10.1.0.1 - 65501:1101:3,65500:1101:4,65500:1101:7
stopped
number Some(4)
",
    ),
    (
        "filter in_1 {",
        "filter in_1 {\n  reject;",
        1,
        PLAIN,
        "dropped
number None
",
    ),
    ("", "", 5, PLAIN, "fault V4\n"),
    (
        "",
        "",
        5,
        "2001:db8::/32 65001 2001:db8:1::1 - -",
        "fault V4\n",
    ),
    ("router id", "router ip", 1, PLAIN, "unread\n"),
    (
        "router id",
        "router ip",
        1,
        "2001:db8::/32 65001 2001:db8:1::1 - -",
        "unread\n",
    ),
];

fn altered_text(alloc: Global, text: Option<Vec<u8>>, part: &str, other: &str) -> Option<Vec<u8>> {
    let text = text?;
    if part.is_empty() {
        return Some(text);
    }
    let text = str::from_utf8(text.as_slice()).ok()?;
    let altered = altered(alloc, text, part, other).ok()?;
    Vec::from_slice(alloc, altered.as_bytes()).ok()
}

#[test]
fn explains(rt: HostRuntime) {
    for &(part, other, interface, route, want) in CASES {
        let question = Question {
            interface,
            route,
            peers: None,
        };
        let text = exchange_text(rt.alloc());
        let text = altered_text(rt.alloc(), text, part, other);
        assert!(rt; is_told(rt.alloc(), &text, question, want), "{want}");
    }
}
