//! Merged sets worked out by hand.
use crate::samples::shown;
use ixp_num::{Family, Pattern, Prefix, print_pattern_bounds, read_prefix};
use ixp_pfxset::{Mode, blocks_plain, blocks_trie, matches};
use std::alloc::{AllocError, Global};
use std::test::Fail;

fn rows_of(alloc: Global, text: &str) -> Option<Vec<Prefix>> {
    let mut rows = Vec::new(alloc);
    for word in text.split_whitespace() {
        let row = read_prefix(word.as_bytes()).ok()?;
        rows.push(row).ok()?;
    }
    Some(rows)
}

fn text_of(alloc: Global, set: &[Pattern]) -> Result<Vec<u8>, AllocError> {
    let mut out = Vec::new(alloc);
    for pattern in set {
        print_pattern_bounds(pattern, &mut out)?;
        out.push(b' ')?;
    }
    Ok(out)
}

// The rows, the bound, the set in `Exact` and that in `More`.
const SETS: &[(&str, u8, &str, &str)] = &[
    ("", 24, "", ""),
    ("10.0.0.0/25", 24, "", ""),
    ("10.0.0.0/8", 24, "10.0.0.0/8{8,8} ", "10.0.0.0/8{8,24} "),
    ("10.0.0.0/8", 8, "10.0.0.0/8{8,8} ", "10.0.0.0/8{8,8} "),
    ("10.0.0.0/8", 7, "", ""),
    (
        "10.0.0.0/9 10.128.0.0/9",
        24,
        "10.0.0.0/8{9,9} ",
        "10.0.0.0/8{9,24} ",
    ),
    (
        "10.0.0.0/8 10.0.0.0/9",
        24,
        "10.0.0.0/8{8,8} 10.0.0.0/9{9,9} ",
        "10.0.0.0/8{8,24} ",
    ),
    (
        "10.128.0.0/9 10.0.0.0/8 10.0.0.0/9",
        24,
        "10.0.0.0/8{8,8} 10.0.0.0/8{9,9} ",
        "10.0.0.0/8{8,24} ",
    ),
    (
        "10.64.0.0/10 10.128.0.0/10",
        24,
        "10.64.0.0/10{10,10} 10.128.0.0/10{10,10} ",
        "10.64.0.0/10{10,24} 10.128.0.0/10{10,24} ",
    ),
    (
        "10.128.0.0/10 10.0.0.0/10 10.64.0.0/10",
        24,
        "10.0.0.0/9{10,10} 10.128.0.0/10{10,10} ",
        "10.0.0.0/9{10,24} 10.128.0.0/10{10,24} ",
    ),
    (
        "192.0.2.192/26 192.0.2.64/26 192.0.2.128/26 192.0.2.0/26",
        26,
        "192.0.2.0/24{26,26} ",
        "192.0.2.0/24{26,26} ",
    ),
    (
        "192.0.2.128/25 192.0.2.128/25 192.0.2.0/25 192.0.2.0/26",
        25,
        "192.0.2.0/24{25,25} ",
        "192.0.2.0/24{25,25} ",
    ),
    (
        "10.0.0.0/9 10.128.0.0/10 10.192.0.0/10",
        24,
        "10.0.0.0/9{9,9} 10.128.0.0/9{10,10} ",
        "10.0.0.0/9{9,24} 10.128.0.0/9{10,24} ",
    ),
    (
        "128.0.0.0/1 0.0.0.0/1",
        24,
        "0.0.0.0/0{1,1} ",
        "0.0.0.0/0{1,24} ",
    ),
    (
        "0.0.0.0/0 203.0.113.0/24",
        24,
        "0.0.0.0/0{0,0} 203.0.113.0/24{24,24} ",
        "0.0.0.0/0{0,24} ",
    ),
    (
        "2001:db8::/33 2001:db8:8000::/33",
        48,
        "2001:db8::/32{33,33} ",
        "2001:db8::/32{33,48} ",
    ),
    ("::/0", 48, "::/0{0,0} ", "::/0{0,48} "),
    (
        "::1/128 ::/128",
        128,
        "::/127{128,128} ",
        "::/127{128,128} ",
    ),
    (
        "::/1 0.0.0.0/1 128.0.0.0/1",
        24,
        "0.0.0.0/0{1,1} ::/1{1,1} ",
        "0.0.0.0/0{1,24} ::/1{1,24} ",
    ),
];

fn plain(alloc: Global, rows: &[Prefix], mode: Mode, high: u8) -> Option<Vec<u8>> {
    let set = blocks_plain(alloc, rows, mode, high).ok()?;
    text_of(alloc, &set).ok()
}

fn by_trie(alloc: Global, rows: &[Prefix], mode: Mode, high: u8) -> Option<Vec<u8>> {
    let set = blocks_trie(alloc, rows, mode, high).ok()?;
    text_of(alloc, &set).ok()
}

/// Whether both ways to merge the rows give the set.
fn is_merged(alloc: Global, rows: &str, mode: Mode, high: u8, want: &str) -> Option<bool> {
    let rows = rows_of(alloc, rows)?;
    let one = plain(alloc, &rows, mode, high);
    let other = by_trie(alloc, &rows, mode, high);
    Some(shown(&one) == want.as_bytes() && shown(&other) == want.as_bytes())
}

#[test]
fn neighbours_are_merged(rt: HostRuntime) {
    for &(rows, high, exact, more) in SETS {
        assert!(rt;
            is_merged(rt.alloc(), rows, Mode::Exact, high, exact) == Some(true),
            "{rows}"
        );
        assert!(rt;
            is_merged(rt.alloc(), rows, Mode::More, high, more) == Some(true),
            "{rows}"
        );
    }
}

/// Nets, and whether the set of two rows matches them, in `Exact` and in `More`.
const NETS: &[(&str, bool, bool)] = &[
    ("10.0.0.0/8", false, false),
    ("10.0.0.0/9", true, true),
    ("10.128.0.0/9", true, true),
    ("10.64.0.0/10", false, true),
    ("10.1.2.0/25", false, false),
    ("11.0.0.0/9", false, false),
    ("a00::/9", false, false),
];

/// Whether the merged set of two rows matches the net.
fn is_matched(alloc: Global, net: &str, mode: Mode) -> Option<bool> {
    let rows = rows_of(alloc, "10.0.0.0/9 10.128.0.0/9")?;
    let net = read_prefix(net.as_bytes()).ok()?;
    let set = blocks_plain(alloc, &rows, mode, 24).ok()?;
    Some(matches(&set, &net))
}

#[test]
fn what_a_merged_set_matches(rt: HostRuntime) {
    for &(net, exact, more) in NETS {
        assert!(rt;
            is_matched(rt.alloc(), net, Mode::Exact) == Some(exact),
            "{net}"
        );
        assert!(rt;
            is_matched(rt.alloc(), net, Mode::More) == Some(more),
            "{net}"
        );
    }
}

/// So many /24, each behind the one before it.
fn row_of(alloc: Global, count: u32) -> Result<Vec<Prefix>, AllocError> {
    let mut rows = Vec::new(alloc);
    for i in 0..count {
        if let Some(p) = Prefix::new(Family::V4, u128::from(i) * 256, 24) {
            rows.push(p)?;
        }
    }
    Ok(rows)
}

// 300,000 is 2^18 + 2^15 + 2^12 + 2^9 + 2^8 + 2^7 + 2^6 + 2^5.
const WITHOUT_A_GAP: &str =
    "0.0.0.0/6{24,24} 4.0.0.0/9{24,24} 4.128.0.0/12{24,24} 4.144.0.0/15{24,24} 4.146.0.0/16{24,24} 4.147.0.0/17{24,24} 4.147.128.0/18{24,24} 4.147.192.0/19{24,24} ";

/// Merging pair by pair doesn't end within a test's time.
#[test]
fn many_rows_without_a_gap(rt: HostRuntime) -> Result<(), Fail> {
    let rows = row_of(rt.alloc(), 300_000)?;
    let text = by_trie(rt.alloc(), &rows, Mode::Exact, 24);
    assert!(rt; shown(&text) == WITHOUT_A_GAP.as_bytes());
    Ok(())
}
