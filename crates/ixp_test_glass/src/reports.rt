//! What is shown of the routes that a session holds.
use crate::routes::routes_of;
use crate::samples::{ORIGINS, own_text};
use ixp_explain::{ExplainFault, print_own};
use ixp_glass::{Glass, GlassRoas, Reports};
use ixp_num::Name;
use ixp_num_tables::{Held, put};
use ixp_roa::RoaTable;
use std::alloc::{AllocError, Global};

const ROUTES: &[&str] = &[
    "203.0.113.0/24 65001 10.1.0.1 - -",
    "203.0.113.0/25 65001 10.1.0.1 - -",
];

const SIX: &[&str] = &[
    "203.0.113.0/24 65001 10.1.0.1 - -",
    "2001:db8::/32 65001 2001:db8:1::1 - -",
];

/// The origins of the first member, the interface, the routes, and what is shown.
const CASES: &[(&str, u32, &[&str], &str)] = &[
    (
        ORIGINS,
        1,
        ROUTES,
        "tagged 65001 10.1.0.1 - 65500:1000:2,65500:1001:1
passed
tagged 65001 10.1.0.1 - 65500:1101:1
stopped 1
",
    ),
    (
        "",
        1,
        ROUTES,
        "tagged 65001 10.1.0.1 - 65500:1001:1002,65500:1101:10
stopped 10
tagged 65001 10.1.0.1 - 65500:1101:1
stopped 1
",
    ),
    (ORIGINS, 1, SIX, "family\n"),
    (ORIGINS, 9, ROUTES, "no text\n"),
];

/// No ROAs.
pub fn no_roas(alloc: Global) -> Result<GlassRoas, AllocError> {
    let table = Held::new(alloc, RoaTable::new(alloc, &[])?)?;
    GlassRoas::of(alloc, &table)
}

fn put_shown(shown: Result<Reports, ExplainFault>, out: &mut Vec<u8>) -> Result<(), AllocError> {
    match shown {
        Ok(reports) => {
            for report in reports.get().as_slice() {
                print_own(report, out)?;
            }
            Ok(())
        }
        Err(ExplainFault::Family { .. }) => put(out, b"family\n"),
        Err(_) => put(out, b"fault\n"),
    }
}

/// What a glass shows of the routes by the text.
fn shown(
    alloc: Global,
    text: &[u8],
    interface: u32,
    routes: &[&str],
) -> Result<Vec<u8>, AllocError> {
    let router = Name::new(alloc, b"rs1")?;
    let routes = Held::new(alloc, routes_of(alloc, routes)?)?;
    let roas = no_roas(alloc)?;
    let mut glass = Glass::open(alloc);
    let mut out = Vec::new(alloc);
    put_shown(
        glass.show(&router, interface, &routes, text, &roas),
        &mut out,
    )?;
    Ok(out)
}

fn is_shown(alloc: Global, origins: &str, interface: u32, routes: &[&str], want: &str) -> bool {
    let Some(text) = own_text(alloc, origins, interface) else {
        return want == "no text\n";
    };
    match shown(alloc, text.as_slice(), interface, routes) {
        Ok(have) => have.as_slice() == want.as_bytes(),
        Err(_) => false,
    }
}

#[test]
fn routes_are_shown(rt: HostRuntime) {
    for &(origins, interface, routes, want) in CASES {
        assert!(rt;
            is_shown(rt.alloc(), origins, interface, routes, want),
            "{want}"
        );
    }
}
