//! Routes of an exchange with four members, and their fates.
use crate::samples::{Asks, shown, told};
use ixp_lang::{Route, print_fate, read_route};
use ixp_num::{Asn, Name};
use ixp_num_tables::put;
use ixp_policy::{ask_plain, fate_plain, number_plain};
use ixp_rows::Registry;
use std::alloc::{AllocError, Global};
use std::test::Fail;

fn name_of(alloc: Global, bytes: &[u8]) -> Option<Name> {
    if Name::is_name(bytes) {
        Name::new(alloc, bytes).ok()
    } else {
        None
    }
}

/// Asks for the fate of a route that the first member's session brings.
#[derive(Clone, Copy)]
struct FateOf<'a> {
    router: &'a Name,
    route: &'a Route,
}

impl Asks for FateOf<'_> {
    fn put(&self, alloc: Global, registry: &Registry, out: &mut Vec<u8>) -> Result<(), AllocError> {
        match fate_plain(alloc, registry, self.router, 1, self.route)? {
            Some(fate) => print_fate(&fate, Some(Asn(65500)), out),
            None => put(out, b"no session"),
        }
    }
}

fn fate_text(alloc: Global, route: &str) -> Option<Vec<u8>> {
    let router = name_of(alloc, b"rs1")?;
    let route = read_route(alloc, route.as_bytes()).ok()?;
    let asked = FateOf {
        router: &router,
        route: &route,
    };
    told(alloc, &asked).ok()
}

#[test]
fn a_route_has_its_fate(rt: HostRuntime) {
    let fate = fate_text(rt.alloc(), "203.0.113.0/24 65001 10.1.0.1 - -");
    let want = "tagged 65001 10.1.0.1 - 65500:1000:2,65500:1001:1
passed
to b_2 65001 10.1.0.1 - -
to b_3 65001 10.1.0.1 - -
to b_4 65001 10.1.0.1 - -
";
    assert!(rt; shown(&fate) == want.as_bytes());
}

/// Asks with which number a session's route is refused, and what the route asks for a receiver.
#[derive(Clone, Copy)]
struct Question<'a> {
    router: &'a Name,
    interface: u32,
    route: &'a Route,
    to: u32,
}

fn put_answer(
    alloc: Global,
    number: Option<u32>,
    asked: Option<u8>,
    out: &mut Vec<u8>,
) -> Result<(), AllocError> {
    let text = format!(in alloc; "{number:?} {asked:?}")?;
    put(out, text.as_bytes())
}

impl Asks for Question<'_> {
    fn put(&self, alloc: Global, registry: &Registry, out: &mut Vec<u8>) -> Result<(), AllocError> {
        let number = number_plain(registry, self.router, self.interface, self.route);
        let to = Asn(self.to);
        let asked = ask_plain(alloc, registry, self.router, self.interface, self.route, to)?;
        match (number, asked) {
            (Some(number), Some(asked)) => put_answer(alloc, number, asked, out),
            _ => put(out, b"no session"),
        }
    }
}

fn answer(alloc: Global, interface: u32, route: &[u8], to: u32) -> Option<Vec<u8>> {
    let router = name_of(alloc, b"rs1")?;
    let route = read_route(alloc, route).ok()?;
    let question = Question {
        router: &router,
        interface,
        route: &route,
        to,
    };
    told(alloc, &question).ok()
}

const STEERED: &str = "203.0.113.0/24 65001 10.1.0.1 - 65500:0:0,65500:1:4200000001";

const OTHER: &str = "198.51.100.0/24 65002 10.1.0.2 - -";

/// A session's interface, its route, a receiver, and what is told.
const QUESTIONS: &[(u32, &str, u32, &str)] = &[
    (1, STEERED, 65002, "None None"),
    (1, STEERED, 4200000001, "None Some(0)"),
    (2, OTHER, 65001, "Some(10) Some(0)"),
    (5, STEERED, 65002, "no session"),
];

#[test]
fn numbers_and_wishes_are_told(rt: HostRuntime) {
    for &(interface, route, to, want) in QUESTIONS {
        let have = answer(rt.alloc(), interface, route.as_bytes(), to);
        assert!(rt; shown(&have) == want.as_bytes(), "{want}");
    }
}

/// The text of a route whose path has the sender's number so many times.
fn long_route(alloc: Global, times: usize) -> Result<Vec<u8>, AllocError> {
    let mut text = Vec::from_slice(alloc, b"203.0.113.0/24 65001")?;
    for _ in 1..times {
        put(&mut text, b",65001")?;
    }
    put(&mut text, b" 10.1.0.1 - -")?;
    Ok(text)
}

const LENGTHS: &[(usize, &str)] = &[(64, "None Some(0)"), (65, "Some(5) Some(0)")];

#[test]
fn paths_have_a_bound(rt: HostRuntime) -> Result<(), Fail> {
    for &(length, want) in LENGTHS {
        let route = long_route(rt.alloc(), length)?;
        let have = answer(rt.alloc(), 1, route.as_slice(), 65002);
        assert!(rt; shown(&have) == want.as_bytes(), "{want}");
    }
    Ok(())
}
