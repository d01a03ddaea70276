//! The exchange, its texts, and what is told by them.
ghost use Rattle.std.specs.Prelude.{◌≡◌};
ghost use Rattle.ixp_registry.specs.Valid.{Valid};

use ixp_compile_text::generate;
use ixp_eval::{CallFault, EvalFault};
use ixp_explain::{ExplainFault, Report, explain, explain_member, print_own, tables_of};
use ixp_lang::{Route, print_fate, read_route};
use ixp_num::{Asn, Family, Name};
use ixp_num_tables::{Held, put, put_number};
use ixp_roa::RoaTable;
use ixp_rows::{Registry, read_dump};
use std::alloc::{AllocError, Global};

/// Four members and the router rs1. The interface 5, of the first member, has no session; the second member
/// has no lists.
const LINES: &str = "site 1 0 DEMO
member 1 65001 connected - A
member 2 65002 connected - B
member 3 4200000001 connected - C
member 4 65003 connected - D
switch 1 sw1
port 1 1 10000 1 p1
port 2 1 10000 2 p2
port 3 1 10000 3 p3
port 4 1 10000 4 p4
vlan 1 100 10.1.0.0/24 2001:db8:1::/64 lan
interface 1 1 1 1
interface 2 2 2 1
interface 3 3 3 1
interface 4 4 4 1
interface 5 1 1 1
address 1 10.1.0.1 0 1 1 0 -
address 2 10.1.0.2 0 1 1 0 -
address 3 10.1.0.3 0 1 1 0 -
address 4 10.1.0.4 0 1 1 0 -
address 5 10.1.0.9 0 0 1 0 -
router rs1 1 4 10.1.0.254 65500 10.1.0.254 8 24 1 - 0
prefix 1 203.0.113.0/24
origin 1 4 65001
bogon 10.0.0.0/8{8,32}
bogon-as 0 0
bogon-as 23456 23456
transit 64800
";

fn dump_of(alloc: Global, lines: &[u8]) -> Result<Vec<u8>, AllocError> {
    let mut text = Vec::from_slice(alloc, b"ixp-registry 2\n")?;
    put(&mut text, lines)?;
    put(&mut text, b"end ")?;
    let count = lines.iter().filter(|b| **b == b'\n').count();
    put_number(&mut text, count as u64)?;
    put(&mut text, b"\n")?;
    Ok(text)
}

#[tactic(auto, using(ixp_compile_text::proofs::Bounds::high_fits))]
fn text_by(alloc: Global, registry: &Registry) -> Option<Vec<u8>>
    requires { Valid registry.now }
{
    let router = Name::new(alloc, b"rs1").ok()?;
    generate(alloc, registry, &router).ok()
}

// This is the one function that holds a registry: each costs the proofs much.
fn text_of(alloc: Global, dump: &[u8]) -> Option<Vec<u8>> {
    match read_dump(alloc, dump) {
        Ok(registry) => text_by(alloc, &registry),
        Err(_) => None,
    }
}

/// The text of the exchange's router.
pub fn exchange_text(alloc: Global) -> Option<Vec<u8>> {
    let dump = dump_of(alloc, LINES.as_bytes()).ok()?;
    text_of(alloc, dump.as_slice())
}

/// The text with another part in the place of one, where it first stands.
pub fn altered(alloc: Global, text: &str, part: &str, other: &str) -> Result<String, AllocError> {
    match text.split_once(part) {
        Some((front, back)) => format!(in alloc; "{front}{other}{back}"),
        None => format!(in alloc; "no such part"),
    }
}

/// A question about a text: the interface, the route, and the peers that a member asks, if a member asks.
#[derive(Clone, Copy)]
pub struct Question {
    pub interface: u32,
    pub route: &'static str,
    pub peers: Option<&'static [Asn]>,
}

fn put_eval_fault(alloc: Global, fault: &EvalFault, out: &mut Vec<u8>) -> Result<(), AllocError> {
    let text = match fault {
        EvalFault::PairRange { .. } => format!(in alloc; "fault V1\n")?,
        EvalFault::NoReturn { .. } => format!(in alloc; "fault V2\n")?,
        EvalFault::NoVerdict { .. } => format!(in alloc; "fault V3\n")?,
        EvalFault::NoFilter { .. } => format!(in alloc; "fault V4\n")?,
        EvalFault::NoMemory => format!(in alloc; "fault memory\n")?,
    };
    put(out, text.as_bytes())
}

fn put_fault(alloc: Global, fault: &ExplainFault, out: &mut Vec<u8>) -> Result<(), AllocError> {
    match fault {
        ExplainFault::Unread(_) => put(out, b"unread\n"),
        ExplainFault::Family { family: Family::V4 } => put(out, b"family 4\n"),
        ExplainFault::Family { family: Family::V6 } => put(out, b"family 6\n"),
        ExplainFault::Fault(CallFault::Ended) => put(out, b"fault V5\n"),
        ExplainFault::Fault(CallFault::Failed { fault }) => put_eval_fault(alloc, fault, out),
        ExplainFault::Shape { name } => {
            put(out, b"shape ")?;
            put(out, name.as_bytes())?;
            put(out, b"\n")
        }
        ExplainFault::NoMemory => put(out, b"memory\n"),
    }
}

fn put_report(alloc: Global, report: &Report, out: &mut Vec<u8>) -> Result<(), AllocError> {
    print_fate(&report.fate, None, out)?;
    let number = report.number;
    let text = format!(in alloc; "number {number:?}\n")?;
    put(out, text.as_bytes())
}

fn put_told(
    alloc: Global,
    text: &[u8],
    question: Question,
    route: &Route,
    out: &mut Vec<u8>,
) -> Result<(), AllocError> {
    let none = Held::new(alloc, RoaTable::new(alloc, &[])?)?;
    let tables = tables_of(alloc, &none)?;
    let tables = tables.as_slice();
    let Question {
        interface,
        peers,
        ..
    } = question;
    match peers {
        None => match explain(alloc, text, tables, interface, route) {
            Ok(report) => put_report(alloc, &report, out),
            Err(fault) => put_fault(alloc, &fault, out),
        },
        Some(peers) => match explain_member(alloc, text, tables, interface, route, peers) {
            Ok(report) => print_own(&report, out),
            Err(fault) => put_fault(alloc, &fault, out),
        },
    }
}

/// What the text tells.
pub fn told(alloc: Global, text: &[u8], question: Question) -> Option<Vec<u8>> {
    let route = read_route(alloc, question.route.as_bytes()).ok()?;
    let mut out = Vec::new(alloc);
    put_told(alloc, text, question, &route, &mut out).ok()?;
    Some(out)
}

/// Whether this is told, by a text that there is.
pub fn is_told(alloc: Global, text: &Option<Vec<u8>>, question: Question, want: &str) -> bool {
    let Some(text) = text else {
        return false;
    };
    match told(alloc, text.as_slice(), question) {
        Some(have) => have.as_slice() == want.as_bytes(),
        None => false,
    }
}
