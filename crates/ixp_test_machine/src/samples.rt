//! The rows of a small exchange, as the lines of a dump between its head and its end, and requests to change
//! it.
ghost use Rattle.std.specs.Prelude.{◌≡◌};
ghost use Rattle.std.specs.List.{list_all};
ghost use Rattle.ixp_num.specs.Families.{same_family};
ghost use Rattle.ixp_machine_edits.specs.Lists.{has_few_rules};
ghost use Rattle.ixp_registry.specs.Valid.{Valid};
ghost use Rattle.ixp_machine_steps.specs.Requests.{has_family};
ghost use Rattle.ixp_machine_steps.specs.States.{ValidState};

use crate::changes::{Change, edit_of};
use crate::details::put_decision;
use ixp_machine::decide;
use ixp_machine_edits::Edit;
use ixp_machine_steps::{Entry, State, first_state};
use ixp_num::{Family, Items, Prefix};
use ixp_num_tables::{put, put_number};
use ixp_rows::{DumpFault, Registry, read_any_dump};
use std::alloc::{AllocError, Global};
use std::process::Abort;

/// Member 6 has left, port 4 is free, port 5 has no interface, VLAN 3 has a router alone and VLAN 4 nothing.
pub const LINES: &str = "site 1 0 DEMO
member 1 65001 connected - A
member 2 65002 connected - B
member 3 4200000001 suspended - C
member 4 65003 noted - D
member 6 65006 left - F
contact 1 1 - - Ann
key 1 staff 1 staff00000000001
key 2 member 2 memberb000000002
switch 1 sw1
switch 2 sw2
switch 3 sw3
port 1 1 10000 1 p1
port 2 1 10000 2 p2
port 3 1 10000 3 p3
port 4 1 10000 0 p4
port 5 2 10000 2 p5
port 6 2 10000 6 p6
vlan 1 100 10.1.0.0/24 2001:db8:1::/64 lan
vlan 2 200 10.2.0.0/24 - two
vlan 3 300 10.3.0.0/24 - three
vlan 4 400 - - four
interface 1 1 1 1
interface 2 2 2 1
interface 3 3 3 2
address 1 10.1.0.1 0 1 1 0 -
address 2 10.1.0.2 0 1 1 0 -
router rs1 1 4 10.1.0.254 65500 10.1.0.254 8 24 1 - 0
router rs2 1 4 10.1.0.253 65500 10.1.0.253 8 24 1 10.1.0.66 0
router rs3 3 4 10.3.0.254 65500 10.3.0.254 8 24 0 - 0
prefix 1 203.0.113.0/24
origin 1 4 65001
rule 1 1 advertise 65002 * stop
bogon 10.0.0.0/8{8,32}
bogon-as 0 0
transit 64800
roa 203.0.113.0/24 24 65001
";

pub const STAFF: &str = "staff00000000001";

/// The dump of these lines.
fn dump_of(alloc: Global, lines: &[u8]) -> Result<Vec<u8>, AllocError> {
    let mut text = Vec::from_slice(alloc, b"ixp-registry 2\n")?;
    put(&mut text, lines)?;
    put(&mut text, b"end ")?;
    let count = lines.iter().filter(|b| **b == b'\n').count();
    put_number(&mut text, count as u64)?;
    put(&mut text, b"\n")?;
    Ok(text)
}

/// What is done with the first state of a registry.
pub trait Plays {
    /// Adds what is told of it.
    fn play(&self, state: &mut State, out: &mut Vec<u8>) -> Result<(), AllocError>
        requires { ValidState state.old };
}

fn put_fault(fault: DumpFault, out: &mut Vec<u8>) -> Result<(), AllocError> {
    match fault {
        DumpFault::NoMemory => put(out, b"memory"),
        DumpFault::Invalid { rule, line } => {
            put(out, b"Q")?;
            put_number(out, u64::from(rule))?;
            put(out, b" ")?;
            put_number(out, line as u64)
        }
        _ => put(out, b"no dump"),
    }
}

fn put_played<P: Plays>(registry: Registry, plays: &P, out: &mut Vec<u8>) -> Result<(), AllocError>
    requires { Valid registry }
{
    let mut state = first_state(*out.allocator(), registry);
    plays.play(&mut state, out)
}

fn put_told<P: Plays>(
    alloc: Global,
    dump: &[u8],
    plays: &P,
    out: &mut Vec<u8>,
) -> Result<(), AllocError> {
    match read_any_dump(alloc, dump) {
        Ok(registry) => put_played(registry, plays, out),
        Err(fault) => put_fault(fault, out),
    }
}

/// What is told of the registry of these lines.
pub fn told<P: Plays>(alloc: Global, lines: &[u8], plays: &P) -> Result<Vec<u8>, AllocError> {
    let dump = dump_of(alloc, lines)?;
    let mut out = Vec::new(alloc);
    put_told(alloc, dump.as_slice(), plays, &mut out)?;
    Ok(out)
}

fn has_family(edit: &Edit) -> bool
    ensures { result ≡ has_family edit.now }
{
    match edit {
        Edit::PutIrr {
            family,
            prefixes,
            ..
        } => are_of(prefixes.as_slice(), *family),
        _ => true,
    }
}

fn are_of(prefixes: &[Prefix], family: Family) -> bool
    ensures { result ≡ list_all (λ p. same_family p.family family) prefixes.now }
{
    let mut left = prefixes;
    'each: while let Some((prefix, others)) = left.split_first() {
        if prefix.family != family {
            return false;
        }
        left = others;
    }
    true
}

fn has_few_rules(edit: &Edit) -> bool
    ensures { result ≡ has_few_rules edit.now }
{
    match edit {
        Edit::SetRules { rules, .. } => (rules.len() as u64) < 4294967295,
        _ => true,
    }
}

/// The request of who has the secret; none where memory runs out or there is no such request.
pub fn entry_of(alloc: Global, secret: &str, number: u64, change: Change) -> Option<Entry> {
    let edit = edit_of(alloc, change)?;
    let secret = Items::from_slice(alloc, secret.as_bytes()).ok()?;
    if number == 0 || number >= 10_000_000_000_000_000 {
        return None;
    }
    if !has_family(&edit) || !has_few_rules(&edit) {
        return None;
    }
    Some(Entry {
        secret,
        number,
        edit,
    })
}

/// Asks what is decided of the staff's request.
#[derive(Clone, Copy)]
pub struct Decided(pub Change);

impl Plays for Decided {
    fn play(&self, state: &mut State, out: &mut Vec<u8>) -> Result<(), AllocError> {
        let alloc = *out.allocator();
        let Some(entry) = entry_of(alloc, STAFF, 1, self.0) else {
            return put(out, b"no request");
        };
        let decision = decide(alloc, state, &entry)?;
        put_decision(&decision, out)
    }
}

/// What is told is what is wanted.
pub fn is_wanted(rt: &impl Abort, have: Result<Vec<u8>, AllocError>, want: &[u8], case: &str) {
    match have {
        Ok(text) => {
            let shown = str::from_utf8(text.as_slice()).unwrap_or("no text");
            assert!(rt; text.as_slice() == want, "{case}: {shown}")
        }
        Err(_) => assert!(rt; false, "memory"),
    }
}
