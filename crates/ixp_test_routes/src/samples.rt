//! The registry of a small exchange.
use ixp_num_tables::{put, put_number};
use ixp_rows::{Registry, read_dump};
use std::alloc::{AllocError, Global};

/// The rows of an exchange with four members and the router rs1, as the lines of a dump between its head and
/// its end. The interface 5, of the first member, has no session.
const LINES: &str = "site 1 0 DEMO
member 1 65001 connected - A
member 2 65002 connected - B
member 3 4200000001 connected - C
member 4 65003 connected - D
switch 1 sw1
port 1 1 10000 1 p1
port 2 1 10000 2 p2
port 3 1 10000 3 p3
port 4 1 10000 4 p4
vlan 1 100 10.1.0.0/24 2001:db8:1::/64 lan
interface 1 1 1 1
interface 2 2 2 1
interface 3 3 3 1
interface 4 4 4 1
interface 5 1 1 1
address 1 10.1.0.1 0 1 1 0 -
address 2 10.1.0.2 0 1 1 0 -
address 3 10.1.0.3 0 1 1 0 -
address 4 10.1.0.4 0 1 1 0 -
address 5 10.1.0.9 0 0 1 0 -
router rs1 1 4 10.1.0.254 65500 10.1.0.254 8 24 1 - 0
prefix 1 203.0.113.0/24
origin 1 4 65001
bogon 10.0.0.0/8{8,32}
bogon-as 0 0
bogon-as 23456 23456
transit 64800
";

fn dump_of(alloc: Global, lines: &[u8]) -> Result<Vec<u8>, AllocError> {
    let mut text = Vec::from_slice(alloc, b"ixp-registry 2\n")?;
    put(&mut text, lines)?;
    put(&mut text, b"end ")?;
    let count = lines.iter().filter(|b| **b == b'\n').count();
    put_number(&mut text, count as u64)?;
    put(&mut text, b"\n")?;
    Ok(text)
}

/// The text that was told, if any.
pub fn shown(told: &Option<Vec<u8>>) -> &[u8] {
    match told {
        Some(text) => text.as_slice(),
        None => b"nothing",
    }
}

/// What is asked of a registry.
pub trait Asks {
    /// Adds what is told of it.
    fn put(&self, alloc: Global, registry: &Registry, out: &mut Vec<u8>) -> Result<(), AllocError>;
}

/// Adds what is told of the registry whose dump the text is. This is the one function that holds a registry:
/// each costs the proofs much.
fn put_told<A: Asks>(
    alloc: Global,
    dump: &[u8],
    asks: &A,
    out: &mut Vec<u8>,
) -> Result<(), AllocError> {
    match read_dump(alloc, dump) {
        Ok(registry) => asks.put(alloc, &registry, out),
        Err(_) => put(out, b"no registry"),
    }
}

/// What is told of the registry of the exchange.
pub fn told<A: Asks>(alloc: Global, asks: &A) -> Result<Vec<u8>, AllocError> {
    let dump = dump_of(alloc, LINES.as_bytes())?;
    let mut out = Vec::new(alloc);
    put_told(alloc, dump.as_slice(), asks, &mut out)?;
    Ok(out)
}
