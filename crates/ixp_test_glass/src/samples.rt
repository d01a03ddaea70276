//! An exchange, and the texts of its sessions.
ghost use Rattle.ixp_registry.specs.Valid.{Valid};

use ixp_compile_text::part;
use ixp_num::Name;
use ixp_num_tables::{put, put_number};
use ixp_rows::{Registry, read_dump};
use std::alloc::{AllocError, Global};

/// Two members and the router rs1.
const LINES: &str = "site 1 0 DEMO
member 1 65001 connected - A
member 2 65002 connected - B
switch 1 sw1
port 1 1 10000 1 p1
port 2 1 10000 2 p2
vlan 1 100 10.1.0.0/24 2001:db8:1::/64 lan
interface 1 1 1 1
interface 2 2 2 1
address 1 10.1.0.1 0 1 1 0 -
address 2 10.1.0.2 0 1 1 0 -
router rs1 1 4 10.1.0.254 65500 10.1.0.254 8 24 1 - 0
prefix 1 203.0.113.0/24
";

/// The origins of the first member.
pub const ORIGINS: &str = "origin 1 4 65001\n";

fn dump_of(alloc: Global, origins: &str) -> Result<Vec<u8>, AllocError> {
    let mut lines = Vec::from_slice(alloc, LINES.as_bytes())?;
    put(&mut lines, origins.as_bytes())?;
    let count = lines.as_slice().iter().filter(|b| **b == b'\n').count();
    let mut text = Vec::from_slice(alloc, b"ixp-registry 2\n")?;
    put(&mut text, lines.as_slice())?;
    put(&mut text, b"end ")?;
    put_number(&mut text, count as u64)?;
    put(&mut text, b"\n")?;
    Ok(text)
}

#[tactic(auto, using(ixp_compile_text::proofs::Bounds::high_fits))]
fn text_by(alloc: Global, registry: &Registry, interface: u32) -> Option<Vec<u8>>
    requires { Valid registry.now }
{
    let router = Name::new(alloc, b"rs1").ok()?;
    part(alloc, registry, &router, interface).ok()
}

// This is the one function that holds a registry: each costs the proofs much.
fn text_of(alloc: Global, dump: &[u8], interface: u32) -> Option<Vec<u8>> {
    match read_dump(alloc, dump) {
        Ok(registry) => text_by(alloc, &registry, interface),
        Err(_) => None,
    }
}

/// The text of rs1's session at the interface, where the first member has these origins.
pub fn own_text(alloc: Global, origins: &str, interface: u32) -> Option<Vec<u8>> {
    let dump = dump_of(alloc, origins).ok()?;
    text_of(alloc, dump.as_slice(), interface)
}
