//! Registries that are read from texts, and what is told of them.
use ixp_num_tables::{put, put_number};
use ixp_rows::{DumpFault, Registry, read_dump, read_dump_1};
use ixp_rows_lines::Version;
use std::alloc::{AllocError, Global};
use std::process::Abort;

/// What is asked of a registry.
pub trait Asks {
    /// Adds what is told of it.
    fn put(&self, registry: &Registry, out: &mut Vec<u8>) -> Result<(), AllocError>;
}

fn put_numbers(code: &[u8], number: u64, out: &mut Vec<u8>) -> Result<(), AllocError> {
    put(out, code)?;
    put_number(out, number)
}

fn put_fault(fault: DumpFault, out: &mut Vec<u8>) -> Result<(), AllocError> {
    match fault {
        DumpFault::BadLine { line } => put_numbers(b"U1 ", line as u64, out),
        DumpFault::Order { line } => put_numbers(b"U2 ", line as u64, out),
        DumpFault::Twice { line } => put_numbers(b"U3 ", line as u64, out),
        DumpFault::Invalid { rule, line } => {
            put_numbers(b"Q", u64::from(rule), out)?;
            put_numbers(b" ", line as u64, out)
        }
        DumpFault::NoMemory => put(out, b"memory"),
    }
}

/// The registry whose dump of the version the text is.
fn read(alloc: Global, version: Version, dump: &[u8]) -> Result<Registry, DumpFault> {
    match version {
        Version::One => read_dump_1(alloc, dump),
        Version::Two => read_dump(alloc, dump),
    }
}

/// Adds what is told of the registry whose dump the text is, or the dump's fault. This is the one function
/// that holds a registry: each costs the proofs much.
fn put_told<A: Asks>(
    alloc: Global,
    version: Version,
    dump: &[u8],
    asks: &A,
    out: &mut Vec<u8>,
) -> Result<(), AllocError> {
    match read(alloc, version, dump) {
        Ok(registry) => asks.put(&registry, out),
        Err(fault) => put_fault(fault, out),
    }
}

/// What is told of the registry whose dump of the version the text is.
pub fn told_of<A: Asks>(
    alloc: Global,
    version: Version,
    text: &[u8],
    asks: &A,
) -> Result<Vec<u8>, AllocError> {
    let mut out = Vec::new(alloc);
    put_told(alloc, version, text, asks, &mut out)?;
    Ok(out)
}

/// What is told is what is wanted.
pub fn is_wanted(rt: &impl Abort, have: Result<Vec<u8>, AllocError>, want: &str, case: &str) {
    match have {
        Ok(text) => assert!(rt; text.as_slice() == want.as_bytes(), "{case}: {want}"),
        Err(_) => assert!(rt; false, "memory"),
    }
}
