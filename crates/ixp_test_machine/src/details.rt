//! What is decided of a request, as a text: `ok`, `again` and the number, or the code of the refusal and what
//! it carries, if it is one that is told here.
use ixp_machine::Decision;
use ixp_num_tables::{put, put_number};
use ixp_registry::{Refusal, RowKey};
use std::alloc::AllocError;

fn put_count(count: u64, out: &mut Vec<u8>) -> Result<(), AllocError> {
    put(out, b" ")?;
    put_number(out, count)
}

fn put_word(word: &str, out: &mut Vec<u8>) -> Result<(), AllocError> {
    put(out, b" ")?;
    put(out, word.as_bytes())
}

fn put_refusal(refusal: &Refusal, out: &mut Vec<u8>) -> Result<(), AllocError> {
    put(out, refusal.code().as_bytes())?;
    match refusal {
        Refusal::KeyOld { floor } => put_count(*floor, out),
        Refusal::BadRule { place } => put_count(u64::from(*place), out),
        Refusal::Unknown {
            table,
            key: RowKey::Number(number),
        } => {
            put_word(table.word(), out)?;
            put_count(u64::from(*number), out)
        }
        Refusal::TooMany { table, have, limit } => {
            put_word(table.word(), out)?;
            put_count(*have, out)?;
            put_count(*limit, out)
        }
        _ => Ok(()),
    }
}

pub fn put_decision(decision: &Decision, out: &mut Vec<u8>) -> Result<(), AllocError> {
    match decision {
        Decision::Accepted(_) => put(out, b"ok"),
        Decision::Repeated(reply) => {
            put(out, b"again")?;
            put_count(reply.number, out)
        }
        Decision::Refused(refusal) => put_refusal(refusal, out),
    }
}
