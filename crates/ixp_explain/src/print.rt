//! The text of what a member is told.
ghost use Rattle.std.specs.Prelude.{◌≡◌, ◌++◌, ℕ, List, OnOk, OnErr, IfOk, codes};
ghost use Rattle.ixp_lang.specs.Texts.{attributes_text};
ghost use Rattle.ixp_explain.specs.Texts.{ask_text, asks_text, own_text, times_text, verdict_text};

use crate::report::OwnReport;
use ixp_lang::{Route, print_route};
use ixp_num::{Asn, print_prefix};
use ixp_num_tables::{put, put_number, put_whole};
use std::alloc::{AllocError, Global};

fn put_times(out: &mut Vec<u8>, times: Option<u8>) -> Result<(), AllocError>
    ensures { OnOk result (out.new.items ≡ out.old.items ++ times_text times) }
{
    match times {
        Some(times) => put_number(out, u64::from(times)),
        None => put(out, b"no"),
    }
}

fn put_ask(out: &mut Vec<u8>, ask: &(Asn, Option<u8>)) -> Result<(), AllocError>
    ensures { OnOk result (out.new.items ≡ out.old.items ++ ask_text ask.now) }
{
    put(out, b"ask ")?;
    put_number(out, u64::from(ask.0.0))?;
    put(out, b" ")?;
    put_times(out, ask.1)?;
    put(out, b"\n")
}

fn put_asks(out: &mut Vec<u8>, asks: &[(Asn, Option<u8>)]) -> Result<(), AllocError>
    ensures { OnOk result (out.new.items ≡ out.old.items ++ asks_text asks.now) }
{
    'each: for ask in asks {
        put_ask(out, ask)?;
    }
    Ok(())
}

fn put_verdict(out: &mut Vec<u8>, passed: bool, number: Option<u32>) -> Result<(), AllocError>
    ensures { OnOk result (out.new.items ≡ out.old.items ++ verdict_text passed number) }
{
    if passed {
        return put(out, b"passed\n");
    }
    match number {
        Some(number) => {
            put(out, b"stopped ")?;
            put_number(out, u64::from(number))?;
            put(out, b"\n")
        }
        None => put(out, b"stopped\n"),
    }
}

// The path, the next hop and the communities of a route: its text without the net and the blank behind it.
fn attributes_of(alloc: Global, route: &Route) -> Result<Vec<u8>, AllocError>
    ensures { IfOk result (λ text. text.items ≡ attributes_text route.now) }
{
    let mut net = Vec::new(alloc);
    print_prefix(&route.net, &mut net)?;
    put(&mut net, b" ")?;
    let mut text = Vec::new(alloc);
    print_route(route, &mut text)?;
    Vec::from_slice(alloc, behind(text.as_slice(), net.as_slice()))
}

// What stands behind the front of a text.
fn behind<'a>(text: &'a [u8], front: &[u8]) -> &'a [u8]
    requires { (more : List ℕ) × (text.now ≡ front.now ++ more) }
    ensures { text.entry.now ≡ front.now ++ result.now }
{
    let (_, more) = text.split_at(front.len());
    more
}

fn put_tagged(out: &mut Vec<u8>, route: &Route) -> Result<(), AllocError>
    ensures { OnOk result
        (out.new.items ≡ out.old.items ++ (codes "tagged " ++ (attributes_text route.now ++ codes "\n"))) }
{
    let attributes = attributes_of(*out.allocator(), route)?;
    put(out, b"tagged ")?;
    put(out, attributes.as_slice())?;
    put(out, b"\n")
}

fn put_own(out: &mut Vec<u8>, report: &OwnReport) -> Result<(), AllocError>
    ensures { OnOk result (out.new.items ≡ out.old.items ++ own_text report.now) }
{
    let Some(route) = &report.tagged else {
        return put(out, b"dropped\n");
    };
    put_tagged(out, route)?;
    put_verdict(out, report.passed, report.number)?;
    put_asks(out, report.asks.as_slice())
}

/// Adds the text of what a member is told: a line for the route as the server holds it, one for whether it
/// passes, and one for each peer that was asked.
pub fn print_own(report: &OwnReport, out: &mut Vec<u8>) -> Result<(), AllocError>
    ensures ok { OnOk result (out.new.items ≡ out.old.items ++ own_text report.now) }
    ensures err { OnErr result (out.new.items ≡ out.old.items) }
{
    let mut text = Vec::new(*out.allocator());
    put_own(&mut text, report)?;
    put_whole(out, text)
}
