//! The texts of routes and fates.
ghost use Rattle.std.specs.Prelude.{◌≡◌, ◌++◌, OnOk, OnErr};
ghost use Rattle.std.specs.Option.{option_map};
ghost use Rattle.ixp_lang.specs.Texts.{
  list_text,
  asn_text,
  pair_text,
  triple_text,
  attributes_text,
  route_text,
  reason_of,
  stopped_text,
  known_reason,
  received_text,
  sent_text,
  all_sent_text,
  outcome_text,
  fate_text,
};

use crate::communities::REFUSED;
use crate::{Fate, Route};
use ixp_num::{Asn, Name, print_addr, print_prefix};
use ixp_num_tables::{Writes, put, put_joined, put_number, put_whole};
use std::alloc::AllocError;

struct AsnText;

impl Writes for AsnText {
    type Item = Asn;

    ghost text_of = { asn_text };

    fn write(item: &Asn, out: &mut Vec<u8>) -> Result<(), AllocError> {
        put_number(out, u64::from(item.0))
    }
}

struct PairText;

impl Writes for PairText {
    type Item = (u32, u32);

    ghost text_of = { pair_text };

    fn write(item: &(u32, u32), out: &mut Vec<u8>) -> Result<(), AllocError> {
        put_number(out, u64::from(item.0))?;
        put(out, b":")?;
        put_number(out, u64::from(item.1))
    }
}

struct TripleText;

impl Writes for TripleText {
    type Item = (u32, u32, u32);

    ghost text_of = { triple_text };

    fn write(item: &(u32, u32, u32), out: &mut Vec<u8>) -> Result<(), AllocError> {
        put_number(out, u64::from(item.0))?;
        put(out, b":")?;
        put_number(out, u64::from(item.1))?;
        put(out, b":")?;
        put_number(out, u64::from(item.2))
    }
}

/// A list with commas, or `-`.
fn put_list<W: Writes>(out: &mut Vec<u8>, items: &[W::Item]) -> Result<(), AllocError>
    ensures { OnOk result (out.new.items ≡ out.old.items ++ list_text W.text_of items.now) }
{
    if items.is_empty() {
        return put(out, b"-");
    }
    put_joined::<W>(out, b",", items)
}

fn put_attributes(out: &mut Vec<u8>, route: &Route) -> Result<(), AllocError>
    ensures { OnOk result (out.new.items ≡ out.old.items ++ attributes_text route.now) }
{
    put_list::<AsnText>(out, route.path.as_slice())?;
    put(out, b" ")?;
    print_addr(&route.next_hop, out)?;
    put(out, b" ")?;
    put_list::<PairText>(out, route.pairs.as_slice())?;
    put(out, b" ")?;
    put_list::<TripleText>(out, route.triples.as_slice())
}

fn put_route(out: &mut Vec<u8>, route: &Route) -> Result<(), AllocError>
    ensures { OnOk result (out.new.items ≡ out.old.items ++ route_text route.now) }
{
    print_prefix(&route.net, out)?;
    put(out, b" ")?;
    put_attributes(out, route)
}

/// Adds the text of a route: net, path, next hop, communities and large communities, with single blanks; the
/// items of a list have commas between them, and an empty list is `-`.
pub fn print_route(route: &Route, out: &mut Vec<u8>) -> Result<(), AllocError>
    ensures ok { OnOk result (out.new.items ≡ out.old.items ++ route_text route.now) }
    ensures err { OnErr result (out.new.items ≡ out.old.items) }
{
    let mut text = Vec::new(*out.allocator());
    put_route(&mut text, route)?;
    put_whole(out, text)
}

/// The third part of the first large community `(asn, 1101, n)`.
fn reason_of(asn: u32, triples: &[(u32, u32, u32)]) -> Option<u32>
    ensures { result ≡ reason_of asn triples.now }
{
    'each: for triple in triples {
        if triple.0 == asn && triple.1 == REFUSED {
            return Some(triple.2);
        }
    }
    None
}

fn put_stopped(out: &mut Vec<u8>, reason: Option<u32>) -> Result<(), AllocError>
    ensures { OnOk result (out.new.items ≡ out.old.items ++ stopped_text reason) }
{
    match reason {
        None => put(out, b"stopped\n"),
        Some(number) => {
            put(out, b"stopped ")?;
            put_number(out, u64::from(number))?;
            put(out, b"\n")
        }
    }
}

fn put_received(out: &mut Vec<u8>, received: Option<&Route>) -> Result<(), AllocError>
    ensures { OnOk result
        (out.new.items ≡ out.old.items ++ received_text (option_map (λ r. r.now) received.entry)) }
{
    match received {
        None => put(out, b"no"),
        Some(route) => put_attributes(out, route),
    }
}

fn put_sent(out: &mut Vec<u8>, session: &Name, received: Option<&Route>) -> Result<(), AllocError>
    ensures { OnOk result
        (out.new.items ≡ out.old.items ++ sent_text (session.now, option_map (λ r. r.now) received.entry)) }
{
    put(out, b"to ")?;
    put(out, session.as_bytes())?;
    put(out, b" ")?;
    put_received(out, received)?;
    put(out, b"\n")
}

fn put_all_sent(out: &mut Vec<u8>, sent: &[(Name, Option<Route>)]) -> Result<(), AllocError>
    ensures { OnOk result (out.new.items ≡ out.old.items ++ all_sent_text sent.now) }
{
    'each: for (session, received) in sent {
        put_sent(out, session, received.as_ref())?;
    }
    Ok(())
}

fn reason(rs: Option<Asn>, route: &Route) -> Option<u32>
    ensures { result ≡ known_reason rs route.now }
{
    match rs {
        None => None,
        Some(asn) => reason_of(asn.0, route.triples.as_slice()),
    }
}

fn put_outcome(
    out: &mut Vec<u8>,
    rs: Option<Asn>,
    route: &Route,
    passed: bool,
    sent: &[(Name, Option<Route>)],
) -> Result<(), AllocError>
    ensures { OnOk result (out.new.items ≡ out.old.items ++ outcome_text rs route.now passed sent.now) }
{
    if !passed {
        return put_stopped(out, reason(rs, route));
    }
    put(out, b"passed\n")?;
    put_all_sent(out, sent)
}

fn put_fate(out: &mut Vec<u8>, fate: &Fate, rs: Option<Asn>) -> Result<(), AllocError>
    ensures { OnOk result (out.new.items ≡ out.old.items ++ fate_text fate.now rs) }
{
    let Some(route) = &fate.table else {
        return put(out, b"dropped\n");
    };
    put(out, b"tagged ")?;
    put_attributes(out, route)?;
    put(out, b"\n")?;
    put_outcome(out, rs, route, fate.passed, fate.sent.as_slice())
}

/// Adds the text of a fate: a line for the route in its session's own table, one for whether it passes, and
/// one for each other session. Where the number `rs` of the route server is known, a stopped route's line has
/// the reason that its tag `(rs, 1101, reason)` gives.
pub fn print_fate(fate: &Fate, rs: Option<Asn>, out: &mut Vec<u8>) -> Result<(), AllocError>
    ensures ok { OnOk result (out.new.items ≡ out.old.items ++ fate_text fate.now rs) }
    ensures err { OnErr result (out.new.items ≡ out.old.items) }
{
    let mut text = Vec::new(*out.allocator());
    put_fate(&mut text, fate, rs)?;
    put_whole(out, text)
}
