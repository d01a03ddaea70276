//! The fields of a route text.
ghost use Rattle.std.specs.Prelude.{◌≡◌, ◌==◌, position, take};
ghost use Rattle.std.specs.List.{list_any};
ghost use Rattle.ixp_num.specs.Reading.{number_at};
ghost use Rattle.ixp_lang.specs.RouteReading.{
  Tells,
  before_blank,
  from_blank,
  after_blank,
  is_above,
  first_above,
  bits_in,
  halt_place,
  stop_at,
  in_path,
  path_at,
  route_end,
  FromHop,
  FromPath,
  ReadsRoute,
};

use crate::Route;
use crate::reading::fault::Stop;
use crate::reading::lists::list_of;
use crate::reading::numbers::{Asns, Pairs, Triples};
use ixp_num::{Addr, Asn, Items, NumFault, Prefix, mark_of, number_of, read_addr, read_prefix};
use std::alloc::Global;

/// Where the first blank stands.
fn first_blank(t: &[u8]) -> Option<usize>
    ensures { result ≡ position (λ b. b == 32) t.now }
{
    t.iter().position(|b| *b == b' ')
}

/// The bytes before the first blank, and those from it on.
fn at_blank(t: &[u8]) -> (&[u8], &[u8])
    ensures field { result.0.now ≡ before_blank t.now }
    ensures rest { result.1.now ≡ from_blank t.now }
{
    t.split_at(first_blank(t).unwrap_or(t.len()))
}

/// Whether the number at the front, behind the byte `before`, is above its bound, whatever follows it. One
/// beside a dot is a part of an IPv4 address and at most 255; one behind a slash is a length, and at most
/// `bits`.
fn is_above(bits: u8, before: u8, text: &[u8]) -> bool
    ensures { result ≡ is_above bits before (number_at text.now) }
{
    let Ok((number, rest)) = number_of(text) else {
        return false;
    };
    let beside_dot = before == b'.' || matches!(rest, [b'.', ..]);
    (beside_dot && 255 < number) || (before == b'/' && u64::from(bits) < number)
}

/// Where the first such number begins.
fn first_above(bits: u8, front: &[u8]) -> Option<usize>
    ensures { result ≡ first_above bits 32 0 front.now }
{
    let mut before = b' ';
    let mut place = 0;
    let mut left = front;
    'bytes: while let [byte, rest @ ..] = left {
        if !before.is_ascii_digit() && is_above(bits, before, left) {
            return Some(place);
        }
        before = *byte;
        place += 1;
        left = rest;
    }
    None
}

fn has_colon(front: &[u8]) -> bool
    ensures { result ≡ list_any (λ b. b == 58) front.now }
{
    front.iter().any(|b| *b == b':')
}

/// The bits of an address, by whether a colon stands in it.
fn bits_in(front: &[u8]) -> u8
    ensures { result ≡ bits_in front.now }
{
    if has_colon(front) { 128 } else { 32 }
}

/// The first fault of an address, with which the text begins and which no address goes on at this place: a
/// number above its bound before it, or the place.
fn halt_place(t: &[u8], at: usize) -> usize
    ensures { result ≡ halt_place (take at t.now) at }
{
    let front = if at <= t.len() { &t[..at] } else { t };
    first_above(bits_in(front), front).unwrap_or(at)
}

/// How many bytes are left at the fault of a field, of which the text begins.
fn left_at(t: &[u8], fault: NumFault) -> Stop
    ensures { result ≡ stop_at t.now fault }
{
    match fault {
        NumFault::Text { at } => Stop::Text(t.len().saturating_sub(halt_place(t, at))),
        NumFault::Range { at } => Stop::Text(t.len().saturating_sub(at)),
        NumFault::HostBits => Stop::Text(t.len()),
    }
}

/// What follows a blank.
fn after_blank(t: &[u8]) -> Result<&[u8], Stop>
    ensures { Tells (λ x. x.now) result (after_blank t.now) }
{
    match mark_of(b' ', t) {
        Ok(rest) => Ok(rest),
        Err(left) => Err(Stop::Text(left)),
    }
}

/// The stop in a path, which is told as a set where a brace stands there.
fn in_path(t: &[u8], stop: Stop) -> Stop
    ensures { result ≡ in_path t.now stop }
{
    match stop {
        Stop::Text(left) if t.get(t.len().saturating_sub(left)) == Some(&b'{') => Stop::Set(left),
        other => other,
    }
}

fn path_of(alloc: Global, t: &[u8]) -> Result<(Items<Asn>, &[u8]), Stop>
    ensures { Tells (λ x. (x.0, x.1.now)) result (path_at t.now) }
{
    match list_of::<Asns>(alloc, t) {
        Ok((path, rest)) => match after_blank(rest) {
            Ok(rest) => Ok((path, rest)),
            Err(stop) => Err(in_path(t, stop)),
        },
        Err(stop) => Err(in_path(t, stop)),
    }
}

fn route_with(
    alloc: Global,
    net: Prefix,
    path: Items<Asn>,
    next_hop: Addr,
    t: &[u8],
) -> Result<Route, Stop>
    ensures { Tells (λ r. r) result (route_end net path next_hop t.now) }
{
    let rest = after_blank(t)?;
    let (pairs, rest) = list_of::<Pairs>(alloc, rest)?;
    let rest = after_blank(rest)?;
    let (triples, rest) = list_of::<Triples>(alloc, rest)?;
    if !rest.is_empty() {
        return Err(Stop::Text(rest.len()));
    }
    Ok(Route {
        net,
        path,
        next_hop,
        pairs,
        triples,
    })
}

fn from_next_hop(alloc: Global, net: Prefix, path: Items<Asn>, t: &[u8]) -> Result<Route, Stop>
    ensures { FromHop net path t.now result }
{
    let (field, rest) = at_blank(t);
    match read_addr(field) {
        Ok(next_hop) => route_with(alloc, net, path, next_hop, rest),
        Err(fault) => Err(left_at(t, fault)),
    }
}

fn from_path(alloc: Global, net: Prefix, t: &[u8]) -> Result<Route, Stop>
    ensures { FromPath net t.now result }
{
    let rest = after_blank(t)?;
    let (path, rest) = path_of(alloc, rest)?;
    from_next_hop(alloc, net, path, rest)
}

/// The route that a text spells, or where reading stops.
pub(crate) fn route_of(alloc: Global, t: &[u8]) -> Result<Route, Stop>
    ensures { ReadsRoute t.now result }
{
    let (field, rest) = at_blank(t);
    match read_prefix(field) {
        Ok(net) => from_path(alloc, net, rest),
        Err(fault) => Err(left_at(t, fault)),
    }
}
