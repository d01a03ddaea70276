//! What becomes of a route, as it is asked in a body.
ghost use Rattle.std.specs.Prelude.{◌≡◌, Option, option_map};
ghost use Rattle.serde_json.specs.Data.{Data};
ghost use Rattle.serde_json.specs.Find.{as_array};
ghost use Rattle.serde_json.specs.View.{view, items_view};
ghost use Rattle.ixp_lang.specs.RouteReading as text;
ghost use Rattle.ixp_num.specs.Reading.{Gives as Tells};
ghost use Rattle.ixp_api_bodies.specs.Answers.{Gives};
ghost use Rattle.ixp_api_bodies.specs.Asked as spec;
ghost use Rattle.ixp_api_bodies.specs.Values as values;

use crate::json::object_of;
use crate::texts::{address_in, prefix_in};
use crate::values::{fault_at, must, number_at};
use ixp_api_json::{CallFault, Field, Pointer};
use ixp_lang::Route;
use ixp_num::{Addr, Asn, Items, Prefix, mark_of, number_of};
use serde_json::Value;
use std::alloc::Global;

/// The most items of a route's list, and the most peers.
const MOST: usize = 1000;

const MOST_PEERS: usize = 64;

/// A route, and the peers that it may be sent to.
#[derive(Debug, Drop)]
pub struct RouteAsked {
    pub route: Route,
    pub peers: Items<Asn>,
}

/// One kind of items of lists.
trait Listed {
    type Item: Drop;

    /// The item that a value is.
    ghost item_at: { Data → Option Self.Item };

    /// The item that a value is.
    fn read(value: &Value) -> Option<Self::Item>
        ensures { result ≡ item_at (view value.now) };
}

/// The number at the front, of at most `bound`, and what is behind it.
fn number_within(bound: u32, t: &[u8]) -> Result<(u32, &[u8]), usize>
    ensures { Tells (λ x. (x.0, x.1.now)) result (text.number bound t.now) }
{
    let (number, rest) = number_of(t)?;
    if number > u64::from(bound) {
        return Err(t.len());
    }
    Ok((number as u32, rest))
}

fn read_pair(t: &[u8]) -> Result<((u32, u32), &[u8]), usize>
    ensures { Tells (λ x. (x.0, x.1.now)) result (text.pair_item t.now) }
{
    let (first, rest) = number_within(65535, t)?;
    let rest = mark_of(b':', rest)?;
    let (second, rest) = number_within(65535, rest)?;
    Ok(((first, second), rest))
}

fn read_triple(t: &[u8]) -> Result<((u32, u32, u32), &[u8]), usize>
    ensures { Tells (λ x. (x.0, x.1.now)) result (text.triple_item t.now) }
{
    let (first, rest) = number_within(u32::MAX, t)?;
    let rest = mark_of(b':', rest)?;
    let (second, rest) = number_within(u32::MAX, rest)?;
    let rest = mark_of(b':', rest)?;
    let (third, rest) = number_within(u32::MAX, rest)?;
    Ok(((first, second, third), rest))
}

fn pair_of(t: &[u8]) -> Option<(u32, u32)>
    ensures { result ≡ spec.whole (text.pair_item t.now) }
{
    match read_pair(t) {
        Ok((pair, [])) => Some(pair),
        _ => None,
    }
}

fn triple_of(t: &[u8]) -> Option<(u32, u32, u32)>
    ensures { result ≡ spec.whole (text.triple_item t.now) }
{
    match read_triple(t) {
        Ok((triple, [])) => Some(triple),
        _ => None,
    }
}

/// AS numbers.
struct Asns;

impl Listed for Asns {
    type Item = Asn;

    ghost item_at = { spec.asn_at };

    fn read(value: &Value) -> Option<Asn> {
        match number_at(value) {
            Some(number) => Some(Asn(number)),
            None => None,
        }
    }
}

/// Communities (RFC 1997).
struct Pairs;

impl Listed for Pairs {
    type Item = (u32, u32);

    ghost item_at = { spec.pair_at };

    fn read(value: &Value) -> Option<(u32, u32)> {
        match value.as_str() {
            Some(text) => pair_of(text.as_bytes()),
            None => None,
        }
    }
}

/// Large communities (RFC 8092).
struct Triples;

impl Listed for Triples {
    type Item = (u32, u32, u32);

    ghost item_at = { spec.triple_at };

    fn read(value: &Value) -> Option<(u32, u32, u32)> {
        match value.as_str() {
            Some(text) => triple_of(text.as_bytes()),
            None => None,
        }
    }
}

// The items of a list.
fn items_of<L: Listed>(
    alloc: Global,
    field: Field,
    values: &[Value],
) -> Result<Items<L::Item>, CallFault>
    ensures { Gives (λ r. r ≡ spec.items_from L.item_at field 0 (items_view values.now)) result }
{
    let mut items = Items::new(alloc);
    for (place, value) in values.iter().enumerate() {
        match L::read(value) {
            Some(item) => match items.push(item) {
                Ok(()) => {}
                Err(_) => return Err(CallFault::NoMemory),
            },
            None => {
                return Err(CallFault::BadBody {
                    pointer: Pointer::Item(field, place as u64),
                });
            }
        }
    }
    Ok(items)
}

// The items of a list of at most so many.
fn list_upto<L: Listed>(
    alloc: Global,
    most: usize,
    field: Field,
    values: &[Value],
) -> Result<Items<L::Item>, CallFault>
    ensures { Gives (λ r. r ≡ spec.list_upto L.item_at most field (items_view values.now)) result }
{
    if values.len() > most {
        return Err(fault_at(field));
    }
    items_of::<L>(alloc, field, values)
}

// A list of at most so many items.
fn list_by<L: Listed>(
    alloc: Global,
    most: usize,
    field: Field,
    value: &Value,
) -> Result<Items<L::Item>, CallFault>
    ensures { Gives (λ r. r ≡ spec.list_by L.item_at most field (as_array (view value.now))) result }
{
    match value.as_array() {
        Some(values) => list_upto::<L>(alloc, most, field, values.as_slice()),
        None => Err(fault_at(field)),
    }
}

fn list_in<L: Listed>(
    alloc: Global,
    field: Field,
    body: &Value,
) -> Result<Items<L::Item>, CallFault>
    ensures { Gives (λ r. r ≡ spec.list_in L.item_at 1000 field (view body.now)) result }
{
    match body.get(field.word()) {
        Some(value) => list_by::<L>(alloc, MOST, field, value),
        None => Err(fault_at(field)),
    }
}

fn peers_in(alloc: Global, body: &Value) -> Result<Items<Asn>, CallFault>
    ensures { Gives (λ r. r ≡ spec.peers_by (values.field Field.Peers (view body.now))) result }
{
    match body.get(Field::Peers.word()) {
        Some(value) => list_by::<Asns>(alloc, MOST_PEERS, Field::Peers, value),
        None => Ok(Items::new(alloc)),
    }
}

// The address, where it is of the net's family.
fn of_family(net: Prefix, hop: Option<Addr>) -> Option<Addr>
    ensures { result ≡ spec.of_family net hop }
{
    match hop {
        Some(addr) if net.family == addr.family => Some(addr),
        _ => None,
    }
}

fn asked_with(
    alloc: Global,
    net: Option<Prefix>,
    hop: Option<Addr>,
    body: &Value,
) -> Result<RouteAsked, CallFault>
    ensures { Gives (λ r. r ≡ spec.asked net hop (view body.now)) result }
{
    let net = must(Pointer::At(Field::Net), net)?;
    let path = list_in::<Asns>(alloc, Field::Path, body)?;
    let next_hop = must(Pointer::At(Field::NextHop), of_family(net, hop))?;
    let pairs = list_in::<Pairs>(alloc, Field::Pairs, body)?;
    let triples = list_in::<Triples>(alloc, Field::Triples, body)?;
    let peers = peers_in(alloc, body)?;
    Ok(RouteAsked {
        route: Route {
            net,
            path,
            next_hop,
            pairs,
            triples,
        },
        peers,
    })
}

/// The route that a body asks about.
pub fn route_asked(alloc: Global, body: &[u8]) -> Result<RouteAsked, CallFault>
    ensures { Gives (spec.SaysRoute body.now) result }
{
    let value = object_of(alloc, body)?;
    let net = prefix_in(&value, Field::Net);
    let hop = address_in(&value, Field::NextHop);
    asked_with(alloc, net, hop, &value)
}
