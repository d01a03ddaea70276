//! Lists of edits.
use crate::changes::{Rule, prefix_of};
use ixp_irr::{read_bogons, read_list, read_origins, read_transit_free};
use ixp_machine_edits::{Edit, NewRule};
use ixp_num::{Asn, Family, Items, Prefix, Roa};
use ixp_num_sorted::Sorted;
use ixp_registry::{Action, Way};
use ixp_registry_change::PublicList;
use std::alloc::Global;

/// A list of an edit.
#[derive(Clone, Copy)]
pub enum Listed {
    Prefixes,
    Origins,
    Bogons,
    Transit,
    Roas,
}

pub fn prefixes_of(alloc: Global, family: Family, lines: &str) -> Option<Sorted<Prefix>> {
    read_list(alloc, lines.as_bytes(), family).ok()
}

pub fn origins_of(alloc: Global, lines: &str) -> Option<Sorted<Asn>> {
    read_origins(alloc, lines.as_bytes()).ok()
}

fn rule_of(rule: Rule) -> NewRule {
    let (way, peer, prefix, action) = rule;
    NewRule {
        way,
        peer: peer.map(|asn| Asn(asn)),
        prefix: prefix_of(prefix),
        action,
    }
}

pub fn rules_of(alloc: Global, one: Option<Rule>, other: Option<Rule>) -> Option<Items<NewRule>> {
    let mut rules = Items::new(alloc);
    if let Some(rule) = one {
        rules.push(rule_of(rule)).ok()?;
    }
    if let Some(rule) = other {
        rules.push(rule_of(rule)).ok()?;
    }
    Some(rules)
}

/// ROAs of AS 65001, each a prefix and a max length after a blank.
fn roas_of(alloc: Global, lines: &str) -> Option<Sorted<Roa>> {
    let mut roas = Vec::new(alloc);
    for line in lines.lines() {
        let (prefix, max) = line.split_once(' ')?;
        let prefix = prefix_of(prefix)?;
        let max = max.parse::<u8>().ok()?;
        roas.push(Roa {
            prefix,
            max,
            asn: Asn(65001),
        })
        .ok()?;
    }
    Some(Sorted::from_items(roas))
}

pub fn public_of(alloc: Global, listed: Listed, lines: &str) -> Option<PublicList> {
    let text = lines.as_bytes();
    match listed {
        Listed::Bogons => Some(PublicList::Bogons(read_bogons(alloc, text).ok()?)),
        Listed::Transit => Some(PublicList::Transit(read_transit_free(alloc, text).ok()?)),
        Listed::Roas => Some(PublicList::Roas(roas_of(alloc, lines)?)),
        _ => None,
    }
}

/// The IPv4 host with the number.
fn host(number: u32) -> Option<Prefix> {
    Prefix::new(Family::V4, u128::from(number), 32)
}

pub fn many_prefixes(alloc: Global, member: u32, count: u32) -> Option<Edit> {
    let mut prefixes = Vec::new(alloc);
    for number in 0..count {
        prefixes.push(host(number)?).ok()?;
    }
    Some(Edit::PutIrr {
        member,
        family: Family::V4,
        prefixes: Sorted::from_items(prefixes),
    })
}

fn asns(alloc: Global, count: u32) -> Option<Sorted<Asn>> {
    let mut asns = Vec::new(alloc);
    for number in 0..count {
        asns.push(Asn(number)).ok()?;
    }
    Some(Sorted::from_items(asns))
}

fn roas(alloc: Global, count: u32) -> Option<PublicList> {
    let mut roas = Vec::new(alloc);
    for number in 0..count {
        roas.push(Roa {
            prefix: host(number)?,
            max: 32,
            asn: Asn(1),
        })
        .ok()?;
    }
    Some(PublicList::Roas(Sorted::from_items(roas)))
}

/// An edit with a list of so many items.
pub fn many(alloc: Global, listed: Listed, count: u32) -> Option<Edit> {
    match listed {
        Listed::Prefixes => many_prefixes(alloc, 1, count),
        Listed::Origins => Some(Edit::PutOrigins {
            member: 1,
            family: Family::V4,
            asns: asns(alloc, count)?,
        }),
        Listed::Roas => Some(Edit::PutPublic {
            list: roas(alloc, count)?,
        }),
        _ => None,
    }
}
