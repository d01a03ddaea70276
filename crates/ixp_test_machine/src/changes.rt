//! Edits as constants.
use crate::lists::{Listed, many, many_prefixes, origins_of, prefixes_of, public_of, rules_of};
use ixp_machine_edits::{Edit, RouterSettings};
use ixp_num::{Addr, Asn, Family, Items, Name, Prefix, read_addr, read_prefix};
use ixp_registry::{Action, IfAddr, Status, Way};
use std::alloc::Global;

/// Way, peer, prefix or `*`, and action.
pub type Rule = (Way, Option<u32>, &'static str, Action);

/// AS number, low and high bound, blackhole address or `-`, and the most communities.
pub type Settings = (u32, u32, u32, &'static str, u32);

/// An edit, its fields in their order. Lists are texts with an item a line.
#[derive(Clone, Copy)]
pub enum Change {
    AddMember(u32, u32, &'static str),
    RenameMember(u32, &'static str),
    MoveStatus(u32, Status),
    AddInterface(u32, u32, u32, u32),
    SetAddress(u32, Family, &'static str, &'static str),
    DropInterface(u32),
    AddRouter(&'static str, u32, Family, &'static str, Settings),
    SetRouter(&'static str, Settings),
    DropRouter(&'static str),
    PutIrr(u32, Family, &'static str),
    PutOrigins(u32, Family, &'static str),
    SetRules(u32, Option<Rule>, Option<Rule>),
    PutPublic(Listed, &'static str),
    /// A list of so many items, of member 1 where it is a member's.
    Many(Listed, u32),
    /// So many IPv4 prefixes of a member.
    ManyPrefixes(u32, u32),
}

fn text(alloc: Global, t: &str) -> Option<Items<u8>> {
    Items::from_slice(alloc, t.as_bytes()).ok()
}

fn name_of(alloc: Global, t: &str) -> Option<Name> {
    if t == "rs1" {
        return Name::new(alloc, b"rs1").ok();
    }
    if t == "rs3" {
        return Name::new(alloc, b"rs3").ok();
    }
    Name::new(alloc, b"rs9").ok()
}

pub fn prefix_of(t: &str) -> Option<Prefix> {
    read_prefix(t.as_bytes()).ok()
}

fn addr_of(t: &str) -> Option<Addr> {
    read_addr(t.as_bytes()).ok()
}

fn settings_of(settings: Settings) -> RouterSettings {
    let (asn, low, high, blackhole, max_comms) = settings;
    RouterSettings {
        asn: Asn(asn),
        id: 1,
        low,
        high,
        rpki: true,
        blackhole: addr_of(blackhole),
        max_comms,
    }
}

fn add_member(alloc: Global, number: u32, asn: u32, name: &str) -> Option<Edit> {
    let name = text(alloc, name)?;
    let asn = Asn(asn);
    Some(Edit::AddMember { number, asn, name })
}

fn set_address(
    alloc: Global,
    interface: u32,
    family: Family,
    addr: &str,
    secret: &str,
) -> Option<Edit> {
    let addr = addr_of(addr)?;
    let secret = text(alloc, secret)?;
    let address = IfAddr {
        addr,
        max_prefix: 0,
        rs: true,
        irr: true,
        more: false,
        secret,
    };
    Some(Edit::SetAddress {
        interface,
        family,
        address,
    })
}

fn add_router(
    alloc: Global,
    handle: &str,
    vlan: u32,
    family: Family,
    addr: &str,
    settings: Settings,
) -> Option<Edit> {
    let address = addr_of(addr)?;
    let handle = text(alloc, handle)?;
    Some(Edit::AddRouter {
        handle,
        vlan,
        family,
        address,
        settings: settings_of(settings),
    })
}

/// Of members.
fn of_members(alloc: Global, change: Change) -> Option<Edit> {
    match change {
        Change::AddMember(number, asn, name) => add_member(alloc, number, asn, name),
        Change::RenameMember(member, name) => Some(Edit::RenameMember {
            member,
            name: text(alloc, name)?,
        }),
        Change::MoveStatus(member, to) => Some(Edit::MoveStatus { member, to }),
        _ => None,
    }
}

/// Of interfaces and routers.
fn of_network(alloc: Global, change: Change) -> Option<Edit> {
    match change {
        Change::AddInterface(number, member, port, vlan) => Some(Edit::AddInterface {
            number,
            member,
            port,
            vlan,
        }),
        Change::SetAddress(interface, family, addr, secret) => {
            set_address(alloc, interface, family, addr, secret)
        }
        Change::DropInterface(interface) => Some(Edit::DropInterface { interface }),
        Change::AddRouter(handle, vlan, family, addr, settings) => {
            add_router(alloc, handle, vlan, family, addr, settings)
        }
        Change::SetRouter(handle, settings) => Some(Edit::SetRouter {
            handle: name_of(alloc, handle)?,
            settings: settings_of(settings),
        }),
        Change::DropRouter(handle) => Some(Edit::DropRouter {
            handle: name_of(alloc, handle)?,
        }),
        _ => None,
    }
}

/// Of lists and rules.
fn of_lists(alloc: Global, change: Change) -> Option<Edit> {
    match change {
        Change::PutIrr(member, family, lines) => Some(Edit::PutIrr {
            member,
            family,
            prefixes: prefixes_of(alloc, family, lines)?,
        }),
        Change::PutOrigins(member, family, lines) => Some(Edit::PutOrigins {
            member,
            family,
            asns: origins_of(alloc, lines)?,
        }),
        Change::SetRules(member, one, other) => Some(Edit::SetRules {
            member,
            rules: rules_of(alloc, one, other)?,
        }),
        Change::PutPublic(listed, lines) => Some(Edit::PutPublic {
            list: public_of(alloc, listed, lines)?,
        }),
        Change::Many(listed, count) => many(alloc, listed, count),
        Change::ManyPrefixes(member, count) => many_prefixes(alloc, member, count),
        _ => None,
    }
}

/// The edit that the change is; none where memory runs out, or where a text of it can't be read.
pub fn edit_of(alloc: Global, change: Change) -> Option<Edit> {
    if let Some(edit) = of_members(alloc, change) {
        return Some(edit);
    }
    if let Some(edit) = of_network(alloc, change) {
        return Some(edit);
    }
    of_lists(alloc, change)
}
