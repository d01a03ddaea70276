//! What may be changed.
use ixp_num::{Addr, Asn, Family, Items, Name, Prefix};
use ixp_num_sorted::Sorted;
use ixp_registry::{Action, IfAddr, Owner, Status, Way};
use ixp_registry_change::PublicList;

/// A rule of a member, without its place.
#[derive(Clone, Copy, Debug)]
pub struct NewRule {
    pub way: Way,
    /// The other network, or any.
    pub peer: Option<Asn>,
    /// The nets that it is about, those that lie in this prefix, or any.
    pub prefix: Option<Prefix>,
    pub action: Action,
}

/// What may be changed of a route server.
#[derive(Clone, Copy, Debug)]
pub struct RouterSettings {
    pub asn: Asn,
    /// Its BGP identifier, an IPv4 address's number (RFC 6286).
    pub id: u32,
    /// The least length of a net that it takes.
    pub low: u32,
    /// The greatest length of a net that it takes.
    pub high: u32,
    /// Whether it tests the origin of routes (RFC 6811).
    pub rpki: bool,
    /// The next hop of routes to be dropped (RFC 7999), where it has one.
    pub blackhole: Option<Addr>,
    /// How many communities a route may have; 0 is no limit.
    pub max_comms: u32,
}

/// What is to be changed. `Add` makes a row and `Drop` deletes it; the other kinds replace a row, a field or
/// a list, and `Put` and `SetAddress` make it where it isn't there. Texts may be any bytes: whether they are
/// lawful is tested.
#[derive(Debug, Drop)]
pub enum Edit {
    AddMember {
        number: u32,
        asn: Asn,
        name: Items<u8>,
    },
    RenameMember {
        member: u32,
        name: Items<u8>,
    },
    MoveStatus {
        member: u32,
        to: Status,
    },
    SetMacro {
        member: u32,
        as_macro: Items<u8>,
    },
    PutContact {
        member: u32,
        place: u32,
        name: Items<u8>,
        mail: Items<u8>,
        role: Items<u8>,
    },
    DropContact {
        member: u32,
        place: u32,
    },
    AddKey {
        number: u32,
        secret: Items<u8>,
        owner: Owner,
    },
    DropKey {
        key: u32,
    },
    AddSwitch {
        number: u32,
        name: Items<u8>,
    },
    DropSwitch {
        switch: u32,
    },
    AddPort {
        number: u32,
        switch: u32,
        name: Items<u8>,
        speed: u32,
    },
    AssignPort {
        port: u32,
        member: u32,
    },
    /// Nobody has the port any longer.
    FreePort {
        port: u32,
    },
    DropPort {
        port: u32,
    },
    AddVlan {
        number: u32,
        name: Items<u8>,
        tag: u32,
        v4: Option<Prefix>,
        v6: Option<Prefix>,
    },
    DropVlan {
        vlan: u32,
    },
    AddInterface {
        number: u32,
        member: u32,
        port: u32,
        vlan: u32,
    },
    SetAddress {
        interface: u32,
        family: Family,
        address: IfAddr,
    },
    /// The interface's addresses go with it.
    DropInterface {
        interface: u32,
    },
    AddRouter {
        handle: Items<u8>,
        vlan: u32,
        family: Family,
        address: Addr,
        settings: RouterSettings,
    },
    SetRouter {
        handle: Name,
        settings: RouterSettings,
    },
    DropRouter {
        handle: Name,
    },
    /// A list without an item leaves none.
    PutIrr {
        member: u32,
        family: Family,
        prefixes: Sorted<Prefix>,
    },
    /// A list without an item leaves none.
    PutOrigins {
        member: u32,
        family: Family,
        asns: Sorted<Asn>,
    },
    /// Rules get the places 1, 2 and so on. No rule leaves none.
    SetRules {
        member: u32,
        rules: Items<NewRule>,
    },
    PutPublic {
        list: PublicList,
    },
}
