//! Members and their connections.
ghost use Rattle.std.specs.Prelude.{◌≡◌, ◌++◌, [], IfOk, OnOk, codes, filter};
ghost use Rattle.ixp_registry.specs.Lookups.{is_connected};
ghost use Rattle.ixp_ixf.specs.Rows.{shown};
ghost use Rattle.ixp_ixf.specs.Texts as spec;
ghost use Rattle.ixp_ixf.specs.Export as tree;

use crate::index::{Index, Owned, put_owned_member};
use crate::lists::{Shows, put_flag_member, put_name};
use ixp_api_json::{put_number_member, put_text_member};
use ixp_num::print_addr;
use ixp_num_tables::put;
use ixp_registry::{IfAddr, Interface, Member, Port, Registry, Status};
use std::alloc::{AllocError, Global};
use std::marker::Model;

#[tactic(auto, unfolding(crate::specs::Texts::text_if_any))]
fn put_text_if_any(
    out: &mut Vec<u8>,
    mark: &[u8],
    name: &[u8],
    text: &[u8],
) -> Result<(), AllocError>
    ensures { OnOk result
        (out.new.items ≡ out.old.items ++ spec.text_if_any mark.now name.now (tree.some_text text.now)) }
{
    match text.split_first() {
        Some(_) => put_text_member(out, mark, name, text),
        None => Ok(()),
    }
}

#[tactic(auto, unfolding(crate::specs::Texts::number_if_any))]
fn put_number_if_any(
    out: &mut Vec<u8>,
    mark: &[u8],
    name: &[u8],
    number: u32,
) -> Result<(), AllocError>
    ensures { OnOk result
        (out.new.items ≡ out.old.items ++ spec.number_if_any mark.now name.now (tree.some_number number)) }
{
    if number == 0 {
        Ok(())
    } else {
        put_number_member(out, mark, name, u64::from(number))
    }
}

fn put_address(out: &mut Vec<u8>, as_macro: &[u8], address: &IfAddr) -> Result<(), AllocError>
    ensures { OnOk result (out.new.items ≡ out.old.items ++ spec.address_text as_macro.now address.now) }
{
    let mut text = Vec::new(*out.allocator());
    print_addr(&address.addr, &mut text)?;
    put_text_member(out, b"{", b"address", text.as_slice())?;
    put_text_if_any(out, b",", b"as_macro", as_macro)?;
    put_number_if_any(out, b",", b"max_prefix", address.max_prefix)?;
    put_flag_member(out, b",", b"routeserver", address.rs)?;
    put(out, b"}")
}

// Adds an address that is there, and a comma.
#[tactic(auto, unfolding(crate::specs::Texts::address_member))]
fn put_address_member(
    out: &mut Vec<u8>,
    name: &[u8],
    as_macro: &[u8],
    address: &Option<IfAddr>,
) -> Result<(), AllocError>
    ensures { OnOk result
        (out.new.items ≡ out.old.items ++ spec.address_member name.now as_macro.now address.now) }
{
    match address {
        Some(address) => {
            put_name(out, b"", name)?;
            put_address(out, as_macro, address)?;
            put(out, b",")
        }
        None => Ok(()),
    }
}

/// The interfaces of a member that has an AS-SET.
#[derive(Clone, Copy)]
struct InterfaceJson<'a> {
    as_macro: &'a [u8],
}

impl<'a> Shows for InterfaceJson<'a> {
    type Item = Interface;

    ghost text_of = { λ json i. spec.interface_text json.as_macro.now i };

    fn write(&self, item: &Interface, out: &mut Vec<u8>) -> Result<(), AllocError> {
        put(out, b"{")?;
        put_address_member(out, b"ipv4", self.as_macro, &item.v4)?;
        put_address_member(out, b"ipv6", self.as_macro, &item.v6)?;
        put_number_member(out, b"", b"vlan_id", u64::from(item.vlan))?;
        put(out, b"}")
    }
}

fn put_port(out: &mut Vec<u8>, port: &Port) -> Result<(), AllocError>
    ensures { OnOk result (out.new.items ≡ out.old.items ++ spec.port_text port.now) }
{
    put_number_member(out, b"{", b"if_speed", u64::from(port.speed))?;
    put_number_member(out, b",", b"switch_id", u64::from(port.switch))?;
    put(out, b"}")
}

#[tactic(auto, unfolding(crate::specs::Texts::single_member))]
fn put_port_list(out: &mut Vec<u8>, port: &Port) -> Result<(), AllocError>
    ensures { OnOk result
        (out.new.items ≡ out.old.items
        ++ spec.single_member (codes "{") (codes "if_list") (spec.port_text port.now)) }
{
    put_name(out, b"{", b"if_list")?;
    put(out, b"[")?;
    put_port(out, port)?;
    put(out, b"]")
}

impl Owned for Port {
    ghost owner = { λ p. p.member };

    fn owner(&self) -> u32 {
        self.member
    }
}

impl Owned for Interface {
    ghost owner = { λ i. i.port };

    fn owner(&self) -> u32 {
        self.port
    }
}

/// A registry, with its ports by their members and its interfaces by their ports. Contracts see it as the
/// registry.
#[derive(Drop)]
pub(crate) struct Wiring<'a> {
    registry: &'a Registry,
    ports: Index<'a, Port>,
    interfaces: Index<'a, Interface>,
}

impl<'a> Model for Wiring<'a> {
    ghost use Rattle.std.specs.Prelude.{◌≡◌, ◌==◌, ℕ, filter};
    ghost use Rattle.ixp_registry.specs.declared.registry.Registry.{Registry};
    ghost use Rattle.ixp_ixf.specs.Rows.{rows_of};

    ghost Value = { Registry };

    ghost view = { λ w. w.registry.now };

    ghost invariant = { λ w. ((n : ℕ) → rows_of w.ports n ≡ filter (λ p. p.member == n) w.registry.now.ports)
        × ((n : ℕ) → rows_of w.interfaces n ≡ filter (λ i. i.port == n) w.registry.now.interfaces) };
}

impl<'a> Wiring<'a> {
    /// By one pass over the ports, and one over the interfaces.
    pub(crate) fn of(alloc: Global, registry: &'a Registry) -> Result<Wiring<'a>, AllocError>
        ensures { IfOk result (λ wiring. wiring ≡ registry.now) }
    {
        let ports = Index::of(alloc, registry.ports.as_slice())?;
        let interfaces = Index::of(alloc, registry.interfaces.as_slice())?;
        Ok(Wiring {
            registry,
            ports,
            interfaces,
        })
    }
}

/// The connections of a member.
#[derive(Clone, Copy)]
struct ConnectionJson<'w, 'a> {
    wiring: &'w Wiring<'a>,
    member: &'w Member,
}

impl<'w, 'a> Shows for ConnectionJson<'w, 'a> {
    type Item = Port;

    ghost text_of = { λ json p. spec.connection_text json.wiring.now json.member.now p };

    fn write(&self, item: &Port, out: &mut Vec<u8>) -> Result<(), AllocError> {
        let interface_json = InterfaceJson {
            as_macro: self.member.as_macro.as_slice(),
        };
        let wiring = self.wiring;
        let interfaces = &wiring.interfaces;
        put_port_list(out, item)?;
        put_number_member(out, b",", b"ixp_id", u64::from(wiring.registry.site.ixp_id))?;
        put_owned_member(
            out,
            b",",
            b"vlan_list",
            &interface_json,
            interfaces,
            item.number,
        )?;
        put(out, b"}")
    }
}

#[tactic(auto, unfolding(crate::specs::Texts::connections_member))]
fn put_connections(out: &mut Vec<u8>, wiring: &Wiring, member: &Member) -> Result<(), AllocError>
    ensures { OnOk result (out.new.items ≡ out.old.items ++ spec.connections_member wiring.now member.now) }
{
    let connection_json = ConnectionJson { wiring, member };
    let ports = &wiring.ports;
    put_owned_member(
        out,
        b",",
        b"connection_list",
        &connection_json,
        ports,
        member.number,
    )
}

impl<'a> Shows for Wiring<'a> {
    type Item = Member;

    ghost text_of = { λ wiring m. spec.member_text wiring m };

    fn write(&self, item: &Member, out: &mut Vec<u8>) -> Result<(), AllocError> {
        put_number_member(out, b"{", b"asnum", u64::from(item.asn.0))?;
        put_connections(out, self, item)?;
        put_text_member(out, b",", b"name", item.name.as_slice())?;
        put(out, b"}")
    }
}

fn is_member_connected(member: &Member) -> bool
    ensures { result ≡ is_connected member.now.status }
{
    match member.status {
        Status::Connected => true,
        Status::Noted | Status::Suspended | Status::Left => false,
    }
}

/// The members that are connected.
pub(crate) fn connected(alloc: Global, members: &[Member]) -> Result<Vec<&Member>, AllocError>
    ensures { IfOk result (λ found. shown found.items ≡ filter (λ m. is_connected m.status) members.now) }
{
    let mut found = Vec::new(alloc);
    for member in members {
        if is_member_connected(member) {
            found.push(member)?;
        }
    }
    Ok(found)
}
