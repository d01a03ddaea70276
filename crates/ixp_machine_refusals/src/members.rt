//! Why edits of members and contacts are refused.
ghost use Rattle.std.specs.Prelude.{◌≡◌, ◌==◌, ◌||◌, ◌&&◌, option_map, find};
ghost use Rattle.std.specs.List.{list_any};
ghost use Rattle.ixp_registry.specs.Lookups.{is_left};
ghost use Rattle.ixp_registry.specs.Valid.{Valid};
ghost use Rattle.ixp_registry.specs.Words.{is_reserved};
ghost use Rattle.ixp_machine_edits.specs.Members.{
  add_member_tests,
  rename_member_tests,
  move_status_tests,
  set_macro_tests,
  put_contact_tests,
  drop_contact_tests,
};
ghost use Rattle.ixp_machine_edits.specs.Tests.{first_refused, in_use_by};
ghost use Rattle.ixp_registry.specs.declared.kind.Kind.TheVariants as kind;
ghost use Rattle.ixp_registry.specs.declared.refusal.RowKey.TheVariants as key;
ghost use Rattle.ixp_registry.specs.Weight.{weight_of};

use crate::after::weight_with_status;
use crate::counts::contacts_of;
use crate::refusing::{bad_text, exists, full, in_use, out_of_bounds, too_heavy, unknown};
use ixp_members::may_move;
use ixp_num::Asn;
use ixp_registry::{
    Contact, Interface, Kind, Member, Refusal, Registry, Router, RowKey, Status, TextField,
    has_member, is_label, is_macro, is_note,
};

/// Whether nobody at the exchange may have the AS number.
pub(crate) fn is_reserved(asn: u32) -> bool
    ensures { result ≡ is_reserved asn }
{
    asn == 0 || asn == 23456 || asn == 4294967295
}

fn is_a_routers(routers: &[Router], asn: u32) -> bool
    ensures { result ≡ list_any (λ q. asn == q.asn.0) routers.now }
{
    routers.iter().any(|q| asn == q.asn.0)
}

fn member_with(members: &[Member], asn: u32) -> Option<u32>
    ensures { result ≡ option_map (λ m. m.number) (find (λ m. m.asn.0 == asn) members.now) }
{
    let found = members.iter().find(|m| m.asn.0 == asn);
    match found {
        Some(member) => Some(member.number),
        None => None,
    }
}

pub(crate) fn add_member(registry: &Registry, number: u32, asn: Asn, name: &[u8]) -> Option<Refusal>
    ensures { result ≡ first_refused (add_member_tests registry.now number asn name.now) }
{
    if !is_label(name) {
        return Some(bad_text(TextField::Name));
    }
    if is_reserved(asn.0) || is_a_routers(registry.routers.as_slice(), asn.0) {
        return Some(Refusal::AsnReserved { asn });
    }
    if let Some(member) = registry.members.find(&number) {
        return Some(exists(member.number));
    }
    if let Some(member) = member_with(registry.members.as_slice(), asn.0) {
        return Some(exists(member));
    }
    if number == 0 {
        return Some(out_of_bounds());
    }
    full(Kind::Members, registry.members.len(), 4000)
}

pub(crate) fn rename_member(registry: &Registry, member: u32, name: &[u8]) -> Option<Refusal>
    ensures { result ≡ first_refused (rename_member_tests registry.now member name.now) }
{
    if !has_member(&registry.members, member) {
        return Some(unknown(Kind::Members, member));
    }
    if !is_label(name) {
        return Some(bad_text(TextField::Name));
    }
    None
}

fn is_left(status: Status) -> bool
    ensures { result ≡ is_left status }
{
    match status {
        Status::Left => true,
        Status::Noted | Status::Connected | Status::Suspended => false,
    }
}

/// The first interface of the member stands against it, where it is to leave.
fn unless_left(interfaces: &[Interface], member: u32, to: Status) -> Option<Refusal>
    ensures { result ≡ in_use_by kind.Interfaces (λ i. key.Number i.number)
        (find (λ i. is_left to && i.member == member) interfaces.now) }
{
    let found = interfaces
        .iter()
        .find(|i| is_left(to) && i.member == member);
    match found {
        Some(interface) => Some(in_use(Kind::Interfaces, interface.number)),
        None => None,
    }
}

/// `weight` is the registry's.
pub(crate) fn move_status(
    registry: &Registry,
    weight: u64,
    member: u32,
    to: Status,
) -> Option<Refusal>
    requires valid { Valid registry.now }
    requires weight { weight ≡ weight_of registry.now }
    ensures { result ≡ first_refused (move_status_tests registry.now member to) }
{
    let Some(row) = registry.members.find(&member) else {
        return Some(unknown(Kind::Members, member));
    };
    if !may_move(row.status, to) {
        return Some(Refusal::StatusMove {
            from: row.status,
            to,
        });
    }
    if let Some(refusal) = unless_left(registry.interfaces.as_slice(), member, to) {
        return Some(refusal);
    }
    too_heavy(weight_with_status(registry, weight, member, to))
}

pub(crate) fn set_macro(registry: &Registry, member: u32, as_macro: &[u8]) -> Option<Refusal>
    ensures { result ≡ first_refused (set_macro_tests registry.now member as_macro.now) }
{
    if !has_member(&registry.members, member) {
        return Some(unknown(Kind::Members, member));
    }
    if !is_macro(as_macro) {
        return Some(bad_text(TextField::Macro));
    }
    None
}

pub(crate) fn put_contact(
    registry: &Registry,
    member: u32,
    place: u32,
    name: &[u8],
    mail: &[u8],
    role: &[u8],
) -> Option<Refusal>
    ensures { result ≡ first_refused
        (put_contact_tests registry.now member place name.now mail.now role.now) }
{
    if !has_member(&registry.members, member) {
        return Some(unknown(Kind::Members, member));
    }
    if !is_label(name) {
        return Some(bad_text(TextField::Name));
    }
    if !is_note(mail) {
        return Some(bad_text(TextField::Mail));
    }
    if !is_note(role) {
        return Some(bad_text(TextField::Role));
    }
    if place == 0 {
        return Some(out_of_bounds());
    }
    if registry.contacts.find(&(member, place)).is_some() {
        return None;
    }
    let contacts: &[Contact] = registry.contacts.as_slice();
    full(Kind::Contacts, contacts_of(contacts, member), 16)
}

pub(crate) fn drop_contact(registry: &Registry, member: u32, place: u32) -> Option<Refusal>
    ensures { result ≡ first_refused (drop_contact_tests registry.now member place) }
{
    if !has_member(&registry.members, member) {
        return Some(unknown(Kind::Members, member));
    }
    if registry.contacts.find(&(member, place)).is_none() {
        return Some(Refusal::Unknown {
            table: Kind::Contacts,
            key: RowKey::Pair(member, place),
        });
    }
    None
}
