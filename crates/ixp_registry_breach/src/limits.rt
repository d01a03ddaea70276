//! Rule 13: the limits.
ghost use Rattle.std.specs.Prelude.{
  ◌≡◌,
  ◌+◌,
  ◌<◌,
  ◌^◌,
  [],
  ◌∷◌,
  IfOk,
  Some,
  None,
  not,
  nat_le,
  if◌then◌else◌,
};
ghost use Rattle.ixp_num.specs.AddressForms.{version_of};
ghost use Rattle.ixp_registry.specs.Lines.{keys_at};
ghost use Rattle.ixp_registry.specs.Places.{first};
ghost use Rattle.ixp_registry.specs.Rules.{
  owners_are_few,
  network_is_small,
  lists_are_short,
  public_lists_are_short,
  rule_13,
};
ghost use Rattle.ixp_registry.specs.Words.{owner_numbers, is_staff_number};
ghost use Rattle.ixp_registry.specs.Sizes.{HasLines};

use crate::weights::sessions_are_light;
use ixp_num::Family;
use ixp_registry::{
    ApiKey, Contact, Counted, InterfaceRow, MemberOrigin, MemberPrefix, MemberRule, Owner, Rows,
    bogon_as_at, bogons_at, contacts_at, earliest, first, first_beyond, interfaces_at, keys_at,
    members_at, origins_at, ports_at, prefixes_at, roas_at, routers_at, rules_at, switches_at,
    transit_at, vlans_at,
};
use std::alloc::{AllocError, Global};

/// The first row with which there are more than `most`, where there are `count`.
fn over(most: usize, start: usize, count: usize) -> Option<usize>
    requires { start + count < 2 ^ 64 }
    ensures { result ≡ (if nat_le count most then None else Some (start + most)) }
{
    if count <= most {
        None
    } else {
        Some(start + most)
    }
}

fn is_staff_number(owner: Owner) -> bool
    ensures { result ≡ is_staff_number owner }
{
    match owner {
        Owner::Staff(number) => 1 <= number && number <= 16,
        Owner::Member(_) => true,
    }
}

fn staff_are_numbered(rows: &Rows) -> Option<usize>
    requires { HasLines rows.now }
    ensures { result ≡ first (keys_at rows.now) (λ k. not (is_staff_number k.owner)) rows.now.keys }
{
    let keys = rows.keys.as_slice();
    first(keys_at(rows), keys, |k| !is_staff_number(k.owner))
}

/// The owners of API keys.
struct KeyOwners;

impl Counted for KeyOwners {
    type Row = ApiKey;

    type Key = Owner;

    ghost numbers_of = { λ k. owner_numbers k.owner };

    fn key_of(_alloc: Global, row: &ApiKey) -> Result<Owner, AllocError> {
        Ok(row.owner)
    }
}

/// The members of contacts.
struct ContactMembers;

impl Counted for ContactMembers {
    type Row = Contact;

    type Key = u32;

    ghost numbers_of = { λ c. c.member ∷ [] };

    fn key_of(_alloc: Global, row: &Contact) -> Result<u32, AllocError> {
        Ok(row.member)
    }
}

fn owners_are_few(alloc: Global, rows: &Rows) -> Result<Option<usize>, AllocError>
    requires { HasLines rows.now }
    ensures { IfOk result (λ place. place ≡ owners_are_few rows.now) }
{
    let keys = first_beyond::<KeyOwners>(alloc, 8, keys_at(rows), rows.keys.as_slice())?;
    let contacts = first_beyond::<ContactMembers>(
        alloc,
        16,
        contacts_at(rows),
        rows.contacts.as_slice(),
    )?;
    Ok(earliest(&[
        over(4000, members_at(), rows.members.len()),
        staff_are_numbered(rows),
        keys,
        contacts,
    ]))
}

/// The members of interfaces.
struct InterfaceMembers;

impl Counted for InterfaceMembers {
    type Row = InterfaceRow;

    type Key = u32;

    ghost numbers_of = { λ i. i.member ∷ [] };

    fn key_of(_alloc: Global, row: &InterfaceRow) -> Result<u32, AllocError> {
        Ok(row.member)
    }
}

fn network_is_small(alloc: Global, rows: &Rows) -> Result<Option<usize>, AllocError>
    requires { HasLines rows.now }
    ensures { IfOk result (λ place. place ≡ network_is_small rows.now) }
{
    let interfaces = first_beyond::<InterfaceMembers>(
        alloc,
        16,
        interfaces_at(rows),
        rows.interfaces.as_slice(),
    )?;
    Ok(earliest(&[
        over(256, switches_at(rows), rows.switches.len()),
        over(16384, ports_at(rows), rows.ports.len()),
        over(64, vlans_at(rows), rows.vlans.len()),
        over(8000, interfaces_at(rows), rows.interfaces.len()),
        interfaces,
        over(16, routers_at(rows), rows.routers.len()),
    ]))
}

/// The members and families of lists of prefixes.
struct PrefixLists;

impl Counted for PrefixLists {
    type Row = MemberPrefix;

    type Key = (u32, Family);

    ghost numbers_of = { λ p. p.member ∷ version_of p.prefix.family ∷ [] };

    fn key_of(_alloc: Global, row: &MemberPrefix) -> Result<(u32, Family), AllocError> {
        Ok((row.member, row.prefix.family))
    }
}

/// The members and families of lists of origins.
struct OriginLists;

impl Counted for OriginLists {
    type Row = MemberOrigin;

    type Key = (u32, Family);

    ghost numbers_of = { λ o. o.member ∷ version_of o.family ∷ [] };

    fn key_of(_alloc: Global, row: &MemberOrigin) -> Result<(u32, Family), AllocError> {
        Ok((row.member, row.family))
    }
}

/// The members of rules.
struct RuleMembers;

impl Counted for RuleMembers {
    type Row = MemberRule;

    type Key = u32;

    ghost numbers_of = { λ r. r.member ∷ [] };

    fn key_of(_alloc: Global, row: &MemberRule) -> Result<u32, AllocError> {
        Ok(row.member)
    }
}

fn lists_are_short(alloc: Global, rows: &Rows) -> Result<Option<usize>, AllocError>
    requires { HasLines rows.now }
    ensures { IfOk result (λ place. place ≡ lists_are_short rows.now) }
{
    let prefixes = first_beyond::<PrefixLists>(
        alloc,
        300000,
        prefixes_at(rows),
        rows.prefixes.as_slice(),
    )?;
    let origins = first_beyond::<OriginLists>(
        alloc,
        300000,
        origins_at(rows),
        rows.origins.as_slice(),
    )?;
    let rules = first_beyond::<RuleMembers>(alloc, 64, rules_at(rows), rows.rules.as_slice())?;
    Ok(earliest(&[
        over(4000000, prefixes_at(rows), rows.prefixes.len()),
        prefixes,
        origins,
        rules,
    ]))
}

fn public_lists_are_short(rows: &Rows) -> Option<usize>
    requires { HasLines rows.now }
    ensures { result ≡ public_lists_are_short rows.now }
{
    let lists = &rows.public;
    earliest(&[
        over(10000, bogons_at(rows), lists.bogons.len()),
        over(10000, bogon_as_at(rows), lists.bogon_as.len()),
        over(10000, transit_at(rows), lists.transit.len()),
        over(1000000, roas_at(rows), lists.roas.len()),
    ])
}

/// The limits.
pub fn rule_13(alloc: Global, rows: &Rows) -> Result<Option<usize>, AllocError>
    requires { HasLines rows.now }
    ensures { IfOk result (λ place. place ≡ rule_13 rows.now) }
{
    let owners = owners_are_few(alloc, rows)?;
    let network = network_is_small(alloc, rows)?;
    let lists = lists_are_short(alloc, rows)?;
    let sessions = sessions_are_light(alloc, rows)?;
    Ok(earliest(&[
        owners,
        network,
        lists,
        public_lists_are_short(rows),
        sessions,
    ]))
}
