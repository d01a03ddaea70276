//! Rule 1: numbers are at least 1, and no two members have one AS number.
ghost use Rattle.std.specs.Prelude.{◌≡◌, [], ◌∷◌, IfOk};
ghost use Rattle.ixp_registry.specs.Rules.{
  members_are_numbered,
  contacts_are_placed,
  keys_are_numbered,
  switches_are_numbered,
  ports_are_numbered,
  vlans_are_numbered,
  interfaces_are_numbered,
  member_asns_differ,
  rule_1,
};
ghost use Rattle.ixp_registry.specs.Sizes.{HasLines};

use ixp_registry::{
    Counted, Member, Rows, contacts_at, earliest, first, first_beyond, interfaces_at, keys_at,
    members_at, ports_at, switches_at, vlans_at,
};
use std::alloc::{AllocError, Global};

fn members_are_numbered(rows: &Rows) -> Option<usize>
    requires { HasLines rows.now }
    ensures { result ≡ members_are_numbered rows.now }
{
    let members = rows.members.as_slice();
    first(members_at(), members, |m| m.number == 0)
}

fn contacts_are_placed(rows: &Rows) -> Option<usize>
    requires { HasLines rows.now }
    ensures { result ≡ contacts_are_placed rows.now }
{
    let contacts = rows.contacts.as_slice();
    first(contacts_at(rows), contacts, |c| c.place == 0)
}

fn keys_are_numbered(rows: &Rows) -> Option<usize>
    requires { HasLines rows.now }
    ensures { result ≡ keys_are_numbered rows.now }
{
    let keys = rows.keys.as_slice();
    first(keys_at(rows), keys, |k| k.number == 0)
}

fn switches_are_numbered(rows: &Rows) -> Option<usize>
    requires { HasLines rows.now }
    ensures { result ≡ switches_are_numbered rows.now }
{
    let switches = rows.switches.as_slice();
    first(switches_at(rows), switches, |s| s.number == 0)
}

fn ports_are_numbered(rows: &Rows) -> Option<usize>
    requires { HasLines rows.now }
    ensures { result ≡ ports_are_numbered rows.now }
{
    let ports = rows.ports.as_slice();
    first(ports_at(rows), ports, |p| p.number == 0 || p.speed == 0)
}

fn vlans_are_numbered(rows: &Rows) -> Option<usize>
    requires { HasLines rows.now }
    ensures { result ≡ vlans_are_numbered rows.now }
{
    let vlans = rows.vlans.as_slice();
    first(vlans_at(rows), vlans, |v| v.number == 0)
}

fn interfaces_are_numbered(rows: &Rows) -> Option<usize>
    requires { HasLines rows.now }
    ensures { result ≡ interfaces_are_numbered rows.now }
{
    let interfaces = rows.interfaces.as_slice();
    first(interfaces_at(rows), interfaces, |i| i.number == 0)
}

/// The AS numbers of members.
struct MemberAsns;

impl Counted for MemberAsns {
    type Row = Member;

    type Key = u32;

    ghost numbers_of = { λ m. m.asn.0 ∷ [] };

    fn key_of(_alloc: Global, row: &Member) -> Result<u32, AllocError> {
        Ok(row.asn.0)
    }
}

fn member_asns_differ(alloc: Global, rows: &Rows) -> Result<Option<usize>, AllocError>
    requires { HasLines rows.now }
    ensures { IfOk result (λ place. place ≡ member_asns_differ rows.now) }
{
    first_beyond::<MemberAsns>(alloc, 1, members_at(), rows.members.as_slice())
}

/// Numbers, a port's speed and a contact's place are at least 1, and no two members have one AS number.
pub fn rule_1(alloc: Global, rows: &Rows) -> Result<Option<usize>, AllocError>
    requires { HasLines rows.now }
    ensures { IfOk result (λ place. place ≡ rule_1 rows.now) }
{
    let asns = member_asns_differ(alloc, rows)?;
    Ok(earliest(&[
        members_are_numbered(rows),
        asns,
        contacts_are_placed(rows),
        keys_are_numbered(rows),
        switches_are_numbered(rows),
        ports_are_numbered(rows),
        vlans_are_numbered(rows),
        interfaces_are_numbered(rows),
    ]))
}
