//! What edits of members, their contacts and API keys change.
ghost use Rattle.std.specs.Prelude.{◌≡◌, [], ◌∷◌, IfOk};
ghost use Rattle.ixp_num_tables.specs.Tables.{find};
ghost use Rattle.ixp_machine_edits.specs.Members.{new_member, new_contact};
ghost use Rattle.ixp_registry_change.specs.Changes.{changed_row};
ghost use Rattle.ixp_registry.specs.Keys.{member_key};

use ixp_num::{Asn, Items};
use ixp_num_tables::{Copied, Table};
use ixp_registry::{Contact, Member, Status};
use ixp_registry_change::TableChange;
use std::alloc::{AllocError, Global};

pub(crate) fn new_member(alloc: Global, number: u32, asn: Asn, name: Items<u8>) -> Member
    ensures { result ≡ new_member number asn name }
{
    Member {
        number,
        asn,
        status: Status::Noted,
        as_macro: Items::new(alloc),
        name,
    }
}

pub(crate) fn rename_member(
    alloc: Global,
    members: &Table<Member>,
    member: u32,
    name: Items<u8>,
) -> Result<TableChange<Member, u32>, AllocError>
    ensures { IfOk result
        (λ c. c ≡ changed_row (λ m. record m { name = name }) (find member_key (member ∷ []) members.now)) }
{
    let Some(found) = members.find(&member) else {
        return Ok(TableChange::Keep);
    };
    let mut row = found.copied(alloc)?;
    row.name = name;
    Ok(TableChange::Put(row))
}

pub(crate) fn move_status(
    alloc: Global,
    members: &Table<Member>,
    member: u32,
    to: Status,
) -> Result<TableChange<Member, u32>, AllocError>
    ensures { IfOk result
        (λ c. c ≡ changed_row (λ m. record m { status = to }) (find member_key (member ∷ []) members.now)) }
{
    let Some(found) = members.find(&member) else {
        return Ok(TableChange::Keep);
    };
    let mut row = found.copied(alloc)?;
    row.status = to;
    Ok(TableChange::Put(row))
}

pub(crate) fn set_macro(
    alloc: Global,
    members: &Table<Member>,
    member: u32,
    as_macro: Items<u8>,
) -> Result<TableChange<Member, u32>, AllocError>
    ensures { IfOk result
        (λ c. c ≡ changed_row (λ m. record m { as_macro = as_macro })
        (find member_key (member ∷ []) members.now)) }
{
    let Some(found) = members.find(&member) else {
        return Ok(TableChange::Keep);
    };
    let mut row = found.copied(alloc)?;
    row.as_macro = as_macro;
    Ok(TableChange::Put(row))
}

pub(crate) fn new_contact(
    member: u32,
    place: u32,
    name: Items<u8>,
    mail: Items<u8>,
    role: Items<u8>,
) -> Contact
    ensures { result ≡ new_contact member place name mail role }
{
    Contact {
        member,
        place,
        role,
        mail,
        name,
    }
}
