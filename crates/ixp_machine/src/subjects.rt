//! Of which kind edits are, and what they are about.
ghost use Rattle.std.specs.Prelude.{◌≡◌, ◌&&◌, true, IfOk};
ghost use Rattle.ixp_machine_effects.specs.Names.{has_name};
ghost use Rattle.ixp_num.specs.AddressForms.{version_of};
ghost use Rattle.ixp_machine_steps.specs.declared.subject.Subject.TheVariants as form;
ghost use Rattle.ixp_machine_steps.specs.Subjects.{
  kind_of,
  subject_of,
  same_kind,
  same_subject,
  public_place,
  public_kind,
};
ghost use Rattle.ixp_machine.specs.Decisions.{Names};

use ixp_machine_edits::Edit;
use ixp_machine_steps::{KeptNumber, Subject};
use ixp_num::{Family, Name};
use ixp_registry::{EditKind, Handle, PublicKind, RowKey};
use ixp_registry_change::PublicList;
use std::alloc::{AllocError, Global};

fn version_of(family: Family) -> u32
    ensures { result ≡ version_of family }
{
    match family {
        Family::V4 => 4,
        Family::V6 => 6,
    }
}

fn public_kind(list: &PublicList) -> PublicKind
    ensures { result ≡ public_kind list.now }
{
    match list {
        PublicList::Bogons(_) => PublicKind::Bogons,
        PublicList::BogonAs(_) => PublicKind::BogonAs,
        PublicList::Transit(_) => PublicKind::Transit,
        PublicList::Roas(_) => PublicKind::Roas,
    }
}

fn public_place(kind: PublicKind) -> u32
    ensures { result ≡ public_place kind }
{
    match kind {
        PublicKind::Bogons => 0,
        PublicKind::BogonAs => 1,
        PublicKind::Transit => 2,
        PublicKind::Roas => 3,
    }
}

fn is_number(subject: &Subject, number: u32) -> bool
    ensures { result ≡ same_subject subject.now (form.Number number) }
{
    match subject {
        Subject::Number(n) => *n == number,
        Subject::Pair(_, _) | Subject::Handle(_) | Subject::Public(_) => false,
    }
}

fn is_pair(subject: &Subject, first: u32, second: u32) -> bool
    ensures { result ≡ same_subject subject.now (form.Pair first second) }
{
    match subject {
        Subject::Pair(m, n) => *m == first && *n == second,
        Subject::Number(_) | Subject::Handle(_) | Subject::Public(_) => false,
    }
}

fn is_handle(subject: &Subject, handle: &[u8]) -> bool
    ensures { result ≡ same_subject subject.now (form.Handle handle.now) }
{
    match subject {
        Subject::Handle(name) => name.as_bytes() == handle,
        Subject::Number(_) | Subject::Pair(_, _) | Subject::Public(_) => false,
    }
}

fn is_public(subject: &Subject, kind: PublicKind) -> bool
    ensures { result ≡ same_subject subject.now (form.Public kind) }
{
    match subject {
        Subject::Public(other) => public_place(*other) == public_place(kind),
        Subject::Number(_) | Subject::Pair(_, _) | Subject::Handle(_) => false,
    }
}

fn is_kind(kept: &KeptNumber, kind: EditKind) -> bool
    ensures { result ≡ same_kind kept.now.kind kind }
{
    kept.kind.word().as_bytes() == kind.word().as_bytes()
}

fn says_number(kept: &KeptNumber, kind: EditKind, number: u32) -> bool
    ensures { result
        ≡ (same_kind kept.now.kind kind && same_subject kept.now.subject (form.Number number)) }
{
    is_kind(kept, kind) && is_number(&kept.subject, number)
}

fn says_pair(kept: &KeptNumber, kind: EditKind, first: u32, second: u32) -> bool
    ensures { result
        ≡ (same_kind kept.now.kind kind && same_subject kept.now.subject (form.Pair first second)) }
{
    is_kind(kept, kind) && is_pair(&kept.subject, first, second)
}

fn says_handle(kept: &KeptNumber, kind: EditKind, handle: &[u8]) -> bool
    ensures { result
        ≡ (same_kind kept.now.kind kind && same_subject kept.now.subject (form.Handle handle.now)) }
{
    is_kind(kept, kind) && is_handle(&kept.subject, handle)
}

fn says_public(kept: &KeptNumber, kind: EditKind, list: PublicKind) -> bool
    ensures { result
        ≡ (same_kind kept.now.kind kind && same_subject kept.now.subject (form.Public list)) }
{
    is_kind(kept, kind) && is_public(&kept.subject, list)
}

/// Whether the edit is of the kind and about what the kept number says.
pub(crate) fn is_repeat(kept: &KeptNumber, edit: &Edit) -> bool
    ensures { result ≡ (same_kind kept.now.kind (kind_of edit.now)
        && same_subject kept.now.subject (subject_of edit.now)) }
{
    match edit {
        Edit::AddMember { number, .. } => says_number(kept, EditKind::AddMember, *number),
        Edit::RenameMember { member, .. } => says_number(kept, EditKind::RenameMember, *member),
        Edit::MoveStatus { member, .. } => says_number(kept, EditKind::MoveStatus, *member),
        Edit::SetMacro { member, .. } => says_number(kept, EditKind::SetMacro, *member),
        Edit::PutContact { member, place, .. } => says_pair(
            kept,
            EditKind::PutContact,
            *member,
            *place,
        ),
        Edit::DropContact { member, place } => says_pair(
            kept,
            EditKind::DropContact,
            *member,
            *place,
        ),
        Edit::AddKey { number, .. } => says_number(kept, EditKind::AddKey, *number),
        Edit::DropKey { key } => says_number(kept, EditKind::DropKey, *key),
        Edit::AddSwitch { number, .. } => says_number(kept, EditKind::AddSwitch, *number),
        Edit::DropSwitch { switch } => says_number(kept, EditKind::DropSwitch, *switch),
        Edit::AddPort { number, .. } => says_number(kept, EditKind::AddPort, *number),
        Edit::AssignPort { port, .. } => says_number(kept, EditKind::AssignPort, *port),
        Edit::FreePort { port } => says_number(kept, EditKind::FreePort, *port),
        Edit::DropPort { port } => says_number(kept, EditKind::DropPort, *port),
        Edit::AddVlan { number, .. } => says_number(kept, EditKind::AddVlan, *number),
        Edit::DropVlan { vlan } => says_number(kept, EditKind::DropVlan, *vlan),
        Edit::AddInterface { number, .. } => says_number(kept, EditKind::AddInterface, *number),
        Edit::SetAddress {
            interface,
            family,
            ..
        } => says_pair(kept, EditKind::SetAddress, *interface, version_of(*family)),
        Edit::DropInterface { interface } => says_number(kept, EditKind::DropInterface, *interface),
        Edit::AddRouter { handle, .. } => says_handle(kept, EditKind::AddRouter, handle.as_slice()),
        Edit::SetRouter { handle, .. } => says_handle(kept, EditKind::SetRouter, handle.as_bytes()),
        Edit::DropRouter { handle } => says_handle(kept, EditKind::DropRouter, handle.as_bytes()),
        Edit::PutIrr { member, family, .. } => says_pair(
            kept,
            EditKind::PutIrr,
            *member,
            version_of(*family),
        ),
        Edit::PutOrigins { member, family, .. } => says_pair(
            kept,
            EditKind::PutOrigins,
            *member,
            version_of(*family),
        ),
        Edit::SetRules { member, .. } => says_number(kept, EditKind::SetRules, *member),
        Edit::PutPublic { list } => says_public(kept, EditKind::PutPublic, public_kind(list)),
    }
}

/// The subject as a refusal carries it.
pub(crate) fn key_of(subject: &Subject) -> RowKey
    ensures { Names result subject.now }
{
    match subject {
        Subject::Number(number) => RowKey::Number(*number),
        Subject::Pair(first, second) => RowKey::Pair(*first, *second),
        Subject::Handle(name) => RowKey::Handle(Handle::of(name)),
        Subject::Public(kind) => RowKey::Public(*kind),
    }
}

/// The kind of the edit, and what the edit is about.
pub(crate) fn said_of(alloc: Global, edit: &Edit) -> Result<(EditKind, Subject), AllocError>
    requires { has_name edit.now ≡ true }
    ensures kind { IfOk result (λ s. s.0 ≡ kind_of edit.now) }
    ensures subject { IfOk result (λ s. s.1 ≡ subject_of edit.now) }
{
    match edit {
        Edit::AddMember { number, .. } => Ok((EditKind::AddMember, Subject::Number(*number))),
        Edit::RenameMember { member, .. } => Ok((EditKind::RenameMember, Subject::Number(*member))),
        Edit::MoveStatus { member, .. } => Ok((EditKind::MoveStatus, Subject::Number(*member))),
        Edit::SetMacro { member, .. } => Ok((EditKind::SetMacro, Subject::Number(*member))),
        Edit::PutContact { member, place, .. } => Ok((
            EditKind::PutContact,
            Subject::Pair(*member, *place),
        )),
        Edit::DropContact { member, place } => Ok((
            EditKind::DropContact,
            Subject::Pair(*member, *place),
        )),
        Edit::AddKey { number, .. } => Ok((EditKind::AddKey, Subject::Number(*number))),
        Edit::DropKey { key } => Ok((EditKind::DropKey, Subject::Number(*key))),
        Edit::AddSwitch { number, .. } => Ok((EditKind::AddSwitch, Subject::Number(*number))),
        Edit::DropSwitch { switch } => Ok((EditKind::DropSwitch, Subject::Number(*switch))),
        Edit::AddPort { number, .. } => Ok((EditKind::AddPort, Subject::Number(*number))),
        Edit::AssignPort { port, .. } => Ok((EditKind::AssignPort, Subject::Number(*port))),
        Edit::FreePort { port } => Ok((EditKind::FreePort, Subject::Number(*port))),
        Edit::DropPort { port } => Ok((EditKind::DropPort, Subject::Number(*port))),
        Edit::AddVlan { number, .. } => Ok((EditKind::AddVlan, Subject::Number(*number))),
        Edit::DropVlan { vlan } => Ok((EditKind::DropVlan, Subject::Number(*vlan))),
        Edit::AddInterface { number, .. } => Ok((EditKind::AddInterface, Subject::Number(*number))),
        Edit::SetAddress {
            interface,
            family,
            ..
        } => Ok((
            EditKind::SetAddress,
            Subject::Pair(*interface, version_of(*family)),
        )),
        Edit::DropInterface { interface } => Ok((
            EditKind::DropInterface,
            Subject::Number(*interface),
        )),
        Edit::AddRouter { handle, .. } => {
            let name = Name::new(alloc, handle.as_slice())?;
            Ok((EditKind::AddRouter, Subject::Handle(name)))
        }
        Edit::SetRouter { handle, .. } => Ok((
            EditKind::SetRouter,
            Subject::Handle(handle.copied(alloc)?),
        )),
        Edit::DropRouter { handle } => Ok((
            EditKind::DropRouter,
            Subject::Handle(handle.copied(alloc)?),
        )),
        Edit::PutIrr { member, family, .. } => Ok((
            EditKind::PutIrr,
            Subject::Pair(*member, version_of(*family)),
        )),
        Edit::PutOrigins { member, family, .. } => Ok((
            EditKind::PutOrigins,
            Subject::Pair(*member, version_of(*family)),
        )),
        Edit::SetRules { member, .. } => Ok((EditKind::SetRules, Subject::Number(*member))),
        Edit::PutPublic { list } => Ok((EditKind::PutPublic, Subject::Public(public_kind(list)))),
    }
}
