//! An edit keeps what the types of its fields keep. Nothing here does anything: the fields are read for
//! proofs alone, since a proof knows what a type keeps of a value once the value is read.
ghost use Rattle.std.specs.Prelude.{◌≡◌, true};
ghost use Rattle.ixp_machine_edits.specs.declared.edit.Edit.TheVariants.{
  PutContact,
  AddPort,
  AddInterface,
  PutIrr,
  PutOrigins,
};
ghost use Rattle.ixp_machine_edits.specs.Edits.{IsLawful, IsPublicList, SettingsFit};
ghost use Rattle.ixp_registry.specs.Widths.{IsNumber, owner_number};
ghost use Rattle.ixp_machine_steps.specs.Requests.{has_family};

use crate::widths::{Fits, read_all};
use ixp_machine_edits::{Edit, RouterSettings};
use ixp_num::{Asn, Family, Prefix};
use ixp_num_sorted::Sorted;
use ixp_registry::Owner;
use ixp_registry_change::PublicList;

fn read_owner(owner: Owner)
    ensures { IsNumber (owner_number owner) }
{
    match owner {
        Owner::Staff(number) => number.read(),
        Owner::Member(number) => number.read(),
    }
}

fn read_contact(member: u32, place: u32, name: &[u8], mail: &[u8], role: &[u8])
    ensures { IsLawful (PutContact member place name.now mail.now role.now) }
{
    member.read();
    place.read();
    read_all(name);
    read_all(mail);
    read_all(role);
}

fn read_port(number: u32, switch: u32, name: &[u8], speed: u32)
    ensures { IsLawful (AddPort number switch name.now speed) }
{
    number.read();
    switch.read();
    speed.read();
    read_all(name);
}

fn read_interface(number: u32, member: u32, port: u32, vlan: u32)
    ensures { IsLawful (AddInterface number member port vlan) }
{
    number.read();
    member.read();
    port.read();
    vlan.read();
}

fn read_settings(settings: RouterSettings)
    ensures { SettingsFit settings }
{
    settings.asn.read();
    settings.id.read();
    settings.low.read();
    settings.high.read();
    settings.max_comms.read();
}

#[tactic(auto, using(crate::proofs::Families::of_family))]
fn read_prefixes(prefixes: &Sorted<Prefix>, member: u32, family: Family)
    requires { has_family (PutIrr member family prefixes.now) ≡ true }
    ensures { IsLawful (PutIrr member family prefixes.now) }
{
    member.read();
    let _prefixes = prefixes.as_slice();
}

fn read_asns(asns: &Sorted<Asn>, member: u32, family: Family)
    ensures { IsLawful (PutOrigins member family asns.now) }
{
    member.read();
    read_all(asns.as_slice());
}

fn read_public(list: &PublicList)
    ensures { IsPublicList list.now }
{
    match list {
        PublicList::Bogons(patterns) => {
            let _patterns = patterns.as_slice();
        }
        PublicList::BogonAs(ranges) => read_all(ranges.as_slice()),
        PublicList::Transit(asns) => read_all(asns.as_slice()),
        PublicList::Roas(roas) => read_all(roas.as_slice()),
    }
}

/// Reads the edit of a request. It changes nothing.
pub fn read_edit(edit: &Edit)
    requires { has_family edit.now ≡ true }
    ensures { IsLawful edit.now }
{
    match edit {
        Edit::AddMember { number, asn, name } => {
            number.read();
            asn.read();
            read_all(name.as_slice());
        }
        Edit::RenameMember { name, .. } => read_all(name.as_slice()),
        Edit::MoveStatus { .. } => {}
        Edit::SetMacro { as_macro, .. } => read_all(as_macro.as_slice()),
        Edit::PutContact {
            member,
            place,
            name,
            mail,
            role,
        } => read_contact(
            *member,
            *place,
            name.as_slice(),
            mail.as_slice(),
            role.as_slice(),
        ),
        Edit::DropContact { .. } => {}
        Edit::AddKey { number, owner, .. } => {
            number.read();
            read_owner(*owner);
        }
        Edit::DropKey { .. } => {}
        Edit::AddSwitch { number, name } => {
            number.read();
            read_all(name.as_slice());
        }
        Edit::DropSwitch { .. } => {}
        Edit::AddPort {
            number,
            switch,
            name,
            speed,
        } => read_port(*number, *switch, name.as_slice(), *speed),
        Edit::AssignPort { member, .. } => member.read(),
        Edit::FreePort { .. } => {}
        Edit::DropPort { .. } => {}
        Edit::AddVlan {
            number,
            name,
            tag,
            ..
        } => {
            number.read();
            tag.read();
            read_all(name.as_slice());
        }
        Edit::DropVlan { .. } => {}
        Edit::AddInterface {
            number,
            member,
            port,
            vlan,
        } => read_interface(*number, *member, *port, *vlan),
        Edit::SetAddress { address, .. } => address.max_prefix.read(),
        Edit::DropInterface { .. } => {}
        Edit::AddRouter { vlan, settings, .. } => {
            vlan.read();
            read_settings(*settings);
        }
        Edit::SetRouter { settings, .. } => read_settings(*settings),
        Edit::DropRouter { .. } => {}
        Edit::PutIrr {
            member,
            family,
            prefixes,
        } => read_prefixes(prefixes, *member, *family),
        Edit::PutOrigins {
            member,
            family,
            asns,
        } => read_asns(asns, *member, *family),
        Edit::SetRules { member, rules } => {
            member.read();
            read_all(rules.as_slice());
        }
        Edit::PutPublic { list } => read_public(list),
    }
}
