//! Rows that are read together.
ghost use Rattle.std.specs.Prelude.{◌≡◌, ◌∷◌, [], IfOk};
ghost use Rattle.std.specs.List.{AllByRecursion};
ghost use Rattle.ixp_registry.specs.declared.kind.Kind.TheVariants as of;
ghost use Rattle.ixp_rows_lines.specs.Lines.{IsOfVersion};
ghost use Rattle.ixp_rows.specs.Reading.{Gives, sections_at};
ghost use Rattle.ixp_rows.specs.Groups.{owner_fields, network_fields, steering_fields, public_fields};

use crate::misread::Misread;
use crate::section::section;
use ixp_num::{Asn, Pattern, Roa};
use ixp_num_sorted::Sorted;
use ixp_num_tables::Table;
use ixp_registry::{
    AddressRow, ApiKey, Contact, InterfaceRow, Member, MemberOrigin, MemberPrefix, MemberRule,
    Port, PublicLists, Router, Switch, Vlan,
};
use ixp_rows_lines::Version;
use std::alloc::Global;

/// Members, and what is theirs alone.
#[derive(Drop)]
pub(crate) struct Owners {
    pub members: Table<Member>,
    pub contacts: Table<Contact>,
    pub keys: Table<ApiKey>,
}

/// The peering fabric.
#[derive(Drop)]
pub(crate) struct Network {
    pub switches: Table<Switch>,
    pub ports: Table<Port>,
    pub vlans: Table<Vlan>,
    pub interfaces: Table<InterfaceRow>,
    pub addresses: Table<AddressRow>,
}

/// Route servers, and the members' lists and rules.
#[derive(Drop)]
pub(crate) struct Steering {
    pub routers: Table<Router>,
    pub prefixes: Table<MemberPrefix>,
    pub origins: Table<MemberOrigin>,
    pub rules: Table<MemberRule>,
}

/// Reads the lines of members, contacts and API keys.
pub(crate) fn read_owners(
    alloc: Global,
    version: Version,
    text: &[u8],
) -> Result<(Owners, &[u8]), Misread>
    ensures { Gives (λ x. (owner_fields x.0, x.1.now)) result
        (sections_at version (of.Members ∷ of.Contacts ∷ of.Keys ∷ []) text.now) }
{
    let (members, rest) = section::<Member>(alloc, version, text)?;
    let (contacts, rest) = section::<Contact>(alloc, version, rest)?;
    let (keys, rest) = section::<ApiKey>(alloc, version, rest)?;
    let owners = Owners {
        members: Table::from_ascending(members),
        contacts: Table::from_ascending(contacts),
        keys: Table::from_ascending(keys),
    };
    Ok((owners, rest))
}

/// Reads the lines of switches, ports, VLANs, interfaces and addresses.
pub(crate) fn read_network(
    alloc: Global,
    version: Version,
    text: &[u8],
) -> Result<(Network, &[u8]), Misread>
    ensures { Gives (λ x. (network_fields x.0, x.1.now)) result
        (sections_at version
        (of.Switches ∷ of.Ports ∷ of.Vlans ∷ of.Interfaces ∷ of.Addresses ∷ []) text.now) }
{
    let (switches, rest) = section::<Switch>(alloc, version, text)?;
    let (ports, rest) = section::<Port>(alloc, version, rest)?;
    let (vlans, rest) = section::<Vlan>(alloc, version, rest)?;
    let (interfaces, rest) = section::<InterfaceRow>(alloc, version, rest)?;
    let (addresses, rest) = section::<AddressRow>(alloc, version, rest)?;
    let network = Network {
        switches: Table::from_ascending(switches),
        ports: Table::from_ascending(ports),
        vlans: Table::from_ascending(vlans),
        interfaces: Table::from_ascending(interfaces),
        addresses: Table::from_ascending(addresses),
    };
    Ok((network, rest))
}

/// Reads the lines of route servers, and of the members' lists and rules.
pub(crate) fn read_steering(
    alloc: Global,
    version: Version,
    text: &[u8],
) -> Result<(Steering, &[u8]), Misread>
    ensures reads { Gives (λ x. (steering_fields version x.0, x.1.now)) result
        (sections_at version (of.Routers ∷ of.Prefixes ∷ of.Origins ∷ of.Rules ∷ []) text.now) }
    ensures of_version { IfOk result (λ x. AllByRecursion (IsOfVersion version) x.0.routers) }
{
    let (routers, rest) = section::<Router>(alloc, version, text)?;
    let (prefixes, rest) = section::<MemberPrefix>(alloc, version, rest)?;
    let (origins, rest) = section::<MemberOrigin>(alloc, version, rest)?;
    let (rules, rest) = section::<MemberRule>(alloc, version, rest)?;
    let steering = Steering {
        routers: Table::from_ascending(routers),
        prefixes: Table::from_ascending(prefixes),
        origins: Table::from_ascending(origins),
        rules: Table::from_ascending(rules),
    };
    Ok((steering, rest))
}

/// Reads the lines of the public lists.
pub(crate) fn read_public(
    alloc: Global,
    version: Version,
    text: &[u8],
) -> Result<(PublicLists, &[u8]), Misread>
    ensures { Gives (λ x. (public_fields x.0, x.1.now)) result
        (sections_at version (of.Bogons ∷ of.BogonAs ∷ of.Transit ∷ of.Roas ∷ []) text.now) }
{
    let (bogons, rest) = section::<Pattern>(alloc, version, text)?;
    let (bogon_as, rest) = section::<(Asn, Asn)>(alloc, version, rest)?;
    let (transit, rest) = section::<Asn>(alloc, version, rest)?;
    let (roas, rest) = section::<Roa>(alloc, version, rest)?;
    let public = PublicLists {
        bogons: Sorted::from_ascending(bogons),
        bogon_as: Sorted::from_ascending(bogon_as),
        transit: Sorted::from_ascending(transit),
        roas: Sorted::from_ascending(roas),
    };
    Ok((public, rest))
}
