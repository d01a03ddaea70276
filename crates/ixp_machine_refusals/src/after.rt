//! The weight that there would be after an edit.
ghost use Rattle.std.specs.Prelude.{◌≡◌, ◌≤◌, ◌+◌, ℕ, length, [], ◌∷◌, Some, None, true};
ghost use Rattle.std.specs.Option.{is_some};
ghost use Rattle.ixp_num_tables.specs.Tables.{find};
ghost use Rattle.ixp_registry.specs.Keys.{member_key, interface_key, router_key};
ghost use Rattle.ixp_registry.specs.Valid.{Valid};
ghost use Rattle.ixp_registry.specs.Weight.{weight};
ghost use Rattle.ixp_registry.specs.Words.{router_weight};
ghost use Rattle.ixp_machine_edits.specs.Interfaces.{with_address};
ghost use Rattle.ixp_machine_edits.specs.Lists.{with_prefixes, prefixes_in};
ghost use Rattle.ixp_machine_edits.specs.Members.{with_status};
ghost use Rattle.ixp_machine_edits.specs.Routers.{with_settings, with_router, set_routers, without_router};
ghost use Rattle.ixp_machine_refusals.specs.declared.change.Change.TheVariants.{Nothing};
ghost use Rattle.ixp_machine_refusals.specs.Changes.{IsSmall};
ghost use Rattle.ixp_machine_refusals.specs.Parts.{part_weight};

use crate::change::{Change, NewLength, NewRouters, NewStatus, addressed_weight, interface_weight};
use crate::parts::{Part, part_weight};
use ixp_machine_edits::RouterSettings;
use ixp_num::{Family, Name, Prefix};
use ixp_registry::{
    IfAddr, Interface, Registry, Router, Status, is_connected, list_length, router_weight,
};

/// With the member, which is there, in the status. `before` is the weight that there is, here and below.
pub(crate) fn weight_with_status(registry: &Registry, before: u64, member: u32, to: Status) -> u64
    requires valid { Valid registry.now }
    requires weight { before
        ≡ weight registry.now.members registry.now.interfaces registry.now.routers registry.now.irr }
    requires there { is_some (find member_key (member ∷ []) registry.now.members) ≡ true }
    ensures { result ≡ weight
        (with_status member to registry.now.members) registry.now.interfaces registry.now.routers
        registry.now.irr }
{
    let part = Part::OfMember(member);
    let connected = is_connected(to);
    let change = Change::Status(NewStatus { member, connected });
    shifted(registry, before, change, part)
}

/// With the prefixes as the member's list of the family.
pub(crate) fn weight_with_list(
    registry: &Registry,
    before: u64,
    member: u32,
    family: Family,
    prefixes: &[Prefix],
) -> u64
    requires valid { Valid registry.now }
    requires weight { before
        ≡ weight registry.now.members registry.now.interfaces registry.now.routers registry.now.irr }
    requires few { length prefixes.now ≤ 300000 }
    ensures { result ≡ weight registry.now.members registry.now.interfaces registry.now.routers
        (with_prefixes member family prefixes.now registry.now.irr) }
{
    let part = Part::OfMember(member);
    let length = prefixes.len() as u64;
    let change = Change::Length(NewLength {
        member,
        family,
        length,
    });
    shifted(registry, before, change, part)
}

/// With the address as the interface's one of the family; `interface` is the one with the number.
pub(crate) fn weight_with_address(
    registry: &Registry,
    before: u64,
    number: u32,
    interface: &Interface,
    family: Family,
    address: &IfAddr,
) -> u64
    requires valid { Valid registry.now }
    requires weight { before
        ≡ weight registry.now.members registry.now.interfaces registry.now.routers registry.now.irr }
    requires there { find interface_key (number ∷ []) registry.now.interfaces ≡ Some interface.now }
    ensures { result ≡ weight registry.now.members
        (with_address number family address.now registry.now.interfaces) registry.now.routers
        registry.now.irr }
{
    let more = addressed_weight(registry, interface, family, address);
    before + more - interface_weight(registry, Change::Nothing, interface)
}

/// With the change, by which the interfaces of the part weigh otherwise.
pub(crate) fn shifted(registry: &Registry, before: u64, change: Change, part: Part) -> u64
    requires valid { Valid registry.now }
    requires weight { before ≤ 8000000 }
    requires small { IsSmall change }
    requires enough { part_weight registry.now Nothing part registry.now.interfaces
        ≤ before + part_weight registry.now change part registry.now.interfaces }
    ensures { result + part_weight registry.now Nothing part registry.now.interfaces
        ≡ before + part_weight registry.now change part registry.now.interfaces }
{
    let old = part_weight(registry, Change::Nothing, part);
    let new = part_weight(registry, change, part);
    before + new - old
}

/// With the router, whose handle no router has.
pub(crate) fn weight_with_router(registry: &Registry, before: u64, router: &Router) -> u64
    requires valid { Valid registry.now }
    requires weight { before
        ≡ weight registry.now.members registry.now.interfaces registry.now.routers registry.now.irr }
    requires new { find router_key router.now.handle registry.now.routers ≡ None }
    ensures { result ≡ weight registry.now.members registry.now.interfaces
        (with_router router.now registry.now.routers) registry.now.irr }
{
    let more = router_weight(router);
    let new = NewRouters {
        vlan: router.vlan,
        family: router.family,
        more,
        less: 0,
    };
    shifted(
        registry,
        before,
        Change::Routers(new),
        Part::InVlan(new.vlan),
    )
}

fn settings_weight(settings: &RouterSettings) -> u64
    ensures weight { (q : Router) → result ≡ router_weight (with_settings settings.now q) }
    ensures small { result ≤ 2 }
{
    if settings.blackhole.is_some() { 2 } else { 1 }
}

/// With these settings of the router, which is the one with the handle.
pub(crate) fn weight_with_settings(
    registry: &Registry,
    before: u64,
    handle: &Name,
    router: &Router,
    settings: &RouterSettings,
) -> u64
    requires valid { Valid registry.now }
    requires weight { before
        ≡ weight registry.now.members registry.now.interfaces registry.now.routers registry.now.irr }
    requires there { find router_key handle.now registry.now.routers ≡ Some router.now }
    ensures { result ≡ weight registry.now.members registry.now.interfaces
        (set_routers handle.now settings.now registry.now.routers) registry.now.irr }
{
    let more = settings_weight(settings);
    let less = router_weight(router);
    let new = NewRouters {
        vlan: router.vlan,
        family: router.family,
        more,
        less,
    };
    shifted(
        registry,
        before,
        Change::Routers(new),
        Part::InVlan(new.vlan),
    )
}

/// Without the router, which is the one with the handle.
pub(crate) fn weight_without_router(
    registry: &Registry,
    before: u64,
    handle: &Name,
    router: &Router,
) -> u64
    requires valid { Valid registry.now }
    requires weight { before
        ≡ weight registry.now.members registry.now.interfaces registry.now.routers registry.now.irr }
    requires there { find router_key handle.now registry.now.routers ≡ Some router.now }
    ensures { result ≡ weight registry.now.members registry.now.interfaces
        (without_router handle.now registry.now.routers) registry.now.irr }
{
    let less = router_weight(router);
    let new = NewRouters {
        vlan: router.vlan,
        family: router.family,
        more: 0,
        less,
    };
    shifted(
        registry,
        before,
        Change::Routers(new),
        Part::InVlan(new.vlan),
    )
}

/// How many prefixes all lists have with these as the member's of the family; `before` is how many they have.
pub(crate) fn prefixes_with_list(
    registry: &Registry,
    before: u64,
    member: u32,
    family: Family,
    prefixes: &[Prefix],
) -> u64
    requires valid { Valid registry.now }
    requires prefixes { before ≡ prefixes_in registry.now.irr }
    ensures { result ≡ prefixes_in (with_prefixes member family prefixes.now registry.now.irr) }
{
    let old = list_length(registry, member, family);
    before + prefixes.len() as u64 - old
}
