//! What some of the interfaces weigh.
ghost use Rattle.std.specs.Prelude.{◌≡◌, ◌≤◌, ◌<◌, ◌^◌, ◌*◌, length};
ghost use Rattle.ixp_registry.specs.Valid.{Valid};
ghost use Rattle.ixp_machine_refusals.specs.Changes.{IsSmall};
ghost use Rattle.ixp_machine_refusals.specs.Parts.{is_in, part_weight};

use crate::change::{Change, interface_weight};
use ixp_registry::{Interface, Registry};

/// Some of the interfaces.
#[derive(Clone, Copy)]
pub(crate) enum Part {
    OfMember(u32),
    InVlan(u32),
}

fn is_in(part: Part, interface: &Interface) -> bool
    ensures { result ≡ is_in part interface.now }
{
    match part {
        Part::OfMember(member) => interface.member == member,
        Part::InVlan(vlan) => interface.vlan == vlan,
    }
}

fn sum(registry: &Registry, change: Change, part: Part, interfaces: &[Interface]) -> u64
    requires valid { Valid registry.now }
    requires change { IsSmall change }
    requires few { length interfaces.now ≤ 8000 }
    ensures weight { result ≡ part_weight registry.now change part interfaces.now }
    ensures small { result ≤ 8000 * 20400000 }
{
    let mut weight = 0;
    let mut left = interfaces;
    'each: while let Some((interface, others)) = left.split_first() {
        if is_in(part, interface) {
            weight += interface_weight(registry, change, interface);
        }
        left = others;
    }
    weight
}

/// What the sessions of these interfaces read.
pub(crate) fn part_weight(registry: &Registry, change: Change, part: Part) -> u64
    requires valid { Valid registry.now }
    requires change { IsSmall change }
    ensures weight { result ≡ part_weight registry.now change part registry.now.interfaces }
    ensures small { result ≤ 8000 * 20400000 }
{
    sum(registry, change, part, registry.interfaces.as_slice())
}
