//! The exchange itself: its switches and VLANs.
ghost use Rattle.std.specs.Prelude.{◌≡◌, ◌++◌, OnOk, IfOk};
ghost use Rattle.ixp_ixf.specs.Texts as spec;

use crate::lists::{put_list_member, put_name};
use ixp_api_json::{put_number_member, put_text_member};
use ixp_num::{Addr, Prefix, print_addr};
use ixp_num_tables::{Writes, put};
use ixp_registry::{Registry, Switch, Vlan};
use std::alloc::{AllocError, Global};

// The text of the network's first address.
#[tactic(auto, unfolding(crate::specs::Texts::first_address))]
fn first_address(alloc: Global, network: &Prefix) -> Result<Vec<u8>, AllocError>
    ensures { IfOk result (λ text. text.items ≡ spec.first_address network.now) }
{
    let first = Addr {
        family: network.family,
        value: network.value,
    };
    let mut text = Vec::new(alloc);
    print_addr(&first, &mut text)?;
    Ok(text)
}

#[tactic(auto, unfolding(crate::specs::Texts::length_member))]
fn put_length(out: &mut Vec<u8>, network: &Prefix) -> Result<(), AllocError>
    ensures { OnOk result (out.new.items ≡ out.old.items ++ spec.length_member network.now) }
{
    put_number_member(out, b"{", b"mask_length", u64::from(network.len))
}

fn put_network(out: &mut Vec<u8>, network: &Prefix) -> Result<(), AllocError>
    ensures { OnOk result (out.new.items ≡ out.old.items ++ spec.network_text network.now) }
{
    let address = first_address(*out.allocator(), network)?;
    put_length(out, network)?;
    put_text_member(out, b",", b"prefix", address.as_slice())?;
    put(out, b"}")
}

#[tactic(auto, unfolding(crate::specs::Texts::network_member))]
fn put_network_member(
    out: &mut Vec<u8>,
    mark: &[u8],
    name: &[u8],
    network: Option<Prefix>,
) -> Result<(), AllocError>
    ensures { OnOk result (out.new.items ≡ out.old.items ++ spec.network_member mark.now name.now network) }
{
    match network {
        Some(network) => {
            put_name(out, mark, name)?;
            put_network(out, &network)
        }
        None => Ok(()),
    }
}

struct VlanJson {}

impl Writes for VlanJson {
    type Item = Vlan;

    ghost text_of = { spec.vlan_text };

    fn write(item: &Vlan, out: &mut Vec<u8>) -> Result<(), AllocError> {
        put_number_member(out, b"{", b"id", u64::from(item.number))?;
        put_network_member(out, b",", b"ipv4", item.v4)?;
        put_network_member(out, b",", b"ipv6", item.v6)?;
        put_text_member(out, b",", b"name", item.name.as_slice())?;
        put(out, b"}")
    }
}

struct SwitchJson {}

impl Writes for SwitchJson {
    type Item = Switch;

    ghost text_of = { spec.switch_text };

    fn write(item: &Switch, out: &mut Vec<u8>) -> Result<(), AllocError> {
        put_number_member(out, b"{", b"id", u64::from(item.number))?;
        put_text_member(out, b",", b"name", item.name.as_slice())?;
        put(out, b"}")
    }
}

/// Adds the exchange. Where memory runs out, a first part of it may be there.
pub(crate) fn put_exchange(out: &mut Vec<u8>, registry: &Registry) -> Result<(), AllocError>
    ensures { OnOk result (out.new.items ≡ out.old.items ++ spec.exchange_text registry.now) }
{
    let site = &registry.site;
    put_number_member(out, b"{", b"ixf_id", u64::from(site.ixf_id))?;
    put_number_member(out, b",", b"ixp_id", u64::from(site.ixp_id))?;
    put_text_member(out, b",", b"shortname", site.shortname.as_slice())?;
    put_list_member::<SwitchJson>(out, b",", b"switch", registry.switches.as_slice())?;
    put_list_member::<VlanJson>(out, b",", b"vlan", registry.vlans.as_slice())?;
    put(out, b"}")
}
