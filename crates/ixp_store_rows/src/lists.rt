//! Rows of interfaces, their addresses, and members' lists.
ghost use Rattle.std.specs.Prelude.{◌≡◌, ◌++◌, OnOk, IfOk, map, flat_map};
ghost use Rattle.ixp_num.specs.AddressForms.{version_of};
ghost use Rattle.ixp_registry.specs.Registries.{bare, prefixes_of, origins_of};
ghost use Rattle.ixp_registry.specs.Registries.{address_rows as addresses_in};
ghost use Rattle.ixp_rows_lines.specs.Lines.{
  interface_line,
  address_line,
  line_text,
  prefix_line,
  origin_line,
};
ghost use Rattle.ixp_store_rows.specs.Names.{line_row, list_name, irr_row, origins_row};
ghost use Rattle.ixp_store_rows.specs.States.{address_rows, rule_rows, set_row};

use crate::keys::{place_of, put_of_family};
use crate::rows::{set_row, set_rows};
use ixp_io::{Change, RowName};
use ixp_num::Family;
use ixp_num_tables::{Copied, Items};
use ixp_registry::{
    AddressRow, IfAddr, Interface, IrrList, MemberOrigin, MemberPrefix, OriginList, RuleList,
};
use ixp_rows_lines::{Kind, Lined, Version};
use std::alloc::{AllocError, Global};

pub(crate) fn set_interface(alloc: Global, interface: &Interface) -> Result<Change, AllocError>
    ensures { IfOk result (λ change. change ≡ set_row (line_row (interface_line (bare interface.now)))) }
{
    set_row(alloc, &interface.bare())
}

pub(crate) fn set_interfaces(
    alloc: Global,
    interfaces: &[Interface],
    batch: &mut Vec<Change>,
) -> Result<(), AllocError>
    ensures { OnOk result
        (batch.new.items ≡ batch.old.items
        ++ map set_row (map (λ i. line_row (interface_line (bare i))) interfaces.now)) }
{
    for interface in interfaces {
        batch.push(set_interface(alloc, interface)?)?;
    }
    Ok(())
}

/// The name of what a member or an interface has of a family.
pub fn list_name(
    alloc: Global,
    kind: Kind,
    number: u32,
    family: Family,
) -> Result<RowName, AllocError>
    ensures { IfOk result (λ name. name ≡ list_name kind number family) }
{
    let mut key = Vec::new(alloc);
    put_of_family(number, family, &mut key)?;
    Ok(RowName {
        kind: place_of(kind),
        key: Items::from_vec(key),
    })
}

pub(crate) fn set_address(
    alloc: Global,
    interface: u32,
    address: &IfAddr,
) -> Result<Change, AllocError>
    ensures { IfOk result
        (λ change. change ≡ set_row
        (line_row (address_line (record { interface = interface; address = address.now })))) }
{
    let row = AddressRow {
        interface,
        address: address.copied(alloc)?,
    };
    set_row(alloc, &row)
}

fn set_column(
    alloc: Global,
    interface: u32,
    column: &Option<IfAddr>,
    batch: &mut Vec<Change>,
) -> Result<(), AllocError>
    ensures { OnOk result
        (batch.new.items ≡ batch.old.items
        ++ map set_row (map (λ a. line_row (address_line a)) (addresses_in interface column.now))) }
{
    if let Some(address) = column {
        batch.push(set_address(alloc, interface, address)?)?;
    }
    Ok(())
}

pub(crate) fn set_addresses_of(
    alloc: Global,
    interface: &Interface,
    batch: &mut Vec<Change>,
) -> Result<(), AllocError>
    ensures { OnOk result (batch.new.items ≡ batch.old.items ++ map set_row (address_rows interface.now)) }
{
    set_column(alloc, interface.number, &interface.v4, batch)?;
    set_column(alloc, interface.number, &interface.v6, batch)
}

pub(crate) fn set_addresses(
    alloc: Global,
    interfaces: &[Interface],
    batch: &mut Vec<Change>,
) -> Result<(), AllocError>
    ensures { OnOk result
        (batch.new.items ≡ batch.old.items ++ map set_row (flat_map address_rows interfaces.now)) }
{
    for interface in interfaces {
        set_addresses_of(alloc, interface, batch)?;
    }
    Ok(())
}

fn irr_body(alloc: Global, list: &IrrList) -> Result<Items<u8>, AllocError>
    ensures { IfOk result (λ body. body ≡ (irr_row list.now).1) }
{
    let mut text = Vec::new(alloc);
    for prefix in list.prefixes.as_slice() {
        let row = MemberPrefix {
            member: list.member,
            prefix: *prefix,
        };
        row.print(Version::Two, &mut text)?;
    }
    Ok(Items::from_vec(text))
}

pub(crate) fn set_irr(alloc: Global, list: &IrrList) -> Result<Change, AllocError>
    ensures { IfOk result (λ change. change ≡ set_row (irr_row list.now)) }
{
    Ok(Change {
        name: list_name(alloc, Kind::Prefixes, list.member, list.family)?,
        body: Some(irr_body(alloc, list)?),
    })
}

pub(crate) fn set_all_irr(
    alloc: Global,
    lists: &[IrrList],
    batch: &mut Vec<Change>,
) -> Result<(), AllocError>
    ensures { OnOk result (batch.new.items ≡ batch.old.items ++ map set_row (map irr_row lists.now)) }
{
    for list in lists {
        batch.push(set_irr(alloc, list)?)?;
    }
    Ok(())
}

fn origins_body(alloc: Global, list: &OriginList) -> Result<Items<u8>, AllocError>
    ensures { IfOk result (λ body. body ≡ (origins_row list.now).1) }
{
    let mut text = Vec::new(alloc);
    for asn in list.asns.as_slice() {
        let row = MemberOrigin {
            member: list.member,
            family: list.family,
            asn: *asn,
        };
        row.print(Version::Two, &mut text)?;
    }
    Ok(Items::from_vec(text))
}

pub(crate) fn set_origins(alloc: Global, list: &OriginList) -> Result<Change, AllocError>
    ensures { IfOk result (λ change. change ≡ set_row (origins_row list.now)) }
{
    Ok(Change {
        name: list_name(alloc, Kind::Origins, list.member, list.family)?,
        body: Some(origins_body(alloc, list)?),
    })
}

pub(crate) fn set_all_origins(
    alloc: Global,
    lists: &[OriginList],
    batch: &mut Vec<Change>,
) -> Result<(), AllocError>
    ensures { OnOk result (batch.new.items ≡ batch.old.items ++ map set_row (map origins_row lists.now)) }
{
    for list in lists {
        batch.push(set_origins(alloc, list)?)?;
    }
    Ok(())
}

pub(crate) fn set_rules(
    alloc: Global,
    list: &RuleList,
    batch: &mut Vec<Change>,
) -> Result<(), AllocError>
    ensures { OnOk result (batch.new.items ≡ batch.old.items ++ map set_row (rule_rows list.now)) }
{
    set_rows(alloc, list.rules.as_slice(), batch)
}

pub(crate) fn set_all_rules(
    alloc: Global,
    lists: &[RuleList],
    batch: &mut Vec<Change>,
) -> Result<(), AllocError>
    ensures { OnOk result (batch.new.items ≡ batch.old.items ++ map set_row (flat_map rule_rows lists.now)) }
{
    for list in lists {
        set_rules(alloc, list, batch)?;
    }
    Ok(())
}
