//! Printing dumps.
ghost use Rattle.std.specs.Prelude.{
  ◌≡◌,
  ◌≤◌,
  ◌^◌,
  ◌++◌,
  ◌+◌,
  OnOk,
  OnErr,
  IfSome,
  IfNone,
  flat_map,
  map,
  length,
};
ghost use Rattle.ixp_rows_lines.specs.declared.version.Version.TheVariants.{Two};
ghost use Rattle.ixp_rows_lines.specs.Lines.{
  text_of,
  interface_line,
  address_line,
  prefix_line,
  origin_line,
  rule_line,
};
ghost use Rattle.ixp_registry.specs.Registries.{
  rows_of,
  bare,
  addresses_of,
  address_rows,
  prefixes_of,
  origins_of,
  rules_in,
};
ghost use Rattle.ixp_rows.specs.Texts.{lines_by, lines_text, rows_count, dump_text};
ghost use Rattle.ixp_rows.specs.Reading.{head_text, end_text, sum};
ghost use Rattle.ixp_rows.specs.Printing.{kind_lines, kind_count};

use ixp_num::Family;
use ixp_num_tables::{put, put_number, put_whole};
use ixp_registry::{
    IfAddr, Interface, IrrList, KINDS, MemberOrigin, MemberPrefix, OriginList, Registry, RuleList,
};
use ixp_rows_lines::{Kind, Lined, Version, print_address};
use std::alloc::AllocError;

fn put_rows<K: Lined>(rows: &[K], out: &mut Vec<u8>) -> Result<(), AllocError>
    ensures { OnOk result
        (out.new.items ≡ out.old.items ++ flat_map (λ row. text_of K.row_kind (K.fields Two row)) rows.now) }
{
    for row in rows {
        row.print(Version::Two, out)?;
    }
    Ok(())
}

fn put_interfaces(interfaces: &[Interface], out: &mut Vec<u8>) -> Result<(), AllocError>
    ensures { OnOk result
        (out.new.items ≡ out.old.items ++ lines_by interface_line (map bare interfaces.now)) }
{
    for interface in interfaces {
        interface.bare().print(Version::Two, out)?;
    }
    Ok(())
}

fn put_address(
    interface: u32,
    address: &Option<IfAddr>,
    out: &mut Vec<u8>,
) -> Result<(), AllocError>
    ensures { OnOk result
        (out.new.items ≡ out.old.items ++ lines_by address_line (address_rows interface address.now)) }
{
    if let Some(address) = address {
        print_address(interface, address, out)?;
    }
    Ok(())
}

#[tactic(auto, using(crate::proofs::Printed::addresses_more))]
fn put_addresses(interfaces: &[Interface], out: &mut Vec<u8>) -> Result<(), AllocError>
    ensures { OnOk result
        (out.new.items ≡ out.old.items ++ lines_by address_line (flat_map addresses_of interfaces.now)) }
{
    for interface in interfaces {
        put_address(interface.number, &interface.v4, out)?;
        put_address(interface.number, &interface.v6, out)?;
    }
    Ok(())
}

fn put_list(list: &IrrList, out: &mut Vec<u8>) -> Result<(), AllocError>
    ensures { OnOk result (out.new.items ≡ out.old.items ++ lines_by prefix_line (prefixes_of list.now)) }
{
    for prefix in list.prefixes.as_slice() {
        let row = MemberPrefix {
            member: list.member,
            prefix: *prefix,
        };
        row.print(Version::Two, out)?;
    }
    Ok(())
}

#[tactic(auto, using(crate::proofs::Printed::lists_more))]
fn put_lists(lists: &[IrrList], out: &mut Vec<u8>) -> Result<(), AllocError>
    ensures { OnOk result
        (out.new.items ≡ out.old.items ++ lines_by prefix_line (flat_map prefixes_of lists.now)) }
{
    for list in lists {
        put_list(list, out)?;
    }
    Ok(())
}

fn put_origin_list(list: &OriginList, out: &mut Vec<u8>) -> Result<(), AllocError>
    ensures { OnOk result (out.new.items ≡ out.old.items ++ lines_by origin_line (origins_of list.now)) }
{
    for asn in list.asns.as_slice() {
        let row = MemberOrigin {
            member: list.member,
            family: list.family,
            asn: *asn,
        };
        row.print(Version::Two, out)?;
    }
    Ok(())
}

#[tactic(auto, using(crate::proofs::Printed::origin_lists_more))]
fn put_origin_lists(lists: &[OriginList], out: &mut Vec<u8>) -> Result<(), AllocError>
    ensures { OnOk result
        (out.new.items ≡ out.old.items ++ lines_by origin_line (flat_map origins_of lists.now)) }
{
    for list in lists {
        put_origin_list(list, out)?;
    }
    Ok(())
}

#[tactic(auto, using(crate::proofs::Printed::rule_lists_more))]
fn put_rule_lists(lists: &[RuleList], out: &mut Vec<u8>) -> Result<(), AllocError>
    ensures { OnOk result
        (out.new.items ≡ out.old.items ++ lines_by rule_line (flat_map rules_in lists.now)) }
{
    for list in lists {
        put_rows(list.rules.as_slice(), out)?;
    }
    Ok(())
}

fn put_kind(registry: &Registry, kind: Kind, out: &mut Vec<u8>) -> Result<(), AllocError>
    ensures { OnOk result (out.new.items ≡ out.old.items ++ kind_lines Two (rows_of registry.now) kind) }
{
    match kind {
        Kind::Sites => registry.site.print(Version::Two, out),
        Kind::Members => put_rows(registry.members.as_slice(), out),
        Kind::Contacts => put_rows(registry.contacts.as_slice(), out),
        Kind::Keys => put_rows(registry.keys.as_slice(), out),
        Kind::Switches => put_rows(registry.switches.as_slice(), out),
        Kind::Ports => put_rows(registry.ports.as_slice(), out),
        Kind::Vlans => put_rows(registry.vlans.as_slice(), out),
        Kind::Interfaces => put_interfaces(registry.interfaces.as_slice(), out),
        Kind::Addresses => put_addresses(registry.interfaces.as_slice(), out),
        Kind::Routers => put_rows(registry.routers.as_slice(), out),
        Kind::Prefixes => put_lists(registry.irr.as_slice(), out),
        Kind::Origins => put_origin_lists(registry.origins.as_slice(), out),
        Kind::Rules => put_rule_lists(registry.rules.as_slice(), out),
        Kind::Bogons => put_rows(registry.public.bogons.as_slice(), out),
        Kind::BogonAs => put_rows(registry.public.bogon_as.as_slice(), out),
        Kind::Transit => put_rows(registry.public.transit.as_slice(), out),
        Kind::Roas => put_rows(registry.public.roas.as_slice(), out),
    }
}

fn put_kinds(registry: &Registry, kinds: &[Kind], out: &mut Vec<u8>) -> Result<(), AllocError>
    ensures { OnOk result
        (out.new.items ≡ out.old.items ++ flat_map (kind_lines Two (rows_of registry.now)) kinds.now) }
{
    for kind in kinds {
        put_kind(registry, *kind, out)?;
    }
    Ok(())
}

fn addresses_of(interface: &Interface) -> usize
    ensures count { result ≡ length (addresses_of interface.now) }
{
    match (&interface.v4, &interface.v6) {
        (None, None) => 0,
        (Some(_), None) => 1,
        (None, Some(_)) => 1,
        (Some(_), Some(_)) => 2,
    }
}

#[tactic(auto, using(crate::proofs::Printed::addresses_counted))]
fn count_addresses(interfaces: &[Interface]) -> Option<usize>
    ensures some { IfSome result (λ n. n ≡ length (flat_map addresses_of interfaces.now)) }
    ensures none { IfNone result (2 ^ 64 ≤ length (flat_map addresses_of interfaces.now)) }
{
    let mut count = 0usize;
    for interface in interfaces {
        count = count.checked_add(addresses_of(interface))?;
    }
    Some(count)
}

#[tactic(auto, using(crate::proofs::Printed::prefixes_counted))]
fn count_prefixes(lists: &[IrrList]) -> Option<usize>
    ensures some { IfSome result (λ n. n ≡ length (flat_map prefixes_of lists.now)) }
    ensures none { IfNone result (2 ^ 64 ≤ length (flat_map prefixes_of lists.now)) }
{
    let mut count = 0usize;
    for list in lists {
        count = count.checked_add(list.prefixes.len())?;
    }
    Some(count)
}

#[tactic(auto, using(crate::proofs::Printed::origins_counted))]
fn count_origins(lists: &[OriginList]) -> Option<usize>
    ensures some { IfSome result (λ n. n ≡ length (flat_map origins_of lists.now)) }
    ensures none { IfNone result (2 ^ 64 ≤ length (flat_map origins_of lists.now)) }
{
    let mut count = 0usize;
    for list in lists {
        count = count.checked_add(list.asns.len())?;
    }
    Some(count)
}

#[tactic(auto, using(crate::proofs::Printed::rules_counted))]
fn count_rules(lists: &[RuleList]) -> Option<usize>
    ensures some { IfSome result (λ n. n ≡ length (flat_map rules_in lists.now)) }
    ensures none { IfNone result (2 ^ 64 ≤ length (flat_map rules_in lists.now)) }
{
    let mut count = 0usize;
    for list in lists {
        count = count.checked_add(list.rules.len())?;
    }
    Some(count)
}

fn count_kind(registry: &Registry, kind: Kind) -> Option<usize>
    ensures some { IfSome result (λ n. n ≡ kind_count (rows_of registry.now) kind) }
    ensures none { IfNone result (2 ^ 64 ≤ kind_count (rows_of registry.now) kind) }
{
    match kind {
        Kind::Sites => Some(1),
        Kind::Members => Some(registry.members.len()),
        Kind::Contacts => Some(registry.contacts.len()),
        Kind::Keys => Some(registry.keys.len()),
        Kind::Switches => Some(registry.switches.len()),
        Kind::Ports => Some(registry.ports.len()),
        Kind::Vlans => Some(registry.vlans.len()),
        Kind::Interfaces => Some(registry.interfaces.len()),
        Kind::Addresses => count_addresses(registry.interfaces.as_slice()),
        Kind::Routers => Some(registry.routers.len()),
        Kind::Prefixes => count_prefixes(registry.irr.as_slice()),
        Kind::Origins => count_origins(registry.origins.as_slice()),
        Kind::Rules => count_rules(registry.rules.as_slice()),
        Kind::Bogons => Some(registry.public.bogons.len()),
        Kind::BogonAs => Some(registry.public.bogon_as.len()),
        Kind::Transit => Some(registry.public.transit.len()),
        Kind::Roas => Some(registry.public.roas.len()),
    }
}

/// How many rows of the kinds there are; None where their number doesn't fit.
fn count_kinds(registry: &Registry, kinds: &[Kind]) -> Option<usize>
    ensures some { IfSome result (λ n. n ≡ sum (map (kind_count (rows_of registry.now)) kinds.now)) }
    ensures none { IfNone result (2 ^ 64 ≤ sum (map (kind_count (rows_of registry.now)) kinds.now)) }
{
    let mut count = 0usize;
    for kind in kinds {
        count = count.checked_add(count_kind(registry, *kind)?)?;
    }
    Some(count)
}

/// How many rows a registry's dump has, which is how many lines stand between its first and its last; None
/// where their number doesn't fit.
#[tactic(auto, using(crate::proofs::Printed::all_counted))]
pub fn rows_count(registry: &Registry) -> Option<usize>
    ensures some { IfSome result (λ n. n ≡ rows_count (rows_of registry.now)) }
    ensures none { IfNone result (2 ^ 64 ≤ rows_count (rows_of registry.now)) }
{
    count_kinds(registry, &KINDS)
}

#[tactic(auto, using(crate::proofs::Printed::all_lines))]
fn put_lines(registry: &Registry, out: &mut Vec<u8>) -> Result<(), AllocError>
    ensures { OnOk result (out.new.items ≡ out.old.items ++ lines_text Two (rows_of registry.now)) }
{
    put_kinds(registry, &KINDS, out)?;
    Ok(())
}

fn put_end(lines: usize, out: &mut Vec<u8>) -> Result<(), AllocError>
    ensures { OnOk result (out.new.items ≡ out.old.items ++ end_text lines) }
{
    put(out, b"end ")?;
    put_number(out, lines as u64)?;
    put(out, b"\n")?;
    Ok(())
}

fn put_head(out: &mut Vec<u8>) -> Result<(), AllocError>
    ensures { OnOk result (out.new.items ≡ out.old.items ++ head_text Two) }
{
    put(out, b"ixp-registry 2\n")?;
    Ok(())
}

fn put_dump(registry: &Registry, out: &mut Vec<u8>) -> Result<(), AllocError>
    ensures { OnOk result (out.new.items ≡ out.old.items ++ dump_text Two (rows_of registry.now)) }
{
    let Some(lines) = rows_count(registry) else {
        return Err(AllocError);
    };
    put_head(out)?;
    put_lines(registry, out)?;
    put_end(lines, out)?;
    Ok(())
}

/// Adds the dump of a registry, in version 2 of the format.
pub fn print_dump(registry: &Registry, out: &mut Vec<u8>) -> Result<(), AllocError>
    ensures ok { OnOk result (out.new.items ≡ out.old.items ++ dump_text Two (rows_of registry.now)) }
    ensures err { OnErr result (out.new.items ≡ out.old.items) }
{
    let mut text = Vec::new(*out.allocator());
    put_dump(registry, &mut text)?;
    put_whole(out, text)
}
