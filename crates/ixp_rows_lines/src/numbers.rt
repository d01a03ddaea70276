//! Fields of numbers, addresses and prefixes.
ghost use Rattle.std.specs.Prelude.{◌≡◌, codes, IfOk};
ghost use Rattle.ixp_num.specs.Printing.{addr_text, prefix_text, bounds_text};
ghost use Rattle.ixp_num_tables.specs.Tables.{same};
ghost use Rattle.ixp_num.specs.declared.family.Family.TheVariants.{V4};
ghost use Rattle.ixp_rows_lines.specs.Fields.{
  Number,
  Octet,
  Address,
  ANumber,
  AnOctet,
  AnAddress,
  AnIdentifier,
  ANet,
  ABounds,
  Or,
};
ghost use Rattle.ixp_rows_lines.specs.Lines.{address_field, net_field, bounds_field, asn_field, field_or};
ghost use Rattle.ixp_rows_lines.specs.Reading.{Gives, value_of, piece_at};

use crate::fault::Unread;
use crate::fields::field_of;
use ixp_num::{
    Addr, Asn, Family, Pattern, Prefix, print_addr, print_pattern_bounds, print_prefix, read_addr,
    read_asn, read_pattern, read_prefix,
};
use std::alloc::{AllocError, Global};

#[tactic(auto, unfolding(crate::specs::Reading::value_of))]
fn number_in(field: &[u8]) -> Result<u32, Unread>
    ensures { Gives (λ x. Number x) result (value_of ANumber field.now) }
{
    match read_asn(field) {
        Ok(Asn(number)) => Ok(number),
        Err(_) => Err(Unread::Bad),
    }
}

#[tactic(auto, using(crate::proofs::Values::octet_value))]
fn octet_in(field: &[u8]) -> Result<u8, Unread>
    ensures { Gives (λ x. Octet x) result (value_of AnOctet field.now) }
{
    let number = number_in(field)?;
    if number < 256 {
        Ok(number as u8)
    } else {
        Err(Unread::Bad)
    }
}

fn is_address_text(alloc: Global, addr: &Addr, field: &[u8]) -> Result<bool, AllocError>
    ensures { IfOk result (λ b. b ≡ same (addr_text addr.now) field.now) }
{
    let mut text = Vec::new(alloc);
    print_addr(addr, &mut text)?;
    Ok(text.as_slice() == field)
}

#[tactic(auto, using(crate::proofs::Values::address_laws))]
fn address_in(alloc: Global, field: &[u8]) -> Result<Addr, Unread>
    ensures { Gives address_field result (value_of AnAddress field.now) }
{
    match read_addr(field) {
        Ok(addr) => {
            if is_address_text(alloc, &addr, field)? {
                Ok(addr)
            } else {
                Err(Unread::Bad)
            }
        }
        Err(_) => Err(Unread::Bad),
    }
}

fn is_net_text(alloc: Global, net: &Prefix, field: &[u8]) -> Result<bool, AllocError>
    ensures { IfOk result (λ b. b ≡ same (prefix_text net.now) field.now) }
{
    let mut text = Vec::new(alloc);
    print_prefix(net, &mut text)?;
    Ok(text.as_slice() == field)
}

#[tactic(auto, using(crate::proofs::Values::net_laws))]
fn net_in(alloc: Global, field: &[u8]) -> Result<Prefix, Unread>
    ensures { Gives net_field result (value_of ANet field.now) }
{
    match read_prefix(field) {
        Ok(net) => {
            if is_net_text(alloc, &net, field)? {
                Ok(net)
            } else {
                Err(Unread::Bad)
            }
        }
        Err(_) => Err(Unread::Bad),
    }
}

fn is_bounds_text(alloc: Global, pattern: &Pattern, field: &[u8]) -> Result<bool, AllocError>
    ensures { IfOk result (λ b. b ≡ same (bounds_text pattern.now) field.now) }
{
    let mut text = Vec::new(alloc);
    print_pattern_bounds(pattern, &mut text)?;
    Ok(text.as_slice() == field)
}

#[tactic(auto, using(crate::proofs::Values::bounds_laws))]
fn bounds_in(alloc: Global, field: &[u8]) -> Result<Pattern, Unread>
    ensures { Gives bounds_field result (value_of ABounds field.now) }
{
    match read_pattern(field) {
        Ok(pattern) => {
            if is_bounds_text(alloc, &pattern, field)? {
                Ok(pattern)
            } else {
                Err(Unread::Bad)
            }
        }
        Err(_) => Err(Unread::Bad),
    }
}

#[tactic(auto, unfolding(crate::specs::Reading::value_of))]
fn identifier_in(alloc: Global, field: &[u8]) -> Result<u32, Unread>
    ensures { Gives (λ x. Address V4 x) result (value_of AnIdentifier field.now) }
{
    let addr = address_in(alloc, field)?;
    match addr.family {
        Family::V4 => Ok(addr.value as u32),
        Family::V6 => Err(Unread::Bad),
    }
}

/// A number.
pub(crate) fn number_of(rest: &[u8]) -> Result<(u32, &[u8]), Unread>
    ensures { Gives (λ x. (Number x.0, x.1.now)) result (piece_at ANumber rest.now) }
{
    let (field, rest) = field_of(rest)?;
    Ok((number_in(field)?, rest))
}

/// An AS number.
pub(crate) fn asn_of(rest: &[u8]) -> Result<(Asn, &[u8]), Unread>
    ensures { Gives (λ x. (asn_field x.0, x.1.now)) result (piece_at ANumber rest.now) }
{
    let (number, rest) = number_of(rest)?;
    Ok((Asn(number), rest))
}

/// A number of 8 bits.
pub(crate) fn octet_of(rest: &[u8]) -> Result<(u8, &[u8]), Unread>
    ensures { Gives (λ x. (Octet x.0, x.1.now)) result (piece_at AnOctet rest.now) }
{
    let (field, rest) = field_of(rest)?;
    Ok((octet_in(field)?, rest))
}

/// An address.
pub(crate) fn address_of(alloc: Global, rest: &[u8]) -> Result<(Addr, &[u8]), Unread>
    ensures { Gives (λ x. (address_field x.0, x.1.now)) result (piece_at AnAddress rest.now) }
{
    let (field, rest) = field_of(rest)?;
    Ok((address_in(alloc, field)?, rest))
}

/// An IPv4 address, as a number.
pub(crate) fn identifier_of(alloc: Global, rest: &[u8]) -> Result<(u32, &[u8]), Unread>
    ensures { Gives (λ x. (Address V4 x.0, x.1.now)) result (piece_at AnIdentifier rest.now) }
{
    let (field, rest) = field_of(rest)?;
    Ok((identifier_in(alloc, field)?, rest))
}

/// A prefix.
pub(crate) fn net_of(alloc: Global, rest: &[u8]) -> Result<(Prefix, &[u8]), Unread>
    ensures { Gives (λ x. (net_field x.0, x.1.now)) result (piece_at ANet rest.now) }
{
    let (field, rest) = field_of(rest)?;
    Ok((net_in(alloc, field)?, rest))
}

/// A pattern with its bounds.
pub(crate) fn bounds_of(alloc: Global, rest: &[u8]) -> Result<(Pattern, &[u8]), Unread>
    ensures { Gives (λ x. (bounds_field x.0, x.1.now)) result (piece_at ABounds rest.now) }
{
    let (field, rest) = field_of(rest)?;
    Ok((bounds_in(alloc, field)?, rest))
}

#[tactic(auto, using(crate::proofs::Values::or_laws))]
fn address_or(alloc: Global, word: &[u8], field: &[u8]) -> Result<Option<Addr>, Unread>
    ensures { Gives (λ x. field_or word.now address_field x) result
        (value_of (Or word.now AnAddress) field.now) }
{
    if field == word {
        return Ok(None);
    }
    match address_in(alloc, field) {
        Ok(addr) => Ok(Some(addr)),
        Err(unread) => Err(unread),
    }
}

#[tactic(auto, using(crate::proofs::Values::or_laws))]
fn net_or(alloc: Global, word: &[u8], field: &[u8]) -> Result<Option<Prefix>, Unread>
    ensures { Gives (λ x. field_or word.now net_field x) result (value_of (Or word.now ANet) field.now) }
{
    if field == word {
        return Ok(None);
    }
    match net_in(alloc, field) {
        Ok(net) => Ok(Some(net)),
        Err(unread) => Err(unread),
    }
}

#[tactic(auto, using(crate::proofs::Values::or_laws))]
fn asn_or(word: &[u8], field: &[u8]) -> Result<Option<Asn>, Unread>
    ensures { Gives (λ x. field_or word.now asn_field x) result (value_of (Or word.now ANumber) field.now) }
{
    if field == word {
        return Ok(None);
    }
    match number_in(field) {
        Ok(number) => Ok(Some(Asn(number))),
        Err(unread) => Err(unread),
    }
}

/// An address, or `-`.
pub(crate) fn address_or_dash(alloc: Global, rest: &[u8]) -> Result<(Option<Addr>, &[u8]), Unread>
    ensures { Gives (λ x. (field_or (codes "-") address_field x.0, x.1.now)) result
        (piece_at (Or (codes "-") AnAddress) rest.now) }
{
    let (field, rest) = field_of(rest)?;
    Ok((address_or(alloc, b"-", field)?, rest))
}

/// A prefix, or `-`.
pub(crate) fn net_or_dash(alloc: Global, rest: &[u8]) -> Result<(Option<Prefix>, &[u8]), Unread>
    ensures { Gives (λ x. (field_or (codes "-") net_field x.0, x.1.now)) result
        (piece_at (Or (codes "-") ANet) rest.now) }
{
    let (field, rest) = field_of(rest)?;
    Ok((net_or(alloc, b"-", field)?, rest))
}

/// A prefix, or `*`.
pub(crate) fn net_or_star(alloc: Global, rest: &[u8]) -> Result<(Option<Prefix>, &[u8]), Unread>
    ensures { Gives (λ x. (field_or (codes "*") net_field x.0, x.1.now)) result
        (piece_at (Or (codes "*") ANet) rest.now) }
{
    let (field, rest) = field_of(rest)?;
    Ok((net_or(alloc, b"*", field)?, rest))
}

/// An AS number, or `*`.
pub(crate) fn asn_or_star(rest: &[u8]) -> Result<(Option<Asn>, &[u8]), Unread>
    ensures { Gives (λ x. (field_or (codes "*") asn_field x.0, x.1.now)) result
        (piece_at (Or (codes "*") ANumber) rest.now) }
{
    let (field, rest) = field_of(rest)?;
    Ok((asn_or(b"*", field)?, rest))
}
