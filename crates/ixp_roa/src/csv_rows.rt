//! Fields of ROAs in CSV.
ghost use Rattle.std.specs.Prelude.{◌≡◌, ◌≤◌, ℕ, min, MatchOption, ◌&&◌, nat_le, Ok, Err};
ghost use Rattle.ixp_num.specs.declared.asn.Asn.{Asn};
ghost use Rattle.ixp_num.specs.declared.prefix.Prefix.{Prefix};
ghost use Rattle.ixp_num.specs.Families.{bits_of};
ghost use Rattle.ixp_num.specs.Answers.{AsnAnswer, PrefixAnswer};
ghost use Rattle.ixp_roa.specs.CsvRoas.{without_as, IsMaxField, FieldsAnswer};

use crate::fault::Misfit;
use ixp_num::{Asn, Prefix, Roa, number_of, read_asn, read_prefix};

/// A field without `AS` before its number.
fn without_as(field: &[u8]) -> &[u8]
    ensures { result.now ≡ without_as field.now }
{
    match field {
        [b'A', b'S', rest @ ..] => rest,
        _ => field,
    }
}

/// The AS number of a field, with or without `AS` before it.
fn asn_field(field: &[u8]) -> Option<Asn>
    ensures { MatchOption result (¬ ((a : Asn) × AsnAnswer (without_as field.now) (Ok a)))
        (λ a. AsnAnswer (without_as field.now) (Ok a)) }
{
    match read_asn(without_as(field)) {
        Ok(asn) => Some(asn),
        Err(_) => None,
    }
}

/// The prefix of a field.
fn prefix_field(field: &[u8]) -> Option<Prefix>
    ensures { MatchOption result (¬ ((p : Prefix) × PrefixAnswer field.now (Ok p)))
        (λ p. PrefixAnswer field.now (Ok p)) }
{
    match read_prefix(field) {
        Ok(prefix) => Some(prefix),
        Err(_) => None,
    }
}

/// The max length of a field, which is the prefix's where the field is empty. A number above 4294967295 is
/// told as 4294967296.
fn max_field(field: &[u8], net: &Prefix) -> Option<u64>
    ensures { MatchOption result (¬ ((n : ℕ) × IsMaxField field.now net.now n))
        (λ m. (n : ℕ) × IsMaxField field.now net.now n × (m ≡ min 4294967296 n)) }
{
    if field.is_empty() {
        return Some(u64::from(net.len));
    }
    match number_of(field) {
        Ok((number, rest)) => { if rest.is_empty() { Some(number) } else { None } }
        Err(_) => None,
    }
}

/// Whether prefixes within this one can have the length.
fn is_length(net: &Prefix, max: u64) -> bool
    ensures { result ≡ (nat_le net.now.len max && nat_le max (bits_of net.now.family)) }
{
    u64::from(net.len) <= max && max <= u64::from(net.family.bits())
}

/// The ROA of a row's first three fields.
pub(crate) fn roa_in(asn: &[u8], net: &[u8], max: &[u8]) -> Result<Roa, Misfit>
    ensures { FieldsAnswer asn.now net.now max.now result }
{
    let Some(asn) = asn_field(asn) else {
        return Err(Misfit::Form);
    };
    let Some(prefix) = prefix_field(net) else {
        return Err(Misfit::Form);
    };
    let Some(max) = max_field(max, &prefix) else {
        return Err(Misfit::Form);
    };
    if !is_length(&prefix, max) {
        return Err(Misfit::MaxLength);
    }
    Ok(Roa {
        prefix,
        max: max as u8,
        asn,
    })
}
