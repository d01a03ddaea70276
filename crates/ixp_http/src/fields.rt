//! The fields of a request.
ghost use Rattle.std.specs.Prelude.{◌≡◌, ◌<◌, ◌≤◌, ◌∷◌, ℕ, option_map, slice_get, length, codes, IfSome};
ghost use Rattle.ixp_num_tables.specs.Decimals.{number_upto};
ghost use Rattle.ixp_http.specs.Fields as spec;
ghost use Rattle.ixp_http.specs.declared.fields.Need.TheVariants.{Body};

use ixp_num_tables::{Items, number_upto};

/// The greatest length of a body, in bytes.
pub const BODY_LIMIT: usize = 67_108_864;

/// A field of a request.
#[derive(Debug, Drop)]
pub struct Field {
    pub name: Items<u8>,
    /// The value, without the blanks around it.
    pub value: Items<u8>,
}

/// What the fields of a head say of the body.
#[derive(Clone, Copy, Debug, PartialEq, Eq, Drop)]
pub(crate) enum Need {
    /// The request is refused with this status.
    Refused(u16),
    /// The body has so many bytes.
    Body(usize),
}

// Whether two texts are the same, case aside.
fn alike(text: &[u8], other: &[u8]) -> bool
    ensures { result ≡ spec.alike text.now other.now }
{
    let mut text = text;
    let mut other = other;
    while let [a, text_more @ ..] = text {
        let [b, other_more @ ..] = other else {
            return false;
        };
        if a.to_ascii_lowercase() != b.to_ascii_lowercase() {
            return false;
        }
        text = text_more;
        other = other_more;
    }
    other.is_empty()
}

// Whether two texts are the same.
fn same_bytes(text: &[u8], other: &[u8]) -> bool
    ensures { result ≡ spec.same_bytes text.now other.now }
{
    let mut text = text;
    let mut other = other;
    while let [a, text_more @ ..] = text {
        let [b, other_more @ ..] = other else {
            return false;
        };
        if a != b {
            return false;
        }
        text = text_more;
        other = other_more;
    }
    other.is_empty()
}

/// The value of the first field with the name, case aside.
pub fn first_value<'a>(fields: &'a [Field], name: &[u8]) -> Option<&'a [u8]>
    ensures { option_map (λ v. v.now) result ≡ slice_get (spec.values name.now fields.now) 0 }
{
    for field in fields {
        if alike(field.name.as_slice(), name) {
            return Some(field.value.as_slice());
        }
    }
    None
}

// Whether each field with the name has the value.
fn all_are(fields: &[Field], name: &[u8], value: &[u8]) -> bool
    ensures { result ≡ spec.all_are value.now (spec.values name.now fields.now) }
{
    for field in fields {
        if alike(field.name.as_slice(), name) && !same_bytes(field.value.as_slice(), value) {
            return false;
        }
    }
    true
}

// Whether a field with the name has the item in its list.
pub(crate) fn any_has_item(fields: &[Field], name: &[u8], word: &[u8]) -> bool
    ensures { result ≡ spec.any_has_item word.now (spec.values name.now fields.now) }
{
    for field in fields {
        if alike(field.name.as_slice(), name) && has_item(field.value.as_slice(), word) {
            return true;
        }
    }
    false
}

// The first item of a list with commas between them, and what follows its comma.
fn first_item(bytes: &[u8]) -> (&[u8], Option<&[u8]>)
    ensures items { spec.items bytes.now
        ≡ result.0.now ∷ spec.items_of (option_map (λ more. more.now) result.1) }
    ensures shorter { IfSome result.1 (λ more. length more.now < length bytes.now) }
{
    for at in 0..bytes.len() {
        if bytes[at] == b',' {
            return (&bytes[..at], Some(&bytes[at + 1..]));
        }
    }
    (bytes, None)
}

// Whether a list of items with commas between them has the item.
fn has_item(value: &[u8], word: &[u8]) -> bool
    ensures { result ≡ spec.has_item word.now value.now }
{
    let mut left = Some(value);
    while let Some(bytes) = left {
        let (item, more) = first_item(bytes);
        if alike(trimmed(item), word) {
            return true;
        }
        left = more;
    }
    false
}

fn is_blank(b: u8) -> bool
    ensures { result ≡ spec.is_blank b }
{
    b == b' ' || b == b'\t'
}

// Without the blanks at the front.
fn skip_blanks(bytes: &[u8]) -> &[u8]
    ensures { result.now ≡ spec.skip_blanks bytes.now }
{
    let mut rest = bytes;
    while let [b, more @ ..] = rest {
        if !is_blank(*b) {
            return rest;
        }
        rest = more;
    }
    rest
}

// Without the blanks at the end.
fn skip_last_blanks(bytes: &[u8]) -> &[u8]
    ensures { result.now ≡ spec.skip_last_blanks bytes.now }
{
    let mut rest = bytes;
    while let [more @ .., b] = rest {
        if !is_blank(*b) {
            return rest;
        }
        rest = more;
    }
    rest
}

// Without the blanks around it.
fn trimmed(bytes: &[u8]) -> &[u8]
    ensures { result.now ≡ spec.trimmed bytes.now }
{
    skip_last_blanks(skip_blanks(bytes))
}

fn all_digits(bytes: &[u8]) -> bool
    ensures { result ≡ spec.all_digits bytes.now }
{
    for b in bytes {
        if !b.is_ascii_digit() {
            return false;
        }
    }
    true
}

// A decimal number, without a sign and without leading zeros.
fn is_decimal(bytes: &[u8]) -> bool
    ensures { result ≡ spec.is_decimal bytes.now }
{
    match bytes {
        [] => false,
        [b] => b.is_ascii_digit(),
        [b, more @ ..] => b.is_ascii_digit() && *b != b'0' && all_digits(more),
    }
}

// What a length in decimal says of the body.
fn need_within(digits: &[u8]) -> Need
    ensures need { result ≡ spec.need_within (number_upto 67108864 digits.now) }
    ensures small { (size : ℕ) → result ≡ Body size → size ≤ spec.body_limit }
{
    match number_upto(BODY_LIMIT as u64, digits) {
        Some(number) => Need::Body(number as usize),
        None => Need::Refused(413),
    }
}

// What the lengths of a head say of the body.
fn need_by(fields: &[Field]) -> Need
    ensures need { result ≡ spec.need_by (spec.values (codes "content-length") fields.now) }
    ensures small { (size : ℕ) → result ≡ Body size → size ≤ spec.body_limit }
{
    match first_value(fields, b"content-length") {
        None => Need::Body(0),
        Some(value) => {
            if all_are(fields, b"content-length", value) && is_decimal(value) {
                need_within(value)
            } else {
                Need::Refused(400)
            }
        }
    }
}

/// What the fields of a head say of the body.
pub(crate) fn need_of(fields: &[Field]) -> Need
    ensures need { result ≡ spec.need_of fields.now }
    ensures small { (size : ℕ) → result ≡ Body size → size ≤ spec.body_limit }
{
    if first_value(fields, b"transfer-encoding").is_some() {
        return Need::Refused(501);
    }
    need_by(fields)
}
