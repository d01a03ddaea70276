//! What the attributes of an object say.
ghost use Rattle.std.specs.Prelude.{◌≡◌, ◌++◌, ◌∷◌, [], codes, length};
ghost use Rattle.ixp_rpsl.specs.Objects as spec;
ghost use Rattle.ixp_rpsl.specs.Told.{Adds, Tells};

use crate::attributes::{Attribute, is_word};
use crate::fault::ObjectFault;
use crate::objects::{Item, SetRow};
use crate::values::{as_number, put_items, read_set_name, trimmed};
use ixp_num::{Asn, Family, Items, Prefix};
use std::alloc::Global;

/// A kind of objects.
#[derive(Clone, Copy, Debug)]
pub enum Kind {
    /// A route to a prefix of the family.
    Route(Family),
    /// A set of autonomous systems.
    Set,
    /// Any other, which is skipped.
    Other,
}

/// The kind of an object that begins with this name.
pub fn kind_of(name: &[u8]) -> Kind
    ensures { result ≡ spec.kind_of name.now }
{
    if is_word(b"route", name) {
        Kind::Route(Family::V4)
    } else if is_word(b"route6", name) {
        Kind::Route(Family::V6)
    } else if is_word(b"as-set", name) {
        Kind::Set
    } else {
        Kind::Other
    }
}

/// The route of an object that begins at a line, or the first line that isn't of its form.
pub fn route_of(
    first: usize,
    net: Option<Prefix>,
    origins: &[Attribute],
) -> Result<(Prefix, Asn), usize>
    ensures { result ≡ spec.route_of first net origins.now }
{
    let Some(prefix) = net else {
        return Err(first);
    };
    let Some((origin, others)) = origins.split_first() else {
        return Err(first);
    };
    let Some(asn) = as_number(trimmed(origin.value.as_slice())) else {
        return Err(origin.line);
    };
    match others.first() {
        Some(second) => Err(second.line),
        None => Ok((prefix, asn)),
    }
}

/// Adds the members that a value lists, or tells its line where it doesn't.
fn put_members(
    alloc: Global,
    members: &mut Items<Item>,
    value: &Attribute,
) -> Result<(), ObjectFault>
    ensures { Adds (spec.members_of (value.now ∷ [])) members.old members.new result }
{
    if put_items(alloc, members, value.value.as_slice())? {
        Ok(())
    } else {
        Err(ObjectFault::Line(value.line))
    }
}

/// The members that values list, or the first line of a value that doesn't.
fn members_of(alloc: Global, values: &[Attribute]) -> Result<Items<Item>, ObjectFault>
    ensures { Tells (spec.members_of values.now) result }
{
    let mut members = Items::new(alloc);
    let mut left = values;
    'values: while let Some((value, others)) = left.split_first() {
        put_members(alloc, &mut members, value)?;
        left = others;
    }
    Ok(members)
}

/// The set of an object that begins at a line with this name, or the first line that isn't of its form.
pub(crate) fn set_of(
    alloc: Global,
    first: usize,
    key: &[u8],
    values: &[Attribute],
) -> Result<SetRow, ObjectFault>
    ensures { Tells (spec.set_of first key.now values.now) result }
{
    let Some(name) = read_set_name(alloc, key)? else {
        return Err(ObjectFault::Line(first));
    };
    let members = members_of(alloc, values)?;
    Ok(SetRow { name, members })
}
