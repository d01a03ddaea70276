//! What counts of a text.
ghost use Rattle.std.specs.Prelude.{◌≡◌, ◌++◌, IfOk, OnOk, List, Some, None, if◌then◌else◌, true, ◌||◌};
ghost use Rattle.std.specs.BTreeMap.{get_by};
ghost use Rattle.std.specs.Option.{is_some};
ghost use Rattle.ixp_rpsl.specs.Lookups.{sought};
ghost use Rattle.ixp_rpsl.specs.declared.objects.Item.{Item};
ghost use Rattle.ixp_rpsl_sources.specs.Counting as spec;
ghost use Rattle.ixp_rpsl_sources.specs.Told as told;

use crate::best::{Best, best_of, counts, sourced_name};
use crate::claims::{copied, places_of, put_claimed};
use crate::gleaned::Gleaned;
use crate::objects::{Claim, SetObject};
use crate::reading::read_all;
use ixp_num::{Items, Name};
use ixp_rpsl::{Item, Objects, SetRow};
use std::alloc::{AllocError, Global};
use std::collections::BTreeMap;

/// The objects that count, as those of one registry, and the lines at which something is passed by, in their
/// order.
#[derive(Debug, Drop)]
pub struct Counted {
    pub objects: Objects,
    pub passed: Items<usize>,
}

/// Equal members.
fn all_copied(alloc: Global, items: &[Item]) -> Result<Items<Item>, AllocError>
    ensures { IfOk result (λ copies. copies ≡ items.now) }
{
    let mut copies = Items::new(alloc);
    let mut left = items;
    'items: while let Some((item, others)) = left.split_first() {
        let item = copied(alloc, item)?;
        copies.push(item)?;
        left = others;
    }
    Ok(copies)
}

/// The name with its source under which an object counts, if it does.
fn counting_source(
    alloc: Global,
    sources: &[Name],
    index: &BTreeMap<Vec<u8>, Best>,
    object: &SetObject,
) -> Result<Option<Name>, AllocError>
    ensures counts { IfOk result (λ name. is_some name ≡ told.counts_at index.now object.now.line
        (spec.if_name (spec.sourced_name sources.now object.now))) }
    ensures rows { IfOk result
        (λ name. (members : List Item) → told.rows_kept index.now object.now.line members
        (spec.if_name (spec.sourced_name sources.now object.now)) ≡ told.rows_named members name) }
{
    match sourced_name(alloc, sources, object)? {
        Some(name) => {
            if counts(index, name.as_bytes(), object.line) {
                Ok(Some(name))
            } else {
                Ok(None)
            }
        }
        None => Ok(None),
    }
}

/// A name, if the object that begins at a line counts under it.
fn counting_name(index: &BTreeMap<Vec<u8>, Best>, line: usize, name: Name) -> Option<Name>
    ensures { result ≡ (if told.begins_at (get_by (sought name) index.now) line then Some name else None) }
{
    if counts(index, name.as_bytes(), line) {
        Some(name)
    } else {
        None
    }
}

/// Adds rows of these members under a name, if there is one, and another, if there is one.
fn put_named(
    alloc: Global,
    rows: &mut Items<SetRow>,
    own: Option<Name>,
    sourced: Option<Name>,
    members: Items<Item>,
) -> Result<(), AllocError>
    ensures { OnOk result (rows.new
        ≡ rows.old ++ told.rows_named members own ++ told.rows_named members sourced) }
{
    match sourced {
        Some(sourced) => {
            if let Some(name) = own {
                let copies = all_copied(alloc, members.as_slice())?;
                rows.push(SetRow {
                    name,
                    members: copies,
                })?;
            }
            rows.push(SetRow {
                name: sourced,
                members,
            })
        }
        None => {
            if let Some(name) = own {
                rows.push(SetRow { name, members })?;
            }
            Ok(())
        }
    }
}

/// Whether the object that begins at a line counts under its own name, or there is another name.
fn is_wanted(
    index: &BTreeMap<Vec<u8>, Best>,
    line: usize,
    name: &Name,
    sourced: &Option<Name>,
) -> bool
    ensures { result ≡ (told.begins_at (get_by (sought name.now) index.now) line || is_some sourced.now) }
{
    counts(index, name.as_bytes(), line) || sourced.is_some()
}

/// Adds the members by reference, where they are wanted.
fn put_if(
    alloc: Global,
    index: &BTreeMap<Vec<u8>, Best>,
    places: &BTreeMap<Vec<u8>, Items<usize>>,
    claims: &[Claim],
    is_wanted: bool,
    name: &Name,
    by_ref: &[Items<u8>],
    members: &mut Items<Item>,
) -> Result<(), AllocError>
    ensures { OnOk result (is_wanted ≡ true → told.PutsClaimed index.now by_ref.now claims.now
        (told.places_at places.now name.now) members.old members.new) }
{
    if is_wanted {
        put_claimed(alloc, index, places, claims, name, by_ref, members)?;
    }
    Ok(())
}

/// Adds an object with all of its members under the names under which it counts.
fn put_rows(
    alloc: Global,
    sources: &[Name],
    index: &BTreeMap<Vec<u8>, Best>,
    places: &BTreeMap<Vec<u8>, Items<usize>>,
    claims: &[Claim],
    rows: &mut Items<SetRow>,
    object: SetObject,
) -> Result<(), AllocError>
    ensures { OnOk result
        (told.PutsRows sources.now index.now places.now claims.now object rows.old rows.new) }
{
    let sourced = counting_source(alloc, sources, index, &object)?;
    let SetObject {
        line,
        place: _,
        name,
        mut members,
        by_ref,
    } = object;
    let wanted = is_wanted(index, line, &name, &sourced);
    put_if(
        alloc,
        index,
        places,
        claims,
        wanted,
        &name,
        by_ref.as_slice(),
        &mut members,
    )?;
    let own = counting_name(index, line, name);
    put_named(alloc, rows, own, sourced, members)?;
    Ok(())
}

/// The sets that count.
fn rows_of(
    alloc: Global,
    sources: &[Name],
    sets: Vec<SetObject>,
    claims: &[Claim],
) -> Result<Items<SetRow>, AllocError>
    ensures { IfOk result (λ rows. told.IsRows sources.now sets.items claims.now rows) }
{
    let index = best_of(alloc, sources, sets.as_slice())?;
    let places = places_of(alloc, claims)?;
    let mut rows = Items::new(alloc);
    let mut left = sets;
    'sets: while let Some(object) = left.pop() {
        put_rows(alloc, sources, &index, &places, claims, &mut rows, object)?;
    }
    Ok(rows)
}

/// Reads the objects `route`, `route6`, `as-set` and `aut-num` of whois data whose source is one of these,
/// which are in upper case. Of several sets of one name that of the source that comes first counts, alone;
/// each has its name also with its source and two colons before it. An object that isn't of its form is
/// passed by, and so is a member that is none; nothing but want of memory stops the reading.
pub fn read_counted(alloc: Global, t: &[u8], sources: &[Name]) -> Result<Counted, AllocError>
    ensures { IfOk result (λ c. spec.Reads sources.now t.now c) }
{
    let mut gleaned = Gleaned::new(alloc);
    read_all(alloc, sources, &mut gleaned, t)?;
    let Gleaned {
        routes,
        sets,
        claims,
        passed,
    } = gleaned;
    let sets = rows_of(alloc, sources, sets, claims.as_slice())?;
    Ok(Counted {
        objects: Objects { routes, sets },
        passed,
    })
}
