//! The AS numbers and the prefixes that the sets of an expansion stand for.
ghost use Rattle.std.specs.Prelude.{◌≡◌, ◌++◌, ◌==◌, ◌&&◌, ℕ, List, nat_eq, IfOk, OnOk};
ghost use Rattle.std.specs.Option.{is_some};
ghost use Rattle.std.specs.BTreeMap.{get_by};
ghost use Rattle.std.specs.HashSet.{contains};
ghost use Rattle.std.specs.List.{list_any};
ghost use Rattle.ixp_num.specs.Families.{same_family};
ghost use Rattle.ixp_num_sorted.specs.Keys.{asn_key, prefix_key};
ghost use Rattle.ixp_rpsl.specs.Expansion.{has_name};
ghost use Rattle.ixp_rpsl.specs.Lookups.{sought};
ghost use Rattle.ixp_rpsl.specs.Origins.{SortedAnswer, numbers_in, origins_in, prefixes_in};

use crate::fault::RpslFault;
use crate::objects::{Item, Objects, Reach, SetRow};
use crate::values::is_of;
use ixp_num::{Asn, Family, Name, Prefix};
use ixp_num_sorted::{Keyed, Sorted};
use std::alloc::{AllocError, Global};
use std::collections::{BTreeMap, HashSet};

/// The most AS numbers or prefixes.
const MOST: usize = 300_000;

/// The names of a list.
fn names_of(alloc: Global, c: &[Reach]) -> Result<BTreeMap<Vec<u8>, ()>, AllocError>
    ensures { IfOk result (λ names. (q : List ℕ) → is_some (get_by (sought q) names) ≡ has_name c.now q) }
{
    let mut names = BTreeMap::new(alloc);
    let mut left = c;
    'names: while let Some((reach, others)) = left.split_first() {
        let key = Vec::from_slice(alloc, reach.set.as_bytes())?;
        names.insert(key, ())?;
        left = others;
    }
    Ok(names)
}

/// Adds the AS numbers among items.
fn put_numbers(numbers: &mut Vec<Asn>, items: &[Item]) -> Result<(), AllocError>
    ensures { OnOk result (numbers.new.items ≡ numbers.old.items ++ numbers_in items.now) }
{
    let mut left = items;
    'items: while let Some((item, others)) = left.split_first() {
        if let Item::As(number) = item {
            numbers.push(*number)?;
        }
        left = others;
    }
    Ok(())
}

/// Whether a name is marked.
fn is_marked(names: &BTreeMap<Vec<u8>, ()>, name: &Name) -> bool
    ensures { result ≡ is_some (get_by (sought name.now) names.now) }
{
    names.contains_key(name.as_bytes())
}

/// The AS numbers among the members of the objects whose sets are in a list.
fn numbers_of(alloc: Global, rows: &[SetRow], c: &[Reach]) -> Result<Vec<Asn>, AllocError>
    ensures { IfOk result (λ numbers. numbers.items ≡ origins_in rows.now c.now) }
{
    let names = names_of(alloc, c)?;
    let mut numbers = Vec::new(alloc);
    let mut left = rows;
    'rows: while let Some((row, others)) = left.split_first() {
        if is_marked(&names, &row.name) {
            put_numbers(&mut numbers, row.members.as_slice())?;
        }
        left = others;
    }
    Ok(numbers)
}

/// The items in order and each once, if they aren't too many.
fn in_order<T: Keyed>(items: Vec<T>) -> Result<Sorted<T>, RpslFault>
    ensures { SortedAnswer T.key items.items result }
{
    let sorted = Sorted::from_items(items);
    if MOST < sorted.len() {
        return Err(RpslFault::TooMany { have: sorted.len() });
    }
    Ok(sorted)
}

/// The AS numbers among the members of the objects whose sets are in a list, in order and each once.
pub fn origins_of(alloc: Global, objects: &Objects, c: &[Reach]) -> Result<Sorted<Asn>, RpslFault>
    ensures { SortedAnswer asn_key (origins_in objects.now.sets c.now) result }
{
    match numbers_of(alloc, objects.sets.as_slice(), c) {
        Ok(numbers) => in_order(numbers),
        Err(_) => Err(RpslFault::NoMemory),
    }
}

/// The numbers of origins.
fn marks_of(alloc: Global, origins: &[Asn]) -> Result<HashSet<u32>, AllocError>
    ensures { IfOk result
        (λ marks. (q : ℕ) → contains nat_eq marks q ≡ list_any (λ o. nat_eq q o.0) origins.now) }
{
    let mut marks = HashSet::new(alloc);
    for origin in origins {
        marks.insert(origin.0)?;
    }
    Ok(marks)
}

/// Whether the prefix is of the family and the origin is marked.
fn is_sought(marks: &HashSet<u32>, family: Family, route: &(Prefix, Asn)) -> bool
    ensures { result ≡ (same_family route.now.0.family family && contains nat_eq marks.now route.now.1.0) }
{
    is_of(&route.0, family) && marks.contains(&route.1.0)
}

/// The prefixes of a family whose routes have one of the origins.
fn prefixes_with(
    alloc: Global,
    routes: &[(Prefix, Asn)],
    origins: &[Asn],
    family: Family,
) -> Result<Vec<Prefix>, AllocError>
    ensures { IfOk result (λ prefixes. prefixes.items ≡ prefixes_in routes.now origins.now family) }
{
    let marks = marks_of(alloc, origins)?;
    let mut prefixes = Vec::new(alloc);
    let mut left = routes;
    'routes: while let Some((route, others)) = left.split_first() {
        if is_sought(&marks, family, route) {
            prefixes.push(route.0)?;
        }
        left = others;
    }
    Ok(prefixes)
}

/// The prefixes of a family whose routes have one of the origins, in order and each once.
pub fn prefixes_of(
    alloc: Global,
    objects: &Objects,
    origins: &[Asn],
    family: Family,
) -> Result<Sorted<Prefix>, RpslFault>
    ensures { SortedAnswer prefix_key (prefixes_in objects.now.routes origins.now family) result }
{
    match prefixes_with(alloc, objects.routes.as_slice(), origins, family) {
        Ok(prefixes) => in_order(prefixes),
        Err(_) => Err(RpslFault::NoMemory),
    }
}
