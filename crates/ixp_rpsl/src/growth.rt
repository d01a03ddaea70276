//! The expansion of a set.
ghost use Rattle.std.specs.Prelude.{◌≡◌, ◌+◌, ◌<◌, ◌^◌, List, ℕ, [], ◌∷◌, IfOk, Some, IsTrue, length};
ghost use Rattle.std.specs.List.{slice_get};
ghost use Rattle.ixp_rpsl.specs.Expansion.{member_sets, is_chain};
ghost use Rattle.ixp_rpsl.specs.Breadth.{adds, named_by, ExpandAnswer, has_object, IsBreadthFirst};
ghost use Rattle.ixp_rpsl.specs.Lookups.{sets_at, Agrees};
ghost use Rattle.ixp_rpsl.specs.declared.objects.Reach.{Reach};

use crate::fault::RpslFault;
use crate::index::index_of;
use crate::objects::{Objects, Reach, SetRow};
use ixp_num::{Items, Name};
use std::alloc::{AllocError, Global};
use std::collections::BTreeMap;

/// The sets that are met so far, and their names.
#[derive(Drop)]
struct Reached {
    list: Items<Reach>,
    seen: BTreeMap<Vec<u8>, ()>,
}

fn nothing(alloc: Global) -> Reached
    ensures empty { result.list ≡ [] }
    ensures agrees { Agrees result }
{
    Reached {
        list: Items::new(alloc),
        seen: BTreeMap::new(alloc),
    }
}

fn add(alloc: Global, name: &Name, by: u64, reached: Reached) -> Result<Reached, AllocError>
    requires { Agrees reached }
    ensures { IfOk result
        (λ n. Agrees n × (n.list ≡ adds reached.list (record { set = name.now; by = by } ∷ []))) }
{
    if reached.seen.contains_key(name.as_bytes()) {
        return Ok(reached);
    }
    let Reached { mut list, mut seen } = reached;
    let key = Vec::from_slice(alloc, name.as_bytes())?;
    seen.insert(key, ())?;
    list.push(Reach {
        set: name.copied(alloc)?,
        by,
    })?;
    Ok(Reached { list, seen })
}

fn add_all(alloc: Global, names: &[Name], by: u64, reached: Reached) -> Result<Reached, AllocError>
    requires { Agrees reached }
    ensures { IfOk result (λ n. Agrees n × (n.list ≡ adds reached.list (named_by by names.now))) }
{
    let mut reached = reached;
    let mut left = names;
    'names: while let Some((name, others)) = left.split_first() {
        reached = add(alloc, name, by, reached)?;
        left = others;
    }
    Ok(reached)
}

fn visit(
    alloc: Global,
    index: &BTreeMap<Vec<u8>, Items<Name>>,
    at: usize,
    reached: Reached,
) -> Result<Reached, AllocError>
    requires within { at < length reached.list }
    requires agrees { Agrees reached }
    ensures { IfOk result
        (λ n. Agrees n × ((r : Reach) → slice_get reached.list at ≡ Some r
        → n.list ≡ adds reached.list (named_by (at + 1) (sets_at index.now r.set)))) }
{
    match index.get(reached.list.as_slice()[at].set.as_bytes()) {
        Some(names) => add_all(alloc, names.as_slice(), at as u64 + 1, reached),
        None => Ok(reached),
    }
}

/// The sets that the root leads to, breadth first.
fn grown(alloc: Global, rows: &[SetRow], root: &Name) -> Result<Items<Reach>, AllocError>
    ensures { IfOk result (λ c. IsTrue (is_chain rows.now root.now c) × IsBreadthFirst rows.now root.now c) }
{
    let index = index_of(alloc, rows)?;
    let mut reached = add(alloc, root, 0, nothing(alloc))?;
    let mut at = 0usize;
    'sets: while at < reached.list.len() {
        reached = visit(alloc, &index, at, reached)?;
        at += 1;
    }
    Ok(reached.list)
}

/// Whether an object has the name.
fn has_object(rows: &[SetRow], name: &Name) -> bool
    ensures { result ≡ has_object rows.now name.now }
{
    rows.iter()
        .any(|row| row.name.as_bytes() == name.as_bytes())
}

/// Expands a set: itself, and all sets that members lead to from it, each once and breadth first. Each but
/// the first has the least place of a set among whose members it is; a set without an object has no members.
/// A name is in upper case.
pub fn expand(alloc: Global, objects: &Objects, root: &Name) -> Result<Items<Reach>, RpslFault>
    ensures { ExpandAnswer objects.now.sets root.now result }
{
    let rows = objects.sets.as_slice();
    if !has_object(rows, root) {
        return Err(RpslFault::NoSet);
    }
    match grown(alloc, rows, root) {
        Ok(reached) => Ok(reached),
        Err(_) => Err(RpslFault::NoMemory),
    }
}
