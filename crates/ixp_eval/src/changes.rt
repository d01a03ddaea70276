//! What statements change of a route. A value of a kind that no text brings here changes nothing.
ghost use Rattle.std.specs.Prelude.{◌≡◌, ◌∷◌, ◌&&◌, ◌==◌, IfOk, OnOk, filter, not};
ghost use Rattle.std.specs.List.{list_any};
ghost use Rattle.ixp_lang.specs.Attributes.{
  in_pairs,
  in_triples,
  prepended,
  with_next_hop,
  with_pair,
  with_triple,
  without_pairs,
  without_triples,
};
ghost use Rattle.ixp_eval.specs.Machine.{changed};
ghost use Rattle.ixp_eval.specs.Views.{val_of};

use crate::sets::{in_pairs, in_triples};
use crate::tasks::Change;
use crate::val::{Val, set_of};
use ixp_lang::{Route, SetLit};
use ixp_num::{Asn, Items};
use std::alloc::{AllocError, Global};

/// An equal route.
pub fn copied_route(alloc: Global, route: &Route) -> Result<Route, AllocError>
    ensures { IfOk result (λ r. r ≡ route.now) }
{
    Ok(Route {
        net: route.net,
        path: route.path.copied(alloc)?,
        next_hop: route.next_hop,
        pairs: route.pairs.copied(alloc)?,
        triples: route.triples.copied(alloc)?,
    })
}

/// The path behind one more number.
fn prepended_path(alloc: Global, first: Asn, path: &[Asn]) -> Result<Items<Asn>, AllocError>
    ensures { IfOk result (λ p. p ≡ first ∷ path.now) }
{
    let mut items = Vec::new(alloc);
    items.push(first)?;
    items.extend_from_slice(path)?;
    Ok(Items::from_vec(items))
}

/// The pairs that aren't in the set.
fn pairs_outside(
    alloc: Global,
    pairs: &[(u32, u32)],
    set: &[(u32, Option<u32>)],
) -> Result<Vec<(u32, u32)>, AllocError>
    ensures { IfOk result (λ v. v.items ≡ filter (λ p. not (in_pairs p set.now)) pairs.now) }
{
    pairs
        .iter()
        .copied()
        .filter(|p| !in_pairs(p.0, p.1, set))
        .collect(alloc)
}

/// The triples that aren't in the set.
fn triples_outside(
    alloc: Global,
    triples: &[(u32, u32, u32)],
    set: &[(u32, u32, Option<u32>)],
) -> Result<Vec<(u32, u32, u32)>, AllocError>
    ensures { IfOk result (λ v. v.items ≡ filter (λ t. not (in_triples t set.now)) triples.now) }
{
    triples
        .iter()
        .copied()
        .filter(|t| !in_triples(t.0, t.1, t.2, set))
        .collect(alloc)
}

/// `bgp_next_hop =`
fn set_next_hop(value: &Val<'_>, route: &mut Route)
    ensures { route.new ≡ with_next_hop (val_of value.now) route.old }
{
    if let Val::Ip(a) = value {
        route.next_hop = *a;
    }
}

/// `bgp_path.prepend`
fn prepend(alloc: Global, value: &Val<'_>, route: &mut Route) -> Result<(), AllocError>
    ensures { OnOk result (route.new ≡ prepended (val_of value.now) route.old) }
{
    if let Val::Int(n) = value {
        route.path = prepended_path(alloc, Asn(*n), route.path.as_slice())?;
    }
    Ok(())
}

/// `bgp_community.add`
fn add_pair(value: &Val<'_>, route: &mut Route) -> Result<(), AllocError>
    ensures { OnOk result (route.new ≡ with_pair (val_of value.now) route.old) }
{
    if let Val::Pair(a, b) = value {
        if !route.has_pair(*a, *b) {
            route.pairs.push((*a, *b))?;
        }
    }
    Ok(())
}

/// `bgp_large_community.add`
fn add_triple(value: &Val<'_>, route: &mut Route) -> Result<(), AllocError>
    ensures { OnOk result (route.new ≡ with_triple (val_of value.now) route.old) }
{
    if let Val::Triple(a, b, c) = value {
        if !route.has_triple(*a, *b, *c) {
            route.triples.push((*a, *b, *c))?;
        }
    }
    Ok(())
}

/// `bgp_community.delete`
fn delete_pairs(alloc: Global, value: &Val<'_>, route: &mut Route) -> Result<(), AllocError>
    ensures { OnOk result (route.new ≡ without_pairs (val_of value.now) route.old) }
{
    if let Some(SetLit::Pairs(set)) = set_of(value) {
        let rest = pairs_outside(alloc, route.pairs.as_slice(), set.as_slice())?;
        route.pairs = Items::from_vec(rest);
    }
    Ok(())
}

/// `bgp_large_community.delete`
fn delete_triples(alloc: Global, value: &Val<'_>, route: &mut Route) -> Result<(), AllocError>
    ensures { OnOk result (route.new ≡ without_triples (val_of value.now) route.old) }
{
    if let Some(SetLit::Triples(set)) = set_of(value) {
        let rest = triples_outside(alloc, route.triples.as_slice(), set.as_slice())?;
        route.triples = Items::from_vec(rest);
    }
    Ok(())
}

/// Makes the change with the value.
pub fn change(
    alloc: Global,
    what: Change,
    value: &Val<'_>,
    route: &mut Route,
) -> Result<(), AllocError>
    ensures { OnOk result (route.new ≡ changed what (val_of value.now) route.old) }
{
    match what {
        Change::NextHop => {
            set_next_hop(value, route);
            Ok(())
        }
        Change::Prepend => prepend(alloc, value, route),
        Change::AddPair => add_pair(value, route),
        Change::DeletePairs => delete_pairs(alloc, value, route),
        Change::AddTriple => add_triple(value, route),
        Change::DeleteTriples => delete_triples(alloc, value, route),
    }
}
