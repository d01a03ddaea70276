//! What expressions read of a route.
ghost use Rattle.std.specs.Prelude.{◌≡◌, IfOk, Some, map};
ghost use Rattle.ixp_lang.specs.Attributes.{attribute_of, count, pairs_value, path_value, triples_value};
ghost use Rattle.ixp_eval.specs.Views.{val_of};

use crate::val::Val;
use ixp_lang::{Attr, Route, SetLit};
use ixp_num::{Addr, Asn, Items};
use std::alloc::{AllocError, Global};

/// A length as a number of the language.
fn count(n: usize) -> u32
    ensures { result ≡ count n }
{
    n.min(4294967295) as u32
}

fn path_members(alloc: Global, path: &[Asn]) -> Result<Vec<(u32, u32)>, AllocError>
    ensures { IfOk result (λ v. v.items ≡ map (λ a. (a.0, a.0)) path.now) }
{
    path.iter().map(|a| (a.0, a.0)).collect(alloc)
}

fn pair_members(alloc: Global, pairs: &[(u32, u32)]) -> Result<Vec<(u32, Option<u32>)>, AllocError>
    ensures { IfOk result (λ v. v.items ≡ map (λ p. (p.0, Some p.1)) pairs.now) }
{
    pairs.iter().map(|p| (p.0, Some(p.1))).collect(alloc)
}

fn triple_members(
    alloc: Global,
    triples: &[(u32, u32, u32)],
) -> Result<Vec<(u32, u32, Option<u32>)>, AllocError>
    ensures { IfOk result (λ v. v.items ≡ map (λ t. (t.0, t.1, Some t.2)) triples.now) }
{
    triples.iter().map(|t| (t.0, t.1, Some(t.2))).collect(alloc)
}

/// The numbers of a path, as `~` sees them.
fn path_value<'a>(alloc: Global, path: &[Asn]) -> Result<Val<'a>, AllocError>
    ensures { IfOk result (λ v. val_of v ≡ path_value path.now) }
{
    let members = path_members(alloc, path)?;
    Ok(Val::Own(SetLit::Ints(Items::from_vec(members))))
}

/// The communities of a route, as `~` sees them.
fn pairs_value<'a>(alloc: Global, pairs: &[(u32, u32)]) -> Result<Val<'a>, AllocError>
    ensures { IfOk result (λ v. val_of v ≡ pairs_value pairs.now) }
{
    let members = pair_members(alloc, pairs)?;
    Ok(Val::Own(SetLit::Pairs(Items::from_vec(members))))
}

/// The large communities of a route, as `~` sees them.
fn triples_value<'a>(alloc: Global, triples: &[(u32, u32, u32)]) -> Result<Val<'a>, AllocError>
    ensures { IfOk result (λ v. val_of v ≡ triples_value triples.now) }
{
    let members = triple_members(alloc, triples)?;
    Ok(Val::Own(SetLit::Triples(Items::from_vec(members))))
}

/// The value of an attribute; the session's neighbour is at the address.
pub fn attribute_of<'a>(
    alloc: Global,
    from: Addr,
    attr: Attr,
    route: &Route,
) -> Result<Val<'a>, AllocError>
    ensures { IfOk result (λ v. val_of v ≡ attribute_of from attr route.now) }
{
    match attr {
        Attr::Net => Ok(Val::Net(route.net)),
        Attr::NetLen => Ok(Val::Int(route.net.len as u32)),
        Attr::From => Ok(Val::Ip(from)),
        Attr::NextHop => Ok(Val::Ip(route.next_hop)),
        Attr::Path => path_value(alloc, route.path.as_slice()),
        Attr::First => Ok(Val::Int(route.first())),
        Attr::Last => Ok(Val::Int(route.origin())),
        Attr::Len => Ok(Val::Int(count(route.path.len()))),
        Attr::Pairs => pairs_value(alloc, route.pairs.as_slice()),
        Attr::PairsLen => Ok(Val::Int(count(route.pairs.len()))),
        Attr::Triples => triples_value(alloc, route.triples.as_slice()),
        Attr::TriplesLen => Ok(Val::Int(count(route.triples.len()))),
    }
}
