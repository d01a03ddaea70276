//! The object that counts under each name.
ghost use Rattle.std.specs.Prelude.{◌≡◌, ◌∷◌, [], IfOk, OnOk, Some, None, ℕ, List, if◌then◌else◌, bytes_eq};
ghost use Rattle.std.specs.BTreeMap.{get_by};
ghost use Rattle.std.specs.Option.{unwrap_or};
ghost use Rattle.std.specs.List.{slice_get};
ghost use Rattle.ixp_num.specs.Names.{is_name};
ghost use Rattle.ixp_rpsl.specs.Lookups.{sought};
ghost use Rattle.ixp_rpsl_sources.specs.Names.{with_source};
ghost use Rattle.ixp_rpsl_sources.specs.Counting as spec;
ghost use Rattle.ixp_rpsl_sources.specs.Told as told;

use crate::objects::SetObject;
use ixp_num::Name;
use ixp_num_tables::put;
use std::alloc::{AllocError, Global};
use std::collections::BTreeMap;

/// The place of an object's source, and the line where the object begins.
#[derive(Clone, Copy, Debug)]
pub(crate) struct Best {
    pub place: usize,
    pub line: usize,
}

/// The bytes of a set's name with its source.
fn with_source(alloc: Global, source: &[u8], name: &[u8]) -> Result<Vec<u8>, AllocError>
    ensures { IfOk result (λ t. t.items ≡ with_source source.now name.now) }
{
    let mut t = Vec::from_slice(alloc, source)?;
    put(&mut t, b"::")?;
    put(&mut t, name)?;
    Ok(t)
}

/// The bytes of a source's name.
fn source_at(sources: &[Name], place: usize) -> &[u8]
    ensures { result.now ≡ unwrap_or (slice_get sources.now place) [] }
{
    match sources.get(place) {
        Some(source) => source.as_bytes(),
        None => &[],
    }
}

/// An object's own name with its source, if that isn't too long.
pub(crate) fn sourced_name(
    alloc: Global,
    sources: &[Name],
    object: &SetObject,
) -> Result<Option<Name>, AllocError>
    ensures { IfOk result (λ name. name ≡ (if is_name (spec.sourced_name sources.now object.now)
        then Some (spec.sourced_name sources.now object.now) else None)) }
{
    let source = source_at(sources, object.place);
    let bytes = with_source(alloc, source, object.name.as_bytes())?;
    if Name::is_name(bytes.as_slice()) {
        let name = Name::new(alloc, bytes.as_slice())?;
        Ok(Some(name))
    } else {
        Ok(None)
    }
}

/// What is kept under a name.
fn kept(index: &BTreeMap<Vec<u8>, Best>, name: &[u8]) -> Option<Best>
    ensures { result ≡ get_by (sought name.now) index.now }
{
    match index.get(name) {
        Some(best) => Some(*best),
        None => None,
    }
}

/// The later one only where its source comes earlier.
fn better_of(object: Best, kept: Option<Best>) -> Best
    ensures { result ≡ told.better_of object kept }
{
    match kept {
        Some(later) => {
            if later.place < object.place {
                later
            } else {
                object
            }
        }
        None => object,
    }
}

/// Keeps an object under a name, unless the one that is kept is of a source that comes earlier.
fn keep(
    alloc: Global,
    index: &mut BTreeMap<Vec<u8>, Best>,
    name: &[u8],
    object: Best,
) -> Result<(), AllocError>
    ensures { OnOk result ((q : List ℕ) → get_by (sought q) index.new
        ≡ (if bytes_eq name.now q then Some (told.better_of object (get_by (sought name.now) index.old))
        else get_by (sought q) index.old)) }
{
    let best = better_of(object, kept(index, name));
    let key = Vec::from_slice(alloc, name)?;
    index.insert(key, best)?;
    Ok(())
}

/// Keeps an object under its names.
fn keep_object(
    alloc: Global,
    sources: &[Name],
    index: &mut BTreeMap<Vec<u8>, Best>,
    object: &SetObject,
) -> Result<(), AllocError>
    ensures { OnOk result ((q : List ℕ) → get_by (sought q) index.new
        ≡ told.kept_onto sources.now (object.now ∷ []) (get_by (sought q) index.old) q) }
{
    let best = Best {
        place: object.place,
        line: object.line,
    };
    if let Some(name) = sourced_name(alloc, sources, object)? {
        keep(alloc, index, name.as_bytes(), best)?;
    }
    keep(alloc, index, object.name.as_bytes(), best)
}

/// The objects that count, by their names.
pub(crate) fn best_of(
    alloc: Global,
    sources: &[Name],
    sets: &[SetObject],
) -> Result<BTreeMap<Vec<u8>, Best>, AllocError>
    ensures { IfOk result (λ index. told.KeepsBest sources.now sets.now index) }
{
    let mut index = BTreeMap::new(alloc);
    let mut left = sets;
    'sets: while let Some((last, front)) = left.split_last() {
        keep_object(alloc, sources, &mut index, last)?;
        left = front;
    }
    Ok(index)
}

/// Whether the object that counts under a name begins at a line.
pub(crate) fn counts(index: &BTreeMap<Vec<u8>, Best>, name: &[u8], line: usize) -> bool
    ensures { result ≡ told.begins_at (get_by (sought name.now) index.now) line }
{
    match kept(index, name) {
        Some(best) => best.line == line,
        None => false,
    }
}
