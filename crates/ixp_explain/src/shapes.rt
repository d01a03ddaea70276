//! The forms of the functions that are asked.
ghost use Rattle.std.specs.Prelude.{◌≡◌, IfSome, IfNone};
ghost use Rattle.ixp_lang.specs.Meaning.{find_named};
ghost use Rattle.ixp_explain.specs.Answers.{Tells};
ghost use Rattle.ixp_explain.specs.Explained.{shapes_told};
ghost use Rattle.ixp_explain.specs.Kinds as spec;

use crate::kinds::{Kind, Sort, sort_named};
use crate::peers::{count_name, sends_name};
use crate::report::ExplainFault;
use ixp_num::Name;
use std::alloc::Global;

fn same_kind(a: Kind, b: Kind) -> bool
    ensures { result ≡ spec.same_kind a b }
{
    match (a, b) {
        (Kind::Number, Kind::Number) | (Kind::Truth, Kind::Truth) | (Kind::Other, Kind::Other) =>
            true,
        _ => false,
    }
}

/// Whether there is no item of the name, or a function of one int that gives values of the kind.
fn is_shaped(kind: Kind, sort: Option<Sort>) -> bool
    ensures { result ≡ spec.is_shaped kind sort }
{
    match sort {
        None => true,
        Some(Sort::Function(true, Some(given))) => same_kind(kind, given),
        Some(_) => false,
    }
}

/// Tests both functions.
pub(crate) fn test_shapes(alloc: Global, sorts: &[(Name, Sort)]) -> Result<(), ExplainFault>
    ensures { Tells result (shapes_told sorts.now) }
{
    let sends = sends_name(alloc)?;
    if !is_shaped(Kind::Truth, sort_named(sorts, &sends)) {
        return Err(ExplainFault::Shape { name: sends });
    }
    let count = count_name(alloc)?;
    if !is_shaped(Kind::Number, sort_named(sorts, &count)) {
        return Err(ExplainFault::Shape { name: count });
    }
    Ok(())
}
