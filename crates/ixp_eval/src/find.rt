//! Items found by name, from the last one back: a name means what stands before it in the text.
ghost use Rattle.std.specs.Prelude.{◌≡◌};
ghost use Rattle.std.specs.Option.{option_map};
ghost use Rattle.ixp_lang.specs.Meaning.{filter_of, function_of};
ghost use Rattle.ixp_lang.specs.Trees.{stmts};
ghost use Rattle.ixp_lang.specs.Views.{expr_view, item_view, stmts_view};
ghost use Rattle.ixp_eval.specs.Frames.{define_of};
ghost use Rattle.ixp_eval.specs.Indexed.{define_part, filter_part, function_parts};
ghost use Rattle.ixp_eval.specs.Views.{backwards, define_view, filter_view, function_view};

use crate::search::{Before, Sort, item_at, last_place};
use ixp_lang::{Expr, Item, Stmt, Ty};
use ixp_num::Name;

/// A function, with the items before it.
#[derive(Clone, Copy)]
pub struct FoundFunction<'i, 'a> {
    pub before: Before<'i, 'a>,
    pub params: &'a [(Ty, Name)],
    pub body: &'a [Stmt],
}

/// A defined value, with the items before it.
#[derive(Clone, Copy)]
pub struct FoundDefine<'i, 'a> {
    pub before: Before<'i, 'a>,
    pub value: &'a Expr,
}

/// A filter, with the items before it.
#[derive(Clone, Copy)]
pub struct FoundFilter<'i, 'a> {
    pub before: Before<'i, 'a>,
    pub body: &'a [Stmt],
}

/// The items before a place that stands among those before.
fn until<'i, 'a>(before: Before<'i, 'a>, place: usize) -> Before<'i, 'a>
    ensures index { result.index ≡ before.entry.index }
    ensures count { result.count ≡ place }
{
    Before {
        index: before.index,
        count: place,
    }
}

/// The parameters and the body, where an item is a function.
fn function_in(item: &Item) -> Option<(&[(Ty, Name)], &[Stmt])>
    ensures { option_map (λ p. (p.0.now, stmts (stmts_view p.1.now))) result
        ≡ function_parts (item_view item.now) }
{
    match item {
        Item::Function { params, body, .. } => Some((params.as_slice(), body.as_slice())),
        _ => None,
    }
}

/// The value, where an item is a define.
fn define_in(item: &Item) -> Option<&Expr>
    ensures { option_map (λ v. expr_view v.now) result ≡ define_part (item_view item.now) }
{
    match item {
        Item::Define { value, .. } => Some(value),
        _ => None,
    }
}

/// The body, where an item is a filter.
fn filter_in(item: &Item) -> Option<&[Stmt]>
    ensures { option_map (λ b. stmts (stmts_view b.now)) result ≡ filter_part (item_view item.now) }
{
    match item {
        Item::Filter { body, .. } => Some(body.as_slice()),
        _ => None,
    }
}

/// The function of the name.
pub fn function_of<'i, 'a>(before: Before<'i, 'a>, name: &'a Name) -> Option<FoundFunction<'i, 'a>>
    ensures { option_map function_view result ≡ function_of (backwards before.entry) name.now }
{
    let place = last_place(before, Sort::Function, name)?;
    let item = item_at(before.index, place)?;
    let (params, body) = function_in(item)?;
    Some(FoundFunction {
        before: until(before, place),
        params,
        body,
    })
}

/// The defined value of the name, with the items before it.
pub fn define_of<'i, 'a>(before: Before<'i, 'a>, name: &'a Name) -> Option<FoundDefine<'i, 'a>>
    ensures { option_map define_view result ≡ define_of (backwards before.entry) name.now }
{
    let place = last_place(before, Sort::Define, name)?;
    let item = item_at(before.index, place)?;
    let value = define_in(item)?;
    Some(FoundDefine {
        before: until(before, place),
        value,
    })
}

/// The filter of the name, with the items before it.
pub fn filter_of<'i, 'a>(before: Before<'i, 'a>, name: &'a Name) -> Option<FoundFilter<'i, 'a>>
    ensures { option_map filter_view result ≡ filter_of (backwards before.entry) name.now }
{
    let place = last_place(before, Sort::Filter, name)?;
    let item = item_at(before.index, place)?;
    let body = filter_in(item)?;
    Some(FoundFilter {
        before: until(before, place),
        body,
    })
}
