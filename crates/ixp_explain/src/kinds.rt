//! Of which kind values are, and what functions take and give.
ghost use Rattle.std.specs.Prelude.{◌≡◌, ◌++◌, [], ◌∷◌, OnOk, IfOk};
ghost use Rattle.ixp_lang.specs.Meaning.{same_name, find_named};
ghost use Rattle.ixp_lang.specs.Trees.{stmts, function_item};
ghost use Rattle.ixp_lang.specs.Views.{expr_view, stmt_view, stmts_view, arms_view, item_view, config_view};
ghost use Rattle.ixp_explain.specs.Kinds as spec;

use ixp_lang::{Attr, Config, Expr, Item, Label, Stmt, Ty, Value};
use ixp_num::{Items, Name};
use std::alloc::{AllocError, Global};

/// The kind of a value.
#[derive(Clone, Copy, Debug)]
pub enum Kind {
    Number,
    Truth,
    Other,
}

/// What a name stands for.
#[derive(Clone, Copy, Debug)]
pub enum Sort {
    /// A defined value.
    Value(Kind),
    /// A function: whether its parameters are one int, and the kind of what it returns, None where it returns
    /// nothing.
    Function(bool, Option<Kind>),
    /// Another item.
    Item,
}

fn same_name(a: &Name, b: &Name) -> bool
    ensures { result ≡ same_name a.now b.now }
{
    a.as_bytes() == b.as_bytes()
}

/// What the name stands for.
pub(crate) fn sort_named(sorts: &[(Name, Sort)], name: &Name) -> Option<Sort>
    ensures { result ≡ find_named sorts.now name.now }
{
    'sorts: for (sort_name, sort) in sorts {
        if same_name(sort_name, name) {
            return Some(*sort);
        }
    }
    None
}

fn param_named(params: &[(Ty, Name)], name: &Name) -> Option<Ty>
    ensures { result ≡ find_named (spec.param_of params.now) name.now }
{
    'params: for (ty, param) in params {
        if same_name(param, name) {
            return Some(*ty);
        }
    }
    None
}

fn kind_of_type(ty: Ty) -> Kind
    ensures { result ≡ spec.kind_of_type ty }
{
    match ty {
        Ty::Int => Kind::Number,
        Ty::Bool => Kind::Truth,
        _ => Kind::Other,
    }
}

fn kind_of_value(value: &Value) -> Kind
    ensures { result ≡ spec.kind_of_value value.now }
{
    match value {
        Value::Int(_) => Kind::Number,
        Value::Bool(_) => Kind::Truth,
        _ => Kind::Other,
    }
}

fn kind_of_attribute(attr: Attr) -> Kind
    ensures { result ≡ spec.kind_of_attribute attr }
{
    match attr {
        Attr::NetLen | Attr::First | Attr::Last | Attr::Len | Attr::PairsLen | Attr::TriplesLen => {
            Kind::Number
        }
        Attr::Net | Attr::From | Attr::NextHop | Attr::Path | Attr::Pairs | Attr::Triples => {
            Kind::Other
        }
    }
}

fn kind_of_name(sorts: &[(Name, Sort)], params: &[(Ty, Name)], name: &Name) -> Kind
    ensures { result ≡ spec.named_kind (find_named (spec.param_of params.now) name.now)
        (spec.defined_kind (find_named sorts.now name.now)) }
{
    match param_named(params, name) {
        Some(ty) => kind_of_type(ty),
        None => match sort_named(sorts, name) {
            Some(Sort::Value(kind)) => kind,
            _ => Kind::Other,
        },
    }
}

fn kind_of_call(sorts: &[(Name, Sort)], name: &Name) -> Kind
    ensures { result ≡ spec.returned_kind (find_named sorts.now name.now) }
{
    match sort_named(sorts, name) {
        Some(Sort::Function(_, Some(kind))) => kind,
        _ => Kind::Other,
    }
}

/// The kind of an expression's value.
fn kind_of(sorts: &[(Name, Sort)], params: &[(Ty, Name)], e: &Expr) -> Kind
    ensures { result ≡ spec.kind_of sorts.now params.now (expr_view e.now) }
{
    match e {
        Expr::Lit(value) => kind_of_value(value),
        Expr::Named(name) => kind_of_name(sorts, params, name),
        Expr::Attr(attr) => kind_of_attribute(*attr),
        Expr::Call { name, .. } => kind_of_call(sorts, name),
        Expr::RoaCheck { .. } | Expr::Pair(..) | Expr::Triple(..) | Expr::Set(_) => Kind::Other,
        Expr::Not(_) | Expr::And(_) | Expr::Or(_) | Expr::Cmp { .. } => Kind::Truth,
    }
}

/// The kind of what statements return, if they return something.
#[cycle(returned)]
fn returned_in(sorts: &[(Name, Sort)], params: &[(Ty, Name)], list: &[Stmt]) -> Option<Kind>
    ensures { result ≡ spec.returned_in sorts.now params.now (stmts (stmts_view list.now)) }
{
    'each: for stmt in list {
        if let Some(kind) = returned_by(sorts, params, stmt) {
            return Some(kind);
        }
    }
    None
}

#[cycle(returned)]
fn returned_arms(
    sorts: &[(Name, Sort)],
    params: &[(Ty, Name)],
    arms: &[(Items<Label>, Vec<Stmt>)],
) -> Option<Kind>
    ensures { result ≡ spec.returned_arms sorts.now params.now (arms_view arms.now) }
{
    'each: for arm in arms {
        if let Some(kind) = returned_in(sorts, params, &arm.1) {
            return Some(kind);
        }
    }
    None
}

#[cycle(returned)]
#[tactic(auto, using(ixp_lang::proofs::CaseView::case_lemmas))]
fn returned_by(sorts: &[(Name, Sort)], params: &[(Ty, Name)], stmt: &Stmt) -> Option<Kind>
    ensures { result ≡ spec.returned_by sorts.now params.now (stmt_view stmt.now) }
{
    match stmt {
        Stmt::Block(list) => returned_in(sorts, params, list),
        Stmt::If { yes, no, .. } => match returned_in(sorts, params, yes) {
            Some(kind) => Some(kind),
            None => returned_in(sorts, params, no),
        },
        Stmt::Case { arms, other, .. } => match returned_arms(sorts, params, arms) {
            Some(kind) => Some(kind),
            None => returned_in(sorts, params, other),
        },
        Stmt::Return(e) => Some(kind_of(sorts, params, e)),
        _ => None,
    }
}

fn is_one_int(params: &[(Ty, Name)]) -> bool
    ensures { result ≡ spec.is_one_int params.now }
{
    match params {
        [(Ty::Int, _)] => true,
        _ => false,
    }
}

fn add(
    alloc: Global,
    sorts: &mut Items<(Name, Sort)>,
    name: &Name,
    sort: Sort,
) -> Result<(), AllocError>
    ensures { OnOk result (sorts.new ≡ sorts.old ++ (name.now, sort) ∷ []) }
{
    sorts.push((name.copied(alloc)?, sort))?;
    Ok(())
}

fn add_device(
    alloc: Global,
    sorts: &mut Items<(Name, Sort)>,
    name: &Option<Name>,
) -> Result<(), AllocError>
    ensures { OnOk result (sorts.new ≡ sorts.old ++ spec.device_sorts name.now) }
{
    match name {
        Some(name) => add(alloc, sorts, name, Sort::Item),
        None => Ok(()),
    }
}

fn add_function(
    alloc: Global,
    sorts: &mut Items<(Name, Sort)>,
    name: &Name,
    params: &[(Ty, Name)],
    body: &[Stmt],
) -> Result<(), AllocError>
    ensures { OnOk result
        (sorts.new ≡ sorts.old
        ++ spec.declared_by sorts.old (function_item name.now params.now (stmts (stmts_view body.now)))) }
{
    let returned = returned_in(sorts.as_slice(), params, body);
    add(
        alloc,
        sorts,
        name,
        Sort::Function(is_one_int(params), returned),
    )
}

/// Adds what an item declares.
fn declare(alloc: Global, sorts: &mut Items<(Name, Sort)>, item: &Item) -> Result<(), AllocError>
    ensures { OnOk result (sorts.new ≡ sorts.old ++ spec.declared_by sorts.old (item_view item.now)) }
{
    match item {
        Item::RouterId(_) => Ok(()),
        Item::Table { name, .. } => add(alloc, sorts, name, Sort::Item),
        Item::Define { name, value } => {
            let kind = kind_of(sorts.as_slice(), &[], value);
            add(alloc, sorts, name, Sort::Value(kind))
        }
        Item::Function { name, params, body } => {
            add_function(alloc, sorts, name, params.as_slice(), body)
        }
        Item::Filter { name, .. } => add(alloc, sorts, name, Sort::Item),
        Item::Device { name } => add_device(alloc, sorts, name),
        Item::Pipe(pipe) => add(alloc, sorts, &pipe.name, Sort::Item),
        Item::Bgp(session) => add(alloc, sorts, &session.name, Sort::Item),
    }
}

/// What the items of a configuration declare.
pub(crate) fn sorts_of(alloc: Global, config: &Config) -> Result<Items<(Name, Sort)>, AllocError>
    ensures { IfOk result (λ sorts. sorts ≡ spec.sorts_after [] (config_view config.now)) }
{
    let mut sorts = Items::new(alloc);
    'items: for item in config.items.as_slice() {
        declare(alloc, &mut sorts, item)?;
    }
    Ok(sorts)
}
