//! Small pieces of the text, a function for each form of expression, statement and item.
ghost use Rattle.std.specs.Prelude.{◌≡◌, ◌++◌, ◌∷◌, [], map, codes, nat_le, IsTrue, IfOk, OnOk, None};
ghost use Rattle.ixp_num.specs.Families.{same_family};
ghost use Rattle.ixp_num.specs.Names.{is_name};
ghost use Rattle.ixp_lang.specs.Trees.{
  literal,
  named,
  attribute,
  call,
  pair,
  triple,
  set_literal,
  negation,
  conjunction,
  comparison,
  exprs,
  return_value,
  stmts,
  function_item,
  filter_item,
};
ghost use Rattle.ixp_lang.specs.Views.{expr_view, stmt_view, stmts_view, item_view};
ghost use Rattle.ixp_lang.specs.declared.expr.Op.TheVariants as op;
ghost use Rattle.ixp_lang.specs.declared.item.Ty.TheVariants as ty;
ghost use Rattle.ixp_lang.specs.declared.value.SetLit.TheVariants as set;
ghost use Rattle.ixp_compile.specs.Pieces.{
  int,
  truth_value,
  compared,
  all_large,
  numbers,
  when,
  run,
  drop_with,
  tell,
  defined,
  where_any,
  master,
  roas,
  table_kind,
  roa_kind,
};
ghost use Rattle.ixp_compile_pieces.specs.Made.{items_view};

use ixp_lang::{Attr, Expr, Item, Kind, Op, SetLit, Stmt, Ty, Value};
use ixp_num::{Asn, Family, Items, Name, Pattern};
use std::alloc::{AllocError, Global};

// Expressions.

pub fn int(number: u32) -> Expr
    ensures { expr_view result ≡ int number }
{
    Expr::Lit(Value::Int(number))
}

pub fn truth_value(truth: bool) -> Expr
    ensures { expr_view result ≡ truth_value truth }
{
    Expr::Lit(Value::Bool(truth))
}

/// The greatest number that a part of a community of two parts may be.
const MOST_OF_PAIR: u32 = 65535;

/// What has the name.
pub fn named(alloc: Global, name: &[u8]) -> Result<Expr, AllocError>
    requires { IsTrue (is_name name.now) }
    ensures { IfOk result (λ e. expr_view e ≡ named name.now) }
{
    Ok(Expr::Named(Name::new(alloc, name)?))
}

/// The call of a function without parameters.
pub fn call(alloc: Global, name: Name) -> Expr
    ensures { expr_view result ≡ call name (exprs []) }
{
    let args = Vec::new(alloc);
    Expr::Call { name, args }
}

/// The call of a function of a number.
pub fn call_with(alloc: Global, name: &[u8], number: u32) -> Result<Expr, AllocError>
    requires { IsTrue (is_name name.now) }
    ensures { IfOk result (λ e. expr_view e ≡ call name.now (exprs (int number ∷ []))) }
{
    let name = Name::new(alloc, name)?;
    let mut args = Vec::new(alloc);
    args.push(int(number))?;
    Ok(Expr::Call { name, args })
}

pub fn negation(alloc: Global, inner: Expr) -> Result<Expr, AllocError>
    ensures { IfOk result (λ e. expr_view e ≡ negation (expr_view inner)) }
{
    Ok(Expr::Not(Box::new(alloc, inner)?))
}

/// Whether both hold.
pub fn both(alloc: Global, first: Expr, second: Expr) -> Result<Expr, AllocError>
    ensures { IfOk result (λ e. expr_view e ≡ conjunction (exprs (expr_view first ∷ expr_view second ∷ []))) }
{
    let mut parts = Vec::new(alloc);
    parts.push(first)?;
    parts.push(second)?;
    Ok(Expr::And(parts))
}

pub fn comparison(alloc: Global, op: Op, left: Expr, right: Expr) -> Result<Expr, AllocError>
    ensures { IfOk result (λ e. expr_view e ≡ comparison op (expr_view left) (expr_view right)) }
{
    let left = Box::new(alloc, left)?;
    let right = Box::new(alloc, right)?;
    Ok(Expr::Cmp { op, left, right })
}

/// What the route has, compared.
pub fn compared(alloc: Global, op: Op, attr: Attr, right: Expr) -> Result<Expr, AllocError>
    ensures { IfOk result (λ e. expr_view e ≡ compared op attr (expr_view right)) }
{
    comparison(alloc, op, Expr::Attr(attr), right)
}

pub fn compared_number(alloc: Global, op: Op, attr: Attr, number: u32) -> Result<Expr, AllocError>
    ensures { IfOk result (λ e. expr_view e ≡ compared op attr (int number)) }
{
    compared(alloc, op, attr, int(number))
}

pub fn compared_name(alloc: Global, op: Op, attr: Attr, name: Name) -> Result<Expr, AllocError>
    ensures { IfOk result (λ e. expr_view e ≡ compared op attr (named name)) }
{
    compared(alloc, op, attr, Expr::Named(name))
}

/// Whether it is in a list of the route.
pub fn is_in(alloc: Global, left: Expr, attr: Attr) -> Result<Expr, AllocError>
    ensures { IfOk result (λ e. expr_view e ≡ comparison op.In (expr_view left) (attribute attr)) }
{
    comparison(alloc, Op::In, left, Expr::Attr(attr))
}

/// `(first, name)`, a community.
pub fn pair_of(alloc: Global, first: u32, name: &[u8]) -> Result<Expr, AllocError>
    requires { IsTrue (is_name name.now) }
    ensures { IfOk result (λ e. expr_view e ≡ pair (int first) (named name.now)) }
{
    let first = Box::new(alloc, int(first))?;
    let second = Box::new(alloc, named(alloc, name)?)?;
    Ok(Expr::Pair(first, second))
}

/// `(first, second, name)`, a large community.
pub fn triple_of(alloc: Global, first: u32, second: u32, name: &[u8]) -> Result<Expr, AllocError>
    requires { IsTrue (is_name name.now) }
    ensures { IfOk result (λ e. expr_view e ≡ triple (int first) (int second) (named name.now)) }
{
    let first = Box::new(alloc, int(first))?;
    let second = Box::new(alloc, int(second))?;
    let third = Box::new(alloc, named(alloc, name)?)?;
    Ok(Expr::Triple(first, second, third))
}

/// The large communities of the server with these second parts and this last one, or any.
pub fn large(
    alloc: Global,
    rs: Asn,
    actions: &[u32],
    last: Option<u32>,
) -> Result<Items<(u32, u32, Option<u32>)>, AllocError>
    ensures { IfOk result (λ it. it ≡ map (λ a. (rs.0, a, last)) actions.now) }
{
    let mut triples = Items::new(alloc);
    'each: for action in actions {
        triples.push((rs.0, *action, last))?;
    }
    Ok(triples)
}

pub fn all_large(alloc: Global, rs: Asn, actions: &[u32]) -> Result<Expr, AllocError>
    ensures { IfOk result (λ e. expr_view e ≡ all_large rs.0 actions.now) }
{
    let triples = large(alloc, rs, actions, None)?;
    Ok(Expr::Set(SetLit::Triples(triples)))
}

/// Each number as a range of its own.
fn ranges_of(alloc: Global, asns: &[Asn]) -> Result<Items<(u32, u32)>, AllocError>
    ensures { IfOk result (λ it. it ≡ map (λ a. (a.0, a.0)) asns.now) }
{
    let mut ranges = Items::new(alloc);
    'each: for asn in asns {
        ranges.push((asn.0, asn.0))?;
    }
    Ok(ranges)
}

// Statements.

pub fn add(body: &mut Vec<Stmt>, stmt: Stmt) -> Result<(), AllocError>
    ensures { OnOk result (stmts_view body.new.items ≡ stmts_view body.old.items ++ stmt_view stmt ∷ []) }
{
    body.push(stmt)?;
    Ok(())
}

/// An `if` with nothing else.
fn when(alloc: Global, test: Expr, yes: Vec<Stmt>) -> Stmt
    ensures { stmt_view result ≡ when (expr_view test) (stmts_view yes.items) }
{
    Stmt::If {
        test,
        yes,
        no: Vec::new(alloc),
    }
}

/// Adds an `if` with nothing else.
pub fn add_when(
    alloc: Global,
    body: &mut Vec<Stmt>,
    test: Expr,
    yes: Vec<Stmt>,
) -> Result<(), AllocError>
    ensures { OnOk result
        (stmts_view body.new.items ≡ stmts_view body.old.items
        ++ when (expr_view test) (stmts_view yes.items) ∷ []) }
{
    add(body, when(alloc, test, yes))
}

/// Adds the call of a function without parameters.
pub fn add_run(alloc: Global, body: &mut Vec<Stmt>, name: &[u8]) -> Result<(), AllocError>
    requires { IsTrue (is_name name.now) }
    ensures { OnOk result (stmts_view body.new.items ≡ stmts_view body.old.items ++ run name.now ∷ []) }
{
    let name = Name::new(alloc, name)?;
    let args = Vec::new(alloc);
    add(body, Stmt::Call { name, args })
}

fn drop_with(alloc: Global, number: u32) -> Result<Stmt, AllocError>
    ensures { IfOk result (λ s. stmt_view s ≡ drop_with number) }
{
    let name = Name::new(alloc, b"ixp_drop")?;
    let mut args = Vec::new(alloc);
    args.push(int(number))?;
    Ok(Stmt::Call { name, args })
}

/// Adds the refusal of the route.
pub fn add_drop(alloc: Global, body: &mut Vec<Stmt>, number: u32) -> Result<(), AllocError>
    ensures { OnOk result (stmts_view body.new.items ≡ stmts_view body.old.items ++ drop_with number ∷ []) }
{
    let stmt = drop_with(alloc, number)?;
    add(body, stmt)
}

/// Adds a test that refuses the route.
pub fn add_drop_if(
    alloc: Global,
    body: &mut Vec<Stmt>,
    test: Expr,
    number: u32,
) -> Result<(), AllocError>
    ensures { OnOk result
        (stmts_view body.new.items ≡ stmts_view body.old.items
        ++ when (expr_view test) (drop_with number ∷ []) ∷ []) }
{
    let mut yes = Vec::new(alloc);
    add_drop(alloc, &mut yes, number)?;
    add_when(alloc, body, test, yes)
}

/// Adds a test of a number that refuses the route.
pub fn add_number_test(
    alloc: Global,
    body: &mut Vec<Stmt>,
    op: Op,
    attr: Attr,
    bound: u32,
    number: u32,
) -> Result<(), AllocError>
    ensures { OnOk result
        (stmts_view body.new.items ≡ stmts_view body.old.items
        ++ when (compared op attr (int bound)) (drop_with number ∷ []) ∷ []) }
{
    let test = compared_number(alloc, op, attr, bound)?;
    add_drop_if(alloc, body, test, number)
}

/// Adds a test that refuses the route by a defined set, where that isn't empty.
pub fn add_set_test<T>(
    alloc: Global,
    body: &mut Vec<Stmt>,
    set: &[T],
    attr: Attr,
    name: &[u8],
    number: u32,
) -> Result<(), AllocError>
    requires { IsTrue (is_name name.now) }
    ensures { OnOk result
        (stmts_view body.new.items ≡ stmts_view body.old.items
        ++ where_any set.now (when (compared op.In attr (named name.now)) (drop_with number ∷ []) ∷ [])) }
{
    if set.is_empty() {
        return Ok(());
    }
    let name = Name::new(alloc, name)?;
    let test = compared_name(alloc, Op::In, attr, name)?;
    add_drop_if(alloc, body, test, number)
}

/// Adds what the server tells of the route, `(rs, a, b)`.
pub fn add_tell(body: &mut Vec<Stmt>, rs: Asn, a: u32, b: u32) -> Result<(), AllocError>
    ensures { OnOk result (stmts_view body.new.items ≡ stmts_view body.old.items ++ tell rs.0 a b ∷ []) }
{
    let told = Expr::Lit(Value::Triple(rs.0, a, b));
    add(body, Stmt::AddTriple(told))
}

/// Adds a test that gives a value.
pub fn add_return_if(
    alloc: Global,
    body: &mut Vec<Stmt>,
    test: Expr,
    value: Expr,
) -> Result<(), AllocError>
    ensures { OnOk result
        (stmts_view body.new.items ≡ stmts_view body.old.items
        ++ when (expr_view test) (return_value (expr_view value) ∷ []) ∷ []) }
{
    let mut yes = Vec::new(alloc);
    add(&mut yes, Stmt::Return(value))?;
    add_when(alloc, body, test, yes)
}

// Items.

pub fn add_item(items: &mut Vec<Item>, item: Item) -> Result<(), AllocError>
    ensures { OnOk result (items_view items.new.items ≡ items_view items.old.items ++ item_view item ∷ []) }
{
    items.push(item)?;
    Ok(())
}

/// Adds a function without parameters.
pub fn add_function(
    alloc: Global,
    items: &mut Vec<Item>,
    name: Name,
    body: Vec<Stmt>,
) -> Result<(), AllocError>
    ensures { OnOk result
        (items_view items.new.items ≡ items_view items.old.items
        ++ function_item name [] (stmts (stmts_view body.items)) ∷ []) }
{
    let params = Items::new(alloc);
    add_item(items, Item::Function { name, params, body })
}

/// Adds a function of a number.
pub fn add_function_with(
    alloc: Global,
    items: &mut Vec<Item>,
    name: &[u8],
    param: &[u8],
    body: Vec<Stmt>,
) -> Result<(), AllocError>
    requires name { IsTrue (is_name name.now) }
    requires param { IsTrue (is_name param.now) }
    ensures { OnOk result
        (items_view items.new.items ≡ items_view items.old.items
        ++ function_item name.now ((ty.Int, param.now) ∷ []) (stmts (stmts_view body.items)) ∷ []) }
{
    let name = Name::new(alloc, name)?;
    let param = Name::new(alloc, param)?;
    let mut params = Items::new(alloc);
    params.push((Ty::Int, param))?;
    add_item(items, Item::Function { name, params, body })
}

pub fn add_filter(items: &mut Vec<Item>, name: Name, body: Vec<Stmt>) -> Result<(), AllocError>
    ensures { OnOk result
        (items_view items.new.items ≡ items_view items.old.items
        ++ filter_item name (stmts (stmts_view body.items)) ∷ []) }
{
    add_item(items, Item::Filter { name, body })
}

/// Adds a defined set of nets, where it isn't empty.
pub fn add_nets(
    items: &mut Vec<Item>,
    name: Name,
    patterns: Items<Pattern>,
) -> Result<(), AllocError>
    ensures { OnOk result
        (items_view items.new.items ≡ items_view items.old.items ++ defined name set.Prefixes patterns) }
{
    if patterns.is_empty() {
        return Ok(());
    }
    let value = Expr::Set(SetLit::Prefixes(patterns));
    add_item(items, Item::Define { name, value })
}

/// Adds a defined set of ranges of numbers, where it isn't empty.
pub fn add_ranges(
    items: &mut Vec<Item>,
    name: Name,
    ranges: Items<(u32, u32)>,
) -> Result<(), AllocError>
    ensures { OnOk result
        (items_view items.new.items ≡ items_view items.old.items ++ defined name set.Ints ranges) }
{
    if ranges.is_empty() {
        return Ok(());
    }
    let value = Expr::Set(SetLit::Ints(ranges));
    add_item(items, Item::Define { name, value })
}

/// Adds a defined set of AS numbers, where it isn't empty.
pub fn add_numbers(
    alloc: Global,
    items: &mut Vec<Item>,
    name: Name,
    asns: &[Asn],
) -> Result<(), AllocError>
    ensures { OnOk result
        (items_view items.new.items ≡ items_view items.old.items ++ defined name numbers asns.now) }
{
    if asns.is_empty() {
        return Ok(());
    }
    let ranges = ranges_of(alloc, asns)?;
    let value = Expr::Set(SetLit::Ints(ranges));
    add_item(items, Item::Define { name, value })
}

// Names and kinds.

/// The name of the table that all sessions share.
pub fn master(alloc: Global, family: Family) -> Result<Name, AllocError>
    ensures { IfOk result (λ n. n ≡ master family) }
{
    match family {
        Family::V4 => Name::new(alloc, b"master4"),
        Family::V6 => Name::new(alloc, b"master6"),
    }
}

/// The name of the table of ROAs.
pub fn roas(alloc: Global, family: Family) -> Result<Name, AllocError>
    ensures { IfOk result (λ n. n ≡ roas family) }
{
    match family {
        Family::V4 => Name::new(alloc, b"roas4"),
        Family::V6 => Name::new(alloc, b"roas6"),
    }
}

pub fn table_kind(family: Family) -> Kind
    ensures { result ≡ table_kind family }
{
    match family {
        Family::V4 => Kind::Ipv4,
        Family::V6 => Kind::Ipv6,
    }
}

pub fn roa_kind(family: Family) -> Kind
    ensures { result ≡ roa_kind family }
{
    match family {
        Family::V4 => Kind::Roa4,
        Family::V6 => Kind::Roa6,
    }
}

/// Whether the number may stand in a community of two parts.
pub fn fits_pair(number: u32) -> bool
    ensures { result ≡ nat_le number 65535 }
{
    number <= MOST_OF_PAIR
}

pub fn same_family(one: Family, other: Family) -> bool
    ensures { result ≡ same_family one other }
{
    one == other
}

/// Whether the route is one whose traffic is to be dropped.
pub fn is_blackhole(alloc: Global) -> Result<Expr, AllocError>
    ensures { IfOk result (λ e. expr_view e ≡ call (codes "ixp_bh") (exprs [])) }
{
    let name = Name::new(alloc, b"ixp_bh")?;
    Ok(call(alloc, name))
}

/// The server's pairs for a peer, or for any.
pub fn steering_pairs(alloc: Global, rs: Asn, peer: Option<u32>) -> Result<Expr, AllocError>
    ensures { IfOk result (λ e. expr_view e ≡ set_literal (set.Pairs ((0, peer) ∷ (rs.0, peer) ∷ []))) }
{
    let mut pairs = Items::new(alloc);
    pairs.push((0, peer))?;
    pairs.push((rs.0, peer))?;
    Ok(Expr::Set(SetLit::Pairs(pairs)))
}
