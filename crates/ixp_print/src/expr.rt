//! Expressions.
ghost use Rattle.std.specs.Prelude.{◌≡◌, ◌++◌, codes, OnOk};
ghost use Rattle.ixp_lang.specs.Trees.{exprs};
ghost use Rattle.ixp_lang.specs.Views.{expr_view, exprs_view};
ghost use Rattle.ixp_print.specs.Texts.{
  set_items_text,
  set_text,
  value_text,
  is_chain,
  is_compound,
  wrapped,
  expr_text,
  exprs_text,
  chain_text,
};

use crate::list::{AddrText, PairText, PatternText, RangeText, TripleText};
use crate::word::{attr_word, bool_word, op_word, state_word};
use ixp_lang::{Expr, SetLit, Value};
use ixp_num::{Name, print_addr, print_prefix};
use ixp_num_tables::{Writes, put, put_joined, put_number};
use std::alloc::AllocError;

fn put_set_items(out: &mut Vec<u8>, set: &SetLit) -> Result<(), AllocError>
    ensures { OnOk result (out.new.items ≡ out.old.items ++ set_items_text set.now) }
{
    match set {
        SetLit::Ints(ranges) => put_joined::<RangeText>(out, b", ", ranges.as_slice()),
        SetLit::Ips(addrs) => put_joined::<AddrText>(out, b", ", addrs.as_slice()),
        SetLit::Prefixes(patterns) => put_joined::<PatternText>(out, b", ", patterns.as_slice()),
        SetLit::Pairs(pairs) => put_joined::<PairText>(out, b", ", pairs.as_slice()),
        SetLit::Triples(triples) => put_joined::<TripleText>(out, b", ", triples.as_slice()),
    }
}

fn put_set(out: &mut Vec<u8>, set: &SetLit) -> Result<(), AllocError>
    ensures { OnOk result (out.new.items ≡ out.old.items ++ set_text set.now) }
{
    put(out, b"[")?;
    put_set_items(out, set)?;
    put(out, b"]")
}

fn put_value(out: &mut Vec<u8>, value: &Value) -> Result<(), AllocError>
    ensures { OnOk result (out.new.items ≡ out.old.items ++ value_text value.now) }
{
    match value {
        Value::Int(n) => put_number(out, u64::from(*n)),
        Value::Bool(b) => put(out, bool_word(*b)),
        Value::Ip(addr) => print_addr(addr, out),
        Value::Net(prefix) => print_prefix(prefix, out),
        Value::Pair(a, b) => PairText::write(&(*a, Some(*b)), out),
        Value::Triple(a, b, c) => TripleText::write(&(*a, *b, Some(*c)), out),
        Value::Roa(state) => put(out, state_word(*state)),
        Value::Set(set) => put_set(out, set),
    }
}

fn is_chain(e: &Expr) -> bool
    ensures { result ≡ is_chain (expr_view e.now) }
{
    match e {
        Expr::And(_) | Expr::Or(_) => true,
        _ => false,
    }
}

fn is_compound(e: &Expr) -> bool
    ensures { result ≡ is_compound (expr_view e.now) }
{
    match e {
        Expr::And(_) | Expr::Or(_) | Expr::Cmp { .. } => true,
        _ => false,
    }
}

/// Writes an expression, in parentheses or bare.
#[cycle(expr)]
fn put_wrapped(out: &mut Vec<u8>, in_parentheses: bool, e: &Expr) -> Result<(), AllocError>
    ensures { OnOk result
        (out.new.items ≡ out.old.items ++ wrapped in_parentheses (expr_text (expr_view e.now))) }
{
    if !in_parentheses {
        return put_expr(out, e);
    }
    put(out, b"(")?;
    put_expr(out, e)?;
    put(out, b")")
}

/// Writes the arguments of a call.
#[cycle(expr)]
pub fn put_args(out: &mut Vec<u8>, args: &[Expr]) -> Result<(), AllocError>
    ensures { OnOk result (out.new.items ≡ out.old.items ++ exprs_text (exprs (exprs_view args.now))) }
{
    let mut is_first = true;
    'each: for arg in args {
        if !is_first {
            put(out, b", ")?;
        }
        is_first = false;
        put_expr(out, arg)?;
    }
    Ok(())
}

/// Writes the parts of a chain.
#[cycle(expr)]
fn put_chain(out: &mut Vec<u8>, joint: &[u8], parts: &[Expr]) -> Result<(), AllocError>
    ensures { OnOk result
        (out.new.items ≡ out.old.items ++ chain_text joint.now (exprs (exprs_view parts.now))) }
{
    let mut is_first = true;
    'each: for part in parts {
        if !is_first {
            put(out, joint)?;
        }
        is_first = false;
        put_wrapped(out, is_chain(part), part)?;
    }
    Ok(())
}

#[cycle(expr)]
fn put_call(out: &mut Vec<u8>, name: &Name, args: &[Expr]) -> Result<(), AllocError>
    ensures { OnOk result
        (out.new.items ≡ out.old.items
        ++ (name.now ++ codes "(" ++ exprs_text (exprs (exprs_view args.now)) ++ codes ")")) }
{
    put(out, name.as_bytes())?;
    put(out, b"(")?;
    put_args(out, args)?;
    put(out, b")")
}

/// Writes an expression.
#[cycle(expr)]
pub fn put_expr(out: &mut Vec<u8>, e: &Expr) -> Result<(), AllocError>
    ensures { OnOk result (out.new.items ≡ out.old.items ++ expr_text (expr_view e.now)) }
{
    match e {
        Expr::Lit(value) => put_value(out, value),
        Expr::Named(name) => put(out, name.as_bytes()),
        Expr::Attr(attr) => put(out, attr_word(*attr)),
        Expr::Call { name, args } => put_call(out, name, args),
        Expr::RoaCheck { table, net, origin } => {
            put(out, b"roa_check(")?;
            put(out, table.as_bytes())?;
            put(out, b", ")?;
            put_expr(out, net)?;
            put(out, b", ")?;
            put_expr(out, origin)?;
            put(out, b")")
        }
        Expr::Pair(a, b) => {
            put(out, b"(")?;
            put_expr(out, a)?;
            put(out, b", ")?;
            put_expr(out, b)?;
            put(out, b")")
        }
        Expr::Triple(a, b, c) => {
            put(out, b"(")?;
            put_expr(out, a)?;
            put(out, b", ")?;
            put_expr(out, b)?;
            put(out, b", ")?;
            put_expr(out, c)?;
            put(out, b")")
        }
        Expr::Set(set) => put_set(out, set),
        Expr::Not(inner) => {
            put(out, b"!")?;
            put_wrapped(out, is_compound(inner), inner)
        }
        Expr::And(parts) => put_chain(out, b" && ", parts),
        Expr::Or(parts) => put_chain(out, b" || ", parts),
        Expr::Cmp { op, left, right } => {
            put_wrapped(out, is_compound(left), left)?;
            put(out, b" ")?;
            put(out, op_word(*op))?;
            put(out, b" ")?;
            put_wrapped(out, is_compound(right), right)
        }
    }
}
