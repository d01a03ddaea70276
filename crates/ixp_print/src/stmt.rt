//! Statements. `indent` is the blanks at the beginning of a line.
ghost use Rattle.std.specs.Prelude.{◌≡◌, ◌++◌, [], ◌∷◌, List, codes, IfOk, OnOk};
ghost use Rattle.ixp_lang.specs.Trees.{
  exprs,
  stmts,
  set_next_hop,
  prepend,
  add_pair,
  delete_pairs,
  add_triple,
  delete_triples,
};
ghost use Rattle.ixp_lang.specs.Views.{expr_view, exprs_view, stmt_view, stmts_view, arms_view};
ghost use Rattle.ixp_num_tables.specs.Joined.{joined};
ghost use Rattle.ixp_print.specs.Texts.{
  line,
  deeper,
  else_line,
  no_stmts,
  label_text,
  expr_text,
  exprs_text,
  stmt_text,
  stmts_text,
  cases_text,
};

use crate::expr::{put_args, put_expr};
use crate::list::LabelText;
use ixp_lang::{Expr, Label, Stmt};
use ixp_num::{Items, Name};
use ixp_num_tables::{put, put_joined};
use std::alloc::{AllocError, Global};

/// Writes a line.
#[tactic(auto, unfolding(crate::specs::Texts::line))]
pub fn put_line(out: &mut Vec<u8>, indent: &[u8], text: &[u8]) -> Result<(), AllocError>
    ensures { OnOk result (out.new.items ≡ out.old.items ++ line indent.now text.now) }
{
    put(out, indent)?;
    put(out, text)?;
    put(out, b"\n")
}

/// The blanks one level in.
fn deeper(alloc: Global, indent: &[u8]) -> Result<Vec<u8>, AllocError>
    ensures { IfOk result (λ v. v.items ≡ deeper indent.now) }
{
    let mut blanks = Vec::from_slice(alloc, indent)?;
    blanks.extend_from_slice(b"  ")?;
    Ok(blanks)
}

/// Writes a line of an expression between two texts.
#[tactic(auto, unfolding(crate::specs::Texts::line))]
fn put_around(
    out: &mut Vec<u8>,
    indent: &[u8],
    before: &[u8],
    e: &Expr,
    after: &[u8],
) -> Result<(), AllocError>
    ensures { OnOk result
        (out.new.items ≡ out.old.items
        ++ line indent.now (before.now ++ expr_text (expr_view e.now) ++ after.now)) }
{
    put(out, indent)?;
    put(out, before)?;
    put_expr(out, e)?;
    put(out, after)?;
    put(out, b"\n")
}

/// Writes a call as a statement.
#[tactic(auto, unfolding(crate::specs::Texts::line))]
fn put_call(out: &mut Vec<u8>, indent: &[u8], name: &Name, args: &[Expr]) -> Result<(), AllocError>
    ensures { OnOk result
        (out.new.items ≡ out.old.items
        ++ line indent.now (name.now ++ codes "(" ++ exprs_text (exprs (exprs_view args.now))
        ++ codes ");")) }
{
    put(out, indent)?;
    put(out, name.as_bytes())?;
    put(out, b"(")?;
    put_args(out, args)?;
    put(out, b");\n")
}

/// Writes the line before what else is done, where something is.
#[tactic(auto, using(crate::proofs::Empty::no_stmts_is_empty))]
fn put_else(out: &mut Vec<u8>, indent: &[u8], text: &[u8], other: &[Stmt]) -> Result<(), AllocError>
    ensures { OnOk result
        (out.new.items ≡ out.old.items
        ++ else_line (no_stmts (stmts (stmts_view other.now))) indent.now text.now) }
{
    if other.is_empty() {
        return Ok(());
    }
    put_line(out, indent, text)
}

/// Writes the labels of an arm.
#[tactic(auto, unfolding(crate::specs::Texts::line))]
fn put_labels(out: &mut Vec<u8>, indent: &[u8], labels: &[Label]) -> Result<(), AllocError>
    ensures { OnOk result
        (out.new.items ≡ out.old.items
        ++ line indent.now (joined (codes ", ") label_text labels.now ++ codes ":")) }
{
    put(out, indent)?;
    put_joined::<LabelText>(out, b", ", labels)?;
    put(out, b":\n")
}

/// Writes a new next hop.
fn put_next_hop(out: &mut Vec<u8>, indent: &[u8], e: &Expr) -> Result<(), AllocError>
    ensures { OnOk result
        (out.new.items ≡ out.old.items ++ stmt_text indent.now (set_next_hop (expr_view e.now))) }
{
    put_around(out, indent, b"bgp_next_hop = ", e, b";")
}

/// Writes a number put in front of the path.
fn put_prepend(out: &mut Vec<u8>, indent: &[u8], e: &Expr) -> Result<(), AllocError>
    ensures { OnOk result
        (out.new.items ≡ out.old.items ++ stmt_text indent.now (prepend (expr_view e.now))) }
{
    put_around(out, indent, b"bgp_path.prepend(", e, b");")
}

/// Writes a community that is added.
fn put_add_pair(out: &mut Vec<u8>, indent: &[u8], e: &Expr) -> Result<(), AllocError>
    ensures { OnOk result
        (out.new.items ≡ out.old.items ++ stmt_text indent.now (add_pair (expr_view e.now))) }
{
    put_around(out, indent, b"bgp_community.add(", e, b");")
}

/// Writes communities that are taken away.
fn put_delete_pairs(out: &mut Vec<u8>, indent: &[u8], e: &Expr) -> Result<(), AllocError>
    ensures { OnOk result
        (out.new.items ≡ out.old.items ++ stmt_text indent.now (delete_pairs (expr_view e.now))) }
{
    put_around(out, indent, b"bgp_community.delete(", e, b");")
}

/// Writes a large community that is added.
fn put_add_triple(out: &mut Vec<u8>, indent: &[u8], e: &Expr) -> Result<(), AllocError>
    ensures { OnOk result
        (out.new.items ≡ out.old.items ++ stmt_text indent.now (add_triple (expr_view e.now))) }
{
    put_around(out, indent, b"bgp_large_community.add(", e, b");")
}

/// Writes large communities that are taken away.
fn put_delete_triples(out: &mut Vec<u8>, indent: &[u8], e: &Expr) -> Result<(), AllocError>
    ensures { OnOk result
        (out.new.items ≡ out.old.items ++ stmt_text indent.now (delete_triples (expr_view e.now))) }
{
    put_around(out, indent, b"bgp_large_community.delete(", e, b");")
}

/// Writes statements in order.
#[cycle(stmt)]
pub fn put_stmts(
    alloc: Global,
    out: &mut Vec<u8>,
    indent: &[u8],
    list: &[Stmt],
) -> Result<(), AllocError>
    ensures { OnOk result
        (out.new.items ≡ out.old.items ++ stmts_text indent.now (stmts (stmts_view list.now))) }
{
    'each: for stmt in list {
        put_stmt(alloc, out, indent, stmt)?;
    }
    Ok(())
}

/// Writes the arms of a `case`, and what is done else.
#[cycle(stmt)]
fn put_arms(
    alloc: Global,
    out: &mut Vec<u8>,
    indent: &[u8],
    arms: &[(Items<Label>, Vec<Stmt>)],
    other: &[Stmt],
) -> Result<(), AllocError>
    ensures { OnOk result
        (out.new.items ≡ out.old.items
        ++ cases_text indent.now (arms_view arms.now) (stmts (stmts_view other.now))) }
{
    let inner = deeper(alloc, indent)?;
    'each: for arm in arms {
        put_labels(out, indent, arm.0.as_slice())?;
        put_stmts(alloc, out, inner.as_slice(), &arm.1)?;
    }
    put_else(out, indent, b"else:", other)?;
    put_stmts(alloc, out, inner.as_slice(), other)
}

/// Writes a statement.
#[cycle(stmt)]
#[tactic(auto, using(ixp_lang::proofs::CaseView::case_lemmas))]
fn put_stmt(alloc: Global, out: &mut Vec<u8>, indent: &[u8], stmt: &Stmt) -> Result<(), AllocError>
    ensures { OnOk result (out.new.items ≡ out.old.items ++ stmt_text indent.now (stmt_view stmt.now)) }
{
    match stmt {
        Stmt::Block(list) => {
            let inner = deeper(alloc, indent)?;
            put_line(out, indent, b"{")?;
            put_stmts(alloc, out, inner.as_slice(), list)?;
            put_line(out, indent, b"}")
        }
        Stmt::If { test, yes, no } => {
            let inner = deeper(alloc, indent)?;
            put_around(out, indent, b"if ", test, b" then {")?;
            put_stmts(alloc, out, inner.as_slice(), yes)?;
            put_else(out, indent, b"} else {", no)?;
            put_stmts(alloc, out, inner.as_slice(), no)?;
            put_line(out, indent, b"}")
        }
        Stmt::Case { on, arms, other } => {
            let inner = deeper(alloc, indent)?;
            put_around(out, indent, b"case ", on, b" {")?;
            put_arms(alloc, out, inner.as_slice(), arms, other)?;
            put_line(out, indent, b"}")
        }
        Stmt::Return(e) => put_around(out, indent, b"return ", e, b";"),
        Stmt::Accept => put_line(out, indent, b"accept;"),
        Stmt::Reject => put_line(out, indent, b"reject;"),
        Stmt::Call { name, args } => put_call(out, indent, name, args),
        Stmt::SetNextHop(e) => put_next_hop(out, indent, e),
        Stmt::Prepend(e) => put_prepend(out, indent, e),
        Stmt::AddPair(e) => put_add_pair(out, indent, e),
        Stmt::DeletePairs(e) => put_delete_pairs(out, indent, e),
        Stmt::AddTriple(e) => put_add_triple(out, indent, e),
        Stmt::DeleteTriples(e) => put_delete_triples(out, indent, e),
    }
}
