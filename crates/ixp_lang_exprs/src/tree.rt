//! The trees of groups.
ghost use Rattle.std.specs.Prelude.{◌≡◌, ◌≤◌, ◌<◌, ◌++◌, ◌∷◌, [], length, IfOk, IfErr, box_value};
ghost use Rattle.ixp_lang.specs.Views.{expr_view, exprs_view};
ghost use Rattle.ixp_lang_tokens.specs.declared.fault.Fault.TheVariants.{NoMemory};
ghost use Rattle.ixp_lang_exprs.specs.declared.types.ValueType.TheVariants.{
  Bool as Truth,
  State,
  Pair,
  Triple,
};
ghost use Rattle.ixp_lang_exprs.specs.Answers.{Makes};
ghost use Rattle.ixp_lang_exprs.specs.Operands.{operand_of, closed};
ghost use Rattle.ixp_lang_exprs.specs.Expressions.{plain_tree, check_tree};
ghost use Rattle.ixp_lang_exprs.specs.Groups.{
  least,
  limit,
  shape_in,
  parts_of,
  finished,
  literal_pair,
  literal_triple,
  call_tree,
};

use crate::group::Opening;
use crate::parts::{Parts, literal_number};
use crate::{Signature, Typed, ValueType};
use ixp_lang::{Expr, Value};
use ixp_lang_tokens::Fault;
use ixp_num::Name;
use std::alloc::Global;

/// Takes the last part out.
fn last_part(alloc: Global, exprs: &mut Vec<Expr>) -> Result<Box<Expr>, Fault>
    requires { 0 < length exprs.old.items }
    ensures last { IfOk result (λ part. exprs.old.items ≡ exprs.new.items ++ box_value part ∷ []) }
    ensures memory { IfErr result (λ f. f ≡ NoMemory) }
{
    let Some(expr) = exprs.pop() else {
        unreachable!()
    };
    let part = Box::new(alloc, expr)?;
    Ok(part)
}

/// The pair, if both parts are literals.
fn literal_pair(exprs: &[Expr]) -> Option<Value>
    ensures { result ≡ literal_pair (exprs_view exprs.now) }
{
    let [a, b] = exprs else {
        return None;
    };
    let a = literal_number(a)?;
    let b = literal_number(b)?;
    Some(Value::Pair(a, b))
}

/// The triple, if all parts are literals.
fn literal_triple(exprs: &[Expr]) -> Option<Value>
    ensures { result ≡ literal_triple (exprs_view exprs.now) }
{
    let [a, b, c] = exprs else {
        return None;
    };
    let a = literal_number(a)?;
    let b = literal_number(b)?;
    let c = literal_number(c)?;
    Some(Value::Triple(a, b, c))
}

fn pair_of(alloc: Global, mut exprs: Vec<Expr>) -> Result<Expr, Fault>
    requires { length exprs.items ≡ 2 }
    ensures { Makes (λ e. closed (expr_view e) Pair) result (plain_tree (exprs_view exprs.items) Truth) }
{
    if let Some(value) = literal_pair(exprs.as_slice()) {
        return Ok(Expr::Lit(value));
    }
    let b = last_part(alloc, &mut exprs)?;
    let a = last_part(alloc, &mut exprs)?;
    Ok(Expr::Pair(a, b))
}

fn triple_of(alloc: Global, mut exprs: Vec<Expr>) -> Result<Expr, Fault>
    requires { length exprs.items ≡ 3 }
    ensures { Makes (λ e. closed (expr_view e) Triple) result (plain_tree (exprs_view exprs.items) Truth) }
{
    if let Some(value) = literal_triple(exprs.as_slice()) {
        return Ok(Expr::Lit(value));
    }
    let c = last_part(alloc, &mut exprs)?;
    let b = last_part(alloc, &mut exprs)?;
    let a = last_part(alloc, &mut exprs)?;
    Ok(Expr::Triple(a, b, c))
}

/// The expression itself, which has this type, or a tuple.
fn plain_of(alloc: Global, ty: ValueType, mut exprs: Vec<Expr>) -> Result<Typed, Fault>
    requires enough { 1 ≤ length exprs.items }
    requires few { length exprs.items < 4 }
    ensures { Makes operand_of result (plain_tree (exprs_view exprs.items) ty) }
{
    match exprs.len() {
        1 => {
            let Some(expr) = exprs.pop() else {
                unreachable!()
            };
            Ok(Typed::closed(expr, ty))
        }
        2 => Ok(Typed::closed(pair_of(alloc, exprs)?, ValueType::Pair)),
        _ => Ok(Typed::closed(triple_of(alloc, exprs)?, ValueType::Triple)),
    }
}

/// The call of a function.
fn call_of(
    alloc: Global,
    name: &Name,
    signature: &Signature,
    mut args: Vec<Expr>,
) -> Result<Typed, Fault>
    ensures { Makes operand_of result (call_tree name.now signature.now (exprs_view args.items)) }
{
    let ty = signature.returns.unwrap_or(ValueType::Bool);
    let name = name.copied(alloc)?;
    args.shrink_to_fit();
    Ok(Typed::closed(Expr::Call { name, args }, ty))
}

/// The check against a table.
fn roa_check_of(alloc: Global, table: &Name, mut exprs: Vec<Expr>) -> Result<Typed, Fault>
    requires { length exprs.items ≡ 2 }
    ensures { Makes operand_of result (closed (check_tree table.now (exprs_view exprs.items)) State) }
{
    let table = table.copied(alloc)?;
    let origin = last_part(alloc, &mut exprs)?;
    let net = last_part(alloc, &mut exprs)?;
    let check = Expr::RoaCheck { table, net, origin };
    Ok(Typed::closed(check, ValueType::State))
}

/// The tree of the group that was opened so.
pub(crate) fn made(alloc: Global, opening: Opening<'_, '_>, parts: Parts) -> Result<Typed, Fault>
    requires enough { least (shape_in opening) ≤ length parts.exprs.items }
    requires few { length parts.exprs.items < limit (shape_in opening) (length parts.exprs.items) }
    ensures { Makes operand_of result (finished opening.entry (parts_of parts)) }
{
    let Parts { exprs, ty, .. } = parts;
    match opening {
        Opening::Plain => plain_of(alloc, ty, exprs),
        Opening::Call(name, signature) => call_of(alloc, name, signature, exprs),
        Opening::Check(table) => roa_check_of(alloc, table, exprs),
    }
}
