//! Functions and filters.
ghost use Rattle.std.specs.Prelude.{◌≡◌, ◌<◌, ◌≤◌, length, IfOk};
ghost use Rattle.ixp_lang.specs.Views.{item_view};
ghost use Rattle.ixp_lang_tokens.specs.Reading.{read, kinds, Gives};
ghost use Rattle.ixp_lang_exprs.specs.Names.{names_of};
ghost use Rattle.ixp_read.specs.Functions.{
  written_form,
  head_form,
  body_within,
  function_within,
  filter_within,
};
ghost use Rattle.ixp_read.specs.Views.{head_of, body_of};

use crate::params::{Params, params_at};
use crate::ty::type_at;
use ixp_lang::{Item, Stmt};
use ixp_lang_exprs::{Declared, Env, Scope, Signature, ValueType, type_of};
use ixp_lang_stmts::{Frame, Returned, block_end};
use ixp_lang_tokens::{Cause, Fault, Mark, Token, after_mark, mark_at};
use ixp_num::Name;
use std::alloc::Global;

/// A function's head.
#[derive(Drop)]
struct Head {
    name: Name,
    params: Params,
}

/// The name of a function, and its parameters. The name stands for a function that isn't read yet.
fn head_at<'t>(
    alloc: Global,
    env: &mut Env,
    number: usize,
    tokens: &'t [Token],
) -> Result<(Head, &'t [Token]), Fault>
    ensures reads { Gives (λ x. (head_of x.0 (names_of env.new), kinds x.1.now)) result
        (read (head_form number (names_of env.old)) (kinds tokens.now)) }
    ensures shorter { IfOk result (λ x. length x.1.now < length tokens.now) }
{
    let (name, rest) = env.free_name_at(alloc, tokens)?;
    env.declare(alloc, &name, Declared::Begun)?;
    let (params, rest) = params_at(alloc, env, number, rest)?;
    Ok((Head { name, params }, rest))
}

/// The type that a function is said to return, if one is.
fn written_at(tokens: &[Token]) -> Result<(Option<ValueType>, &[Token]), Fault>
    ensures reads { Gives (λ x. (x.0, kinds x.1.now)) result (read written_form (kinds tokens.now)) }
    ensures shorter { IfOk result (λ x. length x.1.now ≤ length tokens.now) }
{
    let Some(rest) = after_mark(Mark::Arrow, tokens) else {
        return Ok((None, tokens));
    };
    let (ty, rest) = type_at(rest)?;
    Ok((Some(type_of(ty)), rest))
}

/// A function's body, with so many levels in it at most, and what it returns. A type that is written before
/// needs a `return`.
fn body_at<'t>(
    alloc: Global,
    env: &Env,
    depth: u32,
    number: usize,
    tokens: &'t [Token],
) -> Result<(Body, &'t [Token]), Fault>
    ensures reads { Gives (λ x. (body_of x.0, kinds x.1.now)) result
        (read (body_within depth number (names_of env.now)) (kinds tokens.now)) }
    ensures shorter { IfOk result (λ x. length x.1.now < length tokens.now) }
{
    let (written, rest) = written_at(tokens)?;
    let rest = mark_at(Mark::BlockOpen, rest)?;
    let frame = Frame {
        alloc,
        env,
        scope: Scope::Function(number),
    };
    let mut returned = Returned {
        ty: written,
        is_met: false,
    };
    let (body, rest) = block_end(frame, depth, &mut returned, rest)?;
    if written.is_some() && !returned.is_met {
        return Err(Fault::Stop(Cause::Misfit, tokens.len()));
    }
    let returns = returned.ty;
    Ok((Body { body, returns }, rest))
}

#[derive(Drop)]
struct Body {
    body: Vec<Stmt>,
    returns: Option<ValueType>,
}

/// What follows `function`. There may be so many levels in its block, and so many items stand before it.
pub(crate) fn function_at<'t>(
    alloc: Global,
    env: &mut Env,
    depth: u32,
    number: usize,
    tokens: &'t [Token],
) -> Result<(Item, &'t [Token]), Fault>
    ensures reads { Gives (λ x. ((item_view x.0, names_of env.new), kinds x.1.now)) result
        (read (function_within depth number (names_of env.old)) (kinds tokens.now)) }
    ensures shorter { IfOk result (λ x. length x.1.now < length tokens.now) }
{
    let (head, rest) = head_at(alloc, env, number, tokens)?;
    let (end, rest) = body_at(alloc, env, depth, number, rest)?;
    let Head { name, params } = head;
    let Params { params, types } = params;
    let Body { body, returns } = end;
    let signature = Signature {
        params: types,
        returns,
    };
    env.declare(alloc, &name, Declared::Function(signature))?;
    Ok((Item::Function { name, params, body }, rest))
}

/// What follows `filter`. There may be so many levels in its block.
pub(crate) fn filter_at<'t>(
    alloc: Global,
    env: &mut Env,
    depth: u32,
    tokens: &'t [Token],
) -> Result<(Item, &'t [Token]), Fault>
    ensures reads { Gives (λ x. ((item_view x.0, names_of env.new), kinds x.1.now)) result
        (read (filter_within depth (names_of env.old)) (kinds tokens.now)) }
    ensures shorter { IfOk result (λ x. length x.1.now < length tokens.now) }
{
    let (name, rest) = env.free_name_at(alloc, tokens)?;
    let rest = mark_at(Mark::BlockOpen, rest)?;
    let frame = Frame {
        alloc,
        env,
        scope: Scope::Filter,
    };
    let mut returned = Returned {
        ty: None,
        is_met: false,
    };
    let (body, rest) = block_end(frame, depth, &mut returned, rest)?;
    env.declare(alloc, &name, Declared::Filter)?;
    Ok((Item::Filter { name, body }, rest))
}
