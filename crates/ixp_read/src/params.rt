//! Parameters of functions.
ghost use Rattle.std.specs.Prelude.{◌≡◌, ◌<◌, [], length, IfOk};
ghost use Rattle.ixp_lang_tokens.specs.Grammars.{rounds};
ghost use Rattle.ixp_lang_tokens.specs.Reading.{read, kinds, Gives};
ghost use Rattle.ixp_lang_exprs.specs.Groups.{closing};
ghost use Rattle.ixp_lang_exprs.specs.Names.{names_of};
ghost use Rattle.ixp_read.specs.Functions.{no_params, param_form, param_round, params_form};
ghost use Rattle.ixp_read.specs.Views.{params_of};

use crate::ty::type_at;
use ixp_lang::Ty;
use ixp_lang_exprs::{Declared, Env, ValueType, own_name_at, type_of};
use ixp_lang_tokens::{Cause, Fault, Mark, Token, after_mark, mark_at};
use ixp_num::{Items, Name};
use std::alloc::Global;

/// The parameters of a function.
#[derive(Drop)]
pub(crate) struct Params {
    pub params: Items<(Ty, Name)>,
    pub types: Items<ValueType>,
}

impl Params {
    /// No parameters.
    fn new(alloc: Global) -> Params
        ensures none { result.params ≡ [] }
        ensures no_types { result.types ≡ [] }
    {
        Params {
            params: Items::new(alloc),
            types: Items::new(alloc),
        }
    }
}

/// Adds the parameter that is next. Its name is free in the function, which has this number.
fn parameter_at<'t>(
    alloc: Global,
    env: &mut Env,
    number: usize,
    params: &mut Params,
    tokens: &'t [Token],
) -> Result<&'t [Token], Fault>
    ensures reads { Gives (λ r. (params_of params.new (names_of env.new), kinds r.now)) result
        (read (param_form number (params_of params.old (names_of env.old))) (kinds tokens.now)) }
    ensures shorter { IfOk result (λ r. length r.now < length tokens.now) }
{
    let (ty, name_tokens) = type_at(tokens)?;
    let (name, rest) = own_name_at(alloc, name_tokens)?;
    if !env.is_free_in(&name, number) {
        return Err(Fault::Stop(Cause::Twice, name_tokens.len()));
    }
    env.declare(alloc, &name, Declared::Parameter(number, type_of(ty)))?;
    params.types.push(type_of(ty))?;
    params.params.push((ty, name))?;
    Ok(rest)
}

/// Adds the parameter that is next. Gives whether it is the last one, and what follows.
fn parameter_round<'t>(
    alloc: Global,
    env: &mut Env,
    number: usize,
    params: &mut Params,
    tokens: &'t [Token],
) -> Result<(bool, &'t [Token]), Fault>
    ensures reads { Gives (λ x. (closing x.0 (params_of params.new (names_of env.new)), kinds x.1.now)) result
        (read (param_round number (params_of params.old (names_of env.old))) (kinds tokens.now)) }
    ensures shorter { IfOk result (λ x. length x.1.now < length tokens.now) }
{
    let rest = parameter_at(alloc, env, number, params, tokens)?;
    match after_mark(Mark::Semicolon, rest) {
        Some(next) => Ok((false, next)),
        None => Ok((true, rest)),
    }
}

/// Parameters, with semicolons between.
fn some_params_at<'t>(
    alloc: Global,
    env: &mut Env,
    number: usize,
    tokens: &'t [Token],
) -> Result<(Params, &'t [Token]), Fault>
    ensures reads { Gives (λ x. (params_of x.0 (names_of env.new), kinds x.1.now)) result
        (read (rounds (param_round number) (no_params (names_of env.old))) (kinds tokens.now)) }
    ensures shorter { IfOk result (λ x. length x.1.now < length tokens.now) }
{
    let mut params = Params::new(alloc);
    let mut left = tokens;
    'each: loop {
        let (is_last, rest) = parameter_round(alloc, env, number, &mut params, left)?;
        if is_last {
            return Ok((params, rest));
        }
        left = rest;
    }
}

/// The parameters of the function that has this number, in parentheses.
pub(crate) fn params_at<'t>(
    alloc: Global,
    env: &mut Env,
    number: usize,
    tokens: &'t [Token],
) -> Result<(Params, &'t [Token]), Fault>
    ensures reads { Gives (λ x. (params_of x.0 (names_of env.new), kinds x.1.now)) result
        (read (params_form number (names_of env.old)) (kinds tokens.now)) }
    ensures shorter { IfOk result (λ x. length x.1.now < length tokens.now) }
{
    let rest = mark_at(Mark::Open, tokens)?;
    if let Some(rest) = after_mark(Mark::Close, rest) {
        return Ok((Params::new(alloc), rest));
    }
    let (params, rest) = some_params_at(alloc, env, number, rest)?;
    let rest = mark_at(Mark::Close, rest)?;
    Ok((params, rest))
}
