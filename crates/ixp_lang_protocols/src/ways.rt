//! What a protocol lets in and out.
ghost use Rattle.std.specs.Prelude.{◌≡◌, ◌<◌, length, IfOk, Some, option_map};
ghost use Rattle.ixp_lang_tokens.specs.Reading.{read, kinds, Gives};
ghost use Rattle.ixp_lang_exprs.specs.Names.{names_of};
ghost use Rattle.ixp_lang_protocols.specs.Protocols.{is_filter, filter_name, named_use, use_form, ways_form};
ghost use Rattle.ixp_lang_protocols.specs.Views.{ways_of};

use ixp_lang::Use;
use ixp_lang_exprs::{Declared, Env, own_name_at};
use ixp_lang_tokens::{Cause, Fault, Mark, Token, after_word, mark_at, word_at};
use ixp_num::Name;
use std::alloc::Global;

/// Whether it is a filter.
fn is_filter(declared: Option<&Declared>) -> bool
    ensures { result ≡ is_filter (option_map (λ d. d.now) declared.entry) }
{
    match declared {
        Some(Declared::Filter) => true,
        _ => false,
    }
}

/// The name of a filter.
fn filter_name_at<'t>(
    alloc: Global,
    env: &Env,
    tokens: &'t [Token],
) -> Result<(Name, &'t [Token]), Fault>
    ensures reads { Gives (λ x. (x.0, kinds x.1.now)) result
        (read (filter_name (names_of env.now)) (kinds tokens.now)) }
    ensures shorter { IfOk result (λ x. length x.1.now < length tokens.now) }
{
    let (name, rest) = own_name_at(alloc, tokens)?;
    if !is_filter(env.get(&name)) {
        return Err(Fault::Stop(Cause::Unknown, tokens.len()));
    }
    Ok((name, rest))
}

/// A filter, and the semicolon.
fn named_use_at<'t>(
    alloc: Global,
    env: &Env,
    tokens: &'t [Token],
) -> Result<(Use, &'t [Token]), Fault>
    ensures reads { Gives (λ x. (x.0, kinds x.1.now)) result
        (read (named_use (names_of env.now)) (kinds tokens.now)) }
    ensures shorter { IfOk result (λ x. length x.1.now < length tokens.now) }
{
    let rest = word_at(b"filter", tokens)?;
    let (name, rest) = filter_name_at(alloc, env, rest)?;
    let rest = mark_at(Mark::Semicolon, rest)?;
    Ok((Use::Named(name), rest))
}

/// `all`, `none` or a filter, and the semicolon.
fn use_at<'t>(alloc: Global, env: &Env, tokens: &'t [Token]) -> Result<(Use, &'t [Token]), Fault>
    ensures reads { Gives (λ x. (x.0, kinds x.1.now)) result
        (read (use_form (names_of env.now)) (kinds tokens.now)) }
    ensures shorter { IfOk result (λ x. length x.1.now < length tokens.now) }
{
    if let Some(rest) = after_word(b"all", tokens) {
        let rest = mark_at(Mark::Semicolon, rest)?;
        return Ok((Use::All, rest));
    }
    if let Some(rest) = after_word(b"none", tokens) {
        let rest = mark_at(Mark::Semicolon, rest)?;
        return Ok((Use::Nothing, rest));
    }
    named_use_at(alloc, env, tokens)
}

/// What a protocol lets in and out.
#[derive(Drop)]
pub(crate) struct Ways {
    pub import: Use,
    pub export: Use,
}

/// `import ..; export ..;`
pub(crate) fn ways_at<'t>(
    alloc: Global,
    env: &Env,
    tokens: &'t [Token],
) -> Result<(Ways, &'t [Token]), Fault>
    ensures reads { Gives (λ x. (ways_of x.0, kinds x.1.now)) result
        (read (ways_form (names_of env.now)) (kinds tokens.now)) }
    ensures shorter { IfOk result (λ x. length x.1.now < length tokens.now) }
{
    let rest = word_at(b"import", tokens)?;
    let (import, rest) = use_at(alloc, env, rest)?;
    let rest = word_at(b"export", rest)?;
    let (export, rest) = use_at(alloc, env, rest)?;
    Ok((Ways { import, export }, rest))
}
