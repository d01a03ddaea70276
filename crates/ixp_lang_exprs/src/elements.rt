//! The elements of sets.
ghost use Rattle.std.specs.Prelude.{◌≡◌, ◌<◌, ◌≤◌, length, IfOk, IfSome, nat_lt, option_map};
ghost use Rattle.ixp_lang_tokens.specs.Reading.{read, kinds, Gives};
ghost use Rattle.ixp_lang_exprs.specs.Names.{names_at};
ghost use Rattle.ixp_lang_exprs.specs.Answers.{Refuses};
ghost use Rattle.ixp_lang_exprs.specs.Sets.{
  numeral,
  range,
  bounded_length,
  bounds,
  pattern_end,
  set_pattern_form,
  too_great,
};
ghost use Rattle.ixp_lang_exprs.specs.Sets.{
  star_in,
  part_too_great,
  has_great_part,
  pair_end,
  triple_end,
  may_be_pair,
  may_be_triple,
  second_end,
  tuple_end,
  tuple_form,
};

use crate::Context;
use crate::context::{deep, unknown};
use ixp_lang_tokens::{
    Cause, Fault, Kind, Mark, Token, after_mark, mark_at, number_at, unexpected,
};
use ixp_num::{Pattern, Prefix};

/// The greatest part of a pair.
const PART_LIMIT: u32 = 65535;

/// A number, or the name of a defined one.
fn number_or_name_at<'t>(cx: Context<'_>, tokens: &'t [Token]) -> Result<(u32, &'t [Token]), Fault>
    ensures reads { Gives (λ x. (x.0, kinds x.1.now)) result
        (read (numeral (names_at cx.entry)) (kinds tokens.now)) }
    ensures shorter { IfOk result (λ x. length x.1.now < length tokens.now) }
{
    let [first, rest @ ..] = tokens else {
        return Err(unexpected(tokens));
    };
    match &first.kind {
        Kind::Number(number) => Ok((*number, rest)),
        Kind::Name(name) => match cx.env.number(name.get()) {
            Some(number) => Ok((number, rest)),
            None => Err(unknown(tokens)),
        },
        _ => Err(unexpected(tokens)),
    }
}

/// A number, or a range of numbers.
pub(crate) fn range_at<'t>(
    cx: Context<'_>,
    tokens: &'t [Token],
) -> Result<((u32, u32), &'t [Token]), Fault>
    ensures reads { Gives (λ x. (x.0, kinds x.1.now)) result
        (read (range (names_at cx.entry)) (kinds tokens.now)) }
    ensures shorter { IfOk result (λ x. length x.1.now < length tokens.now) }
{
    let (low, rest) = number_or_name_at(cx, tokens)?;
    let Some(rest) = after_mark(Mark::Range, rest) else {
        return Ok(((low, low), rest));
    };
    let (high, rest) = number_or_name_at(cx, rest)?;
    Ok(((low, high), rest))
}

/// A length from the lowest one to the highest one that is lawful there.
fn length_at(lowest: u8, highest: u8, tokens: &[Token]) -> Result<(u8, &[Token]), Fault>
    ensures reads { Gives (λ x. (x.0, kinds x.1.now)) result
        (read (bounded_length lowest highest) (kinds tokens.now)) }
    ensures shorter { IfOk result (λ x. length x.1.now < length tokens.now) }
{
    let (number, rest) = number_at(tokens)?;
    let Ok(length) = u8::try_from(number) else {
        return Err(Fault::Stop(Cause::Number, tokens.len()));
    };
    if length < lowest || highest < length {
        return Err(Fault::Stop(Cause::Number, tokens.len()));
    }
    Ok((length, rest))
}

/// The bounds in braces behind a prefix.
fn bounds_at(prefix: Prefix, tokens: &[Token]) -> Result<(Pattern, &[Token]), Fault>
    ensures reads { Gives (λ x. (x.0, kinds x.1.now)) result (read (bounds prefix) (kinds tokens.now)) }
    ensures shorter { IfOk result (λ x. length x.1.now < length tokens.now) }
{
    let most = prefix.family.bits();
    let (low, rest) = length_at(0, most, tokens)?;
    let rest = mark_at(Mark::Comma, rest)?;
    let (high, rest) = length_at(low, most, rest)?;
    let rest = mark_at(Mark::BlockClose, rest)?;
    Ok((Pattern { prefix, low, high }, rest))
}

/// What stands behind the prefix of a pattern.
fn pattern_with(prefix: Prefix, tokens: &[Token]) -> Result<(Pattern, &[Token]), Fault>
    ensures reads { Gives (λ x. (x.0, kinds x.1.now)) result (read (pattern_end prefix) (kinds tokens.now)) }
    ensures shorter { IfOk result (λ x. length x.1.now ≤ length tokens.now) }
{
    if let Some(rest) = after_mark(Mark::BlockOpen, tokens) {
        return bounds_at(prefix, rest);
    }
    let most = prefix.family.bits();
    let (low, high, rest) = if let Some(rest) = after_mark(Mark::Plus, tokens) {
        (prefix.len, most, rest)
    } else if let Some(rest) = after_mark(Mark::Minus, tokens) {
        (0, prefix.len, rest)
    } else {
        (prefix.len, prefix.len, tokens)
    };
    Ok((Pattern { prefix, low, high }, rest))
}

/// A prefix, with or without bounds.
pub(crate) fn pattern_at(tokens: &[Token]) -> Result<(Pattern, &[Token]), Fault>
    ensures reads { Gives (λ x. (x.0, kinds x.1.now)) result (read (set_pattern_form) (kinds tokens.now)) }
    ensures shorter { IfOk result (λ x. length x.1.now < length tokens.now) }
{
    let [first, rest @ ..] = tokens else {
        return Err(unexpected(tokens));
    };
    match &first.kind {
        Kind::Prefix(prefix) => pattern_with(*prefix.get(), rest),
        _ => Err(unexpected(tokens)),
    }
}

/// A pair or a triple; None stands for `*`.
#[derive(Clone, Copy)]
pub(crate) enum Tuple {
    Pair(u32, Option<u32>),
    Triple(u32, u32, Option<u32>),
}

/// Which tuples a set has.
#[derive(Clone, Copy, PartialEq, Eq)]
pub(crate) enum Arity {
    Pair,
    Triple,
}

/// Whether the tuples so far let the next one be a pair.
fn may_be_pair(wanted: Option<Arity>) -> bool
    ensures { result ≡ may_be_pair wanted }
{
    match wanted {
        Some(Arity::Triple) => false,
        _ => true,
    }
}

/// Whether the tuples so far let the next one be a triple.
fn may_be_triple(wanted: Option<Arity>) -> bool
    ensures { result ≡ may_be_triple wanted }
{
    match wanted {
        Some(Arity::Pair) => false,
        _ => true,
    }
}

/// Whether a part of a pair, at whose place so many tokens are left, is small enough.
pub(crate) fn small_part(part: Option<u32>, place: usize) -> Result<(), Fault>
    ensures { Refuses result (part_too_great part place) }
{
    match part {
        Some(number) if number > PART_LIMIT => Err(Fault::Stop(Cause::Number, place)),
        _ => Ok(()),
    }
}

/// Whether a number is too great for a part of a pair.
fn has_great_part(first: u32, second: u32) -> bool
    ensures { result ≡ has_great_part first second }
{
    first > PART_LIMIT || second > PART_LIMIT
}

/// The end of a pair of these parts, which must be small enough. Their places are how many tokens were left.
fn pair_end<'t>(
    first: (u32, usize),
    second: (Option<u32>, usize),
    tokens: &'t [Token],
) -> Result<(Tuple, &'t [Token]), Fault>
    ensures reads { Gives (λ x. (x.0, kinds x.1.now)) result
        (read (pair_end first.0 first.1 second.0 second.1) (kinds tokens.now)) }
    ensures shorter { IfOk result (λ x. length x.1.now < length tokens.now) }
{
    let rest = mark_at(Mark::Close, tokens)?;
    small_part(Some(first.0), first.1)?;
    small_part(second.0, second.1)?;
    Ok((Tuple::Pair(first.0, second.0), rest))
}

/// The third part of a triple, and its end.
fn triple_end<'t>(
    cx: Context<'_>,
    a: u32,
    b: u32,
    tokens: &'t [Token],
) -> Result<(Tuple, &'t [Token]), Fault>
    ensures reads { Gives (λ x. (x.0, kinds x.1.now)) result
        (read (triple_end (names_at cx.entry) a b) (kinds tokens.now)) }
    ensures shorter { IfOk result (λ x. length x.1.now < length tokens.now) }
{
    if let Some(rest) = after_mark(Mark::Star, tokens) {
        let rest = mark_at(Mark::Close, rest)?;
        return Ok((Tuple::Triple(a, b, None), rest));
    }
    let (c, rest) = number_or_name_at(cx, tokens)?;
    let rest = mark_at(Mark::Close, rest)?;
    Ok((Tuple::Triple(a, b, Some(c)), rest))
}

/// What is behind the second part, a number.
fn second_end<'t>(
    cx: Context<'_>,
    wanted: Option<Arity>,
    first: (u32, usize),
    second: (u32, usize),
    tokens: &'t [Token],
) -> Result<(Tuple, &'t [Token]), Fault>
    ensures reads { Gives (λ x. (x.0, kinds x.1.now)) result
        (read (second_end (names_at cx.entry) wanted first.0 first.1 second.0 second.1) (kinds tokens.now)) }
    ensures shorter { IfOk result (λ x. length x.1.now < length tokens.now) }
{
    if may_be_triple(wanted)
        && let Some(rest) = after_mark(Mark::Comma, tokens)
    {
        return triple_end(cx, first.0, second.0, rest);
    }
    if may_be_pair(wanted) || has_great_part(first.0, second.0) {
        pair_end(first, (Some(second.0), second.1), tokens)
    } else {
        Err(unexpected(tokens))
    }
}

/// What follows a star as the second part of a pair, if one is next.
fn after_star(wanted: Option<Arity>, tokens: &[Token]) -> Option<&[Token]>
    ensures reads { option_map (λ r. kinds r.now) result ≡ star_in wanted (kinds tokens.now) }
    ensures shorter { IfSome result (λ r. length r.now < length tokens.now) }
{
    if may_be_pair(wanted) {
        after_mark(Mark::Star, tokens)
    } else {
        None
    }
}

/// The tuple from its second part on.
fn tuple_end<'t>(
    cx: Context<'_>,
    wanted: Option<Arity>,
    first: (u32, usize),
    tokens: &'t [Token],
) -> Result<(Tuple, &'t [Token]), Fault>
    ensures reads { Gives (λ x. (x.0, kinds x.1.now)) result
        (read (tuple_end (names_at cx.entry) wanted first.0 first.1) (kinds tokens.now)) }
    ensures shorter { IfOk result (λ x. length x.1.now < length tokens.now) }
{
    let place = tokens.len();
    if let Some(rest) = after_star(wanted, tokens) {
        return pair_end(first, (None, place), rest);
    }
    let (second, rest) = number_or_name_at(cx, tokens)?;
    second_end(cx, wanted, first, (second, place), rest)
}

/// A tuple of the wanted kind, or of any where none is wanted yet. Its parenthesis is one level deeper.
pub(crate) fn tuple_at<'t>(
    cx: Context<'_>,
    depth: u32,
    wanted: Option<Arity>,
    tokens: &'t [Token],
) -> Result<(Tuple, &'t [Token]), Fault>
    ensures reads { Gives (λ x. (x.0, kinds x.1.now)) result
        (read (tuple_form (names_at cx.entry) (nat_lt 0 depth) wanted) (kinds tokens.now)) }
    ensures shorter { IfOk result (λ x. length x.1.now < length tokens.now) }
{
    let rest = mark_at(Mark::Open, tokens)?;
    if depth == 0 {
        return Err(deep(tokens));
    }
    let place = rest.len();
    let (first, rest) = number_or_name_at(cx, rest)?;
    let rest = mark_at(Mark::Comma, rest)?;
    tuple_end(cx, wanted, (first, place), rest)
}
