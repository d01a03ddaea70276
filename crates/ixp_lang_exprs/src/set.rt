//! Sets: all elements of one kind.
ghost use Rattle.std.specs.Prelude.{◌≡◌, ◌<◌, ◌≤◌, nat_lt, length, IfOk, Some, [], ◌∷◌};
ghost use Rattle.ixp_lang.specs.Trees.{set_literal};
ghost use Rattle.ixp_lang_tokens.specs.Grammars.{sequence, gives};
ghost use Rattle.ixp_lang_tokens.specs.Pieces.{an_addr};
ghost use Rattle.ixp_lang_tokens.specs.Reading.{read, kinds, Gives};
ghost use Rattle.ixp_lang_exprs.specs.Names.{names_at};
ghost use Rattle.ixp_lang_exprs.specs.Answers.{Makes};
ghost use Rattle.ixp_lang_exprs.specs.Groups.{closing};
ghost use Rattle.ixp_lang_exprs.specs.Lists.{list_round, listed};
ghost use Rattle.ixp_lang_exprs.specs.Operands.{operand_of, closed};
ghost use Rattle.ixp_lang_exprs.specs.Sets.{
  range,
  set_pattern_form,
  tuple_form,
  arity_of,
  pairs_in,
  triples_in,
  tuples_set,
};
ghost use Rattle.ixp_lang_exprs.specs.Sets.{range_set, addr_set, pattern_set, tuple_set, elements};

use crate::elements::{Arity, Tuple, pattern_at, range_at, tuple_at};
use crate::{Context, Typed, ValueType};
use ixp_lang::{Expr, SetLit};
use ixp_lang_tokens::{Fault, Kind, Mark, Token, addr_at, after_mark, mark_at, unexpected};
use ixp_num::{Addr, Items, Pattern};
use std::alloc::Global;

/// Adds the number or range that is next. Gives whether it is the last one, and what follows.
fn range_round<'t>(
    cx: Context<'_>,
    ranges: &mut Items<(u32, u32)>,
    tokens: &'t [Token],
) -> Result<(bool, &'t [Token]), Fault>
    ensures reads { Gives (λ x. (closing x.0 ranges.new, kinds x.1.now)) result
        (read (list_round (λ before. range (names_at cx.entry)) ranges.old) (kinds tokens.now)) }
    ensures shorter { IfOk result (λ x. length x.1.now < length tokens.now) }
{
    let (range, rest) = range_at(cx, tokens)?;
    ranges.push(range)?;
    match after_mark(Mark::Comma, rest) {
        Some(next) => Ok((false, next)),
        None => Ok((true, rest)),
    }
}

/// Numbers and ranges, with commas between.
fn ranges_at<'t>(
    cx: Context<'_>,
    tokens: &'t [Token],
) -> Result<(Items<(u32, u32)>, &'t [Token]), Fault>
    ensures reads { Gives (λ x. (x.0, kinds x.1.now)) result
        (read (listed (λ before. range (names_at cx.entry))) (kinds tokens.now)) }
    ensures shorter { IfOk result (λ x. length x.1.now < length tokens.now) }
{
    let mut ranges = Items::new(cx.alloc);
    let mut left = tokens;
    'each: loop {
        let (is_last, rest) = range_round(cx, &mut ranges, left)?;
        if is_last {
            return Ok((ranges, rest));
        }
        left = rest;
    }
}

/// The set of numbers and ranges, up to its end.
fn range_set<'t>(
    cx: Context<'_>,
    tokens: &'t [Token],
) -> Result<((SetLit, ValueType), &'t [Token]), Fault>
    ensures reads { Gives (λ x. (x.0, kinds x.1.now)) result
        (read (range_set (names_at cx.entry)) (kinds tokens.now)) }
    ensures shorter { IfOk result (λ x. length x.1.now < length tokens.now) }
{
    let (ranges, rest) = ranges_at(cx, tokens)?;
    let rest = mark_at(Mark::SetClose, rest)?;
    Ok(((SetLit::Ints(ranges), ValueType::IntSet), rest))
}

/// Adds the address that is next. Gives whether it is the last one, and what follows.
fn addr_round<'t>(
    addrs: &mut Items<Addr>,
    tokens: &'t [Token],
) -> Result<(bool, &'t [Token]), Fault>
    ensures reads { Gives (λ x. (closing x.0 addrs.new, kinds x.1.now)) result
        (read (list_round (λ before. an_addr) addrs.old) (kinds tokens.now)) }
    ensures shorter { IfOk result (λ x. length x.1.now < length tokens.now) }
{
    let (addr, rest) = addr_at(tokens)?;
    addrs.push(addr)?;
    match after_mark(Mark::Comma, rest) {
        Some(next) => Ok((false, next)),
        None => Ok((true, rest)),
    }
}

/// Addresses, with commas between.
fn addrs_at<'t>(cx: Context<'_>, tokens: &'t [Token]) -> Result<(Items<Addr>, &'t [Token]), Fault>
    ensures reads { Gives (λ x. (x.0, kinds x.1.now)) result
        (read (listed (λ before. an_addr)) (kinds tokens.now)) }
    ensures shorter { IfOk result (λ x. length x.1.now < length tokens.now) }
{
    let mut addrs = Items::new(cx.alloc);
    let mut left = tokens;
    'each: loop {
        let (is_last, rest) = addr_round(&mut addrs, left)?;
        if is_last {
            return Ok((addrs, rest));
        }
        left = rest;
    }
}

/// The set of addresses, up to its end.
fn addr_set<'t>(
    cx: Context<'_>,
    tokens: &'t [Token],
) -> Result<((SetLit, ValueType), &'t [Token]), Fault>
    ensures reads { Gives (λ x. (x.0, kinds x.1.now)) result (read addr_set (kinds tokens.now)) }
    ensures shorter { IfOk result (λ x. length x.1.now < length tokens.now) }
{
    let (addrs, rest) = addrs_at(cx, tokens)?;
    let rest = mark_at(Mark::SetClose, rest)?;
    Ok(((SetLit::Ips(addrs), ValueType::IpSet), rest))
}

/// Adds the pattern that is next. Gives whether it is the last one, and what follows.
fn pattern_round<'t>(
    patterns: &mut Items<Pattern>,
    tokens: &'t [Token],
) -> Result<(bool, &'t [Token]), Fault>
    ensures reads { Gives (λ x. (closing x.0 patterns.new, kinds x.1.now)) result
        (read (list_round (λ before. set_pattern_form) patterns.old) (kinds tokens.now)) }
    ensures shorter { IfOk result (λ x. length x.1.now < length tokens.now) }
{
    let (pattern, rest) = pattern_at(tokens)?;
    patterns.push(pattern)?;
    match after_mark(Mark::Comma, rest) {
        Some(next) => Ok((false, next)),
        None => Ok((true, rest)),
    }
}

/// Patterns, with commas between.
fn patterns_at<'t>(
    cx: Context<'_>,
    tokens: &'t [Token],
) -> Result<(Items<Pattern>, &'t [Token]), Fault>
    ensures reads { Gives (λ x. (x.0, kinds x.1.now)) result
        (read (listed (λ before. set_pattern_form)) (kinds tokens.now)) }
    ensures shorter { IfOk result (λ x. length x.1.now < length tokens.now) }
{
    let mut patterns = Items::new(cx.alloc);
    let mut left = tokens;
    'each: loop {
        let (is_last, rest) = pattern_round(&mut patterns, left)?;
        if is_last {
            return Ok((patterns, rest));
        }
        left = rest;
    }
}

/// The set of patterns, up to its end.
fn pattern_set<'t>(
    cx: Context<'_>,
    tokens: &'t [Token],
) -> Result<((SetLit, ValueType), &'t [Token]), Fault>
    ensures reads { Gives (λ x. (x.0, kinds x.1.now)) result (read pattern_set (kinds tokens.now)) }
    ensures shorter { IfOk result (λ x. length x.1.now < length tokens.now) }
{
    let (patterns, rest) = patterns_at(cx, tokens)?;
    let rest = mark_at(Mark::SetClose, rest)?;
    Ok(((SetLit::Prefixes(patterns), ValueType::PrefixSet), rest))
}

fn arity_in(tuple: &Tuple) -> Arity
    ensures { Some result ≡ arity_of (tuple.now ∷ []) }
{
    match tuple {
        Tuple::Pair(_, _) => Arity::Pair,
        Tuple::Triple(_, _, _) => Arity::Triple,
    }
}

/// Which tuples these are, by the first of them.
fn arity_of(tuples: &[Tuple]) -> Option<Arity>
    ensures { result ≡ arity_of tuples.now }
{
    match tuples {
        [first, ..] => Some(arity_in(first)),
        [] => None,
    }
}

/// Adds the tuple that is next. Gives whether it is the last one, and what follows.
fn tuple_round<'t>(
    cx: Context<'_>,
    depth: u32,
    tuples: &mut Items<Tuple>,
    tokens: &'t [Token],
) -> Result<(bool, &'t [Token]), Fault>
    ensures reads { Gives (λ x. (closing x.0 tuples.new, kinds x.1.now)) result
        (read (list_round (λ before. tuple_form (names_at cx.entry) (nat_lt 0 depth)
        (arity_of before)) tuples.old) (kinds tokens.now)) }
    ensures shorter { IfOk result (λ x. length x.1.now < length tokens.now) }
{
    let arity = arity_of(tuples.as_slice());
    let (tuple, rest) = tuple_at(cx, depth, arity, tokens)?;
    tuples.push(tuple)?;
    match after_mark(Mark::Comma, rest) {
        Some(next) => Ok((false, next)),
        None => Ok((true, rest)),
    }
}

/// Pairs or triples, with commas between.
fn tuples_at<'t>(
    cx: Context<'_>,
    depth: u32,
    tokens: &'t [Token],
) -> Result<(Items<Tuple>, &'t [Token]), Fault>
    ensures reads { Gives (λ x. (x.0, kinds x.1.now)) result
        (read (listed (λ before. tuple_form (names_at cx.entry) (nat_lt 0 depth) (arity_of before)))
        (kinds tokens.now)) }
    ensures shorter { IfOk result (λ x. length x.1.now < length tokens.now) }
{
    let mut tuples = Items::new(cx.alloc);
    let mut left = tokens;
    'each: loop {
        let (is_last, rest) = tuple_round(cx, depth, &mut tuples, left)?;
        if is_last {
            return Ok((tuples, rest));
        }
        left = rest;
    }
}

/// The pairs among the tuples.
fn pairs_in(alloc: Global, tuples: &[Tuple]) -> Result<Items<(u32, Option<u32>)>, Fault>
    ensures { Makes (λ pairs. pairs) result (pairs_in tuples.now) }
{
    let mut pairs = Items::new(alloc);
    let mut left = tuples;
    'each: while let [first, rest @ ..] = left {
        if let Tuple::Pair(a, b) = *first {
            pairs.push((a, b))?;
        }
        left = rest;
    }
    Ok(pairs)
}

/// The triples among the tuples.
fn triples_in(alloc: Global, tuples: &[Tuple]) -> Result<Items<(u32, u32, Option<u32>)>, Fault>
    ensures { Makes (λ triples. triples) result (triples_in tuples.now) }
{
    let mut triples = Items::new(alloc);
    let mut left = tuples;
    'each: while let [first, rest @ ..] = left {
        if let Tuple::Triple(a, b, c) = *first {
            triples.push((a, b, c))?;
        }
        left = rest;
    }
    Ok(triples)
}

/// The set of these tuples.
fn tuples_set(alloc: Global, tuples: &[Tuple]) -> Result<(SetLit, ValueType), Fault>
    ensures { Makes (λ set. set) result (tuples_set (arity_of tuples.now) tuples.now) }
{
    match arity_of(tuples) {
        Some(Arity::Triple) => {
            let triples = triples_in(alloc, tuples)?;
            Ok((SetLit::Triples(triples), ValueType::TripleSet))
        }
        _ => {
            let pairs = pairs_in(alloc, tuples)?;
            Ok((SetLit::Pairs(pairs), ValueType::PairSet))
        }
    }
}

/// The set of pairs or triples, up to its end.
fn tuple_set<'t>(
    cx: Context<'_>,
    depth: u32,
    tokens: &'t [Token],
) -> Result<((SetLit, ValueType), &'t [Token]), Fault>
    ensures reads { Gives (λ x. (x.0, kinds x.1.now)) result
        (read (tuple_set (names_at cx.entry) (nat_lt 0 depth)) (kinds tokens.now)) }
    ensures shorter { IfOk result (λ x. length x.1.now < length tokens.now) }
{
    let (tuples, rest) = tuples_at(cx, depth, tokens)?;
    let rest = mark_at(Mark::SetClose, rest)?;
    let set = tuples_set(cx.alloc, tuples.as_slice())?;
    Ok((set, rest))
}

/// The elements of a set, by the first of them.
fn elements_at<'t>(
    cx: Context<'_>,
    depth: u32,
    tokens: &'t [Token],
) -> Result<((SetLit, ValueType), &'t [Token]), Fault>
    ensures reads { Gives (λ x. (x.0, kinds x.1.now)) result
        (read (elements (names_at cx.entry) (nat_lt 0 depth)) (kinds tokens.now)) }
    ensures shorter { IfOk result (λ x. length x.1.now < length tokens.now) }
{
    let [first, ..] = tokens else {
        return Err(unexpected(tokens));
    };
    match &first.kind {
        Kind::Number(_) | Kind::Name(_) => range_set(cx, tokens),
        Kind::Addr(_) => addr_set(cx, tokens),
        Kind::Prefix(_) => pattern_set(cx, tokens),
        _ => tuple_set(cx, depth, tokens),
    }
}

/// A set, from behind its opening bracket on.
pub(crate) fn set_at<'t>(
    cx: Context<'_>,
    depth: u32,
    tokens: &'t [Token],
) -> Result<(Typed, &'t [Token]), Fault>
    ensures reads { Gives (λ x. (operand_of x.0, kinds x.1.now)) result
        (read (sequence (elements (names_at cx.entry) (nat_lt 0 depth))
        (λ s. gives (closed (set_literal s.0) s.1))) (kinds tokens.now)) }
    ensures shorter { IfOk result (λ x. length x.1.now < length tokens.now) }
{
    let ((set, ty), rest) = elements_at(cx, depth, tokens)?;
    Ok((Typed::closed(Expr::Set(set), ty), rest))
}
