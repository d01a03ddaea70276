//! What stands in parentheses: one expression or a tuple, a call's arguments, the two values of `roa_check`.
ghost use Rattle.std.specs.Prelude.{
  ◌≡◌,
  ◌<◌,
  ◌≤◌,
  ◌+◌,
  length,
  drop,
  IfSome,
  IfOk,
  IsTrue,
  [],
  option_map,
  ◌-◌,
};
ghost use Rattle.ixp_lang_tokens.specs.Pieces.{if_so};
ghost use Rattle.ixp_lang_tokens.specs.Reading.{read, kinds, Gives};
ghost use Rattle.ixp_lang_exprs.specs.Answers.{Refuses, Leads, Begun};
ghost use Rattle.ixp_lang_exprs.specs.declared.group.Opening.TheVariants.{Call, Check};
ghost use Rattle.ixp_lang_exprs.specs.declared.wanted.Wanted.{Wanted};
ghost use Rattle.ixp_lang_exprs.specs.Lists.{never, first_in};
ghost use Rattle.ixp_lang_exprs.specs.Groups.{
  least,
  limit,
  place_of,
  shape_of,
  shape_in,
  partless,
  below,
  call_in,
  call_or,
};
ghost use Rattle.ixp_lang_exprs.specs.Groups.{check_or, plain_or, from_opening, finishing};
ghost use Rattle.ixp_lang_exprs.specs.Expressions.{
  may_go_on,
  may_end,
  argument_wanted,
  wanted_part,
  is_front_mark,
  front_in,
  is_operand_name,
  front,
};
ghost use Rattle.ixp_lang_exprs.specs.Expressions.{
  enclosed,
  no_parts,
  arguments,
  no_roa_table,
  roa_table,
  call_form,
};
ghost use Rattle.ixp_lang_exprs.specs.Expressions.{
  outside_define,
  check_word,
  checked_form,
  expression_form,
  roa_values,
  word_in,
  called,
};

use crate::context::{deep, misfit, unknown};
use crate::leaf::{begins_operand, no_value};
use crate::{Context, Declared, Signature, ValueType, Wanted};
use ixp_lang_tokens::{
    Fault, Kind, Mark, Token, after_mark, after_word, mark_at, name_at, unexpected,
};
use ixp_num::Name;

/// What a parenthesis opens.
#[derive(Clone, Copy)]
pub(crate) enum Shape<'e> {
    /// An expression, a pair or a triple.
    Plain,
    /// The arguments of a call.
    Call(&'e Signature),
    /// A prefix and a number of `roa_check`, behind the table.
    RoaCheck,
}

/// What opens a parenthesis, with the name that stands there.
#[derive(Clone, Copy)]
pub(crate) enum Opening<'e, 't> {
    Plain,
    /// A call of this function.
    Call(&'t Name, &'e Signature),
    /// `roa_check` of this table.
    Check(&'t Name),
}

impl<'e, 't> Opening<'e, 't> {
    pub(crate) fn shape(self) -> Shape<'e>
        ensures { result ≡ shape_in self.entry }
    {
        match self {
            Opening::Plain => Shape::Plain,
            Opening::Call(_, signature) => Shape::Call(signature),
            Opening::Check(_) => Shape::RoaCheck,
        }
    }
}

/// A parenthesis that begins an operand, the place of its misfits, and what is behind what opens it.
#[derive(Clone, Copy)]
pub(crate) struct Opened<'e, 't> {
    pub opening: Opening<'e, 't>,
    pub place: usize,
    pub behind: &'t [Token],
}

/// A parenthesis, and the place of its misfits.
#[derive(Clone, Copy)]
pub(crate) struct Group<'e> {
    pub shape: Shape<'e>,
    pub place: usize,
}

impl<'e> Group<'e> {
    /// Whether a comma may follow the part of this index.
    pub(crate) fn may_go_on(self, index: usize) -> bool
        ensures exact { result ≡ may_go_on (shape_of self.entry.shape) index }
        ensures room { IsTrue result → index + 2 < limit self.entry.shape (index + 1) }
    {
        match self.shape {
            Shape::Plain => index < 2,
            Shape::Call(_) => true,
            Shape::RoaCheck => index < 1,
        }
    }

    /// Whether the parenthesis may end behind the part of this index.
    pub(crate) fn may_end(self, index: usize) -> bool
        ensures exact { result ≡ may_end (shape_of self.entry.shape) index }
        ensures enough { IsTrue result → least self.entry.shape ≤ index + 1 }
    {
        match self.shape {
            Shape::Plain | Shape::Call(_) => true,
            Shape::RoaCheck => index == 1,
        }
    }

    /// What is wanted of the part of this index.
    pub(crate) fn wanted(self, index: usize) -> Wanted
        ensures { result ≡ wanted_part (shape_of self.entry.shape) index self.entry.place }
    {
        match self.shape {
            Shape::Plain if index == 0 => Wanted::anything(),
            Shape::Plain => Wanted::one(ValueType::Int, self.place),
            Shape::Call(signature) => {
                argument_wanted(signature.params.as_slice(), index, self.place)
            }
            Shape::RoaCheck if index == 0 => Wanted::one(ValueType::Prefix, self.place),
            Shape::RoaCheck => Wanted::one(ValueType::Int, self.place),
        }
    }
}

/// The parameters from this index on.
pub(crate) fn from_index(params: &[ValueType], index: usize) -> &[ValueType]
    ensures { result.now ≡ drop index params.now }
{
    params.get(index..).unwrap_or(&[])
}

/// What is wanted of the argument for the first of these parameters. A misfit is at the place.
fn first_wanted(params: &[ValueType], place: usize) -> Wanted
    ensures { result ≡ argument_wanted params.now 0 place }
{
    match params {
        [] => Wanted::anything(),
        [ty, ..] => Wanted::one(*ty, place),
    }
}

/// The same for the parameter of this index.
#[tactic(auto, using(crate::proofs::Params::drop_wanted))]
fn argument_wanted(params: &[ValueType], index: usize, place: usize) -> Wanted
    ensures { result ≡ argument_wanted params.now index place }
{
    first_wanted(from_index(params, index), place)
}

/// Whether an expression may begin with this mark.
fn is_front_mark(mark: Mark) -> bool
    ensures { result ≡ is_front_mark mark }
{
    match mark {
        Mark::Open | Mark::SetOpen | Mark::Not => true,
        _ => false,
    }
}

/// Whether an expression may begin with this token, which is no name.
fn is_front(kind: &Kind) -> bool
    ensures { if_so result ≡ front_in kind.now }
{
    match kind {
        Kind::Number(_) | Kind::Addr(_) | Kind::Prefix(_) => true,
        Kind::Mark(mark) => is_front_mark(*mark),
        Kind::Word(word) => begins_operand(word.as_bytes()),
        _ => false,
    }
}

/// Whether an expression may begin with the next token, as far as that token tells. What follows it.
fn begins<'t>(cx: Context<'_>, tokens: &'t [Token]) -> Result<&'t [Token], Fault>
    ensures reads { Gives (λ r. (tt, kinds r.now)) result
        (read (front (place_of cx.entry)) (kinds tokens.now)) }
{
    let [first, rest @ ..] = tokens else {
        return Err(unexpected(tokens));
    };
    if is_front(&first.kind) {
        return Ok(rest);
    }
    let (name, rest) = name_at(tokens)?;
    if is_operand(cx, name) {
        Ok(rest)
    } else {
        Err(no_value(cx, name, tokens))
    }
}

/// Whether the name is of a value or a function.
fn is_operand(cx: Context<'_>, name: &Name) -> bool
    ensures { result ≡ is_operand_name (place_of cx.entry) name.now }
{
    cx.env.value(name, cx.scope).is_some() || cx.env.function(name).is_some()
}

/// The end of the parenthesis of a function without parameters.
fn no_arguments_at<'t>(
    cx: Context<'_>,
    place: usize,
    tokens: &'t [Token],
) -> Result<&'t [Token], Fault>
    ensures reads { Gives (λ r. (no_parts (length tokens.now), kinds r.now)) result
        (read (enclosed (place_of cx.entry) (λ wanted. never) (arguments []) place) (kinds tokens.now)) }
    ensures shorter { IfOk result (λ r. length r.now < length tokens.now) }
{
    if let Some(rest) = after_mark(Mark::Close, tokens) {
        return Ok(rest);
    }
    begins(cx, tokens)?;
    Err(misfit(place))
}

/// What follows the parenthesis, if the group has no part: where a function without parameters is called.
pub(crate) fn no_parts_at<'t>(
    cx: Context<'_>,
    group: Group<'_>,
    tokens: &'t [Token],
) -> Result<Option<&'t [Token]>, Fault>
    ensures reads { Begun (λ r. (no_parts (length tokens.now), kinds r.now)) result
        (partless (place_of cx.entry) (shape_of group.entry.shape) group.entry.place (kinds tokens.now)) }
    ensures enough { IfOk result (λ o. IfSome o (λ _. least group.entry.shape ≡ 0)) }
    ensures shorter { IfOk result (λ o. IfSome o (λ r. length r.now < length tokens.now)) }
{
    let Shape::Call(signature) = group.shape else {
        return Ok(None);
    };
    if signature.params.as_slice().is_empty() {
        let rest = no_arguments_at(cx, group.place, tokens)?;
        return Ok(Some(rest));
    }
    if after_mark(Mark::Close, tokens).is_some() {
        return Err(misfit(group.place));
    }
    Ok(None)
}

/// Whether what the name stands for, which is next, is a ROA table. The place is that of `roa_check`.
fn fits_roa_table(declared: Option<&Declared>, place: usize, tokens: &[Token]) -> Result<(), Fault>
    ensures { Refuses result
        (no_roa_table (option_map (λ d. d.now) declared.entry) (length tokens.now) place) }
{
    match declared {
        None | Some(Declared::Parameter(_, _)) => Err(unknown(tokens)),
        Some(Declared::Table(table)) if table.is_roa => Ok(()),
        Some(_) => Err(misfit(place)),
    }
}

/// The name of the ROA table that is next. The place is that of `roa_check`.
fn roa_table_at<'t>(
    cx: Context<'_>,
    place: usize,
    tokens: &'t [Token],
) -> Result<(&'t Name, &'t [Token]), Fault>
    ensures reads { Gives (λ x. (x.0.now, kinds x.1.now)) result
        (read (roa_table (place_of cx.entry) place) (kinds tokens.now)) }
    ensures shorter { IfOk result (λ x. length x.1.now < length tokens.now) }
{
    let (name, rest) = name_at(tokens)?;
    fits_roa_table(cx.env.get(name), place, tokens)?;
    Ok((name, rest))
}

/// The parenthesis that `roa_check` opens, up to its first expression.
fn check_group_at<'t>(
    cx: Context<'_>,
    depth: u32,
    place: usize,
    tokens: &'t [Token],
) -> Result<(&'t Name, &'t [Token]), Fault>
    ensures reads { Leads
        (λ x. finishing (Check x.0)
        (read (enclosed (place_of cx.entry)
        (expression_form (place_of cx.entry) (depth - 1)) roa_values place)
        (kinds x.1.now))) result
        (read (checked_form (place_of cx.entry) (below (place_of cx.entry) depth) place) (kinds tokens.now)) }
    ensures deep { IfOk result (λ _. 0 < depth) }
    ensures shorter { IfOk result (λ x. length x.1.now < length tokens.now) }
{
    let rest = mark_at(Mark::Open, tokens)?;
    if depth == 0 {
        return Err(deep(tokens));
    }
    let (table, rest) = roa_table_at(cx, place, rest)?;
    let rest = mark_at(Mark::Comma, rest)?;
    Ok((table, rest))
}

/// The parenthesis that a call opens. A procedure has no value to be called for.
fn call_group_at<'t>(
    cx: Context<'_>,
    depth: u32,
    call: (&Name, &Signature),
    place: usize,
    tokens: &'t [Token],
) -> Result<&'t [Token], Fault>
    ensures reads { Leads
        (λ r. finishing (Call call.entry.0 call.entry.1)
        (read (enclosed (place_of cx.entry) (expression_form (place_of cx.entry) (depth - 1))
        (arguments call.entry.1.now.params) place) (kinds r.now))) result
        (read (call_form (place_of cx.entry)
        (below (place_of cx.entry) depth) call.entry.0.now place call.entry.1.now)
        (kinds tokens.now)) }
    ensures deep { IfOk result (λ _. 0 < depth) }
    ensures shorter { IfOk result (λ r. length r.now < length tokens.now) }
{
    if call.1.returns.is_none() {
        return Err(misfit(place));
    }
    let rest = mark_at(Mark::Open, tokens)?;
    if depth == 0 {
        return Err(deep(tokens));
    }
    Ok(rest)
}

/// The function that an expression may call by this name.
fn called<'e>(cx: Context<'e>, name: &Name) -> Option<&'e Signature>
    ensures { option_map (λ s. s.now) result ≡ called (place_of cx.entry) name.now }
{
    if cx.scope.is_define() {
        None
    } else {
        cx.env.function(name)
    }
}

/// The call that is next, and what follows its name.
#[derive(Clone, Copy)]
struct Callee<'e, 't> {
    name: &'t Name,
    signature: &'e Signature,
    behind: &'t [Token],
}

/// The function whose name is next, where an expression may call one.
fn called_at<'e, 't>(cx: Context<'e>, tokens: &'t [Token]) -> Option<Callee<'e, 't>>
    ensures reads { option_map (λ c. (c.name.now, c.signature.now, kinds c.behind.now)) result
        ≡ call_in (place_of cx.entry) (kinds tokens.now) }
    ensures shorter { IfSome result (λ c. length c.behind.now < length tokens.now) }
{
    let [first, behind @ ..] = tokens else {
        return None;
    };
    let Kind::Name(name) = &first.kind else {
        return None;
    };
    let name = name.get();
    let signature = called(cx, name)?;
    Some(Callee {
        name,
        signature,
        behind,
    })
}

/// The call that begins here, if one does.
fn call_opening_at<'e, 't>(
    cx: Context<'e>,
    depth: u32,
    tokens: &'t [Token],
) -> Result<Option<Opened<'e, 't>>, Fault>
    ensures reads { (wanted : Wanted) →
        Leads (from_opening (place_of cx.entry) wanted depth (kinds tokens.now)) result
        (read (call_or (place_of cx.entry) wanted (below (place_of cx.entry) depth)) (kinds tokens.now)) }
    ensures deep { IfOk result (λ o. IfSome o (λ _. 0 < depth)) }
    ensures shorter { IfOk result (λ o. IfSome o (λ x. length x.behind.now < length tokens.now)) }
{
    let Some(found) = called_at(cx, tokens) else {
        return Ok(None);
    };
    let place = tokens.len();
    let call = (found.name, found.signature);
    let behind = call_group_at(cx, depth, call, place, found.behind)?;
    let opening = Opening::Call(found.name, found.signature);
    Ok(Some(Opened {
        opening,
        place,
        behind,
    }))
}

/// What follows `roa_check`, if it is next and may stand here.
fn after_check<'t>(cx: Context<'_>, tokens: &'t [Token]) -> Option<&'t [Token]>
    ensures reads { option_map (λ r. (tt, kinds r.now)) result
        ≡ first_in (word_in (outside_define (place_of cx.entry) check_word)) (kinds tokens.now) }
    ensures shorter { IfSome result (λ r. length r.now < length tokens.now) }
{
    if cx.scope.is_define() {
        return None;
    }
    after_word(b"roa_check", tokens)
}

/// The call or `roa_check` that begins here, if one does.
fn check_opening_at<'e, 't>(
    cx: Context<'e>,
    depth: u32,
    tokens: &'t [Token],
) -> Result<Option<Opened<'e, 't>>, Fault>
    ensures reads { (wanted : Wanted) →
        Leads (from_opening (place_of cx.entry) wanted depth (kinds tokens.now)) result
        (read (check_or (place_of cx.entry) wanted (below (place_of cx.entry) depth)) (kinds tokens.now)) }
    ensures deep { IfOk result (λ o. IfSome o (λ _. 0 < depth)) }
    ensures shorter { IfOk result (λ o. IfSome o (λ x. length x.behind.now < length tokens.now)) }
{
    let Some(rest) = after_check(cx, tokens) else {
        return call_opening_at(cx, depth, tokens);
    };
    let place = tokens.len();
    let (table, behind) = check_group_at(cx, depth, place, rest)?;
    let opening = Opening::Check(table);
    Ok(Some(Opened {
        opening,
        place,
        behind,
    }))
}

/// The group that begins here, if one does, and what follows what opens it.
pub(crate) fn opening_at<'e, 't>(
    cx: Context<'e>,
    depth: u32,
    tokens: &'t [Token],
) -> Result<Option<Opened<'e, 't>>, Fault>
    ensures reads { (wanted : Wanted) →
        Leads (from_opening (place_of cx.entry) wanted depth (kinds tokens.now)) result
        (read (plain_or (place_of cx.entry) wanted (below (place_of cx.entry) depth)) (kinds tokens.now)) }
    ensures deep { IfOk result (λ o. IfSome o (λ _. 0 < depth)) }
    ensures shorter { IfOk result (λ o. IfSome o (λ x. length x.behind.now < length tokens.now)) }
{
    let Some(behind) = after_mark(Mark::Open, tokens) else {
        return check_opening_at(cx, depth, tokens);
    };
    if depth == 0 {
        return Err(deep(tokens));
    }
    let opening = Opening::Plain;
    let place = cx.statement;
    Ok(Some(Opened {
        opening,
        place,
        behind,
    }))
}
