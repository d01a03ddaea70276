//! Operands that stand for themselves: literals, names, attributes, and sets.
ghost use Rattle.std.specs.Prelude.{◌≡◌, ◌<◌, ◌≤◌, ◌||◌, nat_lt, length, IfOk, IfSome, option_map};
ghost use Rattle.std.specs.Option.{is_some};
ghost use Rattle.ixp_lang_tokens.specs.Pieces.{same_word};
ghost use Rattle.ixp_lang.specs.Trees.{attribute};
ghost use Rattle.ixp_lang_tokens.specs.Grammars.{takes, sequence, gives};
ghost use Rattle.ixp_lang_tokens.specs.Reading.{read, kinds, Gives};
ghost use Rattle.ixp_lang_exprs.specs.Types.{attribute_type};
ghost use Rattle.ixp_lang_exprs.specs.Lists.{first_in};
ghost use Rattle.ixp_lang_exprs.specs.Groups.{place_of, set_in, attribute_or_set, leaf_form, atom_form};
ghost use Rattle.ixp_lang_exprs.specs.Answers.{fault_of, Refuses};
ghost use Rattle.ixp_lang_exprs.specs.Expressions.{
  literal_word,
  literal_in,
  outside_define,
  no_value,
  named_value,
};
ghost use Rattle.ixp_lang_exprs.specs.Operands.{operand_of, closed, in_vain};
ghost use Rattle.ixp_lang_exprs.specs.Expressions.{
  truth_in,
  state_in,
  attribute_in,
  is_front_word,
  has_parts,
  length_of,
};
ghost use Rattle.ixp_lang_exprs.specs.Expressions.{is_path, part_in, word_in, bare_attribute, attribute_form};

use crate::context::unknown;
use crate::set::set_at;
use crate::types::attribute_type;
use crate::{Context, Typed, ValueType, Wanted};
use ixp_lang::{Attr, Expr, Value};
use ixp_lang_tokens::{Fault, Kind, Mark, Token, after_mark, mark_at, unexpected};
use ixp_num::{Name, Validity};

/// Whether both are the same bytes.
fn is_same(word: &[u8], other: &[u8]) -> bool
    ensures { result ≡ same_word word.now other.now }
{
    word == other
}

fn truth_of(word: &[u8]) -> Option<bool>
    ensures { result ≡ truth_in word.now }
{
    if is_same(word, b"true") {
        Some(true)
    } else if is_same(word, b"false") {
        Some(false)
    } else {
        None
    }
}

/// The ROA state that the keyword is.
pub fn state_of(word: &[u8]) -> Option<Validity>
    ensures { result ≡ state_in word.now }
{
    if is_same(word, b"ROA_VALID") {
        Some(Validity::Valid)
    } else if is_same(word, b"ROA_INVALID") {
        Some(Validity::Invalid)
    } else if is_same(word, b"ROA_UNKNOWN") {
        Some(Validity::Unknown)
    } else {
        None
    }
}

/// The attribute that the keyword is by itself.
fn attribute_of(word: &[u8]) -> Option<Attr>
    ensures { result ≡ attribute_in word.now }
{
    if is_same(word, b"net") {
        Some(Attr::Net)
    } else if is_same(word, b"from") {
        Some(Attr::From)
    } else if is_same(word, b"bgp_next_hop") {
        Some(Attr::NextHop)
    } else if is_same(word, b"bgp_path") {
        Some(Attr::Path)
    } else if is_same(word, b"bgp_community") {
        Some(Attr::Pairs)
    } else if is_same(word, b"bgp_large_community") {
        Some(Attr::Triples)
    } else {
        None
    }
}

fn is_literal(word: &[u8]) -> bool
    ensures { result ≡ (is_some (truth_in word.now) || is_some (state_in word.now)) }
{
    truth_of(word).is_some() || state_of(word).is_some()
}

/// Whether the keyword is an operand, or begins one.
pub(crate) fn begins_operand(word: &[u8]) -> bool
    ensures { result ≡ is_front_word word.now }
{
    is_literal(word) || attribute_of(word).is_some() || is_same(word, b"roa_check")
}

/// Whether a `.` may follow the attribute.
fn has_parts(attr: Attr) -> bool
    ensures { result ≡ has_parts attr }
{
    match attr {
        Attr::Net | Attr::Path | Attr::Pairs | Attr::Triples => true,
        _ => false,
    }
}

/// `len` of an attribute.
fn length_of(attr: Attr) -> Attr
    ensures { result ≡ length_of attr }
{
    match attr {
        Attr::Net => Attr::NetLen,
        Attr::Path => Attr::Len,
        Attr::Pairs => Attr::PairsLen,
        _ => Attr::TriplesLen,
    }
}

fn is_path(attr: Attr) -> bool
    ensures { result ≡ is_path attr }
{
    match attr {
        Attr::Path => true,
        _ => false,
    }
}

/// The part of the attribute that has the word.
fn part_of(attr: Attr, word: &[u8]) -> Option<Attr>
    ensures { result ≡ part_in attr word.now }
{
    if is_same(word, b"len") {
        Some(length_of(attr))
    } else if is_path(attr) && is_same(word, b"first") {
        Some(Attr::First)
    } else if is_path(attr) && is_same(word, b"last") {
        Some(Attr::Last)
    } else {
        None
    }
}

/// The part of the attribute that is named behind the dot.
fn part_at(attr: Attr, tokens: &[Token]) -> Result<(Attr, &[Token]), Fault>
    ensures reads { Gives (λ x. (x.0, kinds x.1.now)) result
        (read (takes (word_in (part_in attr))) (kinds tokens.now)) }
    ensures shorter { IfOk result (λ x. length x.1.now < length tokens.now) }
{
    let [first, rest @ ..] = tokens else {
        return Err(unexpected(tokens));
    };
    let Kind::Word(word) = &first.kind else {
        return Err(unexpected(tokens));
    };
    match part_of(attr, word.as_bytes()) {
        Some(part) => Ok((part, rest)),
        None => Err(unexpected(tokens)),
    }
}

/// The part of the attribute behind the dot, if one is next.
fn dotted_at(attr: Attr, tokens: &[Token]) -> Result<(Typed, &[Token]), Fault>
    ensures reads { Gives (λ x. (operand_of x.0, kinds x.1.now)) result
        (read (sequence (takes (word_in (part_in attr)))
        (λ part. gives (closed (attribute part) (attribute_type part)))) (kinds tokens.now)) }
    ensures shorter { IfOk result (λ x. length x.1.now < length tokens.now) }
{
    let (part, rest) = part_at(attr, tokens)?;
    let typed = Typed::closed(Expr::Attr(part), attribute_type(part));
    Ok((typed, rest))
}

/// The attribute by itself.
fn bare_attribute(attr: Attr) -> Typed
    ensures { operand_of result ≡ bare_attribute attr }
{
    let mut typed = Typed::closed(Expr::Attr(attr), attribute_type(attr));
    typed.is_open = has_parts(attr);
    typed
}

/// Whether the expression that begins with this attribute, or with a part of it, can be what is wanted.
fn may_begin(wanted: Wanted, attr: Attr) -> Result<(), Fault>
    ensures { Refuses result (in_vain wanted (bare_attribute attr)) }
{
    let bare = bare_attribute(attr);
    wanted.begins(&bare)
}

/// The attribute, which a dot and a word make another one. It is refused before the dot, where it is in vain.
fn attribute_at(wanted: Wanted, attr: Attr, tokens: &[Token]) -> Result<(Typed, &[Token]), Fault>
    ensures reads { Gives (λ x. (operand_of x.0, kinds x.1.now)) result
        (read (attribute_form wanted attr) (kinds tokens.now)) }
    ensures shorter { IfOk result (λ x. length x.1.now ≤ length tokens.now) }
{
    may_begin(wanted, attr)?;
    if has_parts(attr)
        && let Some(after) = after_mark(Mark::Dot, tokens)
    {
        return dotted_at(attr, after);
    }
    Ok((bare_attribute(attr), tokens))
}

/// The literal that the keyword is.
fn literal_word(word: &[u8]) -> Option<Typed>
    ensures { option_map operand_of result ≡ literal_word word.now }
{
    if let Some(truth) = truth_of(word) {
        let literal = Expr::Lit(Value::Bool(truth));
        return Some(Typed::closed(literal, ValueType::Bool));
    }
    let state = state_of(word)?;
    Some(Typed::closed(Expr::Lit(Value::Roa(state)), ValueType::State))
}

/// The literal that the token is.
fn literal_of(kind: &Kind) -> Option<Typed>
    ensures { option_map operand_of result ≡ literal_in kind.now }
{
    match kind {
        Kind::Number(number) => {
            let literal = Expr::Lit(Value::Int(*number));
            Some(Typed::closed(literal, ValueType::Int))
        }
        Kind::Addr(addr) => Some(Typed::closed(Expr::Lit(Value::Ip(*addr.get())), ValueType::Ip)),
        Kind::Prefix(prefix) => {
            let literal = Expr::Lit(Value::Net(*prefix.get()));
            Some(Typed::closed(literal, ValueType::Prefix))
        }
        Kind::Word(word) => literal_word(word.as_bytes()),
        _ => None,
    }
}

/// The attribute whose keyword this is, where attributes may stand.
fn attribute_word(cx: Context<'_>, word: &[u8]) -> Option<Attr>
    ensures { result ≡ outside_define (place_of cx.entry) attribute_in word.now }
{
    if cx.scope.is_define() {
        None
    } else {
        attribute_of(word)
    }
}

/// The attribute whose keyword is next, and what follows.
fn attribute_next<'t>(cx: Context<'_>, tokens: &'t [Token]) -> Option<(Attr, &'t [Token])>
    ensures reads { option_map (λ x. (x.0, kinds x.1.now)) result
        ≡ first_in (word_in (outside_define (place_of cx.entry) attribute_in)) (kinds tokens.now) }
    ensures shorter { IfSome result (λ x. length x.1.now < length tokens.now) }
{
    let [first, rest @ ..] = tokens else {
        return None;
    };
    let Kind::Word(word) = &first.kind else {
        return None;
    };
    let attr = attribute_word(cx, word.as_bytes())?;
    Some((attr, rest))
}

/// Why a name that is no value stands here in vain. What a definition calls is no name of the wrong sort: no
/// text calls there.
pub(crate) fn no_value(cx: Context<'_>, name: &Name, tokens: &[Token]) -> Fault
    ensures { result ≡ fault_of (no_value (place_of cx.entry) name.now (length tokens.now)) }
{
    if cx.scope.is_define() && cx.env.function(name).is_some() {
        unexpected(tokens)
    } else {
        unknown(tokens)
    }
}

/// The value that has the name, which is next. The rest is behind it.
fn name_leaf<'t>(
    cx: Context<'_>,
    name: &Name,
    tokens: &[Token],
    rest: &'t [Token],
) -> Result<(Typed, &'t [Token]), Fault>
    ensures reads { Gives (λ x. (operand_of x.0, kinds x.1.now)) result
        (read (named_value (place_of cx.entry) name.now (length tokens.now)) (kinds rest.now)) }
    ensures shorter { IfOk result (λ x. length x.1.now ≤ length rest.now) }
{
    match cx.env.value(name, cx.scope) {
        Some(ty) => {
            let name = name.copied(cx.alloc)?;
            Ok((Typed::closed(Expr::Named(name), ty), rest))
        }
        None => Err(no_value(cx, name, tokens)),
    }
}

/// A set, with its bracket.
fn set_in<'t>(
    cx: Context<'_>,
    depth: u32,
    tokens: &'t [Token],
) -> Result<(Typed, &'t [Token]), Fault>
    ensures reads { Gives (λ x. (operand_of x.0, kinds x.1.now)) result
        (read (set_in (place_of cx.entry) (nat_lt 0 depth)) (kinds tokens.now)) }
    ensures shorter { IfOk result (λ x. length x.1.now < length tokens.now) }
{
    let behind = mark_at(Mark::SetOpen, tokens)?;
    set_at(cx, depth, behind)
}

/// An attribute or a set.
fn attribute_or_set_at<'t>(
    cx: Context<'_>,
    depth: u32,
    wanted: Wanted,
    tokens: &'t [Token],
) -> Result<(Typed, &'t [Token]), Fault>
    ensures reads { Gives (λ x. (operand_of x.0, kinds x.1.now)) result
        (read (attribute_or_set (place_of cx.entry) wanted (nat_lt 0 depth)) (kinds tokens.now)) }
    ensures shorter { IfOk result (λ x. length x.1.now < length tokens.now) }
{
    let Some((attr, behind)) = attribute_next(cx, tokens) else {
        return set_in(cx, depth, tokens);
    };
    attribute_at(wanted, attr, behind)
}

/// A literal, an attribute or a set.
fn leaf_at<'t>(
    cx: Context<'_>,
    depth: u32,
    wanted: Wanted,
    tokens: &'t [Token],
) -> Result<(Typed, &'t [Token]), Fault>
    ensures reads { Gives (λ x. (operand_of x.0, kinds x.1.now)) result
        (read (leaf_form (place_of cx.entry) wanted (nat_lt 0 depth)) (kinds tokens.now)) }
    ensures shorter { IfOk result (λ x. length x.1.now < length tokens.now) }
{
    let [first, rest @ ..] = tokens else {
        return Err(unexpected(tokens));
    };
    if let Some(typed) = literal_of(&first.kind) {
        return Ok((typed, rest));
    }
    attribute_or_set_at(cx, depth, wanted, tokens)
}

/// An operand without parentheses and negations around it.
pub(crate) fn atom_at<'t>(
    cx: Context<'_>,
    depth: u32,
    wanted: Wanted,
    tokens: &'t [Token],
) -> Result<(Typed, &'t [Token]), Fault>
    ensures reads { Gives (λ x. (operand_of x.0, kinds x.1.now)) result
        (read (atom_form (place_of cx.entry) wanted (nat_lt 0 depth)) (kinds tokens.now)) }
    ensures shorter { IfOk result (λ x. length x.1.now < length tokens.now) }
{
    let [first, rest @ ..] = tokens else {
        return Err(unexpected(tokens));
    };
    match &first.kind {
        Kind::Name(name) => name_leaf(cx, name.get(), tokens, rest),
        _ => leaf_at(cx, depth, wanted, tokens),
    }
}
