//! Items, and the whole text.
ghost use Rattle.std.specs.Prelude.{◌≡◌, ◌<◌, [], length, map, IfOk, IsTrue, IsFalse};
ghost use Rattle.ixp_lang.specs.Views.{item_view};
ghost use Rattle.ixp_lang_tokens.specs.Grammars.{takes};
ghost use Rattle.ixp_lang_tokens.specs.Reading.{read, kinds, Gives};
ghost use Rattle.ixp_lang_exprs.specs.Names.{Names, names_of};
ghost use Rattle.ixp_lang_exprs.specs.Operands.{operand_of};
ghost use Rattle.ixp_read.specs.Items.{
  v4_addr_in,
  is_roa,
  router_id_end,
  table_end,
  defined_value,
  define_end,
  declaration_form,
  table_or,
  item_form,
  config_round,
  config_form,
};
ghost use Rattle.ixp_read.specs.Views.{begun_of, round_says};

use crate::function::{filter_at, function_at};
use ixp_lang::{Item, Kind};
use ixp_lang_exprs::{
    Context, Declared, Env, Expected, Scope, Table, Typed, Wanted, defined_number, expression,
    settled,
};
use ixp_lang_protocols::protocol_at;
use ixp_lang_tokens::{
    Fault, Kind as TokenKind, Mark, Token, after_word, mark_at, unexpected, word_at,
};
use ixp_num::{Addr, Family};
use std::alloc::Global;

/// The greatest number of levels in one another.
const DEPTH: u32 = 64;

/// The IPv4 address that the token is, if it is one.
fn v4_addr_in(kind: &TokenKind) -> Option<Addr>
    ensures { result ≡ v4_addr_in kind.now }
{
    let TokenKind::Addr(addr) = kind else {
        return None;
    };
    let addr = addr.get();
    match addr.family {
        Family::V4 => Some(*addr),
        Family::V6 => None,
    }
}

/// The IPv4 address that must be next.
fn v4_addr_at(tokens: &[Token]) -> Result<(Addr, &[Token]), Fault>
    ensures reads { Gives (λ x. (x.0, kinds x.1.now)) result (read (takes v4_addr_in) (kinds tokens.now)) }
    ensures shorter { IfOk result (λ x. length x.1.now < length tokens.now) }
{
    let [first, rest @ ..] = tokens else {
        return Err(unexpected(tokens));
    };
    match v4_addr_in(&first.kind) {
        Some(addr) => Ok((addr, rest)),
        None => Err(unexpected(tokens)),
    }
}

/// What follows `router`.
fn router_id_at(tokens: &[Token]) -> Result<(Item, &[Token]), Fault>
    ensures reads { (names : Names)
        → Gives (λ x. ((item_view x.0, names), kinds x.1.now)) result
        (read (router_id_end names) (kinds tokens.now)) }
    ensures shorter { IfOk result (λ x. length x.1.now < length tokens.now) }
{
    let rest = word_at(b"id", tokens)?;
    let (addr, rest) = v4_addr_at(rest)?;
    let rest = mark_at(Mark::Semicolon, rest)?;
    Ok((Item::RouterId(addr), rest))
}

/// Whether such tables hold ROAs.
fn is_roa(kind: Kind) -> bool
    ensures { result ≡ is_roa kind }
{
    match kind {
        Kind::Ipv4 | Kind::Ipv6 => false,
        Kind::Roa4 | Kind::Roa6 => true,
    }
}

/// What follows the kind of a table.
fn table_at<'t>(
    alloc: Global,
    env: &mut Env,
    kind: Kind,
    tokens: &'t [Token],
) -> Result<(Item, &'t [Token]), Fault>
    ensures reads { Gives (λ x. ((item_view x.0, names_of env.new), kinds x.1.now)) result
        (read (table_end kind (names_of env.old)) (kinds tokens.now)) }
    ensures shorter { IfOk result (λ x. length x.1.now < length tokens.now) }
{
    let rest = word_at(b"table", tokens)?;
    let (name, rest) = env.free_name_at(alloc, rest)?;
    let rest = mark_at(Mark::Semicolon, rest)?;
    let table = Table {
        is_roa: is_roa(kind),
        in_session: false,
        in_pipe: false,
    };
    env.declare(alloc, &name, Declared::Table(table))?;
    Ok((Item::Table { kind, name }, rest))
}

/// A definition's value, and the semicolon. The place is that of `define`.
fn value_at<'t>(
    alloc: Global,
    env: &Env,
    place: usize,
    tokens: &'t [Token],
) -> Result<(Typed, &'t [Token]), Fault>
    ensures reads { Gives (λ x. (operand_of x.0, kinds x.1.now)) result
        (read (defined_value place (names_of env.now)) (kinds tokens.now)) }
    ensures shorter { IfOk result (λ x. length x.1.now < length tokens.now) }
{
    let cx = Context {
        alloc,
        env,
        scope: Scope::Define,
        statement: place,
    };
    let wanted = Wanted {
        expected: Expected::Anything,
        place: 0,
    };
    let (value, rest) = expression(cx, DEPTH, wanted, tokens)?;
    let rest = mark_at(Mark::Semicolon, rest)?;
    settled(&value)?;
    Ok((value, rest))
}

/// What follows `define`, which is at this place.
fn define_at<'t>(
    alloc: Global,
    env: &mut Env,
    place: usize,
    tokens: &'t [Token],
) -> Result<(Item, &'t [Token]), Fault>
    ensures reads { Gives (λ x. ((item_view x.0, names_of env.new), kinds x.1.now)) result
        (read (define_end place (names_of env.old)) (kinds tokens.now)) }
    ensures shorter { IfOk result (λ x. length x.1.now < length tokens.now) }
{
    let (name, rest) = env.free_name_at(alloc, tokens)?;
    let rest = mark_at(Mark::Equal, rest)?;
    let (value, rest) = value_at(alloc, env, place, rest)?;
    let number = defined_number(env, &value.expr);
    env.declare(alloc, &name, Declared::Define(value.ty, number))?;
    let value = value.expr;
    Ok((Item::Define { name, value }, rest))
}

/// A definition, a function, a filter or a protocol, before which there are so many items.
fn declaration_at<'t>(
    alloc: Global,
    env: &mut Env,
    number: usize,
    tokens: &'t [Token],
) -> Result<(Item, &'t [Token]), Fault>
    ensures reads { Gives (λ x. ((item_view x.0, names_of env.new), kinds x.1.now)) result
        (read (declaration_form number (length tokens.now) (names_of env.old)) (kinds tokens.now)) }
    ensures shorter { IfOk result (λ x. length x.1.now < length tokens.now) }
{
    if let Some(rest) = after_word(b"define", tokens) {
        return define_at(alloc, env, tokens.len(), rest);
    }
    if let Some(rest) = after_word(b"function", tokens) {
        return function_at(alloc, env, DEPTH - 1, number, rest);
    }
    if let Some(rest) = after_word(b"filter", tokens) {
        return filter_at(alloc, env, DEPTH - 1, rest);
    }
    let rest = word_at(b"protocol", tokens)?;
    protocol_at(alloc, env, rest)
}

/// A table, or one of those.
fn table_or_at<'t>(
    alloc: Global,
    env: &mut Env,
    number: usize,
    tokens: &'t [Token],
) -> Result<(Item, &'t [Token]), Fault>
    ensures reads { Gives (λ x. ((item_view x.0, names_of env.new), kinds x.1.now)) result
        (read (table_or number (length tokens.now) (names_of env.old)) (kinds tokens.now)) }
    ensures shorter { IfOk result (λ x. length x.1.now < length tokens.now) }
{
    if let Some(rest) = after_word(b"ipv4", tokens) {
        return table_at(alloc, env, Kind::Ipv4, rest);
    }
    if let Some(rest) = after_word(b"ipv6", tokens) {
        return table_at(alloc, env, Kind::Ipv6, rest);
    }
    if let Some(rest) = after_word(b"roa4", tokens) {
        return table_at(alloc, env, Kind::Roa4, rest);
    }
    if let Some(rest) = after_word(b"roa6", tokens) {
        return table_at(alloc, env, Kind::Roa6, rest);
    }
    declaration_at(alloc, env, number, tokens)
}

/// An item, before which there are so many.
fn item_at<'t>(
    alloc: Global,
    env: &mut Env,
    number: usize,
    tokens: &'t [Token],
) -> Result<(Item, &'t [Token]), Fault>
    ensures reads { Gives (λ x. ((item_view x.0, names_of env.new), kinds x.1.now)) result
        (read (item_form number (names_of env.old)) (kinds tokens.now)) }
    ensures shorter { IfOk result (λ x. length x.1.now < length tokens.now) }
{
    if let Some(rest) = after_word(b"router", tokens) {
        return router_id_at(rest);
    }
    table_or_at(alloc, env, number, tokens)
}

/// Adds the item that is next, if there is one. Gives whether the text ended, and what follows.
fn item_round<'t>(
    alloc: Global,
    env: &mut Env,
    items: &mut Vec<Item>,
    tokens: &'t [Token],
) -> Result<(bool, &'t [Token]), Fault>
    ensures reads { Gives
        (λ x. (round_says x.0 (begun_of items.new.items (names_of env.new)), kinds x.1.now)) result
        (read (config_round (begun_of items.old.items (names_of env.old))) (kinds tokens.now)) }
    ensures shorter { IfOk result (λ x. IsFalse x.0 → length x.1.now < length tokens.now) }
    ensures ends { IfOk result (λ x. IsTrue x.0 → kinds x.1.now ≡ []) }
{
    if tokens.is_empty() {
        return Ok((true, tokens));
    }
    let before = items.as_slice();
    let number = before.len();
    let (item, rest) = item_at(alloc, env, number, tokens)?;
    items.push(item)?;
    Ok((false, rest))
}

/// The items of all the tokens.
pub(crate) fn items_at(alloc: Global, tokens: &[Token]) -> Result<Vec<Item>, Fault>
    ensures reads { Gives (λ items. (map item_view items.items, [])) result
        (read config_form (kinds tokens.now)) }
{
    let mut env = Env::new(alloc);
    let mut items = Vec::new(alloc);
    let mut left = tokens;
    'each: loop {
        let (is_last, rest) = item_round(alloc, &mut env, &mut items, left)?;
        if is_last {
            return Ok(items);
        }
        left = rest;
    }
}
