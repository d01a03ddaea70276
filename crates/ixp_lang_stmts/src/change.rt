//! Statements that hold no others.
ghost use Rattle.std.specs.Prelude.{◌≡◌, ◌<◌, length, OnOk, IfOk};
ghost use Rattle.std.specs.Option.{option_or};
ghost use Rattle.ixp_lang.specs.Trees.{accept, reject};
ghost use Rattle.ixp_lang.specs.Views.{expr_view, stmt_view};
ghost use Rattle.ixp_lang_tokens.specs.Grammars.{gives, sequence};
ghost use Rattle.ixp_lang_tokens.specs.Pieces.{a_name};
ghost use Rattle.ixp_lang_tokens.specs.Reading.{begins, read, kinds, Gives};
ghost use Rattle.ixp_lang_tokens.specs.declared.token.Mark.TheVariants.{Semicolon};
ghost use Rattle.ixp_lang_exprs.specs.Answers.{Refuses};
ghost use Rattle.ixp_lang_exprs.specs.Lists.{ended};
ghost use Rattle.ixp_lang_exprs.specs.Groups.{place_of};
ghost use Rattle.ixp_lang_exprs.specs.Sets.{unless_so};
ghost use Rattle.ixp_lang_exprs.specs.Operands.{operand_of, settled, misfit_at};
ghost use Rattle.ixp_lang_stmts.specs.Methods.{method_call};
ghost use Rattle.ixp_lang_stmts.specs.Statements.{
  said,
  may_meet,
  met,
  value_end,
  enclosed_end,
  call_form,
  return_end,
  next_hop_end,
  prepend_end,
  change_end,
  pairs_end,
  triples_end,
  change_form,
  plain_form,
};
ghost use Rattle.ixp_lang_stmts.specs.Views.{frame_of, returned_of};

use crate::body::{Frame, Returned, misfit, unknown};
use ixp_lang::{Expr, Stmt};
use ixp_lang_exprs::{
    Context, Expected, Typed, ValueType, Wanted, arguments, expression, fits, own_name_at, settled,
};
use ixp_lang_tokens::{Fault, Kind, Mark, Token, after_word, mark_at, name_at, word_at};

/// An expression of the type that ends its statement.
fn last_at<'t>(
    cx: Context<'_>,
    depth: u32,
    ty: ValueType,
    tokens: &'t [Token],
) -> Result<(Expr, &'t [Token]), Fault>
    ensures reads { Gives (λ x. (expr_view x.0, kinds x.1.now)) result
        (read (value_end (place_of cx.entry) depth ty) (kinds tokens.now)) }
    ensures shorter { IfOk result (λ x. length x.1.now < length tokens.now) }
{
    let wanted = Wanted {
        expected: Expected::One(ty),
        place: cx.statement,
    };
    let (typed, rest) = expression(cx, depth, wanted, tokens)?;
    let rest = mark_at(Mark::Semicolon, rest)?;
    fits(&typed, ty, cx.statement)?;
    Ok((typed.expr, rest))
}

/// An expression of the type in parentheses, which end their statement. They are no level.
fn enclosed_at<'t>(
    cx: Context<'_>,
    depth: u32,
    ty: ValueType,
    tokens: &'t [Token],
) -> Result<(Expr, &'t [Token]), Fault>
    ensures reads { Gives (λ x. (expr_view x.0, kinds x.1.now)) result
        (read (enclosed_end (place_of cx.entry) depth ty) (kinds tokens.now)) }
    ensures shorter { IfOk result (λ x. length x.1.now < length tokens.now) }
{
    let rest = mark_at(Mark::Open, tokens)?;
    let wanted = Wanted {
        expected: Expected::One(ty),
        place: cx.statement,
    };
    let (typed, rest) = expression(cx, depth, wanted, rest)?;
    let rest = mark_at(Mark::Close, rest)?;
    fits(&typed, ty, cx.statement)?;
    let rest = mark_at(Mark::Semicolon, rest)?;
    Ok((typed.expr, rest))
}

/// What follows `return`.
fn return_at<'t>(
    cx: Context<'_>,
    depth: u32,
    returned: &mut Returned,
    tokens: &'t [Token],
) -> Result<(Stmt, &'t [Token]), Fault>
    ensures reads { Gives (λ x. (said (returned_of returned.new) (stmt_view x.0), kinds x.1.now)) result
        (read (return_end (place_of cx.entry) depth (returned_of returned.old)) (kinds tokens.now)) }
    ensures shorter { IfOk result (λ x. length x.1.now < length tokens.now) }
{
    let wanted = Wanted {
        expected: Expected::Value(returned.ty),
        place: cx.statement,
    };
    let (typed, rest) = expression(cx, depth, wanted, tokens)?;
    let rest = mark_at(Mark::Semicolon, rest)?;
    met(returned, &typed, cx.statement)?;
    Ok((Stmt::Return(typed.expr), rest))
}

/// Whether the value may be returned at this place.
fn met(returned: &mut Returned, typed: &Typed, place: usize) -> Result<(), Fault>
    ensures cause { Refuses result
        (option_or (settled (operand_of typed.now))
        (unless_so (may_meet (returned_of returned.old) typed.now.ty) (misfit_at place))) }
    ensures kept { OnOk result (returned_of returned.new ≡ met typed.now.ty) }
{
    settled(typed)?;
    returned.meet(typed.ty, place)
}

/// A call of the function whose name is next.
fn call_at<'t>(
    cx: Context<'_>,
    depth: u32,
    tokens: &'t [Token],
) -> Result<(Stmt, &'t [Token]), Fault>
    ensures reads { Gives (λ x. (stmt_view x.0, kinds x.1.now)) result
        (read (call_form (place_of cx.entry) depth) (kinds tokens.now)) }
    ensures shorter { IfOk result (λ x. length x.1.now < length tokens.now) }
{
    let (name, rest) = name_at(tokens)?;
    let Some(signature) = cx.env.function(name) else {
        return Err(unknown(cx.statement));
    };
    let rest = mark_at(Mark::Open, rest)?;
    let (args, rest) = arguments(cx, depth, signature, cx.statement, rest)?;
    let rest = mark_at(Mark::Semicolon, rest)?;
    let (name, _) = own_name_at(cx.alloc, tokens)?;
    Ok((Stmt::Call { name, args }, rest))
}

/// What follows `bgp_next_hop`.
fn next_hop_at<'t>(
    cx: Context<'_>,
    depth: u32,
    tokens: &'t [Token],
) -> Result<(Stmt, &'t [Token]), Fault>
    ensures reads { Gives (λ x. (stmt_view x.0, kinds x.1.now)) result
        (read (next_hop_end (place_of cx.entry) depth) (kinds tokens.now)) }
    ensures shorter { IfOk result (λ x. length x.1.now < length tokens.now) }
{
    let rest = mark_at(Mark::Equal, tokens)?;
    let (value, rest) = last_at(cx, depth, ValueType::Ip, rest)?;
    Ok((Stmt::SetNextHop(value), rest))
}

/// A method of an attribute, which is called with a value.
#[derive(Clone, Copy)]
enum Method {
    Prepend,
    AddPair,
    DeletePairs,
    AddTriple,
    DeleteTriples,
}

impl Method {
    /// The statement that calls it with the value.
    fn call(self, value: Expr) -> Stmt
        ensures { stmt_view result ≡ method_call self (expr_view value) }
    {
        match self {
            Method::Prepend => Stmt::Prepend(value),
            Method::AddPair => Stmt::AddPair(value),
            Method::DeletePairs => Stmt::DeletePairs(value),
            Method::AddTriple => Stmt::AddTriple(value),
            Method::DeleteTriples => Stmt::DeleteTriples(value),
        }
    }
}

/// What follows the name of a method, whose value is of the type.
fn method_at<'t>(
    cx: Context<'_>,
    depth: u32,
    ty: ValueType,
    method: Method,
    tokens: &'t [Token],
) -> Result<(Stmt, &'t [Token]), Fault>
    ensures reads { Gives (λ x. (stmt_view x.0, kinds x.1.now)) result
        (read (sequence (enclosed_end (place_of cx.entry) depth ty)
        (λ value. gives (method_call method value))) (kinds tokens.now)) }
    ensures shorter { IfOk result (λ x. length x.1.now < length tokens.now) }
{
    let (value, rest) = enclosed_at(cx, depth, ty, tokens)?;
    Ok((method.call(value), rest))
}

/// What follows `bgp_path`.
fn prepend_at<'t>(
    cx: Context<'_>,
    depth: u32,
    tokens: &'t [Token],
) -> Result<(Stmt, &'t [Token]), Fault>
    ensures reads { Gives (λ x. (stmt_view x.0, kinds x.1.now)) result
        (read (prepend_end (place_of cx.entry) depth) (kinds tokens.now)) }
    ensures shorter { IfOk result (λ x. length x.1.now < length tokens.now) }
{
    let rest = mark_at(Mark::Dot, tokens)?;
    let rest = word_at(b"prepend", rest)?;
    method_at(cx, depth, ValueType::Int, Method::Prepend, rest)
}

/// What follows the name of a list: `.add(..)` of one, or `.delete(..)` of a set of many.
fn list_at<'t>(
    cx: Context<'_>,
    depth: u32,
    one: ValueType,
    add: Method,
    many: ValueType,
    delete: Method,
    tokens: &'t [Token],
) -> Result<(Stmt, &'t [Token]), Fault>
    ensures reads { Gives (λ x. (stmt_view x.0, kinds x.1.now)) result
        (read (change_end (place_of cx.entry) depth one (method_call add) many (method_call delete))
        (kinds tokens.now)) }
    ensures shorter { IfOk result (λ x. length x.1.now < length tokens.now) }
{
    let rest = mark_at(Mark::Dot, tokens)?;
    if let Some(rest) = after_word(b"add", rest) {
        return method_at(cx, depth, one, add, rest);
    }
    let rest = word_at(b"delete", rest)?;
    method_at(cx, depth, many, delete, rest)
}

/// What follows `bgp_community`.
fn pairs_at<'t>(
    cx: Context<'_>,
    depth: u32,
    tokens: &'t [Token],
) -> Result<(Stmt, &'t [Token]), Fault>
    ensures reads { Gives (λ x. (stmt_view x.0, kinds x.1.now)) result
        (read (pairs_end (place_of cx.entry) depth) (kinds tokens.now)) }
    ensures shorter { IfOk result (λ x. length x.1.now < length tokens.now) }
{
    let one = ValueType::Pair;
    let many = ValueType::PairSet;
    list_at(
        cx,
        depth,
        one,
        Method::AddPair,
        many,
        Method::DeletePairs,
        tokens,
    )
}

/// What follows `bgp_large_community`.
fn triples_at<'t>(
    cx: Context<'_>,
    depth: u32,
    tokens: &'t [Token],
) -> Result<(Stmt, &'t [Token]), Fault>
    ensures reads { Gives (λ x. (stmt_view x.0, kinds x.1.now)) result
        (read (triples_end (place_of cx.entry) depth) (kinds tokens.now)) }
    ensures shorter { IfOk result (λ x. length x.1.now < length tokens.now) }
{
    let one = ValueType::Triple;
    let many = ValueType::TripleSet;
    list_at(
        cx,
        depth,
        one,
        Method::AddTriple,
        many,
        Method::DeleteTriples,
        tokens,
    )
}

/// What follows `accept`.
fn accept_end(tokens: &[Token]) -> Result<(Stmt, &[Token]), Fault>
    ensures reads { Gives (λ x. (stmt_view x.0, kinds x.1.now)) result
        (read (ended Semicolon accept) (kinds tokens.now)) }
    ensures shorter { IfOk result (λ x. length x.1.now < length tokens.now) }
{
    let rest = mark_at(Mark::Semicolon, tokens)?;
    Ok((Stmt::Accept, rest))
}

/// What follows `reject`.
fn reject_end(tokens: &[Token]) -> Result<(Stmt, &[Token]), Fault>
    ensures reads { Gives (λ x. (stmt_view x.0, kinds x.1.now)) result
        (read (ended Semicolon reject) (kinds tokens.now)) }
    ensures shorter { IfOk result (λ x. length x.1.now < length tokens.now) }
{
    let rest = mark_at(Mark::Semicolon, tokens)?;
    Ok((Stmt::Reject, rest))
}

/// Whether a name is next.
fn is_name(tokens: &[Token]) -> bool
    ensures { result ≡ begins a_name (kinds tokens.now) }
{
    let [first, ..] = tokens else {
        return false;
    };
    match &first.kind {
        Kind::Name(_) => true,
        _ => false,
    }
}

/// A statement that holds no others and returns nothing.
#[tactic(auto, unfolding(crate::specs::Statements::change_form))]
fn change_at<'t>(
    cx: Context<'_>,
    depth: u32,
    tokens: &'t [Token],
) -> Result<(Stmt, &'t [Token]), Fault>
    ensures reads { Gives (λ x. (stmt_view x.0, kinds x.1.now)) result
        (read (change_form (place_of cx.entry) depth) (kinds tokens.now)) }
    ensures shorter { IfOk result (λ x. length x.1.now < length tokens.now) }
{
    if is_name(tokens) {
        return call_at(cx, depth, tokens);
    }
    if let Some(rest) = after_word(b"bgp_next_hop", tokens) {
        return next_hop_at(cx, depth, rest);
    }
    if let Some(rest) = after_word(b"bgp_path", tokens) {
        return prepend_at(cx, depth, rest);
    }
    if let Some(rest) = after_word(b"bgp_community", tokens) {
        return pairs_at(cx, depth, rest);
    }
    if let Some(rest) = after_word(b"bgp_large_community", tokens) {
        return triples_at(cx, depth, rest);
    }
    if let Some(rest) = after_word(b"accept", tokens) {
        return accept_end(rest);
    }
    let rest = word_at(b"reject", tokens)?;
    reject_end(rest)
}

/// A statement that holds no others.
pub(crate) fn plain_at<'t>(
    frame: Frame<'_>,
    depth: u32,
    returned: &mut Returned,
    tokens: &'t [Token],
) -> Result<(Stmt, &'t [Token]), Fault>
    ensures reads { Gives (λ x. (said (returned_of returned.new) (stmt_view x.0), kinds x.1.now)) result
        (read (plain_form (frame_of frame.entry) depth (returned_of returned.old)) (kinds tokens.now)) }
    ensures shorter { IfOk result (λ x. length x.1.now < length tokens.now) }
{
    let cx = frame.statement(tokens);
    let Some(rest) = after_word(b"return", tokens) else {
        let (change, rest) = change_at(cx, depth, tokens)?;
        return Ok((change, rest));
    };
    if !frame.returns() {
        return Err(misfit(tokens.len()));
    }
    return_at(cx, depth, returned, rest)
}
