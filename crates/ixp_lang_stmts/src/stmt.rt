//! Statements.
ghost use Rattle.std.specs.Prelude.{◌≡◌, ◌<◌, ◌≤◌, length, IfSome, IfOk, option_map};
ghost use Rattle.ixp_lang.specs.Views.{expr_view, stmt_view, stmts_view};
ghost use Rattle.ixp_lang_tokens.specs.declared.token.Mark.TheVariants.{Colon};
ghost use Rattle.ixp_lang_tokens.specs.Pieces.{is_mark, is_next};
ghost use Rattle.ixp_lang_tokens.specs.Reading.{read, kinds, Gives};
ghost use Rattle.ixp_lang_exprs.specs.Groups.{place_of};
ghost use Rattle.ixp_lang_stmts.specs.Statements.{
  said,
  below,
  test_end,
  subject_end,
  branch_form,
  if_end,
  arms_form,
  case_end,
  case_body,
  statement_form,
  statements_of,
  body_form,
};
ghost use Rattle.ixp_lang_stmts.specs.Views.{
  frame_of,
  returned_of,
  begins_with,
  behind_else,
  else_read,
  subject_view,
  arms_list,
};

use crate::body::{Frame, Returned, begins_statement, deep, no_branch};
use crate::change::plain_at;
use crate::label::{Case, is_label, labels_at};
use crate::room::exact;
use ixp_lang::{Expr, Label, Stmt};
use ixp_lang_exprs::{Context, Expected, ValueType, Wanted, expression, fits, settled};
use ixp_lang_tokens::{
    Fault, Kind, Mark, Token, after_mark, after_word, is_mark, mark_at, word_at,
};
use ixp_num::Items;
use std::alloc::Global;

/// Whether a statement is next.
fn is_statement(tokens: &[Token]) -> bool
    ensures { result ≡ is_next begins_with (kinds tokens.now) }
{
    let [first, ..] = tokens else {
        return false;
    };
    match &first.kind {
        Kind::Mark(mark) => mark.is(Mark::BlockOpen),
        Kind::Name(_) => true,
        Kind::Word(word) => begins_statement(word.as_bytes()),
        _ => false,
    }
}

/// Whether a colon is next.
fn is_colon(tokens: &[Token]) -> bool
    ensures { result ≡ is_next (is_mark Colon) (kinds tokens.now) }
{
    let [first, ..] = tokens else {
        return false;
    };
    is_mark(Mark::Colon, first)
}

/// What follows the `else` of an `if`. In an arm an `else` with a colon is the `case`'s.
fn after_else(in_arm: bool, tokens: &[Token]) -> Option<&[Token]>
    ensures reads { option_map (λ r. kinds r.now) result ≡ behind_else in_arm (kinds tokens.now) }
    ensures shorter { IfSome result (λ r. length r.now < length tokens.now) }
{
    let rest = after_word(b"else", tokens)?;
    if in_arm && is_colon(rest) {
        return None;
    }
    Some(rest)
}

/// The test of an `if`, and `then`.
fn test_at<'t>(
    cx: Context<'_>,
    depth: u32,
    tokens: &'t [Token],
) -> Result<(Expr, &'t [Token]), Fault>
    ensures reads { Gives (λ x. (expr_view x.0, kinds x.1.now)) result
        (read (test_end (place_of cx.entry) depth) (kinds tokens.now)) }
    ensures shorter { IfOk result (λ x. length x.1.now < length tokens.now) }
{
    let wanted = Wanted {
        expected: Expected::One(ValueType::Bool),
        place: cx.statement,
    };
    let (test, rest) = expression(cx, depth, wanted, tokens)?;
    let rest = word_at(b"then", rest)?;
    fits(&test, ValueType::Bool, cx.statement)?;
    Ok((test.expr, rest))
}

#[derive(Drop)]
struct Subject {
    on: Expr,
    case: Case,
}

/// What a `case` is about, and the brace.
fn subject_at<'t>(
    cx: Context<'_>,
    depth: u32,
    tokens: &'t [Token],
) -> Result<(Subject, &'t [Token]), Fault>
    ensures reads { Gives (λ x. (subject_view x.0, kinds x.1.now)) result
        (read (subject_end (place_of cx.entry) depth) (kinds tokens.now)) }
    ensures place { IfOk result (λ x. x.0.case.place ≡ cx.entry.statement) }
    ensures shorter { IfOk result (λ x. length x.1.now < length tokens.now) }
{
    let wanted = Wanted {
        expected: Expected::NumberOrState,
        place: cx.statement,
    };
    let (on, rest) = expression(cx, depth, wanted, tokens)?;
    let rest = mark_at(Mark::BlockOpen, rest)?;
    settled(&on)?;
    let case = Case::of(on.ty, cx.statement)?;
    Ok((Subject { on: on.expr, case }, rest))
}

/// The statements of an arm, after its labels.
type Arms = Vec<(Items<Label>, Vec<Stmt>)>;

/// A statement, with so many levels below it at most.
#[cycle(stmt)]
fn statement<'t>(
    frame: Frame<'_>,
    depth: u32,
    in_arm: bool,
    returned: &mut Returned,
    tokens: &'t [Token],
) -> Result<(Stmt, &'t [Token]), Fault>
    ensures reads { Gives (λ x. (said (returned_of returned.new) (stmt_view x.0), kinds x.1.now)) result
        (read (statement_form (frame_of frame.entry) depth in_arm (returned_of returned.old))
        (kinds tokens.now)) }
    ensures shorter { IfOk result (λ x. length x.1.now < length tokens.now) }
{
    if let Some(behind) = after_mark(Mark::BlockOpen, tokens) {
        if depth == 0 {
            return Err(deep(tokens));
        }
        let (body, rest) = block_end(frame, depth - 1, returned, behind)?;
        return Ok((Stmt::Block(body), rest));
    }
    if let Some(behind) = after_word(b"if", tokens) {
        return if_at(
            frame,
            frame.statement(tokens),
            depth,
            in_arm,
            returned,
            behind,
        );
    }
    if let Some(behind) = after_word(b"case", tokens) {
        if depth == 0 {
            return Err(deep(tokens));
        }
        return case_at(frame, frame.statement(tokens), depth - 1, returned, behind);
    }
    plain_at(frame, depth, returned, tokens)
}

/// What follows `if`. The statement's expressions stand in this context.
#[cycle(stmt)]
fn if_at<'t>(
    frame: Frame<'_>,
    cx: Context<'_>,
    depth: u32,
    in_arm: bool,
    returned: &mut Returned,
    tokens: &'t [Token],
) -> Result<(Stmt, &'t [Token]), Fault>
    ensures reads { Gives (λ x. (said (returned_of returned.new) (stmt_view x.0), kinds x.1.now)) result
        (read (if_end (place_of cx.entry) (frame_of frame.entry) depth
        (below (frame_of frame.entry) depth) in_arm (returned_of returned.old)) (kinds tokens.now)) }
    ensures shorter { IfOk result (λ x. length x.1.now < length tokens.now) }
{
    let (test, rest) = test_at(cx, depth, tokens)?;
    let (yes, rest) = branch(frame, depth, in_arm, returned, rest)?;
    let (no, rest) = else_at(frame, depth, in_arm, returned, rest)?;
    Ok((Stmt::If { test, yes, no }, rest))
}

/// What the `if` does else. An `else` belongs to the nearest one.
#[cycle(stmt)]
fn else_at<'t>(
    frame: Frame<'_>,
    depth: u32,
    in_arm: bool,
    returned: &mut Returned,
    tokens: &'t [Token],
) -> Result<(Vec<Stmt>, &'t [Token]), Fault>
    ensures reads { Gives
        (λ x. (said (returned_of returned.new) (stmts_view x.0.items), kinds x.1.now)) result
        (else_read (frame_of frame.entry) (below (frame_of frame.entry) depth) in_arm
        (returned_of returned.old) (kinds tokens.now) (behind_else in_arm (kinds tokens.now))) }
    ensures shorter { IfOk result (λ x. length x.1.now ≤ length tokens.now) }
{
    let Some(behind) = after_else(in_arm, tokens) else {
        return Ok((Vec::new(frame.alloc), tokens));
    };
    branch(frame, depth, in_arm, returned, behind)
}

/// What follows `case`. The statement's expressions stand in this context.
#[cycle(stmt)]
fn case_at<'t>(
    frame: Frame<'_>,
    cx: Context<'_>,
    depth: u32,
    returned: &mut Returned,
    tokens: &'t [Token],
) -> Result<(Stmt, &'t [Token]), Fault>
    ensures reads { Gives (λ x. (said (returned_of returned.new) (stmt_view x.0), kinds x.1.now)) result
        (read (case_body (place_of cx.entry) depth (statement_form (frame_of frame.entry) depth)
        (returned_of returned.old)) (kinds tokens.now)) }
    ensures shorter { IfOk result (λ x. length x.1.now < length tokens.now) }
{
    let (subject, rest) = subject_at(cx, depth, tokens)?;
    let (arms, rest) = arms_at(frame, depth, subject.case, returned, rest)?;
    let (other, rest) = case_end(frame, depth, returned, rest)?;
    let on = subject.on;
    Ok((Stmt::Case { on, arms, other }, rest))
}

/// Statements as long as there are any.
#[cycle(stmt)]
fn statements<'t>(
    frame: Frame<'_>,
    depth: u32,
    in_arm: bool,
    returned: &mut Returned,
    tokens: &'t [Token],
) -> Result<(Vec<Stmt>, &'t [Token]), Fault>
    ensures reads { Gives
        (λ x. (said (returned_of returned.new) (stmts_view x.0.items), kinds x.1.now)) result
        (read (statements_of (statement_form (frame_of frame.entry) depth) in_arm (returned_of returned.old))
        (kinds tokens.now)) }
    ensures shorter { IfOk result (λ x. length x.1.now ≤ length tokens.now) }
{
    let mut body = Vec::new(frame.alloc);
    let mut left = tokens;
    'each: while is_statement(left) {
        let (stmt, rest) = statement(frame, depth, in_arm, returned, left)?;
        body.push(stmt)?;
        left = rest;
    }
    Ok((exact(body), left))
}

/// The statements of a block, from behind its opening brace on.
#[cycle(stmt)]
pub fn block_end<'t>(
    frame: Frame<'_>,
    depth: u32,
    returned: &mut Returned,
    tokens: &'t [Token],
) -> Result<(Vec<Stmt>, &'t [Token]), Fault>
    ensures reads { Gives
        (λ x. (said (returned_of returned.new) (stmts_view x.0.items), kinds x.1.now)) result
        (read (body_form (frame_of frame.entry) depth (returned_of returned.old)) (kinds tokens.now)) }
    ensures shorter { IfOk result (λ x. length x.1.now < length tokens.now) }
{
    let (body, rest) = statements(frame, depth, false, returned, tokens)?;
    let rest = mark_at(Mark::BlockClose, rest)?;
    Ok((body, rest))
}

/// A branch of an `if`, one level deeper: a block's statements, or one statement.
#[cycle(stmt)]
fn branch<'t>(
    frame: Frame<'_>,
    depth: u32,
    in_arm: bool,
    returned: &mut Returned,
    tokens: &'t [Token],
) -> Result<(Vec<Stmt>, &'t [Token]), Fault>
    ensures reads { Gives
        (λ x. (said (returned_of returned.new) (stmts_view x.0.items), kinds x.1.now)) result
        (read (branch_form (frame_of frame.entry) (below (frame_of frame.entry) depth) in_arm
        (returned_of returned.old)) (kinds tokens.now)) }
    ensures shorter { IfOk result (λ x. length x.1.now < length tokens.now) }
{
    if depth == 0 {
        return Err(no_branch(frame, tokens));
    }
    if let Some(behind) = after_mark(Mark::BlockOpen, tokens) {
        return block_end(frame, depth - 1, returned, behind);
    }
    let (stmt, rest) = statement(frame, depth - 1, in_arm, returned, tokens)?;
    let mut body = Vec::new(frame.alloc);
    body.push(stmt)?;
    Ok((exact(body), rest))
}

/// The arms of a `case`.
#[cycle(stmt)]
fn arms_at<'t>(
    frame: Frame<'_>,
    depth: u32,
    case: Case,
    returned: &mut Returned,
    tokens: &'t [Token],
) -> Result<(Arms, &'t [Token]), Fault>
    ensures reads { Gives (λ x. (said (returned_of returned.new) (arms_list x.0.items), kinds x.1.now)) result
        (read (arms_form (statement_form (frame_of frame.entry) depth) case.is_of_states case.place
        (returned_of returned.old)) (kinds tokens.now)) }
    ensures shorter { IfOk result (λ x. length x.1.now ≤ length tokens.now) }
{
    let mut arms = Vec::new(frame.alloc);
    let mut left = tokens;
    'each: while is_label(left) {
        let (labels, rest) = labels_at(frame.alloc, case, left)?;
        let (body, rest) = statements(frame, depth, true, returned, rest)?;
        arms.push((labels, body))?;
        left = rest;
    }
    Ok((exact(arms), left))
}

/// What the `case` does where no arm has the value, and the brace.
#[cycle(stmt)]
fn case_end<'t>(
    frame: Frame<'_>,
    depth: u32,
    returned: &mut Returned,
    tokens: &'t [Token],
) -> Result<(Vec<Stmt>, &'t [Token]), Fault>
    ensures reads { Gives
        (λ x. (said (returned_of returned.new) (stmts_view x.0.items), kinds x.1.now)) result
        (read (case_end (statement_form (frame_of frame.entry) depth) (returned_of returned.old))
        (kinds tokens.now)) }
    ensures shorter { IfOk result (λ x. length x.1.now < length tokens.now) }
{
    if let Some(rest) = after_word(b"else", tokens) {
        let rest = mark_at(Mark::Colon, rest)?;
        return block_end(frame, depth, returned, rest);
    }
    let rest = mark_at(Mark::BlockClose, tokens)?;
    Ok((Vec::new(frame.alloc), rest))
}
