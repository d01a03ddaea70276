//! Expressions: chains of comparisons of operands.
ghost use Rattle.std.specs.Prelude.{◌≡◌, ◌<◌, ◌≤◌, length, IfOk, OnOk, option_map};
ghost use Rattle.std.specs.Option.{option_or};
ghost use Rattle.ixp_lang.specs.Views.{exprs_view};
ghost use Rattle.ixp_lang_tokens.specs.Grammars.{checks, gives, sequence};
ghost use Rattle.ixp_lang_tokens.specs.Reading.{read, kinds, Gives};
ghost use Rattle.ixp_lang_exprs.specs.declared.types.ValueType.TheVariants.{Bool as Truth};
ghost use Rattle.ixp_lang_exprs.specs.Answers.{Refuses, Makes, Passes};
ghost use Rattle.ixp_lang_exprs.specs.Operands.{
  operand_of,
  refused_now,
  fits_negation,
  negated,
  fits,
  fits_left,
  compared_operand,
  misfit_at,
};
ghost use Rattle.ixp_lang_exprs.specs.Operands.{one_type, no_truth};
ghost use Rattle.ixp_lang_exprs.specs.Groups.{least, limit, place_of, shape_of, parts_of};
ghost use Rattle.ixp_lang_exprs.specs.Joints.{
  joint_mark,
  other_mark,
  joined_by,
  chain_of,
  ended_chain,
  linked,
};
ghost use Rattle.ixp_lang_exprs.specs.Expressions.{
  part_misfit,
  begun_with,
  longer,
  chained,
  part_joint,
  unary_form,
  comparison_of,
};
ghost use Rattle.ixp_lang_exprs.specs.Expressions.{expression_form, enclosed, arguments};

use crate::context::{deep, misfit};
use crate::group::{Group, Shape, no_parts_at, opening_at};
use crate::leaf::atom_at;
use crate::operator::{Joint, joint_at, operator_at};
use crate::parts::Parts;
use crate::tree::made;
use crate::types::{takes_left, takes_right};
use crate::{Context, Expected, Signature, Typed, ValueType, Wanted, fits};
use ixp_lang::{Expr, Op};
use ixp_lang_tokens::{Fault, Mark, Token, after_mark, mark_at};
use std::alloc::Global;

/// Whether the operator at this place takes the operand on its right, or may take a part of it, which is a
/// number.
fn fits_right(op: Op, left: &Typed, right: &Typed, place: usize) -> Result<(), Fault>
    ensures { Refuses result (refused_now op (operand_of left.now) (operand_of right.now) place) }
{
    let may_fit = right.is_open && takes_right(op, left.ty, ValueType::Int);
    if takes_right(op, left.ty, right.ty) || may_fit {
        Ok(())
    } else {
        Err(misfit(place))
    }
}

/// The negation, whose `!` is at this place, before the rest.
fn negated<'t>(
    alloc: Global,
    operand: Typed,
    place: usize,
    rest: &'t [Token],
) -> Result<(Typed, &'t [Token]), Fault>
    ensures reads { Gives (λ x. (operand_of x.0, kinds x.1.now)) result
        (read (checks (fits_negation (operand_of operand) place) (gives (negated (operand_of operand))))
        (kinds rest.now)) }
    ensures shorter { IfOk result (λ x. length x.1.now ≤ length rest.now) }
{
    if !operand.ty.is(ValueType::Bool) {
        return Err(misfit(place));
    }
    let expr = Expr::Not(Box::new(alloc, operand.expr)?);
    Ok((Typed::closed(expr, ValueType::Bool), rest))
}

/// Whether the operator at this place takes the operand on its left.
fn fits_left(op: Op, left: &Typed, place: usize) -> Result<(), Fault>
    ensures { Refuses result (fits_left op (operand_of left.now) place) }
{
    if takes_left(op, left.ty) {
        Ok(())
    } else {
        Err(misfit(place))
    }
}

/// The same of the operator that has been read, and whether a comparison is wanted.
fn fits_wanted(wanted: Wanted, op: Op, left: &Typed, place: usize) -> Result<(), Fault>
    ensures { Refuses result (option_or (fits_left op (operand_of left.now) place) (no_truth wanted)) }
{
    fits_left(op, left, place)?;
    wanted.compares()
}

/// The comparison, whose operator is at this place, before the rest.
fn compared_operand<'t>(
    alloc: Global,
    op: Op,
    left: Typed,
    right: Typed,
    at: (usize, &'t [Token]),
) -> Result<(Typed, &'t [Token]), Fault>
    ensures reads { Gives (λ x. (operand_of x.0, kinds x.1.now)) result
        (read (checks (refused_now op (operand_of left) (operand_of right) at.entry.0)
        (gives (compared_operand op (operand_of left) (operand_of right) at.entry.0)))
        (kinds at.entry.1.now)) }
    ensures shorter { IfOk result (λ x. length x.1.now ≤ length at.entry.1.now) }
{
    fits_right(op, &left, &right, at.0)?;
    let misfit = if takes_right(op, left.ty, right.ty) {
        None
    } else {
        Some(at.0)
    };
    let left = Box::new(alloc, left.expr)?;
    let right = Box::new(alloc, right.expr)?;
    let typed = Typed {
        expr: Expr::Cmp { op, left, right },
        ty: ValueType::Bool,
        is_open: false,
        misfit,
    };
    Ok((typed, at.1))
}

/// A chain as far as it is read.
#[derive(Drop)]
struct Chain {
    joint: Joint,
    parts: Vec<Expr>,
    /// How many tokens are left at the joint before the next part.
    place: usize,
    /// The last part's misfit, which waits for the next token.
    misfit: Option<usize>,
}

/// The place of a part's misfit: where one waited, or the joint before it.
fn misfit_of(part: &Typed, place: usize) -> Option<usize>
    ensures { result ≡ part_misfit (operand_of part.now) place }
{
    if part.misfit.is_some() {
        return part.misfit;
    }
    if part.ty.is(ValueType::Bool) {
        None
    } else {
        Some(place)
    }
}

impl Chain {
    /// What is wanted of the next part.
    fn wanted(&self) -> Wanted
        ensures { result ≡ one_type Truth (chain_of self.now).place }
    {
        Wanted::one(ValueType::Bool, self.place)
    }

    /// The chain that begins with this part. The joint is at this place.
    fn begun(alloc: Global, joint: Joint, first: Typed, place: usize) -> Result<Chain, Fault>
        ensures exact { Passes chain_of result (fits (operand_of first) Truth place)
            (begun_with (operand_of first) place) }
        ensures joint { IfOk result (λ c. c.joint ≡ joint) }
    {
        fits(&first, ValueType::Bool, place)?;
        let mut parts = Vec::new(alloc);
        parts.push(first.expr)?;
        Ok(Chain {
            joint,
            parts,
            place,
            misfit: None,
        })
    }

    /// Adds a part that isn't the last one: the joint behind it is at this place.
    fn push(&mut self, part: Typed, place: usize) -> Result<(), Fault>
        ensures exact { Passes (λ x. chain_of self.new) result
            (option_map misfit_at (part_misfit (operand_of part) self.old.place))
            (longer (chain_of self.old) (operand_of part) place) }
        ensures joint { self.new.joint ≡ self.old.joint }
    {
        if let Some(place) = misfit_of(&part, self.place) {
            return Err(misfit(place));
        }
        self.place = place;
        self.parts.push(part.expr)?;
        Ok(())
    }

    /// Adds the last part.
    fn end(&mut self, part: Typed) -> Result<(), Fault>
        ensures exact { Makes (λ x. ended_chain self.new) result
            (chained (joined_by self.old.joint) (chain_of self.old) (operand_of part)) }
        ensures joint { self.new.joint ≡ self.old.joint }
    {
        self.misfit = misfit_of(&part, self.place);
        self.parts.push(part.expr)?;
        Ok(())
    }

    /// Adds the part before these tokens. Gives whether it is the last one, and what follows it or the joint
    /// behind it.
    fn link<'t>(&mut self, part: Typed, tokens: &'t [Token]) -> Result<(bool, &'t [Token]), Fault>
        ensures reads { Gives (λ x. (linked x.0 self.new, kinds x.1.now)) result
            (read (part_joint (joint_mark self.old.joint) (other_mark self.old.joint)
            (joined_by self.old.joint) (chain_of self.old) (operand_of part)) (kinds tokens.now)) }
        ensures joint { self.new.joint ≡ self.old.joint }
        ensures shorter { IfOk result (λ x. length x.1.now ≤ length tokens.now) }
    {
        match self.joint.after(tokens)? {
            Some(next) => {
                self.push(part, tokens.len())?;
                Ok((false, next))
            }
            None => {
                self.end(part)?;
                Ok((true, tokens))
            }
        }
    }

    fn ended(self) -> Typed
        ensures { operand_of result ≡ ended_chain self }
    {
        let Chain {
            joint,
            mut parts,
            misfit,
            ..
        } = self;
        parts.shrink_to_fit();
        let expr = match joint {
            Joint::And => Expr::And(parts),
            Joint::Or => Expr::Or(parts),
        };
        Typed {
            expr,
            ty: ValueType::Bool,
            is_open: false,
            misfit,
        }
    }
}

/// An operand: a negation, what begins with a parenthesis, or what has none. What is wanted is an expression
/// that begins with it.
#[cycle(expr)]
fn unary<'t>(
    cx: Context<'_>,
    depth: u32,
    wanted: Wanted,
    tokens: &'t [Token],
) -> Result<(Typed, &'t [Token]), Fault>
    ensures reads { Gives (λ x. (operand_of x.0, kinds x.1.now)) result
        (read (unary_form (place_of cx.entry) depth wanted) (kinds tokens.now)) }
    ensures shorter { IfOk result (λ x. length x.1.now < length tokens.now) }
{
    if let Some(behind) = after_mark(Mark::Not, tokens) {
        if depth == 0 {
            return Err(deep(tokens));
        }
        let any = Wanted {
            expected: Expected::Anything,
            place: 0,
        };
        let (operand, rest) = unary(cx, depth - 1, any, behind)?;
        return negated(cx.alloc, operand, tokens.len(), rest);
    }
    match opening_at(cx, depth, tokens)? {
        Some(opened) => {
            let shape = opened.opening.shape();
            let place = opened.place;
            let (parts, rest) = parts_at(cx, depth - 1, Group { shape, place }, opened.behind)?;
            let typed = made(cx.alloc, opened.opening, parts)?;
            Ok((typed, rest))
        }
        None => atom_at(cx, depth, wanted, tokens),
    }
}

/// An operand, or a comparison of two.
#[cycle(expr)]
fn comparison<'t>(
    cx: Context<'_>,
    depth: u32,
    wanted: Wanted,
    tokens: &'t [Token],
) -> Result<(Typed, &'t [Token]), Fault>
    ensures reads { Gives (λ x. (operand_of x.0, kinds x.1.now)) result
        (read (comparison_of (unary_form (place_of cx.entry) depth) wanted) (kinds tokens.now)) }
    ensures shorter { IfOk result (λ x. length x.1.now < length tokens.now) }
{
    let (left, rest) = unary(cx, depth, wanted, tokens)?;
    wanted.begins(&left)?;
    let Some((op, behind)) = operator_at(rest) else {
        return Ok((left, rest));
    };
    fits_wanted(wanted, op, &left, rest.len())?;
    let any = Wanted {
        expected: Expected::Anything,
        place: 0,
    };
    let (right, end) = unary(cx, depth, any, behind)?;
    compared_operand(cx.alloc, op, left, right, (rest.len(), end))
}

/// The expression at the front, with so many levels below it at most. It is refused as soon as it can't be
/// what is wanted, whatever is behind. What may stand behind it is the caller's to test, and then whether it
/// fits.
#[cycle(expr)]
pub fn expression<'t>(
    cx: Context<'_>,
    depth: u32,
    wanted: Wanted,
    tokens: &'t [Token],
) -> Result<(Typed, &'t [Token]), Fault>
    ensures reads { Gives (λ x. (operand_of x.0, kinds x.1.now)) result
        (read (expression_form (place_of cx.entry) depth wanted) (kinds tokens.now)) }
    ensures shorter { IfOk result (λ x. length x.1.now < length tokens.now) }
{
    let (first, rest) = comparison(cx, depth, wanted, tokens)?;
    let Some(joint) = joint_at(rest) else {
        return Ok((first, rest));
    };
    let mut left = mark_at(joint.mark(), rest)?;
    let mut chain = Chain::begun(cx.alloc, joint, first, rest.len())?;
    'parts: loop {
        let (part, after) = comparison(cx, depth, chain.wanted(), left)?;
        let (is_last, next) = chain.link(part, after)?;
        if is_last {
            return Ok((chain.ended(), next));
        }
        left = next;
    }
}

/// The parts of the group, from behind its parenthesis to its end.
#[cycle(expr)]
fn parts_at<'t>(
    cx: Context<'_>,
    depth: u32,
    group: Group<'_>,
    tokens: &'t [Token],
) -> Result<(Parts, &'t [Token]), Fault>
    ensures reads { Gives (λ x. (parts_of x.0, kinds x.1.now)) result
        (read (enclosed (place_of cx.entry) (expression_form (place_of cx.entry) depth)
        (shape_of group.entry.shape) group.entry.place) (kinds tokens.now)) }
    ensures enough { IfOk result (λ x. least group.entry.shape ≤ length x.0.exprs.items) }
    ensures room { IfOk result
        (λ x. length x.0.exprs.items < limit group.entry.shape (length x.0.exprs.items)) }
    ensures shorter { IfOk result (λ x. length x.1.now < length tokens.now) }
{
    let mut parts = Parts::new(cx.alloc, tokens.len());
    if let Some(rest) = no_parts_at(cx, group, tokens)? {
        return Ok((parts, rest));
    }
    let mut left = tokens;
    'parts: loop {
        let (part, after) = expression(cx, depth, parts.wanted(group), left)?;
        let (is_last, next) = parts.add(group, part, left.len(), after)?;
        if is_last {
            return Ok((parts, next));
        }
        left = next;
    }
}

/// The arguments of a call, from behind its parenthesis to its end. A fault of their number or types is at
/// the place.
pub fn arguments<'t>(
    cx: Context<'_>,
    depth: u32,
    signature: &Signature,
    place: usize,
    tokens: &'t [Token],
) -> Result<(Vec<Expr>, &'t [Token]), Fault>
    ensures reads { Gives (λ x. (exprs_view x.0.items, kinds x.1.now)) result
        (read (sequence (enclosed (place_of cx.entry) (expression_form (place_of cx.entry) depth)
        (arguments signature.now.params) place) (λ parts. gives parts.trees))
        (kinds tokens.now)) }
    ensures shorter { IfOk result (λ x. length x.1.now < length tokens.now) }
{
    let shape = Shape::Call(signature);
    let (parts, rest) = parts_at(cx, depth, Group { shape, place }, tokens)?;
    Ok((parts.exprs, rest))
}
