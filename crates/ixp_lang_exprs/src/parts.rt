//! The parts of what stands in parentheses.
ghost use Rattle.std.specs.Prelude.{◌≡◌, ◌<◌, ◌≤◌, ◌+◌, length, IfOk, OnOk, IsTrue, IsFalse, IfSome, []};
ghost use Rattle.ixp_lang.specs.Views.{expr_view};
ghost use Rattle.ixp_lang_tokens.specs.Grammars.{takes};
ghost use Rattle.ixp_lang_tokens.specs.Reading.{read, kinds, Gives};
ghost use Rattle.ixp_lang_exprs.specs.Answers.{Refuses, Makes};
ghost use Rattle.ixp_lang_exprs.specs.Sets.{unless_so};
ghost use Rattle.ixp_lang_exprs.specs.Operands.{operand_of, literal_number, misfit_at};
ghost use Rattle.ixp_lang_exprs.specs.Groups.{least, limit, shape_of, parts_of};
ghost use Rattle.ixp_lang_exprs.specs.Expressions.{
  part_end_in,
  fits_argument,
  fits_pair,
  fits_plain,
  fits_next,
  no_parts,
};
ghost use Rattle.ixp_lang_exprs.specs.Expressions.{with_part, ends_with, wanted_part, part_ending};

use crate::context::misfit;
use crate::elements::small_part;
use crate::group::{Group, Shape, from_index};
use crate::types::settled;
use crate::{Typed, ValueType, Wanted, fits};
use ixp_lang::{Expr, Value};
use ixp_lang_tokens::{Fault, Mark, Token, is_mark, unexpected};
use std::alloc::Global;

/// Expressions in parentheses.
#[derive(Drop)]
pub(crate) struct Parts {
    pub exprs: Vec<Expr>,
    /// How many tokens were left at the first part.
    pub first: usize,
    /// The last part's type.
    pub ty: ValueType,
}

/// The number that the expression is, if it is a literal.
pub(crate) fn literal_number(expr: &Expr) -> Option<u32>
    ensures { result ≡ literal_number (expr_view expr.now) }
{
    match expr {
        Expr::Lit(Value::Int(number)) => Some(*number),
        _ => None,
    }
}

/// A literal part of a pair must be small enough.
fn fits_pair(part: &Expr, place: usize) -> Result<(), Fault>
    ensures { Refuses result (fits_pair (expr_view part.now) place) }
{
    small_part(literal_number(part), place)
}

/// Whether the token behind the part of this index ends the parenthesis, if it may stand there.
fn part_end_of(group: Group<'_>, index: usize, token: &Token) -> Option<bool>
    ensures exact { result ≡ part_end_in (shape_of group.entry.shape) index token.now.kind }
    ensures enough { IfSome result (λ x. IsTrue x → least group.entry.shape ≤ index + 1) }
    ensures room { IfSome result (λ x. IsFalse x → index + 2 < limit group.entry.shape (index + 1)) }
{
    if group.may_go_on(index) && is_mark(Mark::Comma, token) {
        return Some(false);
    }
    if group.may_end(index) && is_mark(Mark::Close, token) {
        return Some(true);
    }
    None
}

/// The end of a part: whether the parenthesis is closed, and what follows.
fn part_end<'t>(
    group: Group<'_>,
    index: usize,
    tokens: &'t [Token],
) -> Result<(bool, &'t [Token]), Fault>
    ensures reads { Gives (λ x. (x.0, kinds x.1.now)) result
        (read (takes (part_end_in (shape_of group.entry.shape) index)) (kinds tokens.now)) }
    ensures enough { IfOk result (λ x. IsTrue x.0 → least group.entry.shape ≤ index + 1) }
    ensures room { IfOk result (λ x. IsFalse x.0 → index + 2 < limit group.entry.shape (index + 1)) }
    ensures shorter { IfOk result (λ x. length x.1.now < length tokens.now) }
{
    let [first, rest @ ..] = tokens else {
        return Err(unexpected(tokens));
    };
    match part_end_of(group, index, first) {
        Some(is_last) => Ok((is_last, rest)),
        None => Err(unexpected(tokens)),
    }
}

/// A misfit at the place, unless it is so.
fn holds_there(is_so: bool, place: usize) -> Result<(), Fault>
    ensures { Refuses result (unless_so is_so (misfit_at place)) }
{
    if is_so { Ok(()) } else { Err(misfit(place)) }
}

/// Whether the argument has the type of the first of these parameters, and whether it is the last one where
/// that one is.
fn fits_first(params: &[ValueType], is_last: bool, part: &Typed, place: usize) -> Result<(), Fault>
    ensures { Refuses result (fits_argument params.now 0 is_last (operand_of part.now) place) }
{
    match params {
        [] => Err(misfit(place)),
        [wanted] => {
            fits(part, *wanted, place)?;
            holds_there(is_last, place)
        }
        [wanted, ..] => {
            fits(part, *wanted, place)?;
            holds_there(!is_last, place)
        }
    }
}

/// The same of the parameter of this index.
#[tactic(auto, using(crate::proofs::Params::drop_params))]
fn fits_argument(
    params: &[ValueType],
    index: usize,
    is_last: bool,
    part: &Typed,
    place: usize,
) -> Result<(), Fault>
    ensures { Refuses result (fits_argument params.now index is_last (operand_of part.now) place) }
{
    fits_first(from_index(params, index), is_last, part, place)
}

impl Parts {
    /// What is wanted of the next part.
    pub(crate) fn wanted(&self, group: Group<'_>) -> Wanted
        ensures { result ≡ wanted_part (shape_of group.entry.shape)
            (length (parts_of self.now).trees) group.entry.place }
    {
        group.wanted(self.exprs.len())
    }

    pub(crate) fn new(alloc: Global, first: usize) -> Parts
        ensures exact { parts_of result ≡ no_parts first }
        ensures none { result.exprs.items ≡ [] }
    {
        Parts {
            exprs: Vec::new(alloc),
            first,
            ty: ValueType::Bool,
        }
    }

    /// Whether the next part fits, of one expression in parentheses or a tuple. It begins where so many
    /// tokens are left; misfits are at the place.
    fn fits_plain(
        &self,
        is_last: bool,
        part: &Typed,
        left: usize,
        place: usize,
    ) -> Result<(), Fault>
        ensures { Refuses result
            (fits_plain (parts_of self.now).trees self.now.first is_last (operand_of part.now) left place) }
    {
        match self.exprs.as_slice() {
            [] if is_last => settled(part),
            [first] if is_last => {
                fits_pair(first, self.first)?;
                fits_pair(&part.expr, left)?;
                fits(part, ValueType::Int, place)
            }
            _ => fits(part, ValueType::Int, place),
        }
    }

    /// Whether the next part, which begins where so many tokens are left, fits the group.
    fn fits_next(
        &self,
        group: Group<'_>,
        is_last: bool,
        part: &Typed,
        left: usize,
    ) -> Result<(), Fault>
        ensures { Refuses result
            (fits_next (shape_of group.entry.shape) (parts_of self.now) is_last
            (operand_of part.now) left group.entry.place) }
    {
        let index = self.exprs.len();
        match group.shape {
            Shape::Call(signature) => {
                let params = signature.params.as_slice();
                fits_argument(params, index, is_last, part, group.place)
            }
            Shape::RoaCheck if index == 0 => fits(part, ValueType::Prefix, group.place),
            Shape::RoaCheck => fits(part, ValueType::Int, group.place),
            Shape::Plain => self.fits_plain(is_last, part, left, group.place),
        }
    }

    fn push(&mut self, part: Typed) -> Result<(), Fault>
        ensures exact { Makes (λ x. parts_of self.new) result
            (with_part (parts_of self.old) (operand_of part)) }
        ensures longer { OnOk result (length self.new.exprs.items ≡ length self.old.exprs.items + 1) }
    {
        self.ty = part.ty;
        self.exprs.push(part.expr)?;
        Ok(())
    }

    /// Adds a part, which begins where so many tokens are left. Gives whether it is the last one, and what
    /// follows.
    pub(crate) fn add<'t>(
        &mut self,
        group: Group<'_>,
        part: Typed,
        left: usize,
        tokens: &'t [Token],
    ) -> Result<(bool, &'t [Token]), Fault>
        ensures reads { Gives (λ x. (ends_with x.0 (parts_of self.new), kinds x.1.now)) result
            (read (part_ending (shape_of group.entry.shape) group.entry.place left (parts_of self.old)
            (operand_of part)) (kinds tokens.now)) }
        ensures enough { IfOk result
            (λ x. IsTrue x.0 → least group.entry.shape ≤ length self.new.exprs.items) }
        ensures room { IfOk result
            (λ x. IsFalse x.0 → length self.new.exprs.items + 1
            < limit group.entry.shape (length self.new.exprs.items)) }
        ensures longer { IfOk result (λ _. length self.new.exprs.items ≡ length self.old.exprs.items + 1) }
        ensures shorter { IfOk result (λ x. length x.1.now < length tokens.now) }
    {
        let (is_last, rest) = part_end(group, self.exprs.len(), tokens)?;
        self.fits_next(group, is_last, &part, left)?;
        self.push(part)?;
        Ok((is_last, rest))
    }
}
