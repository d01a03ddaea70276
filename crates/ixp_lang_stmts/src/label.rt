//! The labels of a `case`.
ghost use Rattle.std.specs.Prelude.{◌≡◌, ◌<◌, ◌≤◌, true, length, IfOk};
ghost use Rattle.ixp_lang_tokens.specs.Reading.{read, kinds, Gives, begins};
ghost use Rattle.ixp_lang_stmts.specs.Statements.{label_form, labels_form, no_case};
ghost use Rattle.ixp_lang_stmts.specs.Views.{range_end, case_for};
ghost use Rattle.ixp_lang_exprs.specs.Answers.{Passes};
ghost use Rattle.ixp_lang_exprs.specs.Groups.{closing};
ghost use Rattle.ixp_lang_exprs.specs.Lists.{list_round, listed};

use crate::body::misfit;
use ixp_lang::Label;
use ixp_lang_exprs::{ValueType, state_of};
use ixp_lang_tokens::{Fault, Kind, Mark, Token, after_mark, mark_at, number_at, unexpected};
use ixp_num::Items;
use std::alloc::Global;

/// What a `case` is about, and where it stands.
#[derive(Clone, Copy)]
pub(crate) struct Case {
    /// Whether its labels are ROA states, and not numbers.
    pub is_of_states: bool,
    pub place: usize,
}

impl Case {
    /// A `case` at this place about a value of this type.
    pub(crate) fn of(ty: ValueType, place: usize) -> Result<Case, Fault>
        ensures { Passes (λ case. case) result (no_case ty place) (case_for ty place) }
    {
        match ty {
            ValueType::Int => Ok(Case {
                is_of_states: false,
                place,
            }),
            ValueType::State => Ok(Case {
                is_of_states: true,
                place,
            }),
            _ => Err(misfit(place)),
        }
    }
}

/// Whether a label is next.
pub(crate) fn is_label(tokens: &[Token]) -> bool
    ensures { result ≡ begins (label_form true 0) (kinds tokens.now) }
{
    let [first, ..] = tokens else {
        return false;
    };
    match &first.kind {
        Kind::Number(_) => true,
        Kind::Word(word) => state_of(word.as_bytes()).is_some(),
        _ => false,
    }
}

/// The end of a label that begins with this number.
fn range_at(low: u32, tokens: &[Token]) -> Result<(Label, &[Token]), Fault>
    ensures reads { Gives (λ x. (x.0, kinds x.1.now)) result (read (range_end low) (kinds tokens.now)) }
    ensures shorter { IfOk result (λ x. length x.1.now ≤ length tokens.now) }
{
    let Some(rest) = after_mark(Mark::Range, tokens) else {
        return Ok((Label::Range(low, low), tokens));
    };
    let (high, rest) = number_at(rest)?;
    Ok((Label::Range(low, high), rest))
}

/// One label of the case.
fn label_at(case: Case, tokens: &[Token]) -> Result<(Label, &[Token]), Fault>
    ensures reads { Gives (λ x. (x.0, kinds x.1.now)) result
        (read (label_form case.is_of_states case.place) (kinds tokens.now)) }
    ensures shorter { IfOk result (λ x. length x.1.now < length tokens.now) }
{
    let [first, rest @ ..] = tokens else {
        return Err(unexpected(tokens));
    };
    match &first.kind {
        Kind::Number(number) => {
            if case.is_of_states {
                return Err(misfit(case.place));
            }
            range_at(*number, rest)
        }
        Kind::Word(word) => match state_of(word.as_bytes()) {
            Some(state) if case.is_of_states => Ok((Label::State(state), rest)),
            Some(_) => Err(misfit(case.place)),
            None => Err(unexpected(tokens)),
        },
        _ => Err(unexpected(tokens)),
    }
}

/// Adds the label that is next. Gives whether it is the last one, and what follows.
fn label_round<'t>(
    case: Case,
    labels: &mut Items<Label>,
    tokens: &'t [Token],
) -> Result<(bool, &'t [Token]), Fault>
    ensures reads { Gives (λ x. (closing x.0 labels.new, kinds x.1.now)) result
        (read (list_round (λ before. label_form case.is_of_states case.place) labels.old)
        (kinds tokens.now)) }
    ensures shorter { IfOk result (λ x. length x.1.now < length tokens.now) }
{
    let (label, rest) = label_at(case, tokens)?;
    labels.push(label)?;
    match after_mark(Mark::Comma, rest) {
        Some(next) => Ok((false, next)),
        None => Ok((true, rest)),
    }
}

/// Labels, with commas between.
fn labels_in(alloc: Global, case: Case, tokens: &[Token]) -> Result<(Items<Label>, &[Token]), Fault>
    ensures reads { Gives (λ x. (x.0, kinds x.1.now)) result
        (read (listed (λ before. label_form case.is_of_states case.place)) (kinds tokens.now)) }
    ensures shorter { IfOk result (λ x. length x.1.now < length tokens.now) }
{
    let mut labels = Items::new(alloc);
    let mut left = tokens;
    'each: loop {
        let (is_last, rest) = label_round(case, &mut labels, left)?;
        if is_last {
            return Ok((labels, rest));
        }
        left = rest;
    }
}

/// The labels of an arm, and their colon.
pub(crate) fn labels_at(
    alloc: Global,
    case: Case,
    tokens: &[Token],
) -> Result<(Items<Label>, &[Token]), Fault>
    ensures reads { Gives (λ x. (x.0, kinds x.1.now)) result
        (read (labels_form case.is_of_states case.place) (kinds tokens.now)) }
    ensures shorter { IfOk result (λ x. length x.1.now < length tokens.now) }
{
    let (labels, rest) = labels_in(alloc, case, tokens)?;
    let rest = mark_at(Mark::Colon, rest)?;
    Ok((labels, rest))
}
