//! Operators between operands, and joints of chains.
ghost use Rattle.std.specs.Prelude.{◌≡◌, ◌<◌, length, IfSome, IfOk, option_map, []};
ghost use Rattle.ixp_lang_tokens.specs.Reading.{kinds, Gives};
ghost use Rattle.ixp_lang_exprs.specs.Expressions.{operator_in};
ghost use Rattle.ixp_lang_exprs.specs.Lists.{first_in};
ghost use Rattle.ixp_lang_exprs.specs.Joints.{joint_in, joint_mark, other_mark, joined_behind};

use ixp_lang::Op;
use ixp_lang_tokens::{Cause, Fault, Kind, Mark, Token, after_mark};

/// The operator that the token is.
fn operator_of(kind: &Kind) -> Option<Op>
    ensures { result ≡ operator_in kind.now }
{
    match kind {
        Kind::Mark(Mark::Equal) => Some(Op::Eq),
        Kind::Mark(Mark::Unequal) => Some(Op::Ne),
        Kind::Mark(Mark::Less) => Some(Op::Lt),
        Kind::Mark(Mark::LessEqual) => Some(Op::Le),
        Kind::Mark(Mark::Greater) => Some(Op::Gt),
        Kind::Mark(Mark::GreaterEqual) => Some(Op::Ge),
        Kind::Mark(Mark::In) => Some(Op::In),
        Kind::Mark(Mark::NotIn) => Some(Op::NotIn),
        _ => None,
    }
}

/// The operator that is next, if one is, and what follows it.
pub(crate) fn operator_at(tokens: &[Token]) -> Option<(Op, &[Token])>
    ensures reads { option_map (λ x. (x.0, kinds x.1.now)) result ≡ first_in operator_in (kinds tokens.now) }
    ensures shorter { IfSome result (λ x. length x.1.now < length tokens.now) }
{
    let [first, rest @ ..] = tokens else {
        return None;
    };
    let op = operator_of(&first.kind)?;
    Some((op, rest))
}

/// What joins the parts of a chain.
#[derive(Clone, Copy)]
pub(crate) enum Joint {
    And,
    Or,
}

/// The joint that is next, if one is.
pub(crate) fn joint_at(tokens: &[Token]) -> Option<Joint>
    ensures { result ≡ joint_in (kinds tokens.now) }
{
    if after_mark(Mark::And, tokens).is_some() {
        return Some(Joint::And);
    }
    if after_mark(Mark::Or, tokens).is_some() {
        return Some(Joint::Or);
    }
    None
}

impl Joint {
    /// The mark that is the joint.
    pub(crate) fn mark(self) -> Mark
        ensures { result ≡ joint_mark self }
    {
        match self {
            Joint::And => Mark::And,
            Joint::Or => Mark::Or,
        }
    }

    fn other(self) -> Mark
        ensures { result ≡ other_mark self }
    {
        match self {
            Joint::And => Mark::Or,
            Joint::Or => Mark::And,
        }
    }

    /// What follows this joint, if it is next. The other one can't stand here.
    pub(crate) fn after(self, tokens: &[Token]) -> Result<Option<&[Token]>, Fault>
        ensures reads { Gives (λ o. (option_map (λ r. kinds r.now) o, [])) result
            (joined_behind self (kinds tokens.now)) }
        ensures shorter { IfOk result (λ o. IfSome o (λ r. length r.now < length tokens.now)) }
    {
        if after_mark(self.other(), tokens).is_some() {
            return Err(Fault::Stop(Cause::Mixed, tokens.len()));
        }
        Ok(after_mark(self.mark(), tokens))
    }
}
