//! What is wanted of an expression.
ghost use Rattle.std.specs.Prelude.{◌≡◌};
ghost use Rattle.ixp_lang_exprs.specs.Types.{same_as, is_expected};
ghost use Rattle.ixp_lang_exprs.specs.Operands.{
  operand_of,
  anything,
  one_type,
  may_become,
  in_vain,
  no_truth,
};
ghost use Rattle.ixp_lang_exprs.specs.Answers.{Refuses};

use crate::context::misfit;
use crate::{Typed, ValueType};
use ixp_lang_tokens::Fault;

/// Which types an expression may have where it stands.
#[derive(Clone, Copy)]
pub enum Expected {
    Anything,
    One(ValueType),
    /// What a `return` gives: of the type that was written or returned before, if one was.
    Value(Option<ValueType>),
    /// What a `case` is about.
    NumberOrState,
}

/// The same, and the place of a misfit: how many tokens are left there.
#[derive(Clone, Copy)]
pub struct Wanted {
    pub expected: Expected,
    pub place: usize,
}

/// Whether it is the type that was written or returned before, if one was.
fn same_as(before: Option<ValueType>, ty: ValueType) -> bool
    ensures { result ≡ same_as before ty }
{
    match before {
        Some(wanted) => wanted.is(ty),
        None => true,
    }
}

impl Expected {
    fn has(self, ty: ValueType) -> bool
        ensures { result ≡ is_expected self ty }
    {
        match self {
            Expected::Anything => true,
            Expected::One(wanted) => ty.is(wanted),
            Expected::Value(before) => ty.is_of_values() && same_as(before, ty),
            Expected::NumberOrState => ty.is(ValueType::Int) || ty.is(ValueType::State),
        }
    }

    /// Whether an expression that begins with this operand may be of such a type.
    fn may_become(self, first: &Typed) -> bool
        ensures { result ≡ may_become self (operand_of first.now) }
    {
        self.has(first.ty)
            || (first.is_open && self.has(ValueType::Int))
            || (first.ty.is_compared() && self.has(ValueType::Bool))
    }
}

impl Wanted {
    /// An expression of any type may stand there.
    pub fn anything() -> Wanted
        ensures { result ≡ anything }
    {
        Wanted {
            expected: Expected::Anything,
            place: 0,
        }
    }

    /// An expression of this type. A misfit is at the place.
    pub fn one(ty: ValueType, place: usize) -> Wanted
        ensures { result ≡ one_type ty place }
    {
        Wanted {
            expected: Expected::One(ty),
            place,
        }
    }

    /// Whether the expression that begins with this operand can be what is wanted.
    pub(crate) fn begins(self, first: &Typed) -> Result<(), Fault>
        ensures { Refuses result (in_vain self (operand_of first.now)) }
    {
        if self.expected.may_become(first) {
            Ok(())
        } else {
            Err(misfit(self.place))
        }
    }

    /// Whether a comparison can.
    pub(crate) fn compares(self) -> Result<(), Fault>
        ensures { Refuses result (no_truth self) }
    {
        if self.expected.has(ValueType::Bool) {
            Ok(())
        } else {
            Err(misfit(self.place))
        }
    }
}
