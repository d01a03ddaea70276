//! Types, and expressions with theirs.
ghost use Rattle.std.specs.Prelude.{◌≡◌};
ghost use Rattle.ixp_lang.specs.Views.{expr_view};
ghost use Rattle.ixp_lang_exprs.specs.Types.{
  type_rank,
  same_type,
  type_of,
  attribute_type,
  is_comparable,
  is_sought,
};
ghost use Rattle.ixp_lang_exprs.specs.Types.{is_of_values, holds, takes_left, takes_right, is_compared};
ghost use Rattle.ixp_lang_exprs.specs.Answers.{Refuses};
ghost use Rattle.ixp_lang_exprs.specs.Operands.{operand_of, closed, settled, fits};

use ixp_lang::{Attr, Expr, Op, Ty};
use ixp_lang_tokens::{Cause, Fault};

/// The type of an expression.
#[derive(Clone, Copy, PartialEq, Eq)]
pub enum ValueType {
    Int,
    Bool,
    Ip,
    Prefix,
    Pair,
    Triple,
    /// What the ROAs say of a route.
    State,
    IntSet,
    IpSet,
    PrefixSet,
    PairSet,
    TripleSet,
    /// `bgp_path` by itself: an operand of `~` and `!~` alone.
    Path,
    /// `bgp_community` by itself, likewise.
    Pairs,
    /// `bgp_large_community` by itself, likewise.
    Triples,
}

/// An expression that was read.
#[derive(Drop)]
pub struct Typed {
    pub expr: Expr,
    pub ty: ValueType,
    /// Whether a `.` behind it would make it another operand.
    pub is_open: bool,
    /// The place of a misfit that counts once the next token is one that may stand there.
    pub misfit: Option<usize>,
}

impl Typed {
    /// An expression that no token behind it changes.
    pub(crate) fn closed(expr: Expr, ty: ValueType) -> Typed
        ensures { operand_of result ≡ closed (expr_view expr) ty }
    {
        Typed {
            expr,
            ty,
            is_open: false,
            misfit: None,
        }
    }
}

/// The type that is written so.
pub fn type_of(ty: Ty) -> ValueType
    ensures { result ≡ type_of ty }
{
    match ty {
        Ty::Int => ValueType::Int,
        Ty::Bool => ValueType::Bool,
        Ty::Ip => ValueType::Ip,
        Ty::Prefix => ValueType::Prefix,
        Ty::Pair => ValueType::Pair,
        Ty::Lc => ValueType::Triple,
        Ty::IntSet => ValueType::IntSet,
        Ty::IpSet => ValueType::IpSet,
        Ty::PrefixSet => ValueType::PrefixSet,
        Ty::PairSet => ValueType::PairSet,
        Ty::LcSet => ValueType::TripleSet,
    }
}

/// The type of an attribute.
pub(crate) fn attribute_type(attr: Attr) -> ValueType
    ensures { result ≡ attribute_type attr }
{
    match attr {
        Attr::Net => ValueType::Prefix,
        Attr::From | Attr::NextHop => ValueType::Ip,
        Attr::NetLen | Attr::First | Attr::Last | Attr::Len => ValueType::Int,
        Attr::PairsLen | Attr::TriplesLen => ValueType::Int,
        Attr::Path => ValueType::Path,
        Attr::Pairs => ValueType::Pairs,
        Attr::Triples => ValueType::Triples,
    }
}

impl ValueType {
    /// Types are told apart by number.
    fn rank(self) -> u8
        ensures { result ≡ type_rank self }
    {
        match self {
            ValueType::Int => 0,
            ValueType::Bool => 1,
            ValueType::Ip => 2,
            ValueType::Prefix => 3,
            ValueType::Pair => 4,
            ValueType::Triple => 5,
            ValueType::State => 6,
            ValueType::IntSet => 7,
            ValueType::IpSet => 8,
            ValueType::PrefixSet => 9,
            ValueType::PairSet => 10,
            ValueType::TripleSet => 11,
            ValueType::Path => 12,
            ValueType::Pairs => 13,
            ValueType::Triples => 14,
        }
    }

    /// Whether both are one type.
    pub fn is(self, other: ValueType) -> bool
        ensures { result ≡ same_type self other }
    {
        self.rank() == other.rank()
    }

    /// Whether `=` and `!=` compare two of this type.
    fn is_comparable(self) -> bool
        ensures { result ≡ is_comparable self }
    {
        match self {
            ValueType::Int | ValueType::Bool | ValueType::Ip | ValueType::Prefix => true,
            ValueType::Pair | ValueType::Triple | ValueType::State => true,
            _ => false,
        }
    }

    /// Whether something can have one of this type as a member, or one of its members.
    fn is_sought(self) -> bool
        ensures { result ≡ is_sought self }
    {
        match self {
            ValueType::Int
            | ValueType::Ip
            | ValueType::Prefix
            | ValueType::Pair
            | ValueType::Triple => true,
            ValueType::Path | ValueType::Pairs | ValueType::Triples => true,
            _ => false,
        }
    }

    /// Whether some operator takes one of this type on its left.
    pub(crate) fn is_compared(self) -> bool
        ensures { result ≡ is_compared self }
    {
        self.is_comparable() || self.is_sought()
    }

    /// Whether it is the type of values, and not of an attribute that stands at `~` and `!~` alone.
    pub fn is_of_values(self) -> bool
        ensures { result ≡ is_of_values self }
    {
        match self {
            ValueType::Path | ValueType::Pairs | ValueType::Triples => false,
            _ => true,
        }
    }

    /// Whether one of the type on the left may be sought in one of this type.
    fn holds(self, left: ValueType) -> bool
        ensures { result ≡ holds self left }
    {
        match self {
            ValueType::IntSet => left.is(ValueType::Int) || left.is(ValueType::Path),
            ValueType::IpSet => left.is(ValueType::Ip),
            ValueType::PrefixSet => left.is(ValueType::Prefix),
            ValueType::PairSet => left.is(ValueType::Pair) || left.is(ValueType::Pairs),
            ValueType::TripleSet => left.is(ValueType::Triple) || left.is(ValueType::Triples),
            ValueType::Path => left.is(ValueType::Int),
            ValueType::Pairs => left.is(ValueType::Pair),
            ValueType::Triples => left.is(ValueType::Triple),
            _ => false,
        }
    }
}

/// Whether the operator takes one of this type on its left.
pub(crate) fn takes_left(op: Op, left: ValueType) -> bool
    ensures { result ≡ takes_left op left }
{
    match op {
        Op::Eq | Op::Ne => left.is_comparable(),
        Op::Lt | Op::Le | Op::Gt | Op::Ge => left.is(ValueType::Int),
        Op::In | Op::NotIn => left.is_sought(),
    }
}

/// Whether the operator, which takes the left type, takes the two types.
pub(crate) fn takes_right(op: Op, left: ValueType, right: ValueType) -> bool
    ensures { result ≡ takes_right op left right }
{
    match op {
        Op::Eq | Op::Ne => left.is(right),
        Op::Lt | Op::Le | Op::Gt | Op::Ge => right.is(ValueType::Int),
        Op::In | Op::NotIn => right.holds(left),
    }
}

/// The misfit that waited, if one did, now that the next token is one that may stand there.
pub fn settled(typed: &Typed) -> Result<(), Fault>
    ensures { Refuses result (settled (operand_of typed.now)) }
{
    match typed.misfit {
        Some(place) => Err(Fault::Stop(Cause::Misfit, place)),
        None => Ok(()),
    }
}

/// Whether the expression, behind which such a token stands as may, has the type that is wanted. Else the
/// misfit is at the place, or where one waited.
pub fn fits(typed: &Typed, wanted: ValueType, place: usize) -> Result<(), Fault>
    ensures { Refuses result (fits (operand_of typed.now) wanted place) }
{
    settled(typed)?;
    if typed.ty.is(wanted) {
        Ok(())
    } else {
        Err(Fault::Stop(Cause::Misfit, place))
    }
}
