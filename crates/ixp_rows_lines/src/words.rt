//! Fields that are one of a few words.
ghost use Rattle.std.specs.Prelude.{◌≡◌, ℕ, List, map};
ghost use Rattle.ixp_rows_lines.specs.Fields.{Piece, OneOf, Word, Number};
ghost use Rattle.ixp_rows_lines.specs.Lines.{action_word, owner_word, actions};
ghost use Rattle.ixp_registry.specs.Widths.{owner_number};
ghost use Rattle.ixp_rows_lines.specs.Reading.{Gives, value_of, piece_at, owner_kind_word, owner_at};

use crate::fault::Unread;
use crate::fields::field_of;
use crate::numbers::number_of;
use ixp_num::Family;
use ixp_registry::{Action, Owner, Status, Way};

/// Values of which a line says each by one word.
pub(crate) trait Worded: Copy + 'static {
    ghost word_of: { Self → List ℕ };

    /// The field that is one of the words.
    ghost piece: { Piece };

    /// All of the values.
    fn all() -> &'static [Self]
        ensures { OneOf (map word_of result.now) ≡ piece };

    /// The word of the value.
    fn word(self) -> &'static [u8]
        ensures { result.now ≡ word_of self };
}

/// The value among these whose word the field is.
#[tactic(auto, unfolding(crate::specs::Reading::value_of))]
fn value_among<W: Worded>(values: &[W], field: &[u8]) -> Result<W, Unread>
    ensures { Gives (λ x. Word (W.word_of x)) result (value_of (OneOf (map W.word_of values.now)) field.now) }
{
    let mut left = values;
    'each: while let Some((value, others)) = left.split_first() {
        if field == value.word() {
            return Ok(*value);
        }
        left = others;
    }
    Err(Unread::Bad)
}

fn value_in<W: Worded>(field: &[u8]) -> Result<W, Unread>
    ensures { Gives (λ x. Word (W.word_of x)) result (value_of W.piece field.now) }
{
    value_among(W::all(), field)
}

/// One of the values, by its word.
pub(crate) fn by_word<W: Worded>(rest: &[u8]) -> Result<(W, &[u8]), Unread>
    ensures { Gives (λ x. (Word (W.word_of x.0), x.1.now)) result (piece_at W.piece rest.now) }
{
    let (field, rest) = field_of(rest)?;
    Ok((value_in(field)?, rest))
}

/// `0` or `1`.
impl Worded for bool {
    ghost use Rattle.ixp_rows_lines.specs.Lines.{flag_word, flags};

    ghost word_of = { flag_word };

    ghost piece = { flags };

    fn all() -> &'static [bool] {
        &[false, true]
    }

    fn word(self) -> &'static [u8] {
        if self { b"1" } else { b"0" }
    }
}

/// `4` or `6`.
impl Worded for Family {
    ghost use Rattle.ixp_rows_lines.specs.Lines.{family_word, families};

    ghost word_of = { family_word };

    ghost piece = { families };

    fn all() -> &'static [Family] {
        &[Family::V4, Family::V6]
    }

    fn word(self) -> &'static [u8] {
        match self {
            Family::V4 => b"4",
            Family::V6 => b"6",
        }
    }
}

impl Worded for Status {
    ghost use Rattle.ixp_rows_lines.specs.Lines.{status_word, statuses};

    ghost word_of = { status_word };

    ghost piece = { statuses };

    fn all() -> &'static [Status] {
        &[
            Status::Noted,
            Status::Connected,
            Status::Suspended,
            Status::Left,
        ]
    }

    fn word(self) -> &'static [u8] {
        match self {
            Status::Noted => b"noted",
            Status::Connected => b"connected",
            Status::Suspended => b"suspended",
            Status::Left => b"left",
        }
    }
}

impl Worded for Way {
    ghost use Rattle.ixp_rows_lines.specs.Lines.{way_word, ways};

    ghost word_of = { way_word };

    ghost piece = { ways };

    fn all() -> &'static [Way] {
        &[Way::Advertise, Way::Receive]
    }

    fn word(self) -> &'static [u8] {
        match self {
            Way::Advertise => b"advertise",
            Way::Receive => b"receive",
        }
    }
}

#[tactic(auto, unfolding(crate::specs::Reading::value_of))]
fn action_in(field: &[u8]) -> Result<Action, Unread>
    ensures { Gives (λ x. Word (action_word x)) result (value_of actions field.now) }
{
    if field == b"as-is".as_slice() {
        Ok(Action::AsIs)
    } else if field == b"prepend1".as_slice() {
        Ok(Action::Prepend(1))
    } else if field == b"prepend2".as_slice() {
        Ok(Action::Prepend(2))
    } else if field == b"prepend3".as_slice() {
        Ok(Action::Prepend(3))
    } else if field == b"stop".as_slice() {
        Ok(Action::Stop)
    } else {
        Err(Unread::Bad)
    }
}

/// A rule's action.
pub(crate) fn action_of(rest: &[u8]) -> Result<(Action, &[u8]), Unread>
    ensures { Gives (λ x. (Word (action_word x.0), x.1.now)) result (piece_at actions rest.now) }
{
    let (field, rest) = field_of(rest)?;
    Ok((action_in(field)?, rest))
}

/// Whose number follows.
#[derive(Clone, Copy)]
pub(crate) enum OwnerKind {
    Staff,
    Member,
}

impl Worded for OwnerKind {
    ghost use Rattle.ixp_rows_lines.specs.Lines.{owner_kinds};
    ghost use Rattle.ixp_rows_lines.specs.Reading.{owner_kind_word};

    ghost word_of = { owner_kind_word };

    ghost piece = { owner_kinds };

    fn all() -> &'static [OwnerKind] {
        &[OwnerKind::Staff, OwnerKind::Member]
    }

    fn word(self) -> &'static [u8] {
        match self {
            OwnerKind::Staff => b"staff",
            OwnerKind::Member => b"member",
        }
    }
}

fn owned_by(kind: OwnerKind, number: u32) -> Owner
    ensures word { owner_word result ≡ owner_kind_word kind }
    ensures number { owner_number result ≡ number }
{
    match kind {
        OwnerKind::Staff => Owner::Staff(number),
        OwnerKind::Member => Owner::Member(number),
    }
}

/// A key's owner, two fields.
pub(crate) fn owner_of(rest: &[u8]) -> Result<(Owner, &[u8]), Unread>
    ensures { Gives (λ x. (Word (owner_word x.0), Number (owner_number x.0), x.1.now)) result
        (owner_at rest.now) }
{
    let (kind, rest) = by_word(rest)?;
    let (number, rest) = number_of(rest)?;
    Ok((owned_by(kind, number), rest))
}

fn kind_of(owner: Owner) -> OwnerKind
    ensures { owner_kind_word result ≡ owner_word owner }
{
    match owner {
        Owner::Staff(_) => OwnerKind::Staff,
        Owner::Member(_) => OwnerKind::Member,
    }
}

/// Whose number follows, in a line.
pub(crate) fn owner_word(owner: Owner) -> &'static [u8]
    ensures { result.now ≡ owner_word owner }
{
    kind_of(owner).word()
}

/// The number of an owner.
pub(crate) fn owner_number(owner: Owner) -> u32
    ensures { result ≡ owner_number owner }
{
    match owner {
        Owner::Staff(number) => number,
        Owner::Member(number) => number,
    }
}
