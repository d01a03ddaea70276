//! Words of names and bodies.
ghost use Rattle.std.specs.Prelude.{
  ◌≡◌,
  ◌<◌,
  ◌^◌,
  ◌++◌,
  ◌∷◌,
  ℕ,
  List,
  Some,
  IfOk,
  IfSome,
  decimal,
  find as first_with,
  false,
  true,
};
ghost use Rattle.std.specs.List.{position, AllByRecursion};
ghost use Rattle.ixp_rows_lines.specs.Fields.{is_break};
ghost use Rattle.ixp_rows_lines.specs.Lines.{owner_word};
ghost use Rattle.ixp_rows_lines.specs.Reading.{parted_at};
ghost use Rattle.ixp_registry.specs.declared.edit_kind.EditKind.{EditKind as Told};
ghost use Rattle.ixp_registry.specs.declared.members.Owner.{Owner as By};
ghost use Rattle.ixp_registry.specs.Alphabets.{is_handle};
ghost use Rattle.ixp_registry.specs.Codes.{edit_word, public_word};
ghost use Rattle.ixp_registry.specs.Widths.{IsNumber, owner_number};
ghost use Rattle.ixp_machine_steps.specs.declared.kept.KeptNumber.{KeptNumber as Number};
ghost use Rattle.ixp_registry.specs.declared.public_kind.PublicKind.{PublicKind as Shared};
ghost use Rattle.ixp_machine_steps.specs.declared.subject.Subject.{Subject as About};
ghost use Rattle.ixp_machine_steps.specs.declared.subject.Subject.TheVariants.{
  Number as Single,
  Handle,
  Public,
};
ghost use Rattle.ixp_store_rows.specs.Names.{key_text, owner_fields, subject_text, kept_body};
ghost use Rattle.ixp_num_tables.specs.Tables.{same};
ghost use Rattle.ixp_store_words.specs.Storing.{form_of, HasForm, HasSubject};
ghost use Rattle.ixp_store_words.specs.declared.words.Form.TheVariants.{OneNumber, RouterHandle, SharedList};

use ixp_machine_steps::Subject;
use ixp_num::Name;
use ixp_num_tables::number_upto;
use ixp_registry::{EditKind, Owner, PublicKind, is_handle};
use std::alloc::{AllocError, Global};

fn is_break(byte: u8) -> bool
    ensures { result ≡ is_break byte }
{
    byte == b' ' || byte == b'\n'
}

fn first_break(text: &[u8]) -> Option<usize>
    ensures { result ≡ position is_break text.now }
{
    text.iter().position(|byte| is_break(*byte))
}

fn parted(text: &[u8]) -> (&[u8], &[u8])
    ensures { (result.0.now, result.1.now) ≡ parted_at (position is_break text.now) text.now }
{
    match first_break(text) {
        Some(end) => text.split_at(end),
        None => (text, &[]),
    }
}

fn behind_one(text: &[u8]) -> &[u8]
    ensures { (c : ℕ) (rest : List ℕ) → text.now ≡ c ∷ rest → result.now ≡ rest }
{
    match text {
        [_, rest @ ..] => rest,
        _ => text,
    }
}

/// The bytes up to the first blank or line's end, and those after it; none after it where there is neither.
pub fn first_word(text: &[u8]) -> (&[u8], &[u8])
    ensures word { (word rest : List ℕ) → AllByRecursion (λ c. is_break c ≡ false) word
        → text.now ≡ word ++ 32 ∷ rest → result.0.now ≡ word }
    ensures rest { (word rest : List ℕ) → AllByRecursion (λ c. is_break c ≡ false) word
        → text.now ≡ word ++ 32 ∷ rest → result.1.now ≡ rest }
{
    let (word, behind) = parted(text);
    (word, behind_one(behind))
}

/// The number that a text is in decimal.
#[tactic(auto, using(ixp_num_tables::proofs::PrintedNumbers::printed))]
pub fn number_of(text: &[u8]) -> Option<u64>
    ensures { (n : ℕ) → n < 2 ^ 64 → text.now ≡ decimal n → result ≡ Some n }
{
    number_upto(u64::MAX, text)
}

/// The same, where it fits in 32 bits.
#[tactic(auto, using(ixp_num_tables::proofs::PrintedNumbers::printed))]
pub fn small_of(text: &[u8]) -> Option<u32>
    ensures { (n : ℕ) → n < 2 ^ 32 → text.now ≡ decimal n → result ≡ Some n }
{
    match number_upto(u64::from(u32::MAX), text) {
        Some(number) => Some(number as u32),
        None => None,
    }
}

fn owner_with(word: &[u8], number: &[u8]) -> Option<Owner>
    ensures { (o : By) → IsNumber (owner_number o) → word.now ≡ owner_word o
        → number.now ≡ decimal (owner_number o) → result ≡ Some o }
{
    let Some(number) = small_of(number) else {
        return None;
    };
    if word == b"staff".as_slice() {
        Some(Owner::Staff(number))
    } else if word == b"member".as_slice() {
        Some(Owner::Member(number))
    } else {
        None
    }
}

/// The owner of `staff 1` or `member 1`.
#[tactic(auto, using(crate::proofs::WordTexts::owner_unbroken))]
pub(crate) fn owner_of(text: &[u8]) -> Option<Owner>
    ensures { (o : By) → IsNumber (owner_number o) → text.now ≡ key_text (owner_fields o) → result ≡ Some o }
{
    let (word, number) = first_word(text);
    owner_with(word, number)
}

/// The owner and the number of `staff 1 7`.
#[tactic(auto, using(crate::proofs::WordTexts::small_unbroken, crate::proofs::WordTexts::owner_unbroken, crate::proofs::WordTexts::numbered_key))]
pub(crate) fn numbered_of(text: &[u8]) -> Option<(Owner, u64)>
    ensures { (o : By) (n : ℕ) → IsNumber (owner_number o) → n < 2 ^ 64
        → text.now ≡ key_text (owner_fields o) ++ 32 ∷ decimal n → result ≡ Some (o, n) }
{
    let (word, rest) = first_word(text);
    let (number, last) = first_word(rest);
    let Some(owner) = owner_with(word, number) else {
        return None;
    };
    let Some(last) = number_of(last) else {
        return None;
    };
    Some((owner, last))
}

/// All kinds of edits.
pub const EDIT_KINDS: &[EditKind] = &[
    EditKind::AddMember,
    EditKind::RenameMember,
    EditKind::MoveStatus,
    EditKind::SetMacro,
    EditKind::PutContact,
    EditKind::DropContact,
    EditKind::AddKey,
    EditKind::DropKey,
    EditKind::AddSwitch,
    EditKind::DropSwitch,
    EditKind::AddPort,
    EditKind::AssignPort,
    EditKind::FreePort,
    EditKind::DropPort,
    EditKind::AddVlan,
    EditKind::DropVlan,
    EditKind::AddInterface,
    EditKind::SetAddress,
    EditKind::DropInterface,
    EditKind::AddRouter,
    EditKind::SetRouter,
    EditKind::DropRouter,
    EditKind::PutIrr,
    EditKind::PutOrigins,
    EditKind::SetRules,
    EditKind::PutPublic,
];

fn kind_among(kinds: &[EditKind], word: &[u8]) -> Option<EditKind>
    ensures { result ≡ first_with (λ kind. same (edit_word kind) word.now) kinds.now }
{
    let mut left = kinds;
    'each: while let Some((kind, others)) = left.split_first() {
        if kind.word().as_bytes() == word {
            return Some(*kind);
        }
        left = others;
    }
    None
}

/// The kind of edits that a word is.
pub(crate) fn kind_of(word: &[u8]) -> Option<EditKind>
    ensures { (kind : Told) → word.now ≡ edit_word kind → result ≡ Some kind }
{
    kind_among(EDIT_KINDS, word)
}

const PUBLIC: &[PublicKind] = &[
    PublicKind::Bogons,
    PublicKind::BogonAs,
    PublicKind::Transit,
    PublicKind::Roas,
];

fn public_among(kinds: &[PublicKind], word: &[u8]) -> Option<PublicKind>
    ensures { result ≡ first_with (λ kind. same (public_word kind) word.now) kinds.now }
{
    let mut left = kinds;
    'each: while let Some((kind, others)) = left.split_first() {
        if kind.word().as_bytes() == word {
            return Some(*kind);
        }
        left = others;
    }
    None
}

fn public_of(word: &[u8]) -> Option<PublicKind>
    ensures { (kind : Shared) → word.now ≡ public_word kind → result ≡ Some kind }
{
    public_among(PUBLIC, word)
}

#[tactic(auto, using(ixp_registry::proofs::HandleNames::handle_is_name))]
fn handle_of(alloc: Global, text: &[u8]) -> Result<Option<Subject>, AllocError>
    ensures told { is_handle text.now ≡ true → IfOk result (λ o. o ≡ Some (Handle text.now)) }
    ensures form { IfOk result (λ o. IfSome o (HasForm RouterHandle)) }
{
    if !is_handle(text) {
        return Ok(None);
    }
    let name = Name::new(alloc, text)?;
    Ok(Some(Subject::Handle(name)))
}

/// What an edit is about.
#[derive(Clone, Copy, Debug, PartialEq, Eq)]
pub enum Form {
    OneNumber,
    TwoNumbers,
    /// A number and an IP version, 4 or 6.
    WithFamily,
    RouterHandle,
    SharedList,
}

pub(crate) fn form_of(kind: EditKind) -> Form
    ensures { result ≡ form_of kind }
{
    match kind {
        EditKind::PutContact | EditKind::DropContact => Form::TwoNumbers,
        EditKind::SetAddress | EditKind::PutIrr | EditKind::PutOrigins => Form::WithFamily,
        EditKind::AddRouter | EditKind::SetRouter | EditKind::DropRouter => Form::RouterHandle,
        EditKind::PutPublic => Form::SharedList,
        _ => Form::OneNumber,
    }
}

/// A number, and the place behind it.
#[tactic(auto, using(crate::proofs::WordTexts::small_unbroken))]
fn number_at(text: &[u8]) -> Option<(Subject, u64)>
    ensures told { (n place : ℕ) → IsNumber n → place < 2 ^ 64 → text.now ≡ decimal n ++ 32 ∷ decimal place
        → result ≡ Some (Single n, place) }
    ensures form { IfSome result (λ x. HasForm OneNumber x.0) }
{
    let (word, last) = first_word(text);
    let Some(number) = small_of(word) else {
        return None;
    };
    let Some(place) = number_of(last) else {
        return None;
    };
    Some((Subject::Number(number), place))
}

/// Two numbers, and the place behind them.
#[tactic(auto, using(crate::proofs::WordTexts::small_unbroken, crate::proofs::WordTexts::pair_text))]
fn pair_at(text: &[u8]) -> Option<(u32, u32, u64)>
    ensures told { (m n place : ℕ) → IsNumber m → IsNumber n → place < 2 ^ 64
        → text.now ≡ (decimal m ++ 32 ∷ decimal n) ++ 32 ∷ decimal place → result ≡ Some (m, n, place) }
    ensures small { IfSome result (λ x. IsNumber x.0 × IsNumber x.1) }
{
    let (word, rest) = first_word(text);
    let Some(first) = small_of(word) else {
        return None;
    };
    let (word, last) = first_word(rest);
    let Some(second) = small_of(word) else {
        return None;
    };
    let Some(place) = number_of(last) else {
        return None;
    };
    Some((first, second, place))
}

/// A handle, and the place behind it.
#[tactic(auto, using(crate::proofs::WordTexts::handle_unbroken))]
fn handle_at(alloc: Global, text: &[u8]) -> Result<Option<(Subject, u64)>, AllocError>
    ensures told { (h : List ℕ) (place : ℕ) → is_handle h ≡ true → place < 2 ^ 64
        → text.now ≡ h ++ 32 ∷ decimal place → IfOk result (λ o. o ≡ Some (Handle h, place)) }
    ensures form { IfOk result (λ o. IfSome o (λ x. HasForm RouterHandle x.0)) }
{
    let (word, last) = first_word(text);
    let Some(place) = number_of(last) else {
        return Ok(None);
    };
    match handle_of(alloc, word)? {
        Some(handle) => Ok(Some((handle, place))),
        None => Ok(None),
    }
}

/// The word of a public list, and the place behind it.
fn public_at(text: &[u8]) -> Option<(Subject, u64)>
    ensures told { (p : Shared) (place : ℕ) → place < 2 ^ 64 → text.now ≡ public_word p ++ 32 ∷ decimal place
        → result ≡ Some (Public p, place) }
    ensures form { IfSome result (λ x. HasForm SharedList x.0) }
{
    let (word, last) = first_word(text);
    match (public_of(word), number_of(last)) {
        (Some(kind), Some(place)) => Some((Subject::Public(kind), place)),
        _ => None,
    }
}

/// What an edit is about, and the place behind it.
fn subject_at(alloc: Global, form: Form, text: &[u8]) -> Result<Option<(Subject, u64)>, AllocError>
    ensures told { (s : About) (place : ℕ) → HasForm form s → place < 2 ^ 64
        → text.now ≡ subject_text s ++ 32 ∷ decimal place → IfOk result (λ o. o ≡ Some (s, place)) }
    ensures form { IfOk result (λ o. IfSome o (λ x. HasForm form x.0)) }
{
    match form {
        Form::OneNumber => Ok(number_at(text)),
        Form::TwoNumbers => match pair_at(text) {
            Some((first, second, place)) => Ok(Some((Subject::Pair(first, second), place))),
            None => Ok(None),
        },
        Form::WithFamily => match pair_at(text) {
            Some((first, second, place)) => {
                if second == 4 || second == 6 {
                    Ok(Some((Subject::Pair(first, second), place)))
                } else {
                    Ok(None)
                }
            }
            None => Ok(None),
        },
        Form::RouterHandle => handle_at(alloc, text),
        Form::SharedList => Ok(public_at(text)),
    }
}

/// The kind of an edit, what it is about, and its place among those that were accepted.
pub(crate) fn request_of(
    alloc: Global,
    text: &[u8],
) -> Result<Option<(EditKind, Subject, u64)>, AllocError>
    ensures told { (k : Number) → HasSubject k → k.place < 2 ^ 64 → text.now ≡ kept_body k
        → IfOk result (λ o. o ≡ Some (k.kind, k.subject, k.place)) }
    ensures form { IfOk result (λ o. IfSome o (λ x. HasForm (form_of x.0) x.1)) }
{
    let (word, rest) = first_word(text);
    let Some(kind) = kind_of(word) else {
        return Ok(None);
    };
    match subject_at(alloc, form_of(kind), rest)? {
        Some((subject, place)) => Ok(Some((kind, subject, place))),
        None => Ok(None),
    }
}
