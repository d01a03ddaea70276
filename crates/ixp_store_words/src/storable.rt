//! What of a store's kept numbers may stand there.
ghost use Rattle.std.specs.Prelude.{◌≡◌, ◌⊎◌, ◌↔◌, IsTrue};
ghost use Rattle.ixp_registry.specs.Widths.{IsNumber};
ghost use Rattle.ixp_store_words.specs.declared.words.Form.TheVariants.{OneNumber, TwoNumbers, WithFamily};
ghost use Rattle.std.specs.List.{AllByRecursion};
ghost use Rattle.ixp_store_words.specs.Storing.{AreStorable, HasForm, HasSubject, KeepsSome};

use crate::words::{Form, form_of};
use ixp_machine_steps::{KeptNumber, KeptOwner, Subject};
use ixp_registry::is_handle;

/// A number of 32 bits is one. It is read for the proof alone.
fn fits(number: u32)
    ensures { IsNumber number }
{
    let _ = number;
}

fn is_version(number: u32) -> bool
    ensures { IsTrue result ↔ ((number ≡ 4) ⊎ (number ≡ 6)) }
{
    number == 4 || number == 6
}

fn is_pair(subject: &Subject) -> bool
    ensures { IsTrue result ↔ HasForm TwoNumbers subject.now }
{
    match subject {
        Subject::Pair(first, second) => {
            fits(*first);
            fits(*second);
            true
        }
        _ => false,
    }
}

fn is_with_family(subject: &Subject) -> bool
    ensures { IsTrue result ↔ HasForm WithFamily subject.now }
{
    match subject {
        Subject::Pair(number, version) => {
            fits(*number);
            is_version(*version)
        }
        _ => false,
    }
}

fn is_number(subject: &Subject) -> bool
    ensures { IsTrue result ↔ HasForm OneNumber subject.now }
{
    match subject {
        Subject::Number(number) => {
            fits(*number);
            true
        }
        _ => false,
    }
}

fn has_form(form: Form, subject: &Subject) -> bool
    ensures { IsTrue result ↔ HasForm form subject.now }
{
    match form {
        Form::OneNumber => is_number(subject),
        Form::TwoNumbers => is_pair(subject),
        Form::WithFamily => is_with_family(subject),
        Form::RouterHandle => match subject {
            Subject::Handle(handle) => is_handle(handle.as_bytes()),
            _ => false,
        },
        Form::SharedList => matches!(subject, Subject::Public(_)),
    }
}

/// Whether the number's subject is one that its kind of edit has.
fn has_subject(number: &KeptNumber) -> bool
    ensures { IsTrue result ↔ HasSubject number.now }
{
    has_form(form_of(number.kind), &number.subject)
}

fn have_subjects(numbers: &[KeptNumber]) -> bool
    ensures { IsTrue result ↔ AllByRecursion HasSubject numbers.now }
{
    let mut left = numbers;
    'each: while let Some((number, others)) = left.split_first() {
        if !has_subject(number) {
            return false;
        }
        left = others;
    }
    true
}

fn keeps_some(kept: &KeptOwner) -> bool
    ensures { IsTrue result ↔ KeepsSome kept.now }
{
    kept.floor != 0 || !kept.numbers.is_empty()
}

/// Whether something is kept for each owner, and kept numbers have subjects of their kind.
pub(crate) fn are_storable(kept: &[KeptOwner]) -> bool
    ensures { IsTrue result ↔ AreStorable kept.now }
{
    let mut left = kept;
    'each: while let Some((row, others)) = left.split_first() {
        if !keeps_some(row) || !have_subjects(row.numbers.as_slice()) {
            return false;
        }
        left = others;
    }
    true
}
