//! The words that stand in paths, and the methods.
ghost use Rattle.std.specs.Prelude.{◌≡◌};
ghost use Rattle.ixp_api_paths.specs.Paths as spec;

use crate::table::{Entry, Kind, ListName, Word};
use ixp_num::Family;

fn text_of(word: Word) -> &'static [u8]
    ensures { result.now ≡ spec.word_text word }
{
    match word {
        Word::Members => b"members",
        Word::Name => b"name",
        Word::Status => b"status",
        Word::Macro => b"macro",
        Word::Contacts => b"contacts",
        Word::Irr => b"irr",
        Word::Origins => b"origins",
        Word::Rules => b"rules",
        Word::Keys => b"keys",
        Word::Switches => b"switches",
        Word::Ports => b"ports",
        Word::Member => b"member",
        Word::Vlans => b"vlans",
        Word::Use => b"use",
        Word::Interfaces => b"interfaces",
        Word::Routers => b"routers",
        Word::Config => b"config",
        Word::Explain => b"explain",
        Word::Ixf => b"ixf",
        Word::Dump => b"dump",
        Word::Public => b"public",
        Word::Glass => b"glass",
        Word::Bogons => b"bogons",
        Word::BogonAs => b"bogon_as",
        Word::Transit => b"transit",
        Word::Roas => b"roas",
    }
}

/// Whether the text is the word.
pub(crate) fn is_word(text: &[u8], word: Word) -> bool
    ensures { result ≡ spec.same_bytes text.now (spec.word_text word) }
{
    text == text_of(word)
}

/// The family that is named `4` or `6`.
pub(crate) fn family_of(text: &[u8]) -> Option<Family>
    ensures { result ≡ spec.family_of text.now }
{
    match text {
        [b'4'] => Some(Family::V4),
        [b'6'] => Some(Family::V6),
        _ => None,
    }
}

/// The public list with the name.
pub(crate) fn list_of(text: &[u8]) -> Option<ListName>
    ensures { result ≡ spec.list_of text.now }
{
    if is_word(text, Word::Bogons) {
        Some(ListName::Bogons)
    } else if is_word(text, Word::BogonAs) {
        Some(ListName::BogonAs)
    } else if is_word(text, Word::Transit) {
        Some(ListName::Transit)
    } else if is_word(text, Word::Roas) {
        Some(ListName::Roas)
    } else {
        None
    }
}

/// What the method calls for at a path of the table.
pub(crate) fn kind_at(method: &[u8], entry: Entry) -> Option<Kind>
    ensures { result ≡ spec.kind_at method.now entry }
{
    if method == b"GET".as_slice() {
        entry.get
    } else if method == b"POST".as_slice() {
        entry.post
    } else if method == b"PUT".as_slice() {
        entry.put
    } else if method == b"DELETE".as_slice() {
        entry.delete
    } else {
        None
    }
}
