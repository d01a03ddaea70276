//! The whole text.
ghost use Rattle.std.specs.Prelude.{◌≡◌, List, option_map, slice_get, if◌then◌else◌};
ghost use Rattle.ixp_lang_tokens.specs.Reading.{kinds};
ghost use Rattle.ixp_lang_tokens.specs.Tokens.{Placed, placed_kinds, Tokens, HasTokens};
ghost use Rattle.ixp_lang_tokens.specs.declared.fault.Cause.TheVariants.{Unexpected as IsUnexpected};
ghost use Rattle.ixp_read.specs.declared.fault.ReadFault.TheVariants.{Unexpected, OutOfProfile};
ghost use Rattle.ixp_read.specs.Answers.{is_foreign_mark, refused, named, byte_of, fault_at, ConfigAnswer};

use crate::ReadFault;
use crate::item::items_at;
use ixp_lang::Config;
use ixp_lang_tokens::{Cause, Fault, Kind, Mark, Token, is_foreign, left_at, tokens_of};
use std::alloc::Global;

/// Whether the profile leaves the mark out.
fn is_foreign_mark(mark: Mark) -> bool
    ensures { result ≡ is_foreign_mark mark }
{
    match mark {
        Mark::Plus | Mark::Star | Mark::Slash => true,
        _ => false,
    }
}

/// The fault of a token with which no text goes on, left out by the profile or not.
fn unless_foreign(is_foreign: bool, at: usize) -> ReadFault
    ensures { result ≡ (if is_foreign then OutOfProfile at else Unexpected at) }
{
    if is_foreign {
        ReadFault::OutOfProfile { at }
    } else {
        ReadFault::Unexpected { at }
    }
}

/// Why a token is refused where no text goes on with it.
fn refused(kind: &Kind, at: usize) -> ReadFault
    ensures { result ≡ refused kind.now at }
{
    match kind {
        Kind::BadByte => ReadFault::Byte { at },
        Kind::BadNumber => ReadFault::Number { at },
        Kind::Mark(mark) => unless_foreign(is_foreign_mark(*mark), at),
        Kind::Word(word) => unless_foreign(is_foreign(word.as_bytes()), at),
        _ => ReadFault::Unexpected { at },
    }
}

/// Why no text goes on here: the token that stands here, if the text hasn't ended.
fn unexpected(token: Option<&Token>, at: usize) -> ReadFault
    ensures { result ≡ named IsUnexpected (option_map (λ t. t.now.kind) token.entry) at }
{
    match token {
        Some(token) => refused(&token.kind, at),
        None => ReadFault::Unexpected { at },
    }
}

/// Names the stop at a place by the token that stands there, if the text hasn't ended.
fn named(cause: Cause, token: Option<&Token>, at: usize) -> ReadFault
    ensures { result ≡ named cause (option_map (λ t. t.now.kind) token.entry) at }
{
    match cause {
        Cause::Unexpected => unexpected(token, at),
        Cause::Number => ReadFault::Number { at },
        Cause::Unknown => ReadFault::UnknownName { at },
        Cause::Twice => ReadFault::NameTwice { at },
        Cause::Mixed => ReadFault::MixedLogic { at },
        Cause::Misfit => ReadFault::WrongType { at },
        Cause::Deep => ReadFault::TooDeep { at },
        Cause::Foreign => ReadFault::OutOfProfile { at },
    }
}

/// The token before which there are so many others, if one is.
fn token_at(tokens: &[Token], others: usize) -> Option<&Token>
    ensures { option_map (λ t. t.now) result ≡ slice_get tokens.now others }
{
    tokens.get(others)
}

/// The byte of the text at which the token begins before which there are so many others, or the text's length
/// where there is none.
fn byte_at(text: &[u8], tokens: &[Token], others: usize) -> usize
    requires { HasTokens text.now (kinds tokens.now) }
    ensures { (placed : List Placed) → Tokens text.now placed → placed_kinds placed ≡ kinds tokens.now
        → result ≡ byte_of text.now (slice_get placed others) }
{
    if others < tokens.len() {
        text.len().saturating_sub(left_at(text, others))
    } else {
        text.len()
    }
}

/// The fault for a cause where so many of the text's tokens are left.
fn fault_at(text: &[u8], tokens: &[Token], cause: Cause, left: usize) -> ReadFault
    requires { HasTokens text.now (kinds tokens.now) }
    ensures { (placed : List Placed) → Tokens text.now placed → placed_kinds placed ≡ kinds tokens.now
        → result ≡ fault_at text.now placed cause left }
{
    let others = tokens.len().saturating_sub(left);
    let at = byte_at(text, tokens, others);
    named(cause, token_at(tokens, others), at)
}

/// Reads a filter text.
///
/// Each fault but the running out of memory stands at the first token with which no text goes on, or, for a
/// type that doesn't fit, at the operator, the called name or the statement that it is about.
pub fn read_config(alloc: Global, t: &[u8]) -> Result<Config, ReadFault>
    ensures { ConfigAnswer t.now result }
{
    let Ok(tokens) = tokens_of(alloc, t) else {
        return Err(ReadFault::NoMemory);
    };
    match items_at(alloc, tokens.as_slice()) {
        Ok(items) => Ok(Config { items }),
        Err(Fault::NoMemory) => Err(ReadFault::NoMemory),
        Err(Fault::Stop(cause, left)) => Err(fault_at(t, tokens.as_slice(), cause, left)),
    }
}
