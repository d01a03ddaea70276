//! Readers of the next token. What is left behind it is handed on.
ghost use Rattle.std.specs.Prelude.{◌≡◌, ◌<◌, length, codes, Err, IfSome, IfOk, option_map};
ghost use Rattle.ixp_lang_tokens.specs.Pieces.{the_mark, the_word, a_name, a_number, an_addr, behind};
ghost use Rattle.ixp_lang_tokens.specs.Pieces.{is_mark, is_word, same_word};
ghost use Rattle.ixp_lang_tokens.specs.Reading.{read, kinds, Gives};
ghost use Rattle.ixp_lang_tokens.specs.declared.fault.Cause.TheVariants.{Unexpected};
ghost use Rattle.ixp_lang_tokens.specs.declared.fault.Fault.TheVariants.{Stop};

use crate::{Cause, Fault, Keyword, Kind, Mark, Token};
use ixp_num::{Addr, Name};

/// The reading stops at the first of these tokens, or at the end where there is none.
pub fn unexpected(tokens: &[Token]) -> Fault
    ensures { result ≡ Stop Unexpected (length tokens.now) }
{
    Fault::Stop(Cause::Unexpected, tokens.len())
}

/// What follows this mark, if it is next.
pub fn after_mark(mark: Mark, tokens: &[Token]) -> Option<&[Token]>
    ensures reads { option_map (λ r. kinds r.now) result ≡ behind (is_mark mark) (kinds tokens.now) }
    ensures shorter { IfSome result (λ r. length r.now < length tokens.now) }
{
    let [first, rest @ ..] = tokens else {
        return None;
    };
    match &first.kind {
        Kind::Mark(found) if found.is(mark) => Some(rest),
        _ => None,
    }
}

/// What follows this mark, which must be next.
pub fn mark_at(mark: Mark, tokens: &[Token]) -> Result<&[Token], Fault>
    ensures reads { Gives (λ r. (tt, kinds r.now)) result (read (the_mark mark) (kinds tokens.now)) }
    ensures shorter { IfOk result (λ r. length r.now < length tokens.now) }
{
    match after_mark(mark, tokens) {
        Some(rest) => Ok(rest),
        None => Err(unexpected(tokens)),
    }
}

/// Whether the keyword is this one.
fn is_same(found: &Keyword, word: &[u8]) -> bool
    ensures { result ≡ same_word found.now word.now }
{
    found.as_bytes() == word
}

/// What follows this keyword, if it is next.
pub fn after_word<'t>(word: &[u8], tokens: &'t [Token]) -> Option<&'t [Token]>
    ensures reads { option_map (λ r. kinds r.now) result ≡ behind (is_word word.now) (kinds tokens.now) }
    ensures shorter { IfSome result (λ r. length r.now < length tokens.now) }
{
    let [first, rest @ ..] = tokens else {
        return None;
    };
    match &first.kind {
        Kind::Word(found) if is_same(found, word) => Some(rest),
        _ => None,
    }
}

/// What follows this keyword, which must be next.
pub fn word_at<'t>(word: &[u8], tokens: &'t [Token]) -> Result<&'t [Token], Fault>
    ensures reads { Gives (λ r. (tt, kinds r.now)) result (read (the_word word.now) (kinds tokens.now)) }
    ensures shorter { IfOk result (λ r. length r.now < length tokens.now) }
{
    match after_word(word, tokens) {
        Some(rest) => Ok(rest),
        None => Err(unexpected(tokens)),
    }
}

/// The name that must be next.
pub fn name_at(tokens: &[Token]) -> Result<(&Name, &[Token]), Fault>
    ensures reads { Gives (λ x. (x.0.now, kinds x.1.now)) result (read a_name (kinds tokens.now)) }
    ensures shorter { IfOk result (λ x. length x.1.now < length tokens.now) }
{
    let [first, rest @ ..] = tokens else {
        return Err(unexpected(tokens));
    };
    match &first.kind {
        Kind::Name(name) => Ok((name.get(), rest)),
        _ => Err(unexpected(tokens)),
    }
}

/// The number that must be next.
pub fn number_at(tokens: &[Token]) -> Result<(u32, &[Token]), Fault>
    ensures reads { Gives (λ x. (x.0, kinds x.1.now)) result (read a_number (kinds tokens.now)) }
    ensures shorter { IfOk result (λ x. length x.1.now < length tokens.now) }
{
    let [first, rest @ ..] = tokens else {
        return Err(unexpected(tokens));
    };
    match &first.kind {
        Kind::Number(number) => Ok((*number, rest)),
        _ => Err(unexpected(tokens)),
    }
}

/// The address that must be next.
pub fn addr_at(tokens: &[Token]) -> Result<(Addr, &[Token]), Fault>
    ensures reads { Gives (λ x. (x.0, kinds x.1.now)) result (read an_addr (kinds tokens.now)) }
    ensures shorter { IfOk result (λ x. length x.1.now < length tokens.now) }
{
    let [first, rest @ ..] = tokens else {
        return Err(unexpected(tokens));
    };
    match &first.kind {
        Kind::Addr(addr) => Ok((*addr.get(), rest)),
        _ => Err(unexpected(tokens)),
    }
}

/// Whether the token is this mark.
pub fn is_mark(mark: Mark, token: &Token) -> bool
    ensures { result ≡ is_mark mark token.now.kind }
{
    match &token.kind {
        Kind::Mark(found) => found.is(mark),
        _ => false,
    }
}

/// Whether the token is this keyword.
pub fn is_word(word: &[u8], token: &Token) -> bool
    ensures { result ≡ is_word word.now token.now.kind }
{
    match &token.kind {
        Kind::Word(found) => is_same(found, word),
        _ => false,
    }
}
