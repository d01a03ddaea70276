//! Types as they are written.
ghost use Rattle.std.specs.Prelude.{◌≡◌, ◌<◌, length, IfOk};
ghost use Rattle.ixp_lang_tokens.specs.Reading.{read, kinds, Gives};
ghost use Rattle.ixp_lang_exprs.specs.Expressions.{word_in};
ghost use Rattle.ixp_read.specs.Functions.{type_in, set_of, has_sets, type_form};

use ixp_lang::Ty;
use ixp_lang_tokens::{Fault, Kind, Token, after_word, unexpected};

/// The type that the keyword is.
fn word_type(word: &[u8]) -> Option<Ty>
    ensures { result ≡ type_in word.now }
{
    if word == b"int".as_slice() {
        return Some(Ty::Int);
    }
    if word == b"bool".as_slice() {
        return Some(Ty::Bool);
    }
    if word == b"ip".as_slice() {
        return Some(Ty::Ip);
    }
    if word == b"prefix".as_slice() {
        return Some(Ty::Prefix);
    }
    if word == b"pair".as_slice() {
        return Some(Ty::Pair);
    }
    if word == b"lc".as_slice() {
        return Some(Ty::Lc);
    }
    None
}

/// The type that the token is.
fn token_type(kind: &Kind) -> Option<Ty>
    ensures { result ≡ word_in type_in kind.now }
{
    match kind {
        Kind::Word(word) => word_type(word.as_bytes()),
        _ => None,
    }
}

/// The type of the sets of such elements.
fn set_type(ty: Ty) -> Ty
    ensures { result ≡ set_of ty }
{
    match ty {
        Ty::Int => Ty::IntSet,
        Ty::Ip => Ty::IpSet,
        Ty::Prefix => Ty::PrefixSet,
        Ty::Pair => Ty::PairSet,
        Ty::Lc => Ty::LcSet,
        other => other,
    }
}

/// Whether there are sets of such elements.
fn has_sets(ty: Ty) -> bool
    ensures { result ≡ has_sets ty }
{
    match ty {
        Ty::Bool => false,
        _ => true,
    }
}

/// A type.
pub(crate) fn type_at(tokens: &[Token]) -> Result<(Ty, &[Token]), Fault>
    ensures reads { Gives (λ x. (x.0, kinds x.1.now)) result (read type_form (kinds tokens.now)) }
    ensures shorter { IfOk result (λ x. length x.1.now < length tokens.now) }
{
    let [first, rest @ ..] = tokens else {
        return Err(unexpected(tokens));
    };
    let Some(ty) = token_type(&first.kind) else {
        return Err(unexpected(tokens));
    };
    if has_sets(ty)
        && let Some(behind) = after_word(b"set", rest)
    {
        return Ok((set_type(ty), behind));
    }
    Ok((ty, rest))
}
