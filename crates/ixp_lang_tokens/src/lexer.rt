//! From bytes to tokens.
ghost use Rattle.std.specs.Prelude.{◌≡◌, ◌<◌, List, [], false, length, slice_get, IfOk, IfSome};
ghost use Rattle.ixp_lang_tokens.specs.Cutting.{is_colon_text};
ghost use Rattle.ixp_lang_tokens.specs.Reading.{kinds};
ghost use Rattle.ixp_lang_tokens.specs.Tokens.{word_kind, Says, Stands, Placed, Tokens, HasTokens};

use crate::gap::behind_gap;
use crate::shape::{Shape, piece_at, plain_behind};
use crate::{Boxed, Keyword, Kind, Token};
use ixp_num::{Items, Name, read_addr, read_asn, read_prefix};
use std::alloc::{AllocError, Global};

/// A keyword, or a name of at most 64 bytes.
fn word_kind(alloc: Global, word: &[u8]) -> Result<Kind, AllocError>
    ensures { IfOk result (λ k. k ≡ word_kind word.now) }
{
    if !Name::is_name(word) {
        return Ok(Kind::BadByte);
    }
    if let Some(keyword) = Keyword::of(word) {
        return Ok(Kind::Word(keyword));
    }
    let name = Boxed::new(alloc, Name::new(alloc, word)?)?;
    Ok(Kind::Name(name))
}

/// What a piece says.
fn kind_of(alloc: Global, shape: Shape, text: &[u8]) -> Result<Kind, AllocError>
    ensures { IfOk result (λ k. Says shape text.now k) }
{
    match shape {
        Shape::Address => match read_addr(text) {
            Ok(addr) => Ok(Kind::Addr(Boxed::new(alloc, addr)?)),
            Err(_) => Ok(Kind::BadNumber),
        },
        Shape::Prefix => match read_prefix(text) {
            Ok(prefix) => Ok(Kind::Prefix(Boxed::new(alloc, prefix)?)),
            Err(_) => Ok(Kind::BadNumber),
        },
        Shape::Number => match read_asn(text) {
            Ok(number) => Ok(Kind::Number(number.0)),
            Err(_) => Ok(Kind::BadNumber),
        },
        Shape::Word => word_kind(alloc, text),
        Shape::Text => {
            let text = Items::from_slice(alloc, text)?;
            Ok(Kind::Text(Boxed::new(alloc, text)?))
        }
        Shape::Mark(mark) => Ok(Kind::Mark(mark)),
        Shape::Stray => Ok(Kind::BadByte),
    }
}

/// The token at the front of a text, and what is behind it. Where more than `plain` bytes are left, it is no
/// IPv6 address.
fn token_at(alloc: Global, bytes: &[u8], plain: usize) -> Result<(Kind, &[u8]), AllocError>
    requires some { 0 < length bytes.now }
    requires known { plain < length bytes.now → is_colon_text bytes.now ≡ false }
    ensures { IfOk result (λ x. Stands x.0 bytes.now x.1.now) }
{
    let piece = piece_at(bytes, plain);
    let kind = kind_of(alloc, piece.shape, piece.text)?;
    Ok((kind, piece.rest))
}

/// The tokens of any bytes. Where one of them stands in no text, it is the last.
pub fn tokens_of(alloc: Global, bytes: &[u8]) -> Result<Vec<Token>, AllocError>
    ensures { IfOk result (λ v. HasTokens bytes.now (kinds v.items)) }
{
    let mut tokens = Vec::new(alloc);
    let mut rest = behind_gap(bytes);
    let mut plain = rest.len();
    'bytes: while !rest.is_empty() {
        let (kind, after) = token_at(alloc, rest, plain)?;
        let is_last = kind.is_last();
        tokens.push(Token { kind })?;
        if is_last {
            break;
        }
        plain = plain_behind(rest, after, plain);
        rest = behind_gap(after);
    }
    Ok(tokens)
}

/// How many bytes of a text are left where the token begins before which there are so many others.
pub fn left_at(bytes: &[u8], others: usize) -> usize
    requires { (tokens : List Placed) × Tokens bytes.now tokens × (others < length tokens) }
    ensures { (tokens : List Placed) → Tokens bytes.now tokens
        → IfSome (slice_get tokens others) (λ t. result ≡ t.left) }
{
    let mut rest = behind_gap(bytes);
    let mut plain = rest.len();
    let mut more = others;
    'tokens: while more > 0 {
        let after = piece_at(rest, plain).rest;
        plain = plain_behind(rest, after, plain);
        rest = behind_gap(after);
        more -= 1;
    }
    rest.len()
}
