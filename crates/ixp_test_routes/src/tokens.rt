//! Texts and their tokens, counted by hand from the rules of the language.
ghost use Rattle.ixp_lang_tokens.specs.Reading.{kinds};
ghost use Rattle.ixp_lang_tokens.specs.Tokens.{HasTokens};

use ixp_lang_tokens::{
    Keyword, Kind, Mark, Token, is_foreign, left_at, one_list, tokens_of, written_tokens,
};
use ixp_num::{Asn, print_addr, print_asn, print_prefix};
use std::alloc::{AllocError, Global};
use std::test::Fail;

/// Each text, and the place of each of its tokens, with what it is and what it says.
const TEXTS: &[(&[u8], &[u8])] = &[
    (b"", b""),
    (b" \t\r\n# to the end", b""),
    (b"/* a */ /**/ /*/ b */", b""),
    (b"/* a * / ** */x", b"14 name x, "),
    (b"a#b\nc/*d*/e", b"0 name a, 4 name c, 10 name e, "),
    (b"/* no end", b"0 mark, "),
    (b"a /", b"0 name a, 2 mark, "),
    (b"24then", b"0 number 24, 2 word then, "),
    (
        b"1.2.3",
        b"0 number 1, 1 mark, 2 number 2, 3 mark, 4 number 3, ",
    ),
    (b"1.2.3.4.5", b"0 address 1.2.3.4, 7 mark, 8 number 5, "),
    (b"1.2.3.256 1", b"0 bad number, "),
    (b"1.2.3.4/24", b"0 bad number, "),
    (b"1.2.3.0/24", b"0 prefix 1.2.3.0/24, "),
    (b"1.2.3.0/024", b"0 bad number, "),
    (b"1.2.3.4/x", b"0 address 1.2.3.4, 7 mark, "),
    (b"1.2.3.4 /24", b"0 address 1.2.3.4, 8 mark, "),
    (b"::1", b"0 address ::1, "),
    (b".::1", b"0 mark, 1 address ::1, "),
    (b"FE80::/10", b"0 prefix fe80::/10, "),
    (b"fe80::1/10", b"0 bad number, "),
    (b"a::b", b"0 address a::b, "),
    (b"1::2.3.4.5x", b"0 address 1::203:405, 10 name x, "),
    (b"a:b", b"0 name a, 1 mark, 2 name b, "),
    (b"1:2:3 x", b"0 bad number, "),
    (b"A.b_1", b"0 name A, 1 mark, 2 name b_1, "),
    (b"print printed", b"0 word print, 6 name printed, "),
    (b"4294967295", b"0 number 4294967295, "),
    (b"4294967296 1", b"0 bad number, "),
    (b"01", b"0 bad number, "),
    (b"0 1", b"0 number 0, 2 number 1, "),
    (b"..", b"0 mark, "),
    (b"...", b"0 mark, 2 mark, "),
    (b"&&&", b"0 mark, 2 bad byte, "),
    (b"&", b"0 bad byte, "),
    (b"x@y", b"0 name x, 1 bad byte, "),
    (b"\"a b\"c", b"0 text a b, 5 name c, "),
    (b"\"\"", b"0 text , "),
    (b"\"a", b"0 bad byte, "),
    (b"x \"a\nb\"", b"0 name x, 2 bad byte, "),
    // names and strings of 64 and of 65 bytes
    (
        b"aaaaaaaaaaaaaaaaaaaaaaaaaaaaaaaaaaaaaaaaaaaaaaaaaaaaaaaaaaaaaaaa",
        b"0 name aaaaaaaaaaaaaaaaaaaaaaaaaaaaaaaaaaaaaaaaaaaaaaaaaaaaaaaaaaaaaaaa, ",
    ),
    (
        b"aaaaaaaaaaaaaaaaaaaaaaaaaaaaaaaaaaaaaaaaaaaaaaaaaaaaaaaaaaaaaaaaa x",
        b"0 bad byte, ",
    ),
    (
        b"\"aaaaaaaaaaaaaaaaaaaaaaaaaaaaaaaaaaaaaaaaaaaaaaaaaaaaaaaaaaaaaaaa\"",
        b"0 text aaaaaaaaaaaaaaaaaaaaaaaaaaaaaaaaaaaaaaaaaaaaaaaaaaaaaaaaaaaaaaaa, ",
    ),
    (
        b"\"aaaaaaaaaaaaaaaaaaaaaaaaaaaaaaaaaaaaaaaaaaaaaaaaaaaaaaaaaaaaaaaaa\" x",
        b"0 bad byte, ",
    ),
];

const MARKS: &[(&[u8], Mark)] = &[
    (b";", Mark::Semicolon),
    (b",", Mark::Comma),
    (b".", Mark::Dot),
    (b"..", Mark::Range),
    (b":", Mark::Colon),
    (b"(", Mark::Open),
    (b")", Mark::Close),
    (b"{", Mark::BlockOpen),
    (b"}", Mark::BlockClose),
    (b"[", Mark::SetOpen),
    (b"]", Mark::SetClose),
    (b"=", Mark::Equal),
    (b"!=", Mark::Unequal),
    (b"<", Mark::Less),
    (b"<=", Mark::LessEqual),
    (b">", Mark::Greater),
    (b">=", Mark::GreaterEqual),
    (b"~", Mark::In),
    (b"!~", Mark::NotIn),
    (b"!", Mark::Not),
    (b"&&", Mark::And),
    (b"||", Mark::Or),
    (b"->", Mark::Arrow),
    (b"+", Mark::Plus),
    (b"-", Mark::Minus),
    (b"*", Mark::Star),
    (b"/", Mark::Slash),
];

fn show_kind(kind: &Kind, out: &mut Vec<u8>) -> Result<(), AllocError> {
    match kind {
        Kind::Name(name) => {
            out.extend_from_slice(b"name ")?;
            out.extend_from_slice(name.get().as_bytes())?;
        }
        Kind::Word(word) => {
            out.extend_from_slice(b"word ")?;
            out.extend_from_slice(word.as_bytes())?;
        }
        Kind::Number(number) => {
            out.extend_from_slice(b"number ")?;
            print_asn(Asn(*number), out)?;
        }
        Kind::Addr(addr) => {
            out.extend_from_slice(b"address ")?;
            print_addr(addr.get(), out)?;
        }
        Kind::Prefix(prefix) => {
            out.extend_from_slice(b"prefix ")?;
            print_prefix(prefix.get(), out)?;
        }
        Kind::Text(text) => {
            out.extend_from_slice(b"text ")?;
            out.extend_from_slice(text.get().as_slice())?;
        }
        Kind::Mark(_) => out.extend_from_slice(b"mark")?,
        Kind::BadByte => out.extend_from_slice(b"bad byte")?,
        Kind::BadNumber => out.extend_from_slice(b"bad number")?,
    }
    Ok(())
}

/// The place of the token before which there are so many others.
fn show_place(
    text: &[u8],
    tokens: &[Token],
    others: usize,
    out: &mut Vec<u8>,
) -> Result<(), AllocError>
    requires { HasTokens text.now (kinds tokens.now) }
{
    if others < tokens.len() {
        let place = text.len().saturating_sub(left_at(text, others));
        print_asn(Asn(u32::try_from(place).unwrap_or(u32::MAX)), out)?;
        out.push(b' ')?;
    }
    Ok(())
}

/// The tokens of a text, and their places.
fn shown(alloc: Global, text: &[u8]) -> Result<Vec<u8>, AllocError> {
    let tokens = tokens_of(alloc, text)?;
    let tokens = tokens.as_slice();
    let mut out = Vec::new(alloc);
    for (others, token) in tokens.iter().enumerate() {
        show_place(text, tokens, others, &mut out)?;
        show_kind(&token.kind, &mut out)?;
        out.extend_from_slice(b", ")?;
    }
    Ok(out)
}

#[test]
fn texts_have_their_tokens(rt: HostRuntime) -> Result<(), Fail> {
    for (text, tokens) in TEXTS {
        let found = shown(rt.alloc(), text)?;
        assert!(rt; found.as_slice() == *tokens, "{tokens:?}");
    }
    Ok(())
}

/// Whether the text is this one mark.
fn is_one_mark(alloc: Global, text: &[u8], mark: Mark) -> Result<bool, AllocError> {
    let tokens = tokens_of(alloc, text)?;
    match tokens.as_slice() {
        [token] => match &token.kind {
            Kind::Mark(found) => Ok(found.is(mark)),
            _ => Ok(false),
        },
        _ => Ok(false),
    }
}

#[test]
fn marks_have_their_texts(rt: HostRuntime) -> Result<(), Fail> {
    for (text, mark) in MARKS {
        assert!(rt; is_one_mark(rt.alloc(), text, *mark)?);
    }
    Ok(())
}

fn is_keyword(word: &[u8]) -> bool {
    Keyword::of(word).is_some()
}

#[test]
fn words(rt: HostRuntime) {
    one_list();
    written_tokens();
    assert!(rt; is_keyword(b"bgp_large_community") && !is_foreign(b"bgp_large_community"));
    assert!(rt; is_keyword(b"eclist") && is_foreign(b"eclist"));
    assert!(rt; !is_keyword(b"Filter") && !is_keyword(b"") && !is_keyword(b"id_"));
}

// A lexer that looks through the rest of the run at each token doesn't end within a test's time.
#[test]
fn a_long_run_is_looked_through_once(rt: HostRuntime) -> Result<(), Fail> {
    let mut text = Vec::new(rt.alloc());
    for _ in 0..100_000 {
        text.extend_from_slice(b"1.a.")?;
    }
    let tokens = tokens_of(rt.alloc(), text.as_slice())?;
    assert_eq!(rt; tokens.len(), 400_000);
    Ok(())
}
