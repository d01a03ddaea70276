//! Runs of bytes of one class.
ghost use Rattle.std.specs.Prelude.{◌≡◌, ◌≤◌, length};
ghost use Rattle.ixp_lang_tokens.specs.Bytes.{is_in, is_digit, is_letter};
ghost use Rattle.ixp_lang_tokens.specs.Cutting.{run_of, behind_run, before};

/// A class of bytes.
#[derive(Clone, Copy)]
pub(crate) enum Class {
    Digit,
    /// Letters, digits and `_`.
    Word,
    /// Hexadecimal digits, `:` and `.`.
    Address,
    /// Printable ASCII but `"`.
    Text,
    /// All but the line feed.
    Line,
}

pub(crate) fn is_digit(byte: u8) -> bool
    ensures { result ≡ is_digit byte }
{
    b'0' <= byte && byte <= b'9'
}

/// A letter or `_`.
pub(crate) fn is_letter(byte: u8) -> bool
    ensures { result ≡ is_letter byte }
{
    (b'a' <= byte && byte <= b'z') || (b'A' <= byte && byte <= b'Z') || byte == b'_'
}

fn is_address_byte(byte: u8) -> bool
    ensures { result ≡ is_in Class.Address byte }
{
    is_digit(byte)
        || (b'a' <= byte && byte <= b'f')
        || (b'A' <= byte && byte <= b'F')
        || byte == b':'
        || byte == b'.'
}

fn is_in(class: Class, byte: u8) -> bool
    ensures { result ≡ is_in class byte }
{
    match class {
        Class::Digit => is_digit(byte),
        Class::Word => is_letter(byte) || is_digit(byte),
        Class::Address => is_address_byte(byte),
        Class::Text => b' ' <= byte && byte <= b'~' && byte != b'"',
        Class::Line => byte != b'\n',
    }
}

/// What is behind the bytes of the class at the front.
pub(crate) fn behind_run(class: Class, bytes: &[u8]) -> &[u8]
    ensures rest { result.now ≡ behind_run class bytes.now }
    ensures shorter { length result.now ≤ length bytes.now }
{
    let mut rest = bytes;
    'run: while let [first, after @ ..] = rest {
        if !is_in(class, *first) {
            break;
        }
        rest = after;
    }
    rest
}

/// What is before the rest.
pub(crate) fn before<'a>(bytes: &'a [u8], rest: &[u8]) -> &'a [u8]
    ensures { result.now ≡ before bytes.now rest.now }
{
    &bytes[..bytes.len().saturating_sub(rest.len())]
}

/// The bytes of the class at the front.
#[tactic(auto, using(crate::proofs::RunLaws::run_is_before))]
pub(crate) fn run_of(class: Class, bytes: &[u8]) -> &[u8]
    ensures { result.now ≡ run_of class bytes.now }
{
    before(bytes, behind_run(class, bytes))
}
