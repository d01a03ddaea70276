//! How a text is cut into pieces, each as long as it can be.
ghost use Rattle.std.specs.Prelude.{◌≡◌, ◌==◌, false, [], ◌∷◌, ◌≤◌, ◌<◌, length, IfSome, option_map};
ghost use Rattle.ixp_lang_tokens.specs.Bytes.{begins_with};
ghost use Rattle.ixp_lang_tokens.specs.Cutting.{
  behind_digits,
  behind_number,
  behind_dotted,
  has_two_colons,
  is_colon_text,
  behind_address,
};
ghost use Rattle.ixp_lang_tokens.specs.Cutting.{
  plain_behind,
  double_mark,
  bracket,
  point,
  operator,
  single_mark,
  piece,
  mark_piece,
  text_piece,
  plain_piece,
  address_piece,
  piece_at,
  run_of,
  behind_run,
};

use crate::Mark;
use crate::runs::{Class, before, behind_run, is_digit, is_letter, run_of};

/// The greatest number of bytes in a string.
const TEXT_LIMIT: usize = 64;

/// What stands at the front of a text, by its bytes alone.
#[derive(Clone, Copy)]
pub(crate) enum Shape {
    Address,
    /// An address, a slash and digits.
    Prefix,
    /// Digits.
    Number,
    /// A name or a keyword.
    Word,
    /// What stands between two quotes.
    Text,
    Mark(Mark),
    /// Nothing that begins a token.
    Stray,
}

/// A piece of a text.
#[derive(Clone, Copy)]
pub(crate) struct Piece<'a> {
    pub shape: Shape,
    /// What it says; nothing, if the shape says it all.
    pub text: &'a [u8],
    /// What is behind it.
    pub rest: &'a [u8],
}

/// What is behind digits.
fn behind_digits(bytes: &[u8]) -> Option<&[u8]>
    ensures rest { option_map (λ r. r.now) result ≡ behind_digits bytes.now }
    ensures shorter { IfSome result (λ r. length r.now < length bytes.now) }
{
    match bytes {
        [first, rest @ ..] if is_digit(*first) => Some(behind_run(Class::Digit, rest)),
        _ => None,
    }
}

/// What is behind this byte and digits.
fn behind_number(mark: u8, bytes: &[u8]) -> Option<&[u8]>
    ensures rest { option_map (λ r. r.now) result ≡ behind_number mark bytes.now }
    ensures shorter { IfSome result (λ r. length r.now < length bytes.now) }
{
    match bytes {
        [first, rest @ ..] if *first == mark => behind_digits(rest),
        _ => None,
    }
}

/// What is behind four numbers with dots.
#[tactic(auto, unfolding(crate::specs::Cutting::behind_dotted))]
fn behind_dotted(bytes: &[u8]) -> Option<&[u8]>
    ensures rest { option_map (λ r. r.now) result ≡ behind_dotted bytes.now }
    ensures shorter { IfSome result (λ r. length r.now < length bytes.now) }
{
    let rest = behind_digits(bytes)?;
    let rest = behind_number(b'.', rest)?;
    let rest = behind_number(b'.', rest)?;
    behind_number(b'.', rest)
}

/// Whether there are two colons or more.
fn has_two_colons(bytes: &[u8]) -> bool
    ensures { result ≡ has_two_colons bytes.now }
{
    let mut has_one = false;
    let mut rest = bytes;
    'colons: while let [first, after @ ..] = rest {
        if *first == b':' {
            if has_one {
                return true;
            }
            has_one = true;
        }
        rest = after;
    }
    false
}

/// Whether an IPv6 address is at the front, be it well formed or not. None begins with a dot.
#[tactic(auto, unfolding(crate::specs::Cutting::is_colon_text))]
fn is_colon_text(bytes: &[u8]) -> bool
    ensures { result ≡ is_colon_text bytes.now }
{
    match bytes {
        [b'.', ..] => false,
        _ => has_two_colons(run_of(Class::Address, bytes)),
    }
}

/// What is behind an address of either family, be it well formed or not. Where more than `plain` bytes are
/// left, the first isn't an IPv6 address.
#[tactic(auto, unfolding(crate::specs::Cutting::behind_address))]
fn behind_address(bytes: &[u8], plain: usize) -> Option<&[u8]>
    requires { plain < length bytes.now → is_colon_text bytes.now ≡ false }
    ensures rest { option_map (λ r. r.now) result ≡ behind_address bytes.now }
{
    if bytes.len() <= plain && is_colon_text(bytes) {
        return Some(behind_run(Class::Address, bytes));
    }
    behind_dotted(bytes)
}

fn double_mark(first: u8, second: u8) -> Option<Mark>
    ensures { result ≡ double_mark first second }
{
    match (first, second) {
        (b'.', b'.') => Some(Mark::Range),
        (b'!', b'=') => Some(Mark::Unequal),
        (b'!', b'~') => Some(Mark::NotIn),
        (b'<', b'=') => Some(Mark::LessEqual),
        (b'>', b'=') => Some(Mark::GreaterEqual),
        (b'&', b'&') => Some(Mark::And),
        (b'|', b'|') => Some(Mark::Or),
        (b'-', b'>') => Some(Mark::Arrow),
        _ => None,
    }
}

fn bracket(byte: u8) -> Option<Mark>
    ensures { result ≡ bracket byte }
{
    match byte {
        b'(' => Some(Mark::Open),
        b')' => Some(Mark::Close),
        b'{' => Some(Mark::BlockOpen),
        b'}' => Some(Mark::BlockClose),
        b'[' => Some(Mark::SetOpen),
        b']' => Some(Mark::SetClose),
        _ => None,
    }
}

fn point(byte: u8) -> Option<Mark>
    ensures { result ≡ point byte }
{
    match byte {
        b';' => Some(Mark::Semicolon),
        b',' => Some(Mark::Comma),
        b'.' => Some(Mark::Dot),
        b':' => Some(Mark::Colon),
        _ => None,
    }
}

fn operator(byte: u8) -> Option<Mark>
    ensures { result ≡ operator byte }
{
    match byte {
        b'=' => Some(Mark::Equal),
        b'<' => Some(Mark::Less),
        b'>' => Some(Mark::Greater),
        b'~' => Some(Mark::In),
        b'!' => Some(Mark::Not),
        b'+' => Some(Mark::Plus),
        b'-' => Some(Mark::Minus),
        b'*' => Some(Mark::Star),
        b'/' => Some(Mark::Slash),
        _ => None,
    }
}

#[tactic(auto, unfolding(crate::specs::Cutting::single_mark))]
fn single_mark(byte: u8) -> Option<Mark>
    ensures { result ≡ single_mark byte }
{
    bracket(byte).or(point(byte)).or(operator(byte))
}

fn plain<'a>(shape: Shape, rest: &'a [u8]) -> Piece<'a>
    ensures { piece result.shape result.text.now result.rest.now ≡ piece shape [] rest.now }
{
    Piece {
        shape,
        text: &[],
        rest,
    }
}

/// The mark that begins with this byte, the longest one.
#[tactic(auto, unfolding(crate::specs::Cutting::mark_piece))]
fn mark_piece(first: u8, behind: &[u8]) -> Piece<'_>
    ensures cut { piece result.shape result.text.now result.rest.now ≡ mark_piece first behind.now }
{
    if let [second, rest @ ..] = behind
        && let Some(mark) = double_mark(first, *second)
    {
        return plain(Shape::Mark(mark), rest);
    }
    match single_mark(first) {
        Some(mark) => plain(Shape::Mark(mark), behind),
        None => plain(Shape::Stray, behind),
    }
}

/// What is left of a string behind its opening quote.
#[tactic(auto, unfolding(crate::specs::Cutting::text_piece))]
fn text_piece(bytes: &[u8]) -> Piece<'_>
    ensures { piece result.shape result.text.now result.rest.now ≡ text_piece bytes.now }
{
    let text = run_of(Class::Text, bytes);
    match behind_run(Class::Text, bytes) {
        [quote, rest @ ..] if *quote == b'"' && text.len() <= TEXT_LIMIT => Piece {
            shape: Shape::Text,
            text,
            rest,
        },
        _ => plain(Shape::Stray, bytes),
    }
}

fn run_piece(shape: Shape, class: Class, bytes: &[u8]) -> Piece<'_>
    ensures { piece result.shape result.text.now result.rest.now
        ≡ piece shape (run_of class bytes.now) (behind_run class bytes.now) }
{
    Piece {
        shape,
        text: run_of(class, bytes),
        rest: behind_run(class, bytes),
    }
}

/// A piece where no address stands.
#[tactic(auto, unfolding(crate::specs::Cutting::plain_piece))]
fn plain_piece(bytes: &[u8]) -> Piece<'_>
    ensures { piece result.shape result.text.now result.rest.now ≡ plain_piece bytes.now }
{
    let [first, behind @ ..] = bytes else {
        return plain(Shape::Stray, bytes);
    };
    if is_digit(*first) {
        return run_piece(Shape::Number, Class::Digit, bytes);
    }
    if is_letter(*first) {
        return run_piece(Shape::Word, Class::Word, bytes);
    }
    if *first == b'"' {
        return text_piece(behind);
    }
    mark_piece(*first, behind)
}

/// The address, or the prefix where a slash and digits are behind it.
fn address_piece<'a>(bytes: &'a [u8], behind: &'a [u8]) -> Piece<'a>
    ensures { piece result.shape result.text.now result.rest.now
        ≡ address_piece bytes.now behind.now (behind_number 47 behind.now) }
{
    match behind_number(b'/', behind) {
        Some(rest) => Piece {
            shape: Shape::Prefix,
            text: before(bytes, rest),
            rest,
        },
        None => Piece {
            shape: Shape::Address,
            text: before(bytes, behind),
            rest: behind,
        },
    }
}

/// The piece at the front of a text. Where more than `plain` bytes are left, it is no IPv6 address.
#[tactic(auto, unfolding(crate::specs::Cutting::piece_at))]
pub(crate) fn piece_at(bytes: &[u8], plain: usize) -> Piece<'_>
    requires { plain < length bytes.now → is_colon_text bytes.now ≡ false }
    ensures { piece result.shape result.text.now result.rest.now ≡ piece_at bytes.now }
{
    match behind_address(bytes, plain) {
        Some(behind) => address_piece(bytes, behind),
        None => plain_piece(bytes),
    }
}

fn begins_with_dot(bytes: &[u8]) -> bool
    ensures { result ≡ begins_with (λ b. b == 46) bytes.now }
{
    match bytes {
        [first, ..] => *first == b'.',
        [] => false,
    }
}

/// No IPv6 address begins where more bytes than this are left, once the text's first token was read, and what
/// is `after` it comes next. So no run of digits and dots is looked through again at each of its numbers.
pub(crate) fn plain_behind(bytes: &[u8], after: &[u8], plain: usize) -> usize
    ensures { result ≡ plain_behind bytes.now after.now plain }
{
    if bytes.len() > plain || begins_with_dot(bytes) {
        return plain;
    }
    let left = behind_run(Class::Address, bytes).len();
    if left < after.len() { left } else { plain }
}
