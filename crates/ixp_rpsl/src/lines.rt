//! Lines of a text, and other parts of it.
ghost use Rattle.std.specs.Prelude.{◌≡◌, ◌+◌, ◌<◌, ◌≤◌, ◌==◌, ◌∷◌, [], length, IfSome, MatchOption};
ghost use Rattle.std.specs.List.{position, slice_split, before_first};
ghost use Rattle.std.specs.Str.Lines.{lines, strip_carriage_return};
ghost use Rattle.ixp_rpsl.specs.Lines.{is_remark};

/// Where the first such byte is.
fn place_of(mark: u8, t: &[u8]) -> Option<usize>
    ensures { result ≡ position (λ b. b == mark) t.now }
{
    t.iter().position(|b| *b == mark)
}

/// What is before the first such byte, and what is behind it.
pub fn parted(mark: u8, t: &[u8]) -> Option<(&[u8], &[u8])>
    ensures parts { MatchOption result (slice_split (λ b. b == mark) t.now ≡ t.now ∷ [])
        (λ p. slice_split (λ b. b == mark) t.now ≡ p.0.now ∷ slice_split (λ b. b == mark) p.1.now) }
    ensures shorter { IfSome result (λ p. length p.1.now < length t.now) }
{
    match place_of(mark, t) {
        Some(at) => Some((&t[..at], &t[at + 1..])),
        None => None,
    }
}

/// What is before the first such byte, or all where there is none.
pub(crate) fn before(mark: u8, t: &[u8]) -> &[u8]
    ensures { result.now ≡ before_first (λ b. b == mark) t.now }
{
    match place_of(mark, t) {
        Some(at) => &t[..at],
        None => t,
    }
}

/// A line without the carriage return at its end, if it has one.
fn without_return(line: &[u8]) -> &[u8]
    ensures { result.now ≡ strip_carriage_return line.now }
{
    match line {
        [front @ .., b'\r'] => front,
        _ => line,
    }
}

/// The first line of a text that isn't empty, and what is behind it.
pub(crate) fn first_line(t: &[u8]) -> (&[u8], &[u8])
    requires { 0 < length t.now }
    ensures lines { lines t.now ≡ result.0.now ∷ lines result.1.now }
    ensures shorter { length result.1.now < length t.now }
{
    match parted(b'\n', t) {
        Some((line, rest)) => (without_return(line), rest),
        None => (t, &[]),
    }
}

/// Whether a line is what a server says about its data.
pub(crate) fn is_remark(line: &[u8]) -> bool
    ensures { result ≡ is_remark line.now }
{
    match line {
        [] => false,
        [first, ..] => *first == b'%' || *first == b'#',
    }
}
