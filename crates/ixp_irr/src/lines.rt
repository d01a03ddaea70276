//! Lines of a text, and other parts of it.
ghost use Rattle.std.specs.Prelude.{◌≡◌, ◌≢◌, ◌==◌, ◌∷◌, ◌++◌, ◌+◌, ◌<◌, ◌≤◌, length, position, MatchOption};
ghost use Rattle.std.specs.List.{AllByRecursion};
ghost use Rattle.std.specs.Str.Lines.{lines, strip_carriage_return};
ghost use Rattle.ixp_irr.specs.Lists.{counts};

/// Where the first such byte is.
fn place_of(mark: u8, t: &[u8]) -> Option<usize>
    ensures { result ≡ position (λ b. b == mark) t.now }
{
    t.iter().position(|b| *b == mark)
}

/// What is before the first such byte, and what is behind it.
pub(crate) fn parted(mark: u8, t: &[u8]) -> Option<(&[u8], &[u8])>
    ensures { MatchOption result (AllByRecursion (λ b. b ≢ mark) t.now)
        (λ p. (t.now ≡ p.0.now ++ mark ∷ p.1.now) × AllByRecursion (λ b. b ≢ mark) p.0.now) }
{
    match place_of(mark, t) {
        Some(at) => Some((&t[..at], &t[at + 1..])),
        None => None,
    }
}

/// A line without the carriage return at its end, if it has one.
fn without_return(line: &[u8]) -> &[u8]
    ensures { result.now ≡ strip_carriage_return line.now }
{
    match line {
        [front @ .., b'\r'] => front,
        _ => line,
    }
}

/// The first line of a text that isn't empty, and what is behind it.
pub(crate) fn first_line(t: &[u8]) -> (&[u8], &[u8])
    requires { 0 < length t.now }
    ensures lines { lines t.now ≡ result.0.now ∷ lines result.1.now }
    ensures shorter { length result.1.now + 1 ≤ length t.now }
{
    match parted(b'\n', t) {
        Some((line, rest)) => (without_return(line), rest),
        None => (t, &[]),
    }
}

/// Whether a line isn't empty and no comment.
pub(crate) fn counts(line: &[u8]) -> bool
    ensures { result ≡ counts line.now }
{
    match line {
        [] => false,
        [first, ..] => *first != b'#',
    }
}
