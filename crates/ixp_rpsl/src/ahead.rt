//! The lines of a text, one after another.
ghost use Rattle.std.specs.Prelude.{◌+◌, ◌<◌, ◌^◌, length};

use crate::lines::{first_line, is_remark};

/// A line, and its number in the text, counted from 1.
#[derive(Clone, Copy)]
pub struct Line<'a> {
    pub number: usize,
    pub bytes: &'a [u8],
}

/// What is ahead: a text, and how many lines stand before it.
#[derive(Clone, Copy)]
pub struct Ahead<'a> {
    pub text: &'a [u8],
    pub before: usize,
    pub ghost room: { before + length text.now < 2 ^ 64 },
}

impl<'a> Ahead<'a> {
    ghost use Rattle.std.specs.Prelude.{◌≡◌, ◌≤◌, ◌∷◌, [], MatchOption, IfSome};
    ghost use Rattle.std.specs.Str.Lines.{lines};
    ghost use Rattle.ixp_rpsl.specs.Lines.{lines_in, lines_ahead, line_of};

    /// The whole of a text.
    pub fn new(text: &'a [u8]) -> Ahead<'a>
        ensures { lines_ahead result ≡ lines_in text.now }
    {
        Ahead { text, before: 0 }
    }

    /// The next line, and what is behind it.
    fn first_line(self) -> (Line<'a>, Ahead<'a>)
        requires { 0 < length self.text.now }
        ensures lines { lines self.entry.text.now ≡ result.0.bytes.now ∷ lines result.1.text.now }
        ensures number { result.0.number ≡ self.entry.before + 1 }
        ensures before { result.1.before ≡ self.entry.before + 1 }
        ensures shorter { length result.1.text.now < length self.entry.text.now }
    {
        let (bytes, text) = first_line(self.text);
        let number = self.before + 1;
        let rest = Ahead {
            text,
            before: number,
        };
        (Line { number, bytes }, rest)
    }

    /// The next line that is no remark, and what is behind it.
    pub fn next_line(self) -> Option<(Line<'a>, Ahead<'a>)>
        ensures lines { MatchOption result (lines_ahead self.entry ≡ [])
            (λ p. lines_ahead self.entry ≡ line_of p.0 ∷ lines_ahead p.1) }
        ensures shorter { IfSome result (λ p. length p.1.text.now < length self.entry.text.now) }
    {
        let mut ahead = self;
        'lines: while !ahead.text.is_empty() {
            let (line, rest) = ahead.first_line();
            if !is_remark(line.bytes) {
                return Some((line, rest));
            }
            ahead = rest;
        }
        None
    }
}
