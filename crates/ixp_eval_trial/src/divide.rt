//! The two parts of an input.
ghost use Rattle.std.specs.Prelude.{◌≡◌, ◌≤◌, ◌+◌, List, ℕ, length, IfOk, IfErr};
ghost use Rattle.ixp_eval_trial.specs.Lines.{lines, ended, Divided, HasNoDivider, IsFilterText};

use crate::cutting::first_line;

/// The parts of an input.
#[derive(Clone, Copy, Debug)]
pub(crate) struct Parts<'a> {
    /// The bytes before the divider.
    pub filter: &'a [u8],
    /// The bytes behind the divider's end.
    pub behind: &'a [u8],
    /// The number of the first line behind it.
    pub line: u64,
}

/// The parts of an input at its first line that is `%%`. Where there is none, the number of the line behind
/// the last.
pub(crate) fn parts_of(input: &[u8]) -> Result<Parts<'_>, u64>
    ensures parts { IfOk result
        (λ p. (above : List (List ℕ)) × Divided input.now above (lines p.behind.now)
        × (p.filter.now ≡ ended above) × (p.line ≡ length above + 2)) }
    ensures within { IfOk result (λ p. p.line + length p.behind.now ≤ length input.now) }
    ensures none { IfErr result (λ n. HasNoDivider (lines input.now) × (n ≡ length (lines input.now) + 1)) }
{
    let mut rest = input;
    let mut before = 0u64;
    'each: while let Some((line, behind)) = first_line(rest) {
        if line == b"%%".as_slice() {
            let (filter, _) = input.split_at(input.len() - rest.len());
            return Ok(Parts {
                filter,
                behind,
                line: before + 2,
            });
        }
        rest = behind;
        before += 1;
    }
    Err(before + 1)
}

/// The filter text of an input: what stands above the first line that is `%%`, else all of it.
pub fn filter_text(input: &[u8]) -> &[u8]
    ensures { IsFilterText input.now result.now }
{
    match parts_of(input) {
        Ok(parts) => parts.filter,
        Err(_) => input,
    }
}
