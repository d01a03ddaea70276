//! Texts, cut at a byte.
ghost use Rattle.std.specs.Prelude.{◌≡◌, ◌≢◌, ◌==◌, ◌++◌, ℕ, List, [], MatchOption, position};
ghost use Rattle.ixp_eval_trial.specs.Cutting.{IsFree, IsParted, IsCut, Leads};

/// Where the first mark stands.
fn first_mark(mark: u8, t: &[u8]) -> Option<usize>
    ensures { result ≡ position (λ b. b == mark) t.now }
{
    t.iter().position(|b| *b == mark)
}

/// The bytes before the first mark, and those from it on.
fn parted(mark: u8, t: &[u8]) -> (&[u8], &[u8])
    ensures { IsParted mark t.now result.0.now result.1.now }
{
    t.split_at(first_mark(mark, t).unwrap_or(t.len()))
}

/// The bytes before the first mark, and those behind it; None where there is no mark.
pub(crate) fn cut(mark: u8, t: &[u8]) -> Option<(&[u8], &[u8])>
    ensures { MatchOption result (IsFree mark t.now) (λ p. IsCut mark t.now p.0.now p.1.now) }
{
    let (front, back) = parted(mark, t);
    match back {
        [_, rest @ ..] => Some((front, rest)),
        [] => None,
    }
}

/// The first line, and what is behind its end; None of a text without bytes.
#[tactic(auto, using(crate::proofs::Cuts::leads_last))]
pub(crate) fn first_line(t: &[u8]) -> Option<(&[u8], &[u8])>
    ensures { MatchOption result (t.now ≡ []) (λ p. Leads t.now p.0.now p.1.now) }
{
    if t.is_empty() {
        return None;
    }
    match cut(b'\n', t) {
        Some((line, behind)) => Some((line, behind)),
        None => Some((t, &[])),
    }
}

/// What is behind these bytes at the front.
pub(crate) fn after_front<'a>(front: &[u8], t: &'a [u8]) -> Option<&'a [u8]>
    ensures { MatchOption result ((rest : List ℕ) → t.now ≢ front.now ++ rest)
        (λ rest. t.now ≡ front.now ++ rest.now) }
{
    t.strip_prefix(front)
}
