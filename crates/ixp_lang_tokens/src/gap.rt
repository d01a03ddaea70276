//! Blanks and comments.
ghost use Rattle.std.specs.Prelude.{◌≡◌, ◌≤◌, ◌<◌, length, IfSome, option_map};
ghost use Rattle.ixp_lang_tokens.specs.Gaps.{is_blank, Gap};
ghost use Rattle.ixp_lang_tokens.specs.Cutting.{behind_comment, star_comment, behind_blank};

use crate::runs::{Class, behind_run};

fn is_blank(byte: u8) -> bool
    ensures { result ≡ is_blank byte }
{
    byte == b' ' || byte == b'\t' || byte == b'\r' || byte == b'\n'
}

/// What is behind the first `*/`.
fn behind_comment(bytes: &[u8]) -> Option<&[u8]>
    ensures rest { option_map (λ r. r.now) result ≡ behind_comment bytes.now }
    ensures shorter { IfSome result (λ r. length r.now ≤ length bytes.now) }
{
    let mut rest = bytes;
    'comment: while let [first, after @ ..] = rest {
        if *first == b'*'
            && let [b'/', behind @ ..] = after
        {
            return Some(behind);
        }
        rest = after;
    }
    None
}

/// What is behind a star and the first `*/` behind it.
fn star_comment(bytes: &[u8]) -> Option<&[u8]>
    ensures rest { option_map (λ r. r.now) result ≡ star_comment bytes.now }
    ensures shorter { IfSome result (λ r. length r.now ≤ length bytes.now) }
{
    match bytes {
        [first, rest @ ..] if *first == b'*' => behind_comment(rest),
        _ => None,
    }
}

/// What is behind one blank or comment.
fn behind_blank(bytes: &[u8]) -> Option<&[u8]>
    ensures rest { option_map (λ r. r.now) result ≡ behind_blank bytes.now }
    ensures shorter { IfSome result (λ r. length r.now < length bytes.now) }
{
    let [first, rest @ ..] = bytes else {
        return None;
    };
    if is_blank(*first) {
        return Some(rest);
    }
    if *first == b'#' {
        return Some(behind_run(Class::Line, rest));
    }
    if *first == b'/' {
        return star_comment(rest);
    }
    None
}

/// What is behind the blanks and comments at the front.
#[tactic(auto, using(crate::proofs::GapLaws::gap_here, crate::proofs::GapLaws::gap_more))]
pub(crate) fn behind_gap(bytes: &[u8]) -> &[u8]
    ensures gap { Gap bytes.now result.now }
    ensures shorter { length result.now ≤ length bytes.now }
{
    let mut rest = bytes;
    'gap: while let Some(after) = behind_blank(rest) {
        rest = after;
    }
    rest
}
