//! The rows of one kind.
ghost use Rattle.std.specs.Prelude.{
  ◌≡◌,
  ◌<◌,
  ◌++◌,
  ◌∷◌,
  [],
  List,
  ℕ,
  length,
  map,
  OnOk,
  IfOk,
  IfSome,
  option_map,
};
ghost use Rattle.std.specs.List.{AllByRecursion};
ghost use Rattle.ixp_num_tables.specs.Tables.{Ascends};
ghost use Rattle.ixp_rows.specs.Reading.{Gives, behind, last_key, misplaced, line_at, section};
ghost use Rattle.ixp_rows_lines.specs.Reading.{Gives as Says};

use crate::misread::Misread;
use ixp_rows_lines::{Kind, Lined, Unread, Version, word_of};
use std::alloc::{AllocError, Global};
use std::cmp::Ordering;

#[tactic(auto, unfolding(crate::specs::Reading::behind))]
fn behind(kind: Kind, text: &[u8]) -> Option<&[u8]>
    ensures reads { option_map (λ rest. rest.now) result ≡ behind kind text.now }
    ensures shorter { IfSome result (λ rest. length rest.now < length text.now) }
{
    let rest = text.strip_prefix(word_of(kind))?;
    match rest {
        [b' ', ..] => Some(rest),
        _ => None,
    }
}

/// The fault of a row behind others, at a line where so many bytes are left.
fn misplaced<K: Lined>(left: usize, rows: &[K], row: &K) -> Option<Misread>
    ensures { result ≡ misplaced left (last_key K.key rows.now) (K.key row.now) }
{
    match rows.last() {
        None => None,
        Some(last) => match last.order_lines(row) {
            Ordering::Less => None,
            Ordering::Equal => Some(Misread::Twice { left }),
            Ordering::Greater => Some(Misread::Order { left }),
        },
    }
}

/// The next row of the kind, if one begins here, and what is behind its line.
#[tactic(auto, unfolding(crate::specs::Reading::line_at), using(ixp_rows_lines::proofs::Lengths::fields_less))]
pub(crate) fn line_of<K: Lined + Drop>(
    alloc: Global,
    version: Version,
    text: &[u8],
) -> Result<Option<(K, &[u8])>, Unread>
    ensures reads { Says (option_map (λ x. (K.fields version x.0, x.1.now))) result
        (line_at version K.row_kind text.now) }
    ensures shorter { IfOk result (λ o. IfSome o (λ x. length x.1.now < length text.now)) }
    ensures of_version { IfOk result (λ o. IfSome o (λ x. K.of_version version x.0)) }
{
    match behind(K::kind(), text) {
        Some(rest) => {
            let (row, after) = K::read(alloc, version, rest)?;
            Ok(Some((row, after)))
        }
        None => Ok(None),
    }
}

fn push<R: Drop>(rows: &mut Vec<R>, row: R) -> Result<(), AllocError>
    ensures { OnOk result (rows.new.items ≡ rows.old.items ++ row ∷ []) }
{
    rows.push(row)?;
    Ok(())
}

/// The rows of a kind that follow one another at the front of a text, and what is behind them.
pub(crate) fn section<K: Lined + Drop>(
    alloc: Global,
    version: Version,
    text: &[u8],
) -> Result<(Vec<K>, &[u8]), Misread>
    ensures reads { Gives (λ x. (map (K.fields version) x.0.items, x.1.now)) result
        (section version K.row_kind text.now) }
    ensures ascends { IfOk result (λ x. Ascends K.key x.0.items) }
    ensures of_version { IfOk result (λ x. AllByRecursion (K.of_version version) x.0.items) }
{
    let mut rows = Vec::new(alloc);
    let mut rest = text;
    'each: loop {
        match line_of::<K>(alloc, version, rest) {
            Ok(Some((row, after))) => {
                if let Some(misread) = misplaced(rest.len(), rows.as_slice(), &row) {
                    return Err(misread);
                }
                push(&mut rows, row)?;
                rest = after;
            }
            Ok(None) => return Ok((rows, rest)),
            Err(Unread::Bad) => return Err(Misread::Bad { left: rest.len() }),
            Err(Unread::NoMemory) => return Err(Misread::NoMemory),
        }
    }
}
