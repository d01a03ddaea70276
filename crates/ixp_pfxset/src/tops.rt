//! How many patterns the merged set has, so that the memory for it is taken once and no more than it needs.
ghost use Rattle.std.specs.Prelude.{◌≤◌, length};
ghost use Rattle.std.specs.List.Sorted.{IsNonDecreasingBy};
ghost use Rattle.ixp_num.specs.Families.{bits_of};
ghost use Rattle.ixp_pfxset.specs.Groups.{rank};

use crate::full::{first_half, second_half};
use crate::groups::rows_of;
use crate::trie::{parted, whole};
use ixp_num::{Family, Prefix};

/// How many of the longest full prefixes of the rows, which have length `l`, lie in `n`, and whether `n` is
/// full.
fn tops_within(list: &[Prefix], l: u8, n: &Prefix) -> (usize, bool)
    requires longer { n.now.len ≤ l }
    requires short { l ≤ bits_of n.now.family }
    requires sorted { IsNonDecreasingBy (λ r. r.value) list.now }
    ensures { result.0 ≤ length list.now }
{
    if list.is_empty() {
        return (0, false);
    }
    if n.len == l {
        return (1, true);
    }
    if list.len() == 1 {
        return (1, false);
    }
    let first = first_half(n);
    let second = second_half(n);
    let (low, upper) = parted(list, second.value);
    let (low_tops, low_full) = tops_within(low, l, &first);
    let (upper_tops, upper_full) = tops_within(upper, l, &second);
    if low_full & upper_full {
        return (1, true);
    }
    (low_tops + upper_tops, false)
}

/// How many patterns there are for the prefixes of a family and a length, of which these are the rows.
fn tops_of_length(rows: &[Prefix], family: Family, l: u8) -> usize
    requires short { l ≤ bits_of family }
    requires sorted { IsNonDecreasingBy (λ r. r.value) rows.now }
    ensures { result ≤ length rows.now }
{
    let (tops, _) = tops_within(rows, l, &whole(family));
    tops
}

/// How many there are for the prefixes of a family.
pub(crate) fn tops_of_family(list: &[Prefix], family: Family) -> usize
    requires { IsNonDecreasingBy rank list.now }
{
    let mut tops = 0usize;
    for l in 0..=family.bits() {
        let rows = rows_of(list, family, l);
        tops = tops.saturating_add(tops_of_length(rows, family, l));
    }
    tops
}
