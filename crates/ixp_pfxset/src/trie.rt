//! The merged set, by walking down the binary trie of the rows of each length and merging it from its leaves.
//!
//! A node of the trie is a prefix with the rows that lie in it, which are a part of the sorted rows: so it
//! takes no memory, and the work is that of a few steps for each row and each of its bits.
ghost use Rattle.std.specs.Prelude.{[], ◌≡◌, ◌≤◌, ◌<◌, ◌↔◌, ◌⊎◌, ◌++◌, ◌&&◌, ◌==◌, true, IfOk, OnOk, IsTrue};
ghost use Rattle.std.specs.List.{All, Contains, filter};
ghost use Rattle.std.specs.List.Sorted.{IsNonDecreasingBy};
ghost use Rattle.ixp_num.specs.Families.{bits_of, same_family};
ghost use Rattle.ixp_num.specs.declared.pattern.Pattern.{Pattern};
ghost use Rattle.ixp_num.specs.declared.prefix.Prefix.{Prefix};
ghost use Rattle.ixp_pfxset.specs.BlockList.{blocks};
ghost use Rattle.ixp_pfxset.specs.Blocks.{IsNew};
ghost use Rattle.ixp_pfxset.specs.Groups.{rank};
ghost use Rattle.ixp_pfxset.specs.Plain.{Fills};
ghost use Rattle.ixp_pfxset.specs.Trie.{AllWithin, IsMerged, IsMergedBelow, IsOfFamily};

use crate::full::{first_half, second_half};
use crate::groups::{in_groups, rows_of};
use crate::mode::Mode;
use crate::ordered::in_order;
use crate::plain::upper_bound;
use crate::rows::new_rows;
use crate::tops::tops_of_family;
use ixp_num::{Family, Pattern, Prefix};
use std::alloc::{AllocError, Global};

/// The rows whose numbers are below `middle`, and the others.
pub(crate) fn parted(list: &[Prefix], middle: u128) -> (&[Prefix], &[Prefix])
    requires { IsNonDecreasingBy (λ r. r.value) list.now }
    ensures both { list.now ≡ result.0.now ++ result.1.now }
    ensures below { All (λ r. r.value < middle) result.0.now }
    ensures above { All (λ r. middle ≤ r.value) result.1.now }
    ensures first { IsNonDecreasingBy (λ r. r.value) result.0.now }
    ensures second { IsNonDecreasingBy (λ r. r.value) result.1.now }
{
    let place = list.partition_point(|r| r.value < middle);
    list.split_at(place)
}

/// Adds the pattern of the prefix, if it is wanted.
fn push_if(
    out: &mut Vec<Pattern>,
    wanted: bool,
    prefix: &Prefix,
    low: u8,
    high: u8,
) -> Result<(), AllocError>
    ensures { OnOk result
        ((t : Pattern) → Contains out.new.items t
        ↔ (Contains out.old.items t
        ⊎ ((wanted ≡ true) × (t ≡ record { prefix = prefix.now; low = low; high = high })))) }
{
    if wanted {
        out.push(Pattern {
            prefix: *prefix,
            low,
            high,
        })?;
    }
    Ok(())
}

/// Adds the pattern of a row that is alone.
fn push_row(out: &mut Vec<Pattern>, row: &Prefix, l: u8, high: u8) -> Result<(), AllocError>
    ensures { OnOk result
        ((t : Pattern) → Contains out.new.items t
        ↔ (Contains out.old.items t ⊎ (t ≡ record { prefix = row.now; low = l; high = high }))) }
{
    out.push(Pattern {
        prefix: *row,
        low: l,
        high,
    })?;
    Ok(())
}

/// Whether the list, all of whose rows have length `l` and lie in `n`, has all such prefixes. Adds the
/// patterns of the longest full prefixes within `n`, unless `n` itself is full.
fn merge(
    out: &mut Vec<Pattern>,
    list: &[Prefix],
    l: u8,
    high: u8,
    n: &Prefix,
) -> Result<bool, AllocError>
    requires longer { n.now.len ≤ l }
    requires short { l ≤ bits_of n.now.family }
    requires sorted { IsNonDecreasingBy (λ r. r.value) list.now }
    requires within { AllWithin list.now l n.now }
    ensures full { IfOk result (λ b. IsTrue b ↔ Fills list.now l n.now) }
    ensures adds { OnOk result
        ((t : Pattern) → Contains out.new.items t
        ↔ (Contains out.old.items t ⊎ IsMergedBelow list.now l high n.now t)) }
{
    if list.is_empty() {
        return Ok(false);
    }
    if n.len == l {
        return Ok(true);
    }
    if let [only] = list {
        push_row(out, only, l, high)?;
        return Ok(false);
    }
    let first = first_half(n);
    let second = second_half(n);
    let (low, upper) = parted(list, second.value);
    let low_full = merge(out, low, l, high, &first)?;
    let upper_full = merge(out, upper, l, high, &second)?;
    push_if(out, low_full & !upper_full, &first, l, high)?;
    push_if(out, upper_full & !low_full, &second, l, high)?;
    Ok(low_full & upper_full)
}

/// The prefix of length 0.
pub(crate) fn whole(family: Family) -> Prefix
    ensures family { result.family ≡ family }
    ensures len { result.len ≡ 0 }
{
    Prefix {
        family,
        value: 0,
        len: 0,
    }
}

/// Adds the patterns for the prefixes of a family and a length, of which these are the rows.
fn merge_length(
    out: &mut Vec<Pattern>,
    rows: &[Prefix],
    family: Family,
    l: u8,
    high: u8,
) -> Result<(), AllocError>
    requires short { l ≤ bits_of family }
    requires alike { filter (λ r. same_family r.family family && r.len == l) rows.now ≡ rows.now }
    requires sorted { IsNonDecreasingBy (λ r. r.value) rows.now }
    ensures { OnOk result
        ((t : Pattern) → Contains out.new.items t
        ↔ (Contains out.old.items t ⊎ ((t.prefix.family ≡ family) × IsMerged rows.now l high t))) }
{
    let whole = whole(family);
    let full = merge(out, rows, l, high, &whole)?;
    push_if(out, full, &whole, l, high)?;
    Ok(())
}

/// Adds the patterns for the prefixes of a family.
fn merge_family(
    out: &mut Vec<Pattern>,
    list: &[Prefix],
    mode: Mode,
    high: u8,
    family: Family,
) -> Result<(), AllocError>
    requires { IsNonDecreasingBy rank list.now }
    ensures { OnOk result
        ((t : Pattern) → Contains out.new.items t
        ↔ (Contains out.old.items t ⊎ IsOfFamily list.now mode high family t)) }
{
    for l in 0..=high.min(family.bits()) {
        let rows = rows_of(list, family, l);
        merge_length(out, rows, family, l, upper_bound(mode, high, l))?;
    }
    Ok(())
}

/// The new prefixes by family and length.
fn new_in_groups(
    alloc: Global,
    rows: &[Prefix],
    mode: Mode,
    high: u8,
) -> Result<Vec<Prefix>, AllocError>
    ensures sorted { IfOk result (λ list. IsNonDecreasingBy rank list.items) }
    ensures members { IfOk result
        (λ list. (q : Prefix) → Contains list.items q ↔ IsNew rows.now mode high q) }
{
    let list = new_rows(alloc, rows, mode, high)?;
    Ok(in_groups(list))
}

/// An empty list with room for the merged set of these rows alone.
fn room_for(alloc: Global, list: &[Prefix]) -> Result<Vec<Pattern>, AllocError>
    requires { IsNonDecreasingBy rank list.now }
    ensures { IfOk result (λ ts. ts.items ≡ []) }
{
    let four = tops_of_family(list, Family::V4);
    let six = tops_of_family(list, Family::V6);
    Vec::with_capacity(alloc, four.saturating_add(six))
}

/// The merged set of the rows, in order: what they allow of lengths up to `high`, as `blocks_plain` gives it.
/// The rows may be in any order. Beside the set it holds one copy of the rows. `AllocError` for want of
/// memory.
pub fn blocks_trie(
    alloc: Global,
    rows: &[Prefix],
    mode: Mode,
    high: u8,
) -> Result<Vec<Pattern>, AllocError>
    ensures { IfOk result (λ ts. ts.items ≡ blocks rows.now mode high) }
{
    let list = new_in_groups(alloc, rows, mode, high)?;
    let mut blocks = room_for(alloc, &list)?;
    merge_family(&mut blocks, &list, mode, high, Family::V4)?;
    merge_family(&mut blocks, &list, mode, high, Family::V6)?;
    Ok(in_order(blocks))
}
