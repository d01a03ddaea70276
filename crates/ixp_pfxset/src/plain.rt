//! The merged set, computed plainly from its definition.
ghost use Rattle.std.specs.Prelude.{◌≡◌, ◌≤◌, ◌↔◌, ◌⊎◌, IfOk, OnOk};
ghost use Rattle.std.specs.List.{Contains};
ghost use Rattle.std.specs.List.Sorted.{IsSorted};
ghost use Rattle.ixp_num.specs.Families.{bits_of};
ghost use Rattle.ixp_num.specs.declared.pattern.Pattern.{Pattern};
ghost use Rattle.ixp_num.specs.declared.prefix.Prefix.{Prefix};
ghost use Rattle.ixp_pfxset.specs.Blocks.{upper_bound};
ghost use Rattle.ixp_pfxset.specs.BlockList.{blocks};
ghost use Rattle.ixp_pfxset.specs.Plain.{IsFront};

use crate::full::is_top;
use crate::mode::Mode;
use crate::ordered::in_order;
use crate::rows::new_rows;
use ixp_num::{Pattern, Prefix};
use std::alloc::{AllocError, Global};

/// The upper bound of a pattern whose lower one is `low`.
pub(crate) fn upper_bound(mode: Mode, high: u8, low: u8) -> u8
    ensures { result ≡ upper_bound mode high low }
{
    match mode {
        Mode::Exact => low,
        Mode::More => high,
    }
}

/// Adds the pattern of the row's first `len` bits, if it is a block.
fn push_front(
    blocks: &mut Vec<Pattern>,
    list: &[Prefix],
    r: &Prefix,
    high: u8,
    len: u8,
) -> Result<(), AllocError>
    requires sorted { IsSorted ⟦<Prefix as Ord>⟧.cmp list.now }
    requires shorter { len ≤ r.now.len }
    ensures { OnOk result
        ((t : Pattern) → Contains blocks.new.items t
        ↔ (Contains blocks.old.items t ⊎ (IsFront list.now r.now high t × (t.prefix.len ≡ len)))) }
{
    let Some(prefix) = Prefix::new(r.family, r.value, len) else {
        return Ok(());
    };
    if is_top(list, r.len, &prefix) {
        blocks.push(Pattern {
            prefix,
            low: r.len,
            high,
        })?;
    }
    Ok(())
}

/// Adds the blocks that begin where the row does and are for its length.
fn push_fronts(
    blocks: &mut Vec<Pattern>,
    list: &[Prefix],
    r: &Prefix,
    high: u8,
) -> Result<(), AllocError>
    requires { IsSorted ⟦<Prefix as Ord>⟧.cmp list.now }
    ensures { OnOk result
        ((t : Pattern) → Contains blocks.new.items t
        ↔ (Contains blocks.old.items t ⊎ IsFront list.now r.now high t)) }
{
    for len in 0..=r.len {
        push_front(blocks, list, r, high, len)?;
    }
    Ok(())
}

/// The blocks of the sorted list of new prefixes.
fn all_fronts(
    alloc: Global,
    list: &[Prefix],
    mode: Mode,
    high: u8,
) -> Result<Vec<Pattern>, AllocError>
    requires { IsSorted ⟦<Prefix as Ord>⟧.cmp list.now }
    ensures { IfOk result
        (λ ts. (t : Pattern) → Contains ts.items t
        ↔ ((r : Prefix) × Contains list.now r × IsFront list.now r (upper_bound mode high r.len) t)) }
{
    let mut blocks = Vec::new(alloc);
    for r in list {
        push_fronts(&mut blocks, list, r, upper_bound(mode, high, r.len))?;
    }
    Ok(blocks)
}

/// The merged set of the rows, in order: what they allow of lengths up to `high`. The rows may be in any
/// order. It tries each prefix that a row begins with; `AllocError` for running out of memory.
pub fn blocks_plain(
    alloc: Global,
    rows: &[Prefix],
    mode: Mode,
    high: u8,
) -> Result<Vec<Pattern>, AllocError>
    ensures { IfOk result (λ ts. ts.items ≡ blocks rows.now mode high) }
{
    let list = new_rows(alloc, rows, mode, high)?;
    let blocks = all_fronts(alloc, &list, mode, high)?;
    Ok(in_order(blocks))
}
