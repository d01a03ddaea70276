//! The rows that name prefixes of the merged set.
ghost use Rattle.std.specs.Prelude.{◌≡◌, ◌↔◌, IsTrue, IfOk, not, nat_le};
ghost use Rattle.std.specs.List.{Contains, filter};
ghost use Rattle.std.specs.List.Sorted.{IsPermutation, IsSorted};
ghost use Rattle.ixp_num.specs.declared.prefix.Prefix.{Prefix};
ghost use Rattle.ixp_pfxset.specs.Blocks.{IsNew};
ghost use Rattle.ixp_pfxset.specs.Plain.{is_under, is_within};

use crate::derived::equal_prefixes;
use crate::mode::Mode;
use crate::ordered::{has, left_in_order};
use ixp_num::Prefix;
use std::alloc::{AllocError, Global};

/// Whether the prefix is in the sorted list.
pub(crate) fn has_prefix(list: &[Prefix], q: &Prefix) -> bool
    requires { IsSorted ⟦<Prefix as Ord>⟧.cmp list.now }
    ensures { IsTrue result ↔ Contains list.now q.now }
{
    equal_prefixes();
    has(list, q)
}

/// The rows that aren't longer than the bound. Room is taken once.
fn short_rows(alloc: Global, rows: &[Prefix], high: u8) -> Result<Vec<Prefix>, AllocError>
    ensures { IfOk result (λ short. short.items ≡ filter (λ r. nat_le r.len high) rows.now) }
{
    let mut short = Vec::with_capacity(alloc, rows.len())?;
    for r in rows {
        if r.len <= high {
            short.push(*r)?;
        }
    }
    Ok(short)
}

/// The same, sorted.
fn sorted_rows(alloc: Global, rows: &[Prefix], high: u8) -> Result<Vec<Prefix>, AllocError>
    ensures sorted { IfOk result (λ short. IsSorted ⟦<Prefix as Ord>⟧.cmp short.items) }
    ensures rows { IfOk result
        (λ short. IsPermutation (filter (λ r. nat_le r.len high) rows.now) short.items) }
{
    let mut short = short_rows(alloc, rows, high)?;
    short.sort_unstable();
    Ok(short)
}

/// Whether the other prefix, if there is one, is shorter and covers this one.
fn is_under(last: &Option<Prefix>, q: &Prefix) -> bool
    ensures { result ≡ is_under last.now q.now }
{
    match last {
        Some(p) => p.len < q.len && p.covers(q),
        None => false,
    }
}

/// Leaves the prefixes of the sorted list that no shorter one covers, in the same order. What covers a prefix
/// stands before it, and all between both lie in it; so the last one that was left is the one to ask.
fn leave_outermost(list: &mut Vec<Prefix>)
    requires { IsSorted ⟦<Prefix as Ord>⟧.cmp list.old.items }
    ensures { list.new.items ≡ filter (λ r. not (is_within list.old.items r)) list.old.items }
{
    let mut left = 0;
    let mut last = None;
    'each: for i in 0..list.len() {
        let r = list[i];
        if !is_under(&last, &r) {
            list[left] = r;
            left += 1;
            last = Some(r);
        }
    }
    list.truncate(left);
}

/// The new prefixes, all of which are rows, sorted.
pub(crate) fn new_rows(
    alloc: Global,
    rows: &[Prefix],
    mode: Mode,
    high: u8,
) -> Result<Vec<Prefix>, AllocError>
    ensures sorted { IfOk result (λ list. IsSorted ⟦<Prefix as Ord>⟧.cmp list.items) }
    ensures members { IfOk result
        (λ list. (q : Prefix) → Contains list.items q ↔ IsNew rows.now mode high q) }
{
    let mut list = sorted_rows(alloc, rows, high)?;
    match mode {
        Mode::Exact => Ok(list),
        Mode::More => {
            left_in_order::<Prefix>();
            leave_outermost(&mut list);
            Ok(list)
        }
    }
}
