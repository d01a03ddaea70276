//! ROAs in ascending order, in little room.
ghost use Rattle.std.specs.Prelude.{◌≡◌, map, IfOk};
ghost use Rattle.std.specs.List.Sorted.{IsPermutation};
ghost use Rattle.ixp_roa.specs.Climbs.{AreInOrder, is_upto};
ghost use Rattle.ixp_roa.specs.Compacts.{roa_of};

use crate::compact::CompactRoa;
use ixp_num::{Family, Prefix, Roa};
use std::alloc::{AllocError, Global};
use std::marker::Model;

/// ROAs in the order of their keys, in 32 bytes each.
#[derive(Debug, Drop)]
pub(crate) struct OrderedRoas {
    rows: Vec<CompactRoa>,
}

impl Model for OrderedRoas {
    ghost use Rattle.std.specs.Prelude.{List, map};
    ghost use Rattle.ixp_num.specs.declared.roa.Roa.{Roa};
    ghost use Rattle.ixp_roa.specs.Climbs.{AreInOrder};
    ghost use Rattle.ixp_roa.specs.Compacts.{roa_of};

    ghost Value = { List Roa };

    ghost view = { λ o. map roa_of o.rows.items };

    ghost invariant = { λ o. AreInOrder (map roa_of o.rows.items) };
}

/// Whether a prefix begins no later than another.
fn is_upto(p: &Prefix, q: &Prefix) -> bool
    ensures { result ≡ is_upto p.now q.now }
{
    match (p.family, q.family) {
        (Family::V4, Family::V4) | (Family::V6, Family::V6) => p.value <= q.value,
        (Family::V4, Family::V6) => true,
        (Family::V6, Family::V4) => false,
    }
}

/// The ROAs in little room, in the same order.
fn compacted(alloc: Global, rows: &[Roa]) -> Result<Vec<CompactRoa>, AllocError>
    ensures { IfOk result (λ c. map roa_of c.items ≡ rows.now) }
{
    let mut compact = Vec::with_capacity(alloc, rows.len())?;
    for row in rows {
        compact.push(CompactRoa::of(row))?;
    }
    Ok(compact)
}

/// The ROAs in the order of their keys.
fn in_order(mut rows: Vec<CompactRoa>) -> Vec<CompactRoa>
    ensures sorted { AreInOrder (map roa_of result.items) }
    ensures rows { IsPermutation rows.items result.items }
{
    rows.sort_unstable_by_key(|r| r.roa());
    rows
}

impl OrderedRoas {
    ghost use Rattle.std.specs.Prelude.{◌≡◌, ◌<◌, ◌++◌, length, take, drop, slice_index_or, IfOk, OnOk};
    ghost use Rattle.std.specs.List.{Contains};
    ghost use Rattle.ixp_num.specs.declared.roa.Roa.{Roa};
    ghost use Rattle.ixp_roa.specs.Climbs.{AreInOrder, IsPlace};

    /// The ROAs in order.
    pub(crate) fn from_roas(alloc: Global, rows: &[Roa]) -> Result<OrderedRoas, AllocError>
        ensures keeps { IfOk result (λ o. (x : Roa) → Contains rows.now x → Contains o x) }
        ensures adds_none { IfOk result (λ o. (x : Roa) → Contains o x → Contains rows.now x) }
    {
        let compact = compacted(alloc, rows)?;
        Ok(OrderedRoas {
            rows: in_order(compact),
        })
    }

    /// They are in order. It does nothing, and is called for what it ensures.
    pub(crate) fn are_in_order(&self)
        ensures { AreInOrder self.now }
    {
        let _rows = &self.rows;
    }

    /// How many ROAs there are.
    pub(crate) fn len(&self) -> usize
        ensures { result ≡ length self.now }
    {
        self.rows.len()
    }

    /// The ROA at this place.
    pub(crate) fn at(&self, i: usize) -> Roa
        requires { i < length self.now }
        ensures { result ≡ slice_index_or self.now i result }
    {
        self.rows[i].roa()
    }

    /// Adds the ROA at this place to others, where there is one.
    pub(crate) fn put_at(&self, place: usize, roas: &mut Vec<Roa>) -> Result<(), AllocError>
        ensures { OnOk result (roas.new.items ≡ roas.old.items ++ take 1 (drop place self.now)) }
    {
        if place >= self.len() {
            return Ok(());
        }
        roas.push(self.at(place))?;
        Ok(())
    }

    /// How many ROAs begin no later than the net.
    pub(crate) fn place_of(&self, net: &Prefix) -> usize
        ensures { IsPlace self.now net.now result }
    {
        self.rows
            .as_slice()
            .partition_point(|r| is_upto(&r.roa().prefix, net))
    }

    /// Where this ROA stands.
    pub(crate) fn place_of_roa(&self, roa: &Roa) -> usize
        requires { Contains self.now roa.now }
        ensures within { result < length self.now }
        ensures is { slice_index_or self.now result roa.now ≡ roa.now }
    {
        self.rows
            .as_slice()
            .partition_point(|r| r.roa().cmp(roa).is_lt())
    }
}
