//! The sets among the members of each object, by the object's name.
ghost use Rattle.std.specs.Prelude.{◌≡◌, ◌++◌, List, [], ℕ, IfOk, OnOk, if◌then◌else◌, bytes_eq};
ghost use Rattle.ixp_rpsl.specs.Expansion.{sets_in, member_sets};
ghost use Rattle.ixp_rpsl.specs.Lookups.{sets_at};

use crate::objects::{Item, SetRow};
use ixp_num::{Items, Name};
use std::alloc::{AllocError, Global};
use std::collections::BTreeMap;

fn put_sets(alloc: Global, names: &mut Items<Name>, items: &[Item]) -> Result<(), AllocError>
    ensures { OnOk result (names.new ≡ names.old ++ sets_in items.now) }
{
    let mut left = items;
    'items: while let Some((item, others)) = left.split_first() {
        if let Item::Set(set) = item {
            names.push(set.copied(alloc)?)?;
        }
        left = others;
    }
    Ok(())
}

fn taken(alloc: Global, index: &mut BTreeMap<Vec<u8>, Items<Name>>, name: &Name) -> Items<Name>
    ensures sets { result ≡ sets_at index.old name.now }
    ensures others { (q : List ℕ)
        → sets_at index.new q ≡ (if bytes_eq name.now q then [] else sets_at index.old q) }
{
    match index.remove(name.as_bytes()) {
        Some(names) => names,
        None => Items::new(alloc),
    }
}

fn put_row(
    alloc: Global,
    index: &mut BTreeMap<Vec<u8>, Items<Name>>,
    row: &SetRow,
) -> Result<(), AllocError>
    ensures { OnOk result
        ((q : List ℕ) → sets_at index.new q
        ≡ (if bytes_eq row.now.name q then sets_at index.old q ++ sets_in row.now.members
        else sets_at index.old q)) }
{
    let mut names = taken(alloc, index, &row.name);
    put_sets(alloc, &mut names, row.members.as_slice())?;
    let key = Vec::from_slice(alloc, row.name.as_bytes())?;
    index.insert(key, names)?;
    Ok(())
}

#[tactic(auto, using(crate::proofs::Keys::row_more))]
pub fn index_of(
    alloc: Global,
    rows: &[SetRow],
) -> Result<BTreeMap<Vec<u8>, Items<Name>>, AllocError>
    ensures { IfOk result (λ index. (q : List ℕ) → sets_at index q ≡ member_sets rows.now q) }
{
    let mut index = BTreeMap::new(alloc);
    let mut left = rows;
    'rows: while let Some((row, others)) = left.split_first() {
        put_row(alloc, &mut index, row)?;
        left = others;
    }
    Ok(index)
}
