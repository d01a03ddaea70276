//! Where the items of a configuration stand, by the names that find them.
ghost use Rattle.std.specs.Prelude.{◌≡◌, ℕ, false, List, ◌++◌, map, IfOk, OnOk, MatchOption};
ghost use Rattle.ixp_lang.specs.Values.{values_of};
ghost use Rattle.ixp_lang.specs.Meaning.{same_name};
ghost use Rattle.ixp_lang.specs.Views.{item_view};
ghost use Rattle.ixp_eval.specs.Places.{finds, places_of, put_place};

use ixp_lang::{Groups, Item};
use std::alloc::{AllocError, Global};

/// The items of a configuration, and where those of each name stand.
#[derive(Drop)]
pub struct Index<'a> {
    pub items: &'a [Item],
    /// For each name, the places of the items that it finds, in ascending order.
    pub(crate) places: Groups<'a, usize>,
    ghost are: { (n : List ℕ) → values_of places n ≡ places_of n 0 (map item_view items.now) },
}

/// The name that finds an item: its own, or that of the table which is a pipe's peer.
fn found_by(item: &Item) -> Option<&[u8]>
    ensures { MatchOption result ((n : List ℕ) → finds n (item_view item.now) ≡ false)
        (λ m. (n : List ℕ) → finds n (item_view item.now) ≡ same_name m.now n) }
{
    match item {
        Item::Define { name, .. } => Some(name.as_bytes()),
        Item::Function { name, .. } => Some(name.as_bytes()),
        Item::Filter { name, .. } => Some(name.as_bytes()),
        Item::Pipe(pipe) => Some(pipe.peer.as_bytes()),
        _ => None,
    }
}

/// Adds the place of an item.
fn put_place<'a>(
    alloc: Global,
    places: &mut Groups<'a, usize>,
    item: &'a Item,
    place: usize,
) -> Result<(), AllocError>
    ensures { OnOk result
        ((n : List ℕ) → values_of places.new n ≡ values_of places.old n
        ++ put_place n place (item_view item.now)) }
{
    match found_by(item) {
        Some(name) => places.add(alloc, name, place),
        None => Ok(()),
    }
}

impl<'a> Index<'a> {
    ghost use Rattle.std.specs.Prelude.{◌≡◌, IfOk};

    /// The index of a configuration's items.
    pub fn of(alloc: Global, items: &'a [Item]) -> Result<Index<'a>, AllocError>
        ensures { IfOk result (λ index. index.items.now ≡ items.now) }
    {
        let mut places = Groups::new(alloc);
        let mut left = items;
        let mut place = 0usize;
        'each: while let Some((item, others)) = left.split_first() {
            put_place(alloc, &mut places, item, place)?;
            left = others;
            place += 1;
        }
        Ok(Index { items, places })
    }
}
