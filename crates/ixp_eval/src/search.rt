//! Items looked for by their names.
ghost use Rattle.std.specs.Prelude.{◌≡◌, None};
ghost use Rattle.std.specs.Option.{option_copied, option_map};
ghost use Rattle.ixp_lang.specs.Views.{item_view};
ghost use Rattle.ixp_lang.specs.Walks.{pipe_between, pipe_from, pipes_of};
ghost use Rattle.ixp_eval.specs.Indexed.{is_of, items_before, items_of};
ghost use Rattle.std.specs.List.{slice_get};
ghost use Rattle.ixp_eval.specs.Places.{is_at, is_between, is_from, last_place, pipe_at};

use crate::index::Index;
use crate::names::same_name;
use ixp_lang::{Item, Pipe};
use ixp_num::Name;

/// What an item is looked for as.
#[derive(Clone, Copy)]
pub enum Sort {
    Define,
    Filter,
    Function,
}

/// The items that stand before a place, among which names are looked for from the last one back.
#[derive(Clone, Copy)]
pub struct Before<'i, 'a> {
    pub index: &'i Index<'a>,
    /// How many there are.
    pub count: usize,
}

/// The item at a place.
pub fn item_at<'a>(index: &Index<'a>, place: usize) -> Option<&'a Item>
    ensures { option_map (λ i. item_view i.now) result ≡ slice_get (items_of index.now) place }
{
    index.items.get(place)
}

/// Whether an item is of the sort and has the name.
fn is_of(item: &Item, sort: Sort, name: &Name) -> bool
    ensures { result ≡ is_of sort name.now (item_view item.now) }
{
    match item {
        Item::Define { name: own, .. } => matches!(sort, Sort::Define) && same_name(own, name),
        Item::Filter { name: own, .. } => matches!(sort, Sort::Filter) && same_name(own, name),
        Item::Function { name: own, .. } => matches!(sort, Sort::Function) && same_name(own, name),
        _ => false,
    }
}

/// Whether the item at a place is of the sort and has the name.
fn is_at(before: Before<'_, '_>, place: usize, sort: Sort, name: &Name) -> bool
    ensures { result ≡ is_at before.entry.count (is_of sort name.now)
        (items_of before.entry.index.now) place }
{
    if before.count <= place {
        return false;
    }
    match item_at(before.index, place) {
        Some(item) => is_of(item, sort, name),
        None => false,
    }
}

/// The place of the last item before that is of the sort and has the name.
pub fn last_place<'i, 'a>(before: Before<'i, 'a>, sort: Sort, name: &'a Name) -> Option<usize>
    ensures { result ≡ last_place (is_of sort name.now) 0 None (items_before before.entry) }
{
    let mut found = None;
    let places = before.index.places.of(name.as_bytes());
    'each: for place in places {
        if is_at(before, *place, sort, name) {
            found = Some(*place);
        }
    }
    found
}

/// The pipe at a place, where it has the table as its peer.
fn pipe_from_at<'a>(index: &Index<'a>, place: usize, table: &Name) -> Option<&'a Pipe>
    ensures { option_copied result ≡ pipe_at (is_from table.now) (slice_get (items_of index.now) place) }
{
    match item_at(index, place) {
        Some(Item::Pipe(pipe)) if same_name(&pipe.peer, table) => Some(&**pipe),
        _ => None,
    }
}

/// The pipe that has the table as its peer.
pub fn pipe_from<'a>(index: &Index<'a>, table: &'a Name) -> Option<&'a Pipe>
    ensures { option_copied result ≡ pipe_from (pipes_of (items_of index.now)) table.now }
{
    let places = index.places.of(table.as_bytes());
    'each: for place in places {
        if let Some(pipe) = pipe_from_at(index, *place, table) {
            return Some(pipe);
        }
    }
    None
}

/// The pipe at a place, where it is between a primary table and a peer.
fn pipe_between_at<'a>(
    index: &Index<'a>,
    place: usize,
    primary: &Name,
    peer: &Name,
) -> Option<&'a Pipe>
    ensures { option_copied result
        ≡ pipe_at (is_between primary.now peer.now) (slice_get (items_of index.now) place) }
{
    match item_at(index, place) {
        Some(Item::Pipe(pipe)) if same_name(&pipe.table, primary) && same_name(&pipe.peer, peer) =>
            { Some(&**pipe) }
        _ => None,
    }
}

/// The pipe between a primary table and a peer.
pub fn pipe_between<'a>(index: &Index<'a>, primary: &Name, peer: &'a Name) -> Option<&'a Pipe>
    ensures { option_copied result ≡ pipe_between (pipes_of (items_of index.now)) primary.now peer.now }
{
    let places = index.places.of(peer.as_bytes());
    'each: for place in places {
        if let Some(pipe) = pipe_between_at(index, *place, primary, peer) {
            return Some(pipe);
        }
    }
    None
}
