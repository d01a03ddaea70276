//! Lists, at the front of a text.
ghost use Rattle.std.specs.Prelude.{◌≡◌, option_map};
ghost use Rattle.ixp_lang.specs.RouteReading.{Tells, after_comma, begins, items, list_at};

use crate::reading::fault::Stop;
use crate::reading::numbers::Reads;
use ixp_num::Items;
use std::alloc::Global;

/// The most items that a list has.
const MOST: usize = 1000;

/// What follows a comma, if one stands at the front.
fn after_comma(t: &[u8]) -> Option<&[u8]>
    ensures { option_map (λ x. x.now) result ≡ after_comma t.now }
{
    match t {
        [b',', rest @ ..] => Some(rest),
        _ => None,
    }
}

/// Whether an item can begin here.
fn begins<R: Reads>(t: &[u8]) -> bool
    ensures { result ≡ begins t.now (R.item_of t.now) }
{
    match R::read(t) {
        Ok(_) => true,
        Err(left) => left != t.len(),
    }
}

/// Items with commas between them, and what is behind the last one.
fn items_of<R: Reads>(alloc: Global, t: &[u8]) -> Result<(Items<R::Item>, &[u8]), Stop>
    ensures { Tells (λ x. (x.0, x.1.now)) result (items R.item_of 1000 t.now) }
{
    let mut items = Items::new(alloc);
    let mut rest = t;
    'each: for count in 0..MOST {
        let (item, behind) = match R::read(rest) {
            Ok(read) => read,
            Err(left) => return Err(Stop::Text(left)),
        };
        match items.push(item) {
            Ok(()) => {}
            Err(_) => return Err(Stop::NoMemory),
        }
        match after_comma(behind) {
            Some(next) => rest = next,
            None => return Ok((items, behind)),
        }
    }
    if begins::<R>(rest) {
        return Err(Stop::TooLong(rest.len()));
    }
    Err(Stop::Text(rest.len()))
}

/// A list, `-` where it is empty, and what is behind it.
pub(crate) fn list_of<R: Reads>(alloc: Global, t: &[u8]) -> Result<(Items<R::Item>, &[u8]), Stop>
    ensures { Tells (λ x. (x.0, x.1.now)) result (list_at R.item_of t.now) }
{
    match t {
        [b'-', rest @ ..] => Ok((Items::new(alloc), rest)),
        _ => items_of::<R>(alloc, t),
    }
}
