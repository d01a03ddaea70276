//! Lists, line by line.
ghost use Rattle.std.specs.Prelude.{◌≡◌, ◌≤◌, ◌<◌};
ghost use Rattle.std.specs.Str.Lines.{lines};
ghost use Rattle.ixp_num_sorted.specs.Keys.{prefix_key, pattern_key, asn_key, range_key};
ghost use Rattle.ixp_irr.specs.Items.{IsPatternText, IsAsnText, IsRangeText, Says, SaysPrefixOf};
ghost use Rattle.ixp_irr.specs.Lists.{LinesAnswer, ListAnswer};

use crate::fault::{ListFault, Misfit};
use crate::items::{Asns, Patterns, Prefixes, Ranges, Reads};
use crate::lines::{counts, first_line};
use ixp_num::{Asn, Family, Pattern, Prefix};
use ixp_num_sorted::Sorted;
use std::alloc::Global;

/// The most distinct items of a list.
const MOST: usize = 300_000;

/// The items of the lines, in their order.
fn items_of<R: Reads>(alloc: Global, reader: &R, t: &[u8]) -> Result<Vec<R::Item>, ListFault>
    ensures { LinesAnswer (R.says reader.now) (lines t.now) result }
{
    let mut items = Vec::new(alloc);
    let mut rest = t;
    let mut n = 0;
    'lines: while !rest.is_empty() {
        let (line, more) = first_line(rest);
        n += 1;
        rest = more;
        if counts(line) {
            match reader.item_of(line) {
                Ok(item) => match items.push(item) {
                    Ok(()) => {}
                    Err(_) => return Err(ListFault::NoMemory),
                },
                Err(Misfit::Form) => return Err(ListFault::Line { n }),
                Err(Misfit::Family) => return Err(ListFault::Family { n }),
            }
        }
    }
    Ok(items)
}

/// The list that a text is.
fn list_of<R: Reads>(alloc: Global, reader: &R, t: &[u8]) -> Result<Sorted<R::Item>, ListFault>
    ensures { ListAnswer (R.says reader.now) R.Item.key t.now result }
{
    let items = items_of(alloc, reader, t)?;
    let list = Sorted::from_items(items);
    if MOST < list.len() {
        return Err(ListFault::TooLong { have: list.len() });
    }
    Ok(list)
}

/// The prefixes of a family that a text lists, in order and each once.
pub fn read_list(alloc: Global, t: &[u8], family: Family) -> Result<Sorted<Prefix>, ListFault>
    ensures { ListAnswer (SaysPrefixOf family) prefix_key t.now result }
{
    list_of(alloc, &Prefixes { family }, t)
}

/// The AS numbers that a text lists, with or without `AS` before each, in order and each once.
pub fn read_origins(alloc: Global, t: &[u8]) -> Result<Sorted<Asn>, ListFault>
    ensures { ListAnswer (Says IsAsnText) asn_key t.now result }
{
    list_of(alloc, &Asns {}, t)
}

/// The patterns of a list of bogons, of both families, in order and each once. Bounds are read up to 255.
pub fn read_bogons(alloc: Global, t: &[u8]) -> Result<Sorted<Pattern>, ListFault>
    ensures { ListAnswer (Says IsPatternText) pattern_key t.now result }
{
    list_of(alloc, &Patterns {}, t)
}

/// The ranges of a list of bogon AS numbers, each the first and the last with a blank between them, in order
/// and each once. A range whose first number is above its last is read.
pub fn read_bogon_ranges(alloc: Global, t: &[u8]) -> Result<Sorted<(Asn, Asn)>, ListFault>
    ensures { ListAnswer (Says IsRangeText) range_key t.now result }
{
    list_of(alloc, &Ranges {}, t)
}

/// The AS numbers of networks that buy no transit, with or without `AS` before each, in order and each once.
pub fn read_transit_free(alloc: Global, t: &[u8]) -> Result<Sorted<Asn>, ListFault>
    ensures { ListAnswer (Says IsAsnText) asn_key t.now result }
{
    list_of(alloc, &Asns {}, t)
}
