//! The rows by family and length.
ghost use Rattle.std.specs.Prelude.{◌≡◌, ◌++◌, ◌≤◌, ◌<◌, ◌==◌, ◌&&◌};
ghost use Rattle.std.specs.List.{All, filter};
ghost use Rattle.std.specs.List.Sorted.{IsNonDecreasingBy, IsPermutation};
ghost use Rattle.ixp_num.specs.Families.{bits_of, same_family};
ghost use Rattle.ixp_pfxset.specs.Groups.{group_of, rank};

use ixp_num::{Family, Prefix};

/// The group of the rows of a family and a length.
fn group(family: Family, len: u8) -> u16
    ensures { result ≡ group_of family len }
{
    match family {
        Family::V4 => u16::from(len),
        Family::V6 => 256 + u16::from(len),
    }
}

/// The rows by group, those of each by their numbers. It does not allocate.
pub(crate) fn in_groups(mut rows: Vec<Prefix>) -> Vec<Prefix>
    ensures sorted { IsNonDecreasingBy rank result.items }
    ensures rows { IsPermutation rows.items result.items }
{
    rows.sort_unstable_by_key(|r| (group(r.family, r.len), r.value));
    rows
}

/// The rows of the groups below this one, and the others.
fn parted(list: &[Prefix], own: u16) -> (&[Prefix], &[Prefix])
    requires { IsNonDecreasingBy rank list.now }
    ensures both { list.now ≡ result.0.now ++ result.1.now }
    ensures below { All (λ r. group_of r.family r.len < own) result.0.now }
    ensures above { All (λ r. own ≤ group_of r.family r.len) result.1.now }
    ensures first { IsNonDecreasingBy rank result.0.now }
    ensures second { IsNonDecreasingBy rank result.1.now }
{
    let place = list.partition_point(|r| group(r.family, r.len) < own);
    list.split_at(place)
}

/// The rows of a family and a length.
pub(crate) fn rows_of(list: &[Prefix], family: Family, l: u8) -> &[Prefix]
    requires sorted { IsNonDecreasingBy rank list.now }
    requires short { l ≤ bits_of family }
    ensures rows { result.now ≡ filter (λ r. same_family r.family family && r.len == l) list.now }
    ensures sorted { IsNonDecreasingBy (λ r. r.value) result.now }
{
    let own = group(family, l);
    let (_, from) = parted(list, own);
    let (rows, _) = parted(from, own + 1);
    rows
}
