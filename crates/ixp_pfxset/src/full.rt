//! Which prefixes are full.
ghost use Rattle.std.specs.Prelude.{◌≡◌, ◌≤◌, ◌<◌, ◌+◌, ◌-◌, ◌^◌, ◌↔◌, IsTrue};
ghost use Rattle.std.specs.List.Sorted.{IsSorted};
ghost use Rattle.ixp_num.specs.Families.{bits_of};
ghost use Rattle.ixp_num.specs.Prefixes.{IsParent};
ghost use Rattle.ixp_pfxset.specs.Plain.{Fills, IsTop};

use crate::rows::has_prefix;
use ixp_num::Prefix;

/// How far the second half of the prefix begins behind the first one.
fn half_step(n: &Prefix) -> u128
    requires { n.now.len < bits_of n.now.family }
    ensures { result ≡ 2 ^ (bits_of n.now.family - (n.now.len + 1)) }
{
    1 << (n.family.bits() - (n.len + 1))
}

/// The first of the two prefixes that are one bit longer and lie in this one.
pub(crate) fn first_half(n: &Prefix) -> Prefix
    requires { n.now.len < bits_of n.now.family }
    ensures parent { IsParent result n.now }
    ensures value { result.value ≡ n.now.value }
{
    Prefix {
        family: n.family,
        value: n.value,
        len: n.len + 1,
    }
}

/// The second of them.
pub(crate) fn second_half(n: &Prefix) -> Prefix
    requires { n.now.len < bits_of n.now.family }
    ensures parent { IsParent result n.now }
    ensures value { n.now.value < result.value }
    ensures step { result.value ≡ n.now.value + 2 ^ (bits_of n.now.family - (n.now.len + 1)) }
{
    let step = half_step(n);
    Prefix {
        family: n.family,
        value: n.value + step,
        len: n.len + 1,
    }
}

/// Whether the sorted list has all prefixes of length `l` that lie in `n`.
fn is_full(list: &[Prefix], l: u8, n: &Prefix) -> bool
    requires sorted { IsSorted ⟦<Prefix as Ord>⟧.cmp list.now }
    requires longer { n.now.len ≤ l }
    requires short { l ≤ bits_of n.now.family }
    ensures { IsTrue result ↔ Fills list.now l n.now }
{
    if n.len == l {
        return has_prefix(list, n);
    }
    let first = first_half(n);
    let second = second_half(n);
    is_full(list, l, &first) && is_full(list, l, &second)
}

/// Whether that is so, and not for the parent.
pub(crate) fn is_top(list: &[Prefix], l: u8, n: &Prefix) -> bool
    requires sorted { IsSorted ⟦<Prefix as Ord>⟧.cmp list.now }
    requires longer { n.now.len ≤ l }
    requires short { l ≤ bits_of n.now.family }
    ensures { IsTrue result ↔ IsTop list.now l n.now }
{
    if !is_full(list, l, n) {
        return false;
    }
    match n.parent() {
        None => true,
        Some(p) => !is_full(list, l, &p),
    }
}
