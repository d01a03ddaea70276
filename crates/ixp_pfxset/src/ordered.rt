//! Lists in order.
ghost use Rattle.std.specs.Prelude.{◌≡◌, Bool, List};
ghost use Rattle.std.specs.List.{filter, list_any};
ghost use Rattle.std.specs.List.Sorted.{IsSorted};
ghost use Rattle.ixp_num_sorted.specs.Keys.{pattern_key};
ghost use Rattle.ixp_num_sorted.specs.Sorted.{IsInOrder};

use ixp_num::Pattern;
use ixp_num_sorted::Sorted;

/// The patterns in order, each once.
pub(crate) fn in_order(patterns: Vec<Pattern>) -> Vec<Pattern>
    ensures { IsInOrder pattern_key patterns.items result.items }
{
    Sorted::from_items(patterns).into_items()
}

/// Whether an item of the sorted list equals this one. It halves the items that are left.
pub(crate) fn has<T: Ord>(list: &[T], item: &T) -> bool
    requires { IsSorted T.cmp list.now }
    ensures { result ≡ list_any (λ y. T.eq y item.now) list.now }
{
    list.binary_search(item).is_ok()
}

/// What is left of a sorted list is sorted. It does nothing, and is called for what it ensures.
pub(crate) fn left_in_order<T: Ord>()
    ensures { (test : T → Bool) (xs : List T) → IsSorted T.cmp xs → IsSorted T.cmp (filter test xs) }
{}
