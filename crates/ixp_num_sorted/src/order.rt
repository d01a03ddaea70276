//! Putting items in order.
ghost use Rattle.std.specs.Prelude.{◌≡◌};
ghost use Rattle.ixp_num_sorted.specs.Sorted.{IsInOrder};

use crate::keyed::Keyed;

/// Puts the items in order, and leaves one of those that are the same. It does not allocate.
pub(crate) fn put_in_order<T: Keyed>(items: &mut Vec<T>)
    ensures { IsInOrder T.key items.old.items items.new.items }
{
    items.sort_unstable();
    items.dedup();
}
