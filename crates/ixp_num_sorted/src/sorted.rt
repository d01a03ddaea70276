//! A sorted list.
ghost use Rattle.std.specs.Prelude.{◌≡◌, ◌↔◌, [], length, IsTrue, IfOk};
ghost use Rattle.ixp_num_tables.specs.Tables.{Ascends};
ghost use Rattle.ixp_num_sorted.specs.Sorted.{IsInOrder};

use crate::keyed::Keyed;
use crate::order::put_in_order;
use std::alloc::{AllocError, Global};
use std::marker::Model;

/// Items in the order of their keys, each once.
#[derive(Debug, Drop)]
pub struct Sorted<T: Keyed> {
    items: Vec<T>,
}

impl<T: Keyed> Model for Sorted<T> {
    ghost use Rattle.std.specs.Prelude.{List};
    ghost use Rattle.std.specs.Coded.{coded_list};
    ghost use Rattle.ixp_num_tables.specs.Tables.{Ascends};

    ghost Value = { List T };

    ghost coded = { coded_list T.code };

    ghost view = { λ s. s.items.items };

    ghost invariant = { λ s. Ascends T.key s.items.items };
}

impl<T: Keyed> Sorted<T> {
    /// A list without items. It does not allocate.
    pub fn new(alloc: Global) -> Sorted<T>
        ensures { result ≡ [] }
    {
        Sorted {
            items: Vec::new(alloc),
        }
    }

    /// The items in order, each once. It does not allocate.
    pub fn from_items(mut items: Vec<T>) -> Sorted<T>
        ensures { IsInOrder T.key items.items result }
    {
        put_in_order(&mut items);
        Sorted { items }
    }

    /// Items that ascend. It does not allocate.
    pub fn from_ascending(items: Vec<T>) -> Sorted<T>
        requires { Ascends T.key items.items }
        ensures { result ≡ items.items }
    {
        Sorted { items }
    }

    /// The items in order.
    pub fn as_slice(&self) -> &[T]
        ensures items { result.now ≡ self.now }
        ensures ascends { Ascends T.key self.now }
    {
        self.items.as_slice()
    }

    /// The items in order. It does not allocate.
    pub fn into_items(self) -> Vec<T>
        ensures items { result.items ≡ self }
        ensures ascends { Ascends T.key self }
    {
        self.items
    }

    /// How many items there are.
    pub fn len(&self) -> usize
        ensures { result ≡ length self.now }
    {
        self.items.len()
    }

    /// Whether there is no item.
    pub fn is_empty(&self) -> bool
        ensures { IsTrue result ↔ (self.now ≡ []) }
    {
        self.items.is_empty()
    }

    /// An equal list.
    pub fn copied(&self, alloc: Global) -> Result<Sorted<T>, AllocError>
        ensures { IfOk result (λ s. s ≡ self.now) }
    {
        let items = Vec::from_slice(alloc, self.items.as_slice())?;
        Ok(Sorted { items })
    }
}
