//! Lists whose items are read one after the other.
ghost use Rattle.std.specs.Prelude.{◌≡◌, length, IfOk};
ghost use Rattle.serde_json.specs.View.{items_view};
ghost use Rattle.ixp_api_bodies.specs.Answers.{Gives};
ghost use Rattle.ixp_api_bodies.specs.Each.{Each};

use ixp_api_json::CallFault;
use ixp_num::Items;
use serde_json::Value;
use std::alloc::Global;

/// One kind of items of lists.
pub(crate) trait ReadsItem {
    ghost use Rattle.std.specs.Prelude.{ℕ, Result};
    ghost use Rattle.serde_json.specs.Data.{Data};
    ghost use Rattle.serde_json.specs.View.{view};
    ghost use Rattle.ixp_api_json.specs.declared.pointer.CallFault.{CallFault};
    ghost use Rattle.ixp_api_bodies.specs.Answers.{Gives};

    type Item: Drop;

    /// What the value at a place, counted from 0, says.
    ghost says: { ℕ → Data → Result Self.Item CallFault → Type 0 };

    /// The item that the value at a place is.
    fn read(alloc: Global, place: u64, value: &Value) -> Result<Self::Item, CallFault>
        ensures { Gives (says place (view value.now)) result };
}

/// The items of a list, or the fault of the first that is none.
pub(crate) fn each_of<R: ReadsItem>(
    alloc: Global,
    values: &[Value],
) -> Result<Items<R::Item>, CallFault>
    ensures items { Gives (Each R.says 0 (items_view values.now)) result }
    ensures count { IfOk result (λ xs. length xs ≡ length values.now) }
{
    let mut items = Items::new(alloc);
    for (place, value) in values.iter().enumerate() {
        match R::read(alloc, place as u64, value) {
            Ok(item) => match items.push(item) {
                Ok(()) => {}
                Err(_) => return Err(CallFault::NoMemory),
            },
            Err(fault) => return Err(fault),
        }
    }
    Ok(items)
}
