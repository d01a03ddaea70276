//! Whether rows are those of a state.
ghost use Rattle.std.specs.Prelude.{◌≡◌, ◌↔◌, IfOk, IsTrue, map};
ghost use Rattle.ixp_io.specs.Tables.{row_entry};
ghost use Rattle.ixp_store_rows.specs.States.{set_row, stored_rows};
ghost use Rattle.std.specs.List.Sorted.{IsPermutation};
ghost use Rattle.ixp_machine_steps.specs.States.{ValidState};
ghost use Rattle.ixp_store_words.specs.Opening.{AreAllRows, change_name};
ghost use Rattle.ixp_store_words.specs.Sorting.{Rises};

use ixp_io::{Change, Row};
use ixp_machine_steps::State;
use ixp_store_damage::sets;
use ixp_store_rows::whole_batch;
use std::alloc::{AllocError, Global};

/// Whether the changes put these rows into a store, in this order.
fn are_set(batch: &[Change], rows: &[Row]) -> bool
    ensures { IsTrue result ↔ batch.now ≡ map set_row (map row_entry rows.now) }
{
    let mut changes = batch;
    let mut left = rows;
    'each: while let Some((change, others)) = changes.split_first() {
        let Some((row, behind)) = left.split_first() else {
            return false;
        };
        if !sets(change, row) {
            return false;
        }
        changes = others;
        left = behind;
    }
    left.is_empty()
}

/// Puts changes into the order of the names.
fn sort_changes(batch: &mut Vec<Change>)
    ensures moved { IsPermutation batch.old.items batch.new.items }
    ensures rises { Rises change_name batch.new.items }
{
    batch.sort_unstable_by(|a, b| a.name.cmp(&b.name));
}

/// Whether the rows are those that a store has of the state, in the order of their names.
pub(crate) fn are_rows_of(alloc: Global, state: &State, rows: &[Row]) -> Result<bool, AllocError>
    ensures same { IfOk result
        (λ are. IsTrue are → IsPermutation (map set_row (stored_rows state.now))
        (map set_row (map row_entry rows.now))) }
    ensures complete { ValidState state.now → AreAllRows state.now (map row_entry rows.now)
        → IfOk result (λ are. IsTrue are) }
{
    let mut batch = whole_batch(alloc, state)?;
    sort_changes(&mut batch);
    Ok(are_set(batch.as_slice(), rows))
}
