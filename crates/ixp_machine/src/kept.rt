//! What is kept of requests.
ghost use Rattle.std.specs.Prelude.{◌≡◌, [], ◌∷◌, option_map};
ghost use Rattle.ixp_num_tables.specs.Tables.{find};
ghost use Rattle.ixp_machine_steps.specs.Kept.{kept_key, kept_of};
ghost use Rattle.ixp_machine.specs.Decisions.{place_of};

use ixp_machine_steps::{KeptNumber, KeptOwner, State};
use ixp_num_tables::Table;
use ixp_registry::Owner;

/// What is kept of the owner's request with the number.
pub(crate) fn kept_number<'a>(
    kept: &'a Table<KeptOwner>,
    owner: &Owner,
    number: u64,
) -> Option<&'a KeptNumber>
    ensures { option_map (λ k. k.now) result
        ≡ find kept_key (number ∷ []) (kept_of kept.entry.now owner.now).numbers }
{
    match kept.find(owner) {
        Some(row) => row.numbers.find(&number),
        None => None,
    }
}

/// Below this each number of the owner counts as used.
pub(crate) fn floor_of(kept: &Table<KeptOwner>, owner: &Owner) -> u64
    ensures { result ≡ (kept_of kept.now owner.now).floor }
{
    match kept.find(owner) {
        Some(row) => row.floor,
        None => 0,
    }
}

/// How many edits had been accepted right after the owner's request with the number: the present count where
/// the number is below the floor, and None where it is neither kept nor below it.
pub fn place_of(state: &State, owner: &Owner, number: u64) -> Option<u64>
    ensures { result ≡ place_of state.now owner.now number }
{
    if let Some(kept) = kept_number(&state.kept, owner, number) {
        return Some(kept.place);
    }
    if number < floor_of(&state.kept, owner) {
        return Some(state.accepted);
    }
    None
}
