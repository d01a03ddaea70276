//! The laws. The functions do nothing: each is called for what it ensures.
ghost use Rattle.std.specs.Prelude.{◌≡◌, ◌<◌, ◌≤◌, ◌^◌, ◌-◌, length, Result, Some};
ghost use Rattle.ixp_machine_edits.specs.Edits.{IsLawful};
ghost use Rattle.ixp_machine_steps.specs.Openings.{first_state};
ghost use Rattle.ixp_registry.specs.declared.registry.Registry.{Registry};
ghost use Rattle.ixp_machine_steps.specs.declared.state.Entry.{Entry};
ghost use Rattle.ixp_machine_steps.specs.declared.state.State.{State};
ghost use Rattle.ixp_machine_steps.specs.States.{ValidState};
ghost use Rattle.ixp_machine_steps.specs.Steps.{step};
ghost use Rattle.ixp_store_rows.specs.States.{stored_rows, tables};
ghost use Rattle.ixp_store_words.specs.declared.fault.LoadFault.{LoadFault};
ghost use Rattle.ixp_store_words.specs.Answers.{IsLoaded, IsStoreOf, LoadsAll};
ghost use Rattle.ixp_store_words.specs.Storing.{IsStorable};
ghost use Rattle.ixp_io.specs.Tables.{Table};

/// States that requests lead to can be loaded again: the first state of a registry is one, and a request to
/// one leaves one, as long as the count of accepted requests has room.
#[tactic(auto, using(ixp_store_words::proofs::KeepStorable::first_storable, ixp_store_words::proofs::KeepStorable::still_storable))]
pub fn requests_keep_states_storable()
    ensures first { (r : Registry) → IsStorable (first_state r) }
    ensures next { (s : State) (e : Entry) → ValidState s → IsStorable s → IsLawful e.edit
        → s.accepted < 2 ^ 64 - 1 → IsStorable (step s e) }
{}

/// A store of a valid state has at most 8,000,000 rows.
#[tactic(auto, using(ixp_store_damage::proofs::FewRows::few_rows))]
pub fn valid_states_have_few_rows()
    ensures { (s : State) → ValidState s → length (stored_rows s) ≤ 8000000 }
{}

/// The store of a valid state that may be stored is loaded as that state, unless memory runs out or the
/// keeper fails. So what a session has stored is the state after its last turn.
pub fn stores_are_loaded_as_their_states()
    ensures { (s : State) (rows : Table) (r : Result State LoadFault) → ValidState s → IsStorable s
        → IsStoreOf s rows → LoadsAll (Some rows) r → IsLoaded s r }
{}

/// A store tells its state: two valid states that may be stored and have the same rows are one.
pub fn stores_tell_their_states()
    ensures { (s t : State) → ValidState s → IsStorable s → ValidState t → IsStorable t → tables s ≡ tables t
        → s ≡ t }
{}
