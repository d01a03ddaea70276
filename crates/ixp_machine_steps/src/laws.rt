//! The laws. The functions do nothing: each is called for what it ensures.
ghost use Rattle.std.specs.Prelude.{◌≡◌, ℕ, ◌==◌, List, [], ◌∷◌, Some, true, false};
ghost use Rattle.ixp_num_tables.specs.Sums.{Often};
ghost use Rattle.ixp_num_tables.specs.Tables.{find};
ghost use Rattle.ixp_registry.specs.declared.members.Owner.{Owner};
ghost use Rattle.ixp_registry.specs.declared.members.Owner.TheVariants.{Member};
ghost use Rattle.ixp_members.specs.Owners.{owner_of};
ghost use Rattle.ixp_machine_edits.specs.declared.edit.Edit.{Edit};
ghost use Rattle.ixp_machine_edits.specs.Edits.{IsLawful};
ghost use Rattle.ixp_machine_steps.specs.declared.kept.KeptNumber.{KeptNumber};
ghost use Rattle.ixp_machine_steps.specs.declared.state.Entry.{Entry};
ghost use Rattle.ixp_machine_steps.specs.declared.state.State.{State};
ghost use Rattle.ixp_machine_steps.specs.Kept.{kept_key, kept_of, IsSpent};
ghost use Rattle.ixp_machine_steps.specs.Rights.{right_of, has_right};
ghost use Rattle.ixp_machine_steps.specs.Runs.{run, acted, accepted_edits, after_all};
ghost use Rattle.ixp_machine_steps.specs.States.{ValidState};
ghost use Rattle.ixp_machine_steps.specs.Steps.{Accepted, Repeated, verdict, verdict_of, step};
ghost use Rattle.ixp_machine_steps.specs.Subjects.{kind_of, subject_of, same_kind, same_subject};
ghost use Rattle.ixp_machine_steps.specs.Views.{view};

/// Every request leaves a valid state valid: the registry, what is kept of requests, and the counts.
pub fn requests_keep_states_valid()
    ensures { (s : State) (e : Entry) → ValidState s → IsLawful e.edit → ValidState (step s e) }
{}

/// In a run of requests at most one of an owner with a number is accepted, whatever is sent between.
pub fn requests_act_once()
    ensures { (s : State) (es : List Entry) → ValidState s → Often 1 (λ k. k) (acted s es) }
{}

/// A number that was used stays used, whatever is sent after it; one that is used isn't accepted again, and
/// one that is accepted is used from then on.
pub fn used_numbers_stay_used()
    ensures stays { (s : State) (es : List Entry) (owner : Owner) (n : ℕ) → ValidState s
        → IsSpent n (kept_of s.kept owner) → IsSpent n (kept_of (run s es).kept owner) }
    ensures unused { (s : State) (owner : Owner) (n : ℕ) (e : Edit) → verdict_of s owner n e ≡ Accepted
        → ¬ (IsSpent n (kept_of s.kept owner)) }
    ensures used { (s : State) (owner : Owner) (e : Entry) → ValidState s
        → owner_of s.registry e.secret ≡ Some owner → verdict_of s owner e.number e.edit ≡ Accepted
        → IsSpent e.number (kept_of (step s e).kept owner) }
{}

/// A request whose number is kept for its kind and subject is answered as a repeat, where its owner still has
/// the right, and changes nothing.
pub fn repeats_change_nothing()
    ensures { (s : State) (owner : Owner) (e : Entry) (k : KeptNumber)
        → owner_of s.registry e.secret ≡ Some owner → has_right owner (right_of e.edit) ≡ true
        → find kept_key (e.number ∷ []) (kept_of s.kept owner).numbers ≡ Some k
        → same_kind k.kind (kind_of e.edit) ≡ true → same_subject k.subject (subject_of e.edit) ≡ true
        → (verdict s e ≡ Repeated) × (step s e ≡ s) }
{}

/// The registry after a run of requests is that of the accepted edits in their order.
pub fn the_registry_is_that_of_accepted_edits()
    ensures { (s : State) (es : List Entry)
        → (run s es).registry ≡ after_all s.registry (accepted_edits s es) }
{}

/// What is decided of a member's request depends on what the member sees alone.
pub fn members_are_apart()
    ensures { (s t : State) (m n : ℕ) (e : Edit) → view s m ≡ view t m
        → verdict_of s (Member m) n e ≡ verdict_of t (Member m) n e }
{}

/// A member's requests change nothing that another member sees.
pub fn members_change_their_own()
    ensures { (s : State) (e : Entry) (m n : ℕ) → owner_of s.registry e.secret ≡ Some (Member m)
        → (n == m) ≡ false → view (step s e) n ≡ view s n }
{}
