//! What becomes of edits that are sent again.
ghost use Rattle.std.specs.Prelude.{◌≡◌, ◌++◌, ◌∷◌, [], ◌⊎◌, ℕ, List};
ghost use Rattle.ixp_registry.specs.declared.members.Owner.{Owner};
ghost use Rattle.ixp_machine_steps.specs.Runs.{after_all};
ghost use Rattle.ixp_desk_history.specs.declared.turn.First.{First};
ghost use Rattle.ixp_desk_history.specs.declared.turn.Turn.{Turn};
ghost use Rattle.ixp_desk_history.specs.Legal.{Legal};
ghost use Rattle.ixp_desk_history.specs.Turns.{registry_of, state_of};
ghost use Rattle.ixp_desk_laws.specs.Edits.{AnswersAgain, IsTooOld, Makes, Repeats, Resends, edits_made};

/// Of an owner's edits with one number a legal history has at most one that is accepted, however long it goes
/// on and whatever comes between.
pub fn edits_are_made_once()
    ensures { (f : First) (before between after : List Turn) (t u : Turn) (owner : Owner) (n : ℕ)
        → Legal f (before ++ t ∷ (between ++ u ∷ after))
        → Makes (registry_of f before) owner n t.event
        → ¬ (Makes (registry_of f (before ++ t ∷ between)) owner n u.event) }
{}

/// An edit whose number is kept for its kind and subject, sent again by its owner who still has the right, is
/// answered as it was, and the state stays as it is.
pub fn repeats_change_nothing()
    ensures answer { (f : First) (before after : List Turn) (t : Turn) (owner : Owner)
        → Legal f (before ++ t ∷ after) → Repeats (state_of f before) owner t.event
        → AnswersAgain t.event }
    ensures state { (f : First) (before : List Turn) (t : Turn) (owner : Owner)
        → Repeats (state_of f before) owner t.event
        → state_of f (before ++ t ∷ []) ≡ state_of f before }
{}

/// An edit that was accepted, sent again later by its owner who still has the right, is answered as it was,
/// or refused as too old once its number is dropped; and the state stays as it is.
pub fn resent_edits_are_known()
    ensures answer { (f : First) (before between after : List Turn) (t u : Turn) (owner : Owner) (n : ℕ)
        → Legal f (before ++ t ∷ (between ++ u ∷ after))
        → Makes (registry_of f before) owner n t.event
        → Resends (registry_of f (before ++ t ∷ between)) owner n t.event u.event
        → AnswersAgain u.event ⊎ IsTooOld u.event }
    ensures state { (f : First) (before between after : List Turn) (t u : Turn) (owner : Owner) (n : ℕ)
        → Legal f (before ++ t ∷ (between ++ u ∷ after))
        → Makes (registry_of f before) owner n t.event
        → Resends (registry_of f (before ++ t ∷ between)) owner n t.event u.event
        → state_of f ((before ++ t ∷ between) ++ u ∷ []) ≡ state_of f (before ++ t ∷ between) }
{}

/// The registry after a legal history is that of the edits that were accepted, in their order: what was
/// repeated or refused, and all turns that are no edits, may be left out.
pub fn edits_made_give_the_registry()
    ensures { (f : First) (ts : List Turn) → Legal f ts
        → registry_of f ts ≡ after_all f.state.registry (edits_made ts) }
{}
