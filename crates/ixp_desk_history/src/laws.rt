//! What legal histories are worth. The functions do nothing: they are called for what they ensure.
ghost use Rattle.std.specs.Prelude.{◌≡◌, ◌++◌, ◌∷◌, [], ℕ, List};
ghost use Rattle.ixp_registry.specs.declared.registry.Registry.{Registry};
ghost use Rattle.ixp_machine_steps.specs.States.{ValidState};
ghost use Rattle.ixp_build.specs.declared.making.Made.{Made};
ghost use Rattle.ixp_build.specs.Orders.{installed};
ghost use Rattle.ixp_desk_history.specs.declared.turn.Event.TheVariants.{Install};
ghost use Rattle.ixp_desk_history.specs.declared.turn.First.{First};
ghost use Rattle.ixp_desk_history.specs.declared.turn.Turn.{Turn};
ghost use Rattle.ixp_desk_history.specs.Legal.{IsRight, Legal, MayFollow, ShowsTexts};
ghost use Rattle.ixp_desk_history.specs.Orders.{IsMadeAt};
ghost use Rattle.ixp_desk_history.specs.Turns.{IsVersion, built_after, shown_after, state_of};

/// A legal history with a turn that may follow is legal, and its state is valid.
pub fn legal_histories_go_on()
    ensures next { (f : First) (ts : List Turn) (t : Turn) → Legal f ts → MayFollow f ts t
        → Legal f (ts ++ t ∷ []) }
    ensures valid { (f : First) (ts : List Turn) → Legal f ts → ValidState (state_of f ts) }
{}

/// A history has one registry with a count of accepted edits.
pub fn versions_are_one()
    ensures { (f : First) (ts : List Turn) (k : ℕ) (r s : Registry) → IsVersion f ts k r
        → IsVersion f ts k s → r ≡ s }
{}

/// What readers see of a legal history is right: all texts are of one version, the one that was installed
/// last.
pub fn readers_see_one_version()
    ensures { (f : First) (ts : List Turn) → Legal f ts → IsRight f ts }
{}

/// Texts that were made of all that was pending at one place of a legal history may be installed at a later
/// one, if none were installed between: the readers then see all texts of the version at that place.
pub fn ordered_texts_may_be_installed()
    ensures { (f : First) (at more : List Turn) (m : Made) → Legal f (at ++ more) → IsMadeAt f at m
        → built_after f (at ++ more) ≡ built_after f at
        → ShowsTexts f (at ++ more) (Install (state_of f at).accepted)
        (installed (shown_after f (at ++ more)).bundle m) }
{}
