//! What histories of holds are worth. The functions do nothing: they are called for what they ensure.
ghost use Rattle.std.specs.Prelude.{◌≡◌, ◌++◌, ◌∷◌, [], ℕ, List, Ok};
ghost use Rattle.ixp_lang.specs.declared.route.Route.{Route};
ghost use Rattle.ixp_lang.specs.RouteAnswers.{RouteAnswer};
ghost use Rattle.ixp_glass_holds.specs.declared.hold.Hold.{Hold};
ghost use Rattle.ixp_glass_holds.specs.Calls.{routes_of};
ghost use Rattle.ixp_glass_holds.specs.Holds.{IsWellFormed, held_after, some_of};
ghost use Rattle.ixp_glass_holds.specs.Keys.{session_of};

/// After a turn its session holds the routes that the turn says, or nothing where there are none; all other
/// sessions hold what they held before.
pub fn sessions_hold_what_was_said_last()
    ensures own { (turns : List Hold) (h : Hold)
        → routes_of (held_after tt (turns ++ h ∷ [])) h.session.router h.session.interface
        ≡ some_of h.routes }
    ensures others { (turns : List Hold) (h : Hold) (router : List ℕ) (interface : ℕ)
        → (session_of router interface ≡ h.session → ⊥)
        → routes_of (held_after tt (turns ++ h ∷ [])) router interface
        ≡ routes_of (held_after tt turns) router interface }
{}

/// A route that is read from a text is one that a session can announce.
pub fn read_routes_are_well_formed()
    ensures { (t : List ℕ) (r : Route) → RouteAnswer t (Ok r) → IsWellFormed r }
{}
