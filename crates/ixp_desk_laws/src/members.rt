//! What members are answered, and what they change.
ghost use Rattle.std.specs.Prelude.{◌≡◌, ◌++◌, ◌∷◌, [], ℕ, List, true};
ghost use Rattle.ixp_num.specs.declared.asn.Asn.{Asn};
ghost use Rattle.ixp_lang.specs.declared.route.Route.{Route};
ghost use Rattle.ixp_machine_steps.specs.Views.{view};
ghost use Rattle.ixp_machine.specs.Others.{LeavesOthers};
ghost use Rattle.ixp_explain_member.specs.Explanations.{member_explanation};
ghost use Rattle.ixp_explain_member.specs.Rows.{own_report_by_rows};
ghost use Rattle.ixp_desk_history.specs.declared.turn.First.{First};
ghost use Rattle.ixp_desk_history.specs.declared.turn.Turn.{Turn};
ghost use Rattle.ixp_desk_history.specs.declared.turn.Text.{Text};
ghost use Rattle.ixp_desk_history.specs.Answers.{IsOwnText, is_owned};
ghost use Rattle.ixp_desk_history.specs.Legal.{Legal};
ghost use Rattle.ixp_desk_history.specs.Turns.{registry_of, state_of};
ghost use Rattle.ixp_desk_laws.specs.Calls.{IsCallOf, SameAnswer, SameCall, SeesAlike};

/// What a member's call is answered depends on what the member sees of the state at its place alone: in any
/// two legal histories a call that is the same is answered the same where the member sees the same. A
/// session's own text is the same but for the count of its version.
pub fn members_are_answered_of_their_own()
    ensures { (f g : First) (before others after more : List Turn) (t u : Turn) (m : ℕ)
        → Legal f (before ++ t ∷ after) → Legal g (others ++ u ∷ more)
        → IsCallOf (registry_of f before) m t.event → IsCallOf (registry_of g others) m u.event
        → SameCall t.event u.event → SeesAlike m (state_of f before) (state_of g others)
        → SameAnswer t.event u.event }
{}

/// What a member is told of a route of its own depends on what the member sees alone: by the registry, and by
/// its session's own text.
pub fn members_are_explained_their_own()
    ensures answer { (f g : First) (before others : List Turn) (m n : ℕ) (handle : List ℕ) (route : Route)
        (peers : List Asn) → Legal f before → Legal g others
        → view (state_of f before) m ≡ view (state_of g others) m
        → member_explanation (registry_of f before) m handle n route peers
        ≡ member_explanation (registry_of g others) m handle n route peers }
    ensures report { (f g : First) (before others : List Turn) (m n : ℕ) (handle : List ℕ) (route : Route)
        (peers : List Asn) (a b : Text) → Legal f before → Legal g others
        → view (state_of f before) m ≡ view (state_of g others) m
        → is_owned (registry_of f before) m n ≡ true
        → (x : IsOwnText (state_of f before) handle n a)
        → (y : IsOwnText (state_of g others) handle n b)
        → own_report_by_rows (registry_of f before) x.router x.sender route peers
        ≡ own_report_by_rows (registry_of g others) y.router y.sender route peers }
{}

/// A member's call changes no row and no kept number of anybody else: of no other member, of none of the
/// staff, and in no table in which members have no rows of their own.
pub fn members_calls_leave_others()
    ensures { (f : First) (before : List Turn) (t : Turn) (m : ℕ)
        → IsCallOf (registry_of f before) m t.event
        → LeavesOthers m (state_of f before) (state_of f (before ++ t ∷ [])) }
{}
