//! What the calls of links answer members, and edits that are sent again.
ghost use Rattle.std.specs.Prelude.{◌≡◌, ℕ, List, Option};
ghost use Rattle.ixp_lang.specs.declared.route.Route.{Route};
ghost use Rattle.ixp_registry.specs.declared.members.Owner.{Owner};
ghost use Rattle.ixp_machine_steps.specs.declared.state.Entry.{Entry};
ghost use Rattle.ixp_machine.specs.declared.question.Query.{Query};
ghost use Rattle.ixp_api_replies.specs.declared.outcome.Outcome.{Outcome};
ghost use Rattle.ixp_api_replies.specs.declared.outcome.Outcome.TheVariants.{Done};
ghost use Rattle.ixp_api.specs.declared.call.ExplainCall.{ExplainCall};
ghost use Rattle.ixp_board.specs.Histories.{IsLegal};
ghost use Rattle.ixp_desk_history.specs.declared.turn.First.{First};
ghost use Rattle.ixp_desk_history.specs.declared.turn.Turn.{Turn};
ghost use Rattle.ixp_desk_history.specs.Legal.{Legal};
ghost use Rattle.ixp_desk_history.specs.Turns.{state_of};
ghost use Rattle.ixp_desk_lock.specs.Sights.{Sight};
ghost use Rattle.ixp_desk_explain.specs.Explanations.{ExplainTurn};
ghost use Rattle.ixp_desk_explain.specs.Glass.{ShowTurn, Sights};
ghost use Rattle.ixp_desk_link.specs.Turns.{AskTurn, EditTurn};
ghost use Rattle.ixp_desk_laws.specs.Calls.{SeesAlike};
ghost use Rattle.ixp_desk_laws.specs.Desks.{IsAfter, IsOf, StaysOf};
ghost use Rattle.ixp_desk_laws.specs.Edits.{IsRepeat};
ghost use Rattle.ixp_desk_laws.specs.Links.{IsReply};

/// What a link answers to a member's call depends on what the member sees at the call's place alone: edits,
/// questions, explanations of a route, and what a looking glass shows of the same routes. An explanation
/// looks for whose the secret is before its turn, so it is said of those whose secret is the member's as
/// long as the call lasts.
pub fn links_answer_members_of_their_own()
    ensures edit { (m : ℕ) (a b : Entry) (x y : Outcome) (s t u w : Sight) (f g : First)
        (before others : List Turn) → EditTurn a x s t → EditTurn b y u w → IsReply x → IsReply y
        → IsOf m a.secret f before s t → IsOf m b.secret g others u w
        → SeesAlike m (state_of f before) (state_of g others)
        → a.number ≡ b.number → a.edit ≡ b.edit → x ≡ y }
    ensures ask { (m : ℕ) (a b : List ℕ) (q : Query) (x y : Outcome) (s t u w : Sight) (f g : First)
        (before others : List Turn) → AskTurn a q x s t → AskTurn b q y u w → IsReply x → IsReply y
        → IsOf m a f before s t → IsOf m b g others u w
        → SeesAlike m (state_of f before) (state_of g others) → x ≡ y }
    ensures explain { (m : ℕ) (a b : ExplainCall) (x y : Outcome) (s t u w : Sight) (f g : First)
        (before others : List Turn) → ExplainTurn a x s t → ExplainTurn b y u w → IsReply x → IsReply y
        → IsLegal Legal s.2 → IsLegal Legal u.2 → StaysOf m a.secret s t → StaysOf m b.secret u w
        → IsOf m a.secret f before s t → IsOf m b.secret g others u w
        → SeesAlike m (state_of f before) (state_of g others)
        → a.router ≡ b.router → a.interface ≡ b.interface → a.asked ≡ b.asked → x ≡ y }
    ensures glass { (m : ℕ) (a b router : List ℕ) (n : ℕ) (held : Option (List Route)) (x y : Outcome)
        (s t u w : Sights) (f g : First) (before others : List Turn) → ShowTurn held a router n x s t
        → ShowTurn held b router n y u w → IsReply x → IsReply y
        → IsOf m a f before s.0 t.0 → IsOf m b g others u.0 w.0
        → SeesAlike m (state_of f before) (state_of g others) → x ≡ y }
{}

/// An edit whose number is kept for its kind and subject, sent again by its owner who still has the right, is
/// answered as done.
pub fn links_answer_repeats_again()
    ensures { (e : Entry) (o : Outcome) (s t : Sight) (f : First) (before : List Turn) (owner : Owner)
        → EditTurn e o s t → IsReply o → IsAfter f before s t → IsRepeat (state_of f before) owner e
        → o ≡ Done e.number }
{}
