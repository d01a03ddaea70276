//! What the calls of a desk answer members, and edits that are sent again.
ghost use Rattle.std.specs.Prelude.{◌≡◌, ℕ, List, Result, Ok};
ghost use Rattle.ixp_registry.specs.declared.members.Owner.{Owner};
ghost use Rattle.ixp_machine_steps.specs.declared.state.Entry.{Entry};
ghost use Rattle.ixp_machine.specs.declared.decision.Reply.{Reply};
ghost use Rattle.ixp_machine.specs.declared.question.Answer.{Answer};
ghost use Rattle.ixp_machine.specs.declared.question.Query.{Query};
ghost use Rattle.ixp_desk_history.specs.declared.turn.First.{First};
ghost use Rattle.ixp_desk_history.specs.declared.turn.Text.{Text};
ghost use Rattle.ixp_desk_history.specs.declared.turn.Turn.{Turn};
ghost use Rattle.ixp_desk_history.specs.Turns.{state_of};
ghost use Rattle.ixp_desk_lock.specs.declared.fault.AskFault.{AskFault};
ghost use Rattle.ixp_desk_lock.specs.declared.fault.SubmitFault.{SubmitFault};
ghost use Rattle.ixp_desk_lock.specs.Calls.{Asks, Grows, OwnTexts, Submits};
ghost use Rattle.ixp_desk_lock.specs.Sights.{Sight};
ghost use Rattle.ixp_desk_laws.specs.Calls.{SeesAlike};
ghost use Rattle.ixp_desk_laws.specs.Desks.{HasPlace, IsAfter, IsDecided, IsOf, IsTold, SameText};
ghost use Rattle.ixp_desk_laws.specs.Edits.{IsRepeat};

/// Each call that a desk answers has a turn of its own in the history that its seat has seen at the return.
pub fn answered_calls_have_places()
    ensures submit { (e : Entry) (x : Result Reply SubmitFault) (s t : Sight) → Grows s t → Submits e x s t
        → IsDecided x → HasPlace s t }
    ensures ask { (secret : List ℕ) (q : Query) (x : Result Answer AskFault) (s t : Sight) → Grows s t
        → Asks secret q x s t → IsTold x → HasPlace s t }
    ensures own_text { (secret router : List ℕ) (n : ℕ) (x : Result Text AskFault) (s t : Sight) → Grows s t
        → OwnTexts secret router n x s t → IsTold x → HasPlace s t }
{}

/// What a desk answers to a member's call depends on what the member sees at the call's place alone: two
/// calls that are the same, of any seats of any desks, are answered the same where the member sees the
/// same.
pub fn desks_answer_members_of_their_own()
    ensures submit { (m : ℕ) (a b : Entry) (x y : Result Reply SubmitFault) (s t u w : Sight) (f g : First)
        (before others : List Turn) → Submits a x s t → Submits b y u w → IsDecided x → IsDecided y
        → IsOf m a.secret f before s t → IsOf m b.secret g others u w
        → SeesAlike m (state_of f before) (state_of g others)
        → a.number ≡ b.number → a.edit ≡ b.edit → x ≡ y }
    ensures ask { (m : ℕ) (a b : List ℕ) (q : Query) (x y : Result Answer AskFault) (s t u w : Sight)
        (f g : First) (before others : List Turn) → Asks a q x s t → Asks b q y u w → IsTold x → IsTold y
        → IsOf m a f before s t → IsOf m b g others u w
        → SeesAlike m (state_of f before) (state_of g others) → x ≡ y }
    ensures own_text { (m : ℕ) (a b router : List ℕ) (n : ℕ) (x y : Result Text AskFault) (s t u w : Sight)
        (f g : First) (before others : List Turn) → OwnTexts a router n x s t → OwnTexts b router n y u w
        → IsTold x → IsTold y → IsOf m a f before s t → IsOf m b g others u w
        → SeesAlike m (state_of f before) (state_of g others) → SameText x y }
{}

/// An edit whose number is kept for its kind and subject, submitted again by its owner who still has the
/// right, is answered by its number.
pub fn desks_answer_repeats_again()
    ensures { (e : Entry) (x : Result Reply SubmitFault) (s t : Sight) (f : First) (before : List Turn)
        (owner : Owner) → Submits e x s t → IsDecided x → IsAfter f before s t
        → IsRepeat (state_of f before) owner e → x ≡ Ok (record { number = e.number }) }
{}
