//! The laws. The functions do nothing: each is called for what it ensures.
ghost use Rattle.std.specs.Prelude.{◌≡◌, ℕ, List, Some, None};
ghost use Rattle.ixp_ixf.specs.Export.{exchange_tree, members_tree};
ghost use Rattle.ixp_registry.specs.declared.members.Owner.TheVariants.{Member};
ghost use Rattle.ixp_members.specs.Owners.{owner_of};
ghost use Rattle.ixp_registry.specs.declared.refusal.Right.{Right};
ghost use Rattle.ixp_machine_steps.specs.declared.state.State.{State};
ghost use Rattle.ixp_machine_steps.specs.declared.state.Entry.{Entry};
ghost use Rattle.ixp_machine_steps.specs.Steps.{step};
ghost use Rattle.ixp_machine_steps.specs.Views.{view};
ghost use Rattle.ixp_machine.specs.Others.{LeavesOthers};
ghost use Rattle.ixp_machine.specs.declared.question.Answer.{Answer};
ghost use Rattle.ixp_machine.specs.declared.question.Query.{Query};
ghost use Rattle.ixp_machine.specs.declared.question.Query.TheVariants.{Ixf};
ghost use Rattle.ixp_machine.specs.Questions.{ask_refusal, right_asked, IsAnswer};

/// Whether a member's question is refused, and what it is answered else, depends on what the member sees
/// alone. The export is no member's own: it depends on what it shows of the exchange and of its connected
/// members.
pub fn members_ask_of_their_own()
    ensures refusal { (s t : State) (m : ℕ) (a b : List ℕ) (q : Query)
        → owner_of s.registry a ≡ Some (Member m) → owner_of t.registry b ≡ Some (Member m) →
        view s m ≡ view t m → ask_refusal s.registry a q ≡ ask_refusal t.registry b q }
    ensures answer { (s t : State) (m : ℕ) (secret : List ℕ) (q : Query) (right : Right) (x : Answer)
        → owner_of s.registry secret ≡ Some (Member m) →
        right_asked q ≡ Some right → ask_refusal s.registry secret q ≡ None → view s m ≡ view t m
        → IsAnswer s.registry q x → IsAnswer t.registry q x }
    ensures export { (s t : State) (second : ℕ) (x : Answer)
        → exchange_tree s.registry ≡ exchange_tree t.registry
        → members_tree s.registry ≡ members_tree t.registry →
        IsAnswer s.registry (Ixf second) x → IsAnswer t.registry (Ixf second) x }
{}

/// A member's request changes no row and no kept number of anybody else: of no other member, of none of the
/// staff, and in no table in which members have no rows of their own.
pub fn members_leave_others()
    ensures { (s : State) (e : Entry) (m : ℕ) → owner_of s.registry e.secret ≡ Some (Member m)
        → LeavesOthers m s (step s e) }
{}
