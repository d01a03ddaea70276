//! Laws of reading and of expansions. The functions do nothing: each is called for what it ensures.
ghost use Rattle.std.specs.Prelude.{◌≡◌, ◌≢◌, List, ℕ, Result, Err, IsTrue, ◌↔◌};
ghost use Rattle.ixp_rpsl.specs.Expansion.{is_chain, has_name, Leads};
ghost use Rattle.ixp_rpsl.specs.Objects.{ReadAnswer};
ghost use Rattle.ixp_rpsl.specs.declared.fault.RpslFault.{RpslFault};
ghost use Rattle.ixp_rpsl.specs.declared.fault.RpslFault.TheVariants.{NoMemory};
ghost use Rattle.ixp_rpsl.specs.declared.objects.Objects.{Objects};
ghost use Rattle.ixp_rpsl.specs.declared.objects.Reach.{Reach};
ghost use Rattle.ixp_rpsl.specs.declared.objects.SetRow.{SetRow};

/// The names in a list that `check_reach` accepts are those of the sets that a finite chain of members leads
/// to from the root: the least list that has the root, and with each set the sets among its members.
pub fn least_closed()
    ensures { (rows : List SetRow) (root : List ℕ) (c : List Reach) → IsTrue (is_chain rows root c)
        → (n : List ℕ) → IsTrue (has_name c n) ↔ Leads rows root n }
{}

/// No text has two answers, but that memory may run out: what `read_objects` ensures says exactly when each
/// other answer comes.
pub fn one_answer()
    ensures { (t : List ℕ) (x y : Result Objects RpslFault) → x ≢ Err NoMemory → y ≢ Err NoMemory
        → ReadAnswer t x → ReadAnswer t y → x ≡ y }
{}
