//! Laws of the meaning, on small texts: what a reader of the guide expects of each.
ghost use Rattle.std.specs.Prelude.{◌≡◌, ℕ, List, [], ◌∷◌, codes, Ok, Err, true, false, if◌then◌else◌};
ghost use Rattle.ixp_lang.specs.declared.route.Route.{Route};
ghost use Rattle.ixp_lang.specs.declared.route.Verdict.TheVariants.{Accept, Reject};
ghost use Rattle.ixp_lang.specs.declared.value.Value.TheVariants.{Int, Bool};
ghost use Rattle.ixp_lang.specs.Faults.{pair_range, no_return, no_verdict, no_filter, failed, ended};
ghost use Rattle.ixp_lang.specs.Trees.{
  ItemTree,
  ExprTree,
  StmtTree,
  StmtTrees,
  stmts_end,
  stmts_more,
  if_then,
  conjunction,
  disjunction,
  pair,
  exprs,
  literal,
};
ghost use Rattle.ixp_lang.specs.Meaning.{
  Environment,
  End,
  Params,
  Means,
  Runs,
  means,
  runs_all,
  known,
  filter_end,
  function_end,
  fails,
  returns,
  roas_named,
};
ghost use Rattle.ixp_lang.specs.Sequence.{hands_on, runs_on};
ghost use Rattle.ixp_lang.specs.declared.value.Value.{Value};
ghost use Rattle.ixp_lang.specs.Attributes.{truth};
ghost use Rattle.ixp_num.specs.declared.roa.Roa.{Roa};
ghost use Rattle.ixp_lang.specs.Walks.{walk};
ghost use Rattle.ixp_lang.specs.Samples.{
  int,
  truth_value,
  tests_pair,
  returns_sometimes,
  asks_false,
  accepts_first,
  calls_h,
  never_ends,
};

/// A pair's part above 65535 is a fault, also where it is a parameter.
pub fn wide_parts_fault()
    ensures { (env : Environment) (r : Route)
        → function_end env (tests_pair ∷ []) (codes "g") 4200000001 r ≡ Err (failed (pair_range 4200000001)) }
{}

/// A function that is asked for its value and ends without one is a fault.
pub fn a_value_is_returned()
    ensures { (env : Environment) (r : Route)
        → filter_end env (asks_false ∷ returns_sometimes ∷ []) (codes "f") r ≡ Err (no_return (codes "g")) }
{}

/// `accept` inside a function ends the whole filter, and no function that does so has a value.
pub fn accept_ends_the_filter()
    ensures filter { (env : Environment) (r : Route)
        → filter_end env (calls_h ∷ accepts_first ∷ []) (codes "f") r ≡ Ok (Accept r) }
    ensures function { (env : Environment) (n : ℕ) (r : Route)
        → function_end env (accepts_first ∷ []) (codes "h") n r ≡ Err ended }
{}

/// A filter ends in a verdict, and its name is there.
pub fn a_verdict_is_given()
    ensures verdict { (env : Environment) (r : Route)
        → filter_end env (never_ends ∷ []) (codes "f") r ≡ Err (no_verdict (codes "f")) }
    ensures there { (env : Environment) (r : Route)
        → filter_end env (never_ends ∷ []) (codes "e") r ≡ Err (no_filter (codes "e")) }
{}

/// `&&` stops at the first false and `||` at the first true: what would be a fault behind it isn't reached.
pub fn logic_stops_early()
    ensures conjunction { (env : Environment) (is : List ItemTree) (r : Route) →
        Means env is [] (conjunction (exprs (truth_value false ∷ pair (int 0) (int 65536) ∷ []))) r
        ≡ returns (Bool false) r }
    ensures disjunction { (env : Environment) (is : List ItemTree) (r : Route) →
        Means env is [] (disjunction (exprs (truth_value true ∷ pair (int 0) (int 65536) ∷ []))) r
        ≡ returns (Bool true) r }
{}

/// An expression before anything else means what it means by itself, and then the rest with its value and
/// with the route as it left it. A verdict or a fault in it ends all.
#[tactic(auto, using(crate::proofs::Sequences::expression_followed))]
pub fn expressions_are_followed()
    ensures { (env : Environment) (is : List ItemTree) (ps : Params) (e : ExprTree) (r : Route)
        (next : Value → Route → End) →
        means env (known env is) ps e r next ≡ hands_on (Means env is ps e r) next }
{}

/// Statements before anything else mean what they mean by themselves, and then the rest with the route as
/// they left it; `return`, a verdict or a fault in them ends the body.
#[tactic(auto, using(crate::proofs::Sequences::statements_followed, crate::proofs::Sequences::statement_followed))]
pub fn statements_are_followed()
    ensures rest { (env : Environment) (is : List ItemTree) (ps : Params) (ss : StmtTrees) (r : Route)
        (next : Route → End) →
        runs_all env (known env is) ps ss r next ≡ runs_on (Runs env is ps ss r) next }
    ensures one { (env : Environment) (is : List ItemTree) (ps : Params) (s : StmtTree) (ss : StmtTrees)
        (r : Route) →
        Runs env is ps (stmts_more s ss) r
        ≡ runs_on (Runs env is ps (stmts_more s stmts_end) r) (λ q. Runs env is ps ss q) }
{}

/// An `if` means its test, and then the one branch or the other.
#[tactic(auto, using(crate::proofs::Sequences::expression_followed))]
pub fn tests_decide()
    ensures { (env : Environment) (is : List ItemTree) (ps : Params) (e : ExprTree) (ss ts : StmtTrees)
        (r : Route) →
        Runs env is ps (stmts_more (if_then e ss ts) stmts_end) r
        ≡ hands_on (Means env is ps e r)
        (λ v q. if truth v then Runs env is ps ss q else Runs env is ps ts q) }
{}

/// A walk asks ROA tables by name alone: where two lists of tables have the same ROAs for each name, a route
/// becomes the same.
#[tactic(auto, using(crate::proofs::TableNames::walk_same))]
pub fn walks_ask_tables_by_name()
    ensures { (items : List ItemTree) (a b : List (List ℕ × List Roa)) (session : List ℕ) (r : Route) →
        ((n : List ℕ) → roas_named a n ≡ roas_named b n) → walk items a session r ≡ walk items b session r }
{}
