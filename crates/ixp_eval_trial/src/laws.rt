//! Laws.
ghost use Rattle.std.specs.Prelude.{◌≡◌, ◌≢◌, ℕ, List, Result, Err};
ghost use Rattle.ixp_eval_trial.specs.declared.fault.TrialFault.{TrialFault};
ghost use Rattle.ixp_eval_trial.specs.declared.fault.TrialFault.TheVariants.{NoMemory};
ghost use Rattle.ixp_eval_trial.specs.declared.trial.Trial.{Trial};
ghost use Rattle.ixp_eval_trial.specs.declared.session_route.SessionRoute.{SessionRoute};
ghost use Rattle.ixp_eval_trial.specs.SessionRoutes.{SessionRouteAnswer};
ghost use Rattle.ixp_eval_trial.specs.Lines.{IsFilterText};
ghost use Rattle.ixp_eval_trial.specs.Trials.{TrialAnswer};

/// No input has two filter texts, nor two answers, but that memory may run out; nor have the lines after a
/// dump.
pub fn one_answer()
    ensures text { (input x y : List ℕ) → IsFilterText input x → IsFilterText input y → x ≡ y }
    ensures trial { (input : List ℕ) (x y : Result Trial TrialFault) → x ≢ Err NoMemory → y ≢ Err NoMemory
        → TrialAnswer input x → TrialAnswer input y → x ≡ y }
    ensures session { (ls : List (List ℕ)) (first : ℕ) (x y : Result SessionRoute TrialFault)
        → x ≢ Err NoMemory → y ≢ Err NoMemory →
        SessionRouteAnswer ls first x → SessionRouteAnswer ls first y → x ≡ y }
{}
