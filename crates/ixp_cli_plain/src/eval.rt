//! The command `eval`: the fate of a route by the filter text that it is tried with.
ghost use Rattle.std.specs.Prelude.{◌≡◌, ◌++◌, ◌↔◌, IfOk, IfErr, MatchOption, OnOk, Result, IsTrue};
ghost use Rattle.ixp_lang.specs.declared.fate.Fate.{Fate as FateValue};
ghost use Rattle.ixp_lang.specs.Faults.{Fault};
ghost use Rattle.ixp_lang.specs.Views.{config_view};
ghost use Rattle.ixp_eval.specs.Answers.{Gives};
ghost use Rattle.ixp_cli_plain.specs.Evals.{
  Evaluates,
  IsConfiguration,
  IsNoEval,
  IsNoText,
  IsNoTrial,
  IsOfOtherFamily,
  IsOutcome,
  IsRefused,
  IsTaken,
  IsTrial,
  outcome_text,
};
ghost use Rattle.ixp_cli_plain.specs.Runs.{Refused, no_answer};
ghost use Rattle.ixp_eval_trial.specs.Causes.{cause_of};

use crate::end::NoAnswer;
use ixp_eval::{EvalFault, session_named, walk};
use ixp_eval_trial::{RouteCode, Trial, TrialFault, filter_text, read_trial, tables_of};
use ixp_lang::{Config, Fate, print_fate};
use ixp_num_tables::put;
use ixp_read::read_config;
use std::alloc::{AllocError, Global};

/// The configuration that the filter text in an input spells.
fn config_of(alloc: Global, input: &[u8]) -> Result<Config, NoAnswer>
    ensures configuration { IfOk result (λ c. IsConfiguration input.now (config_view c)) }
    ensures cause { IfErr result (Refused (IsNoText input.now)) }
{
    let fault = match read_config(alloc, filter_text(input)) {
        Ok(config) => return Ok(config),
        Err(fault) => fault,
    };
    match fault.cause() {
        Some(cause) => Err(NoAnswer::Bad { cause }),
        None => Err(NoAnswer::NoMemory),
    }
}

/// Whether the session of the route, if it is there, has a channel of another family.
fn is_of_other_family(config: &Config, trial: &Trial) -> bool
    ensures { IsTrue result ↔ IsOfOtherFamily (config_view config.now) trial.now }
{
    match session_named(config.items.as_slice(), &trial.session) {
        Some(session) => {
            if session.family == trial.route.net.family {
                false
            } else {
                true
            }
        }
        None => false,
    }
}

/// Why the configuration can't take the trial: the session is of another family than the route, or else a
/// line stands behind the route's.
fn refusal(config: &Config, trial: &Trial) -> Option<TrialFault>
    ensures { MatchOption result (IsTaken (config_view config.now) trial.now)
        (IsRefused (config_view config.now) trial.now) }
{
    if is_of_other_family(config, trial) {
        return Some(TrialFault::BadRoute {
            line: trial.line,
            code: RouteCode::Family,
        });
    }
    match trial.more {
        Some(line) => Some(TrialFault::BadLine { line }),
        None => None,
    }
}

/// How a fault of what follows a filter text or a dump is told.
pub(crate) fn refused(fault: TrialFault) -> NoAnswer
    ensures { result ≡ no_answer (cause_of fault) }
{
    match fault.cause() {
        Some(cause) => NoAnswer::Bad { cause },
        None => NoAnswer::NoMemory,
    }
}

/// The trial in an input, which the configuration can take.
#[tactic(auto, using(crate::proofs::Evaluating::no_trial, crate::proofs::Evaluating::not_taken))]
fn trial_of(alloc: Global, input: &[u8], config: &Config) -> Result<Trial, NoAnswer>
    ensures trial { IfOk result (IsTrial (config_view config.now) input.now) }
    ensures cause { IfErr result (Refused (IsNoTrial (config_view config.now) input.now)) }
{
    let trial = match read_trial(alloc, input) {
        Ok(trial) => trial,
        Err(fault) => return Err(refused(fault)),
    };
    match refusal(config, &trial) {
        Some(fault) => Err(refused(fault)),
        None => Ok(trial),
    }
}

/// Adds the text of what a walk gives.
fn put_outcome(outcome: &Result<Fate, EvalFault>, out: &mut Vec<u8>) -> Result<(), AllocError>
    ensures { (given : Result FateValue Fault) → Gives outcome.now given
        → OnOk result (out.new.items ≡ out.old.items ++ outcome_text given) }
{
    match outcome {
        Ok(fate) => print_fate(fate, None, out),
        Err(EvalFault::PairRange { .. }) => put(out, b"fault V1\n"),
        Err(EvalFault::NoReturn { .. }) => put(out, b"fault V2\n"),
        Err(EvalFault::NoVerdict { .. }) => put(out, b"fault V3\n"),
        Err(EvalFault::NoFilter { .. }) => put(out, b"fault V4\n"),
        Err(EvalFault::NoMemory) => Err(AllocError),
    }
}

/// The text of what becomes of the trial's route.
fn outcome_of(alloc: Global, config: &Config, trial: &Trial) -> Result<Vec<u8>, AllocError>
    ensures { IfOk result (λ out. IsOutcome (config_view config.now) trial.now out.items) }
{
    let tables = tables_of(alloc, trial.roas.as_slice())?;
    let outcome = walk(
        alloc,
        config,
        &trial.session,
        &trial.route,
        tables.as_slice(),
    );
    let mut out = Vec::new(alloc);
    put_outcome(&outcome, &mut out)?;
    Ok(out)
}

/// What `eval` writes for an input: what becomes of its route by its filter text.
#[tactic(auto, using(crate::proofs::Evaluating::bad_text, crate::proofs::Evaluating::bad_trial))]
pub(crate) fn eval(alloc: Global, input: &[u8]) -> Result<Vec<u8>, NoAnswer>
    ensures output { IfOk result (λ out. Evaluates input.now out.items) }
    ensures cause { IfErr result (Refused (IsNoEval input.now)) }
{
    let config = config_of(alloc, input)?;
    let trial = trial_of(alloc, input, &config)?;
    let text = outcome_of(alloc, &config, &trial)?;
    Ok(text)
}
