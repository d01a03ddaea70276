//! Filters and functions run.
ghost use Rattle.std.specs.Prelude.{◌≡◌, MatchResult, reverse};
ghost use Rattle.ixp_lang.specs.Meaning.{fails, filter_end, function_end};
ghost use Rattle.ixp_lang.specs.Views.{config_view};
ghost use Rattle.ixp_eval.specs.Answers.{CallGives, Fails, Gives};
ghost use Rattle.ixp_eval.specs.Outcomes.{body_out};
ghost use Rattle.ixp_eval.specs.Indexed.{items_of};
ghost use Rattle.ixp_eval.specs.Views.{backwards, body_view, end_of, environment_of};

use crate::changes::copied_route;
use crate::env::Env;
use crate::fault::{CallFault, EvalFault};
use crate::find::{filter_of, function_of};
use crate::frames::{Frame, frame_of, step};
use crate::index::Index;
use crate::search::Before;
use crate::tasks::How;
use crate::val::{Val, into_value};
use ixp_lang::{Config, Route, Value, Verdict};
use ixp_num::{Items, Name};
use ixp_num_tables::Stack;
use std::alloc::Global;

/// Runs a body to its end.
fn run_body<'a>(
    alloc: Global,
    env: &Env<'_>,
    mut frame: Frame<'_, 'a>,
    mut route: Route,
) -> Result<(How<'a>, Route), EvalFault>
    ensures { MatchResult result
        (λ p. end_of p.0 p.1 ≡ body_out (environment_of env.now) (body_view frame.entry) route)
        (λ f. Fails fails (body_out (environment_of env.now) (body_view frame.entry) route) f) }
{
    let mut waiting = Stack::new(alloc);
    'steps: loop {
        match step(alloc, env, &mut frame, &mut waiting, &mut route)? {
            Some(how) => return Ok((how, route)),
            None => {}
        }
    }
}

/// The items of a configuration, all of them.
fn all<'i, 'a>(index: &'i Index<'a>) -> Before<'i, 'a>
    ensures { backwards result ≡ reverse (items_of index.now) }
{
    Before {
        index,
        count: index.items.len(),
    }
}

/// What the filter of the name makes of a route, by an index of the configuration.
pub(crate) fn run_filter_by<'a>(
    alloc: Global,
    index: &Index<'a>,
    name: &'a Name,
    route: &Route,
    env: &Env<'_>,
) -> Result<Verdict, EvalFault>
    ensures { Gives result
        (filter_end (environment_of env.now) (reverse (items_of index.now)) name.now route.now) }
{
    let Some(found) = filter_of(all(index), name) else {
        return Err(EvalFault::NoFilter {
            name: name.copied(alloc)?,
        });
    };
    let frame = frame_of(alloc, found.before, &[], Items::new(alloc), found.body)?;
    let (how, route) = run_body(alloc, env, frame, copied_route(alloc, route)?)?;
    match how {
        How::Falls | How::Returns(_) => Err(EvalFault::NoVerdict {
            name: name.copied(alloc)?,
        }),
        How::Accepts => Ok(Verdict::Accept(route)),
        How::Rejects => Ok(Verdict::Reject),
    }
}

/// What the filter of the name makes of a route. V1 to V4 come as [`EvalFault`] says.
pub fn run_filter<'a>(
    alloc: Global,
    c: &'a Config,
    name: &'a Name,
    route: &Route,
    env: &Env<'_>,
) -> Result<Verdict, EvalFault>
    ensures { Gives result
        (filter_end (environment_of env.now) (reverse (config_view c.now)) name.now route.now) }
{
    let index = Index::of(alloc, c.items.as_slice())?;
    run_filter_by(alloc, &index, name, route, env)
}

/// What the function of the name gives for one number, where the route is this one. V1, V2 and V4 come as
/// [`EvalFault`] says, and V5 where the function accepts or rejects.
#[tactic(auto, using(crate::proofs::Passing::call_fails))]
pub fn call_function<'a>(
    alloc: Global,
    c: &'a Config,
    name: &'a Name,
    arg: u32,
    route: &Route,
    env: &Env<'_>,
) -> Result<Value, CallFault>
    ensures { CallGives result
        (function_end (environment_of env.now) (reverse (config_view c.now)) name.now arg route.now) }
{
    let index = Index::of(alloc, c.items.as_slice())?;
    let Some(found) = function_of(all(&index), name) else {
        let name = name.copied(alloc)?;
        return Err(CallFault::Failed {
            fault: EvalFault::NoFilter { name },
        });
    };
    let mut args = Items::new(alloc);
    args.push(Val::Int(arg))?;
    let frame = frame_of(alloc, found.before, found.params, args, found.body)?;
    let (how, _) = run_body(alloc, env, frame, copied_route(alloc, route)?)?;
    match how {
        How::Falls => {
            let name = name.copied(alloc)?;
            Err(CallFault::Failed {
                fault: EvalFault::NoReturn { name },
            })
        }
        How::Returns(value) => Ok(into_value(alloc, value)?),
        How::Accepts | How::Rejects => Err(CallFault::Ended),
    }
}
