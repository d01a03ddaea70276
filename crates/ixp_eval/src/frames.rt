//! Bodies that run, and those that wait for a call.
ghost use Rattle.std.specs.Prelude.{◌≡◌, ◌∷◌, IfOk, MatchOption, MatchResult, None, Ok, Err, OnOk, Some};
ghost use Rattle.ixp_lang.specs.declared.route.Route.{Route};
ghost use Rattle.ixp_lang.specs.Meaning.{bind, falls, find_named, function_of, returns};
ghost use Rattle.ixp_lang.specs.Trees.{stmts};
ghost use Rattle.ixp_lang.specs.Views.{expr_view, stmts_view};
ghost use Rattle.ixp_eval.specs.Answers.{Fails};
ghost use Rattle.ixp_eval.specs.Frames.{begins, begins_value, enters, looks, resumes, step, waits_for};
ghost use Rattle.ixp_eval.specs.Views.{
  Steps,
  backwards,
  body_view,
  end_of,
  environment_of,
  val_of,
  vals,
  waits,
};

use crate::act::act;
use crate::env::Env;
use crate::fault::EvalFault;
use crate::find::{define_of, function_of};
use crate::names::same_name;
use crate::search::Before;
use crate::tasks::{Act, Callee, How, Task};
use crate::val::{Val, copied};
use ixp_lang::{Expr, Route, Stmt, Ty};
use ixp_num::{Items, Name};
use ixp_num_tables::Stack;
use std::alloc::{AllocError, Global};
use std::mem;

/// A body that runs.
#[derive(Drop)]
pub struct Frame<'i, 'a> {
    /// The items that stand before it.
    pub before: Before<'i, 'a>,
    pub params: &'a [(Ty, Name)],
    /// The arguments, in the order of the parameters.
    pub args: Items<Val<'a>>,
    pub tasks: Stack<Task<'a>>,
    pub values: Stack<Val<'a>>,
}

/// A body that waits for what it called.
#[derive(Drop)]
pub struct Waiting<'i, 'a> {
    pub callee: Callee<'a>,
    pub frame: Frame<'i, 'a>,
}

/// A body that is about to run these statements.
pub fn frame_of<'i, 'a>(
    alloc: Global,
    before: Before<'i, 'a>,
    params: &'a [(Ty, Name)],
    args: Items<Val<'a>>,
    body: &'a [Stmt],
) -> Result<Frame<'i, 'a>, AllocError>
    ensures { IfOk result
        (λ f. body_view f ≡ begins (backwards before.entry) (bind params.now (vals args.entry))
        (stmts (stmts_view body.now))) }
{
    let mut tasks = Stack::new(alloc);
    tasks.push(Task::Run(body))?;
    Ok(Frame {
        before,
        params,
        args,
        tasks,
        values: Stack::new(alloc),
    })
}

/// A body that is about to return the value of a define.
fn frame_of_define<'i, 'a>(
    alloc: Global,
    before: Before<'i, 'a>,
    value: &'a Expr,
) -> Result<Frame<'i, 'a>, AllocError>
    ensures { IfOk result (λ f. body_view f ≡ begins_value (backwards before.entry) (expr_view value.now)) }
{
    let mut tasks = Stack::new(alloc);
    tasks.push(Task::Return)?;
    tasks.push(Task::Eval(value))?;
    Ok(Frame {
        before,
        params: &[],
        args: Items::new(alloc),
        tasks,
        values: Stack::new(alloc),
    })
}

/// The argument of the parameter.
fn argument<'b, 'a>(params: &[(Ty, Name)], args: &'b [Val<'a>], name: &Name) -> Option<&'b Val<'a>>
    ensures { MatchOption result (find_named (bind params.now (vals args.now)) name.now ≡ None)
        (λ v. find_named (bind params.now (vals args.now)) name.now ≡ Some (val_of v.now)) }
{
    let mut left = (params, args);
    'params: while let (Some((param, params)), Some((value, args))) = (
        left.0.split_first(),
        left.1.split_first(),
    ) {
        if same_name(&param.1, name) {
            return Some(value);
        }
        left = (params, args);
    }
    None
}

/// Leaves the frame to wait, and goes into another one.
fn enter<'i, 'a>(
    callee: Callee<'a>,
    inner: Frame<'i, 'a>,
    frame: &mut Frame<'i, 'a>,
    waiting: &mut Stack<Waiting<'i, 'a>>,
) -> Result<(), AllocError>
    ensures runs { OnOk result (body_view frame.new ≡ body_view inner.entry) }
    ensures waits { OnOk result
        (waits waiting.new ≡ waits_for callee.entry.name.now callee.entry.wanted
        (body_view frame.old) ∷ waits waiting.old) }
{
    let outer = mem::replace(frame, inner);
    waiting.push(Waiting {
        callee,
        frame: outer,
    })
}

/// Puts the value of a name on the stack, or goes into its define.
fn look<'i, 'a>(
    alloc: Global,
    name: &'a Name,
    frame: &mut Frame<'i, 'a>,
    waiting: &mut Stack<Waiting<'i, 'a>>,
) -> Result<(), EvalFault>
    ensures { MatchResult result
        (λ u. Ok (body_view frame.new, waits waiting.new)
        ≡ looks name.now (body_view frame.old) (waits waiting.old))
        (λ f. Fails Err (looks name.now (body_view frame.old) (waits waiting.old)) f) }
{
    if let Some(value) = argument(frame.params, frame.args.as_slice(), name) {
        let value = copied(alloc, value)?;
        frame.values.push(value)?;
        return Ok(());
    }
    let Some(found) = define_of(frame.before, name) else {
        return Err(EvalFault::NoFilter {
            name: name.copied(alloc)?,
        });
    };
    let callee = Callee { name, wanted: true };
    enter(
        callee,
        frame_of_define(alloc, found.before, found.value)?,
        frame,
        waiting,
    )?;
    Ok(())
}

/// Goes into a function.
fn call<'i, 'a>(
    alloc: Global,
    callee: Callee<'a>,
    args: Items<Val<'a>>,
    frame: &mut Frame<'i, 'a>,
    waiting: &mut Stack<Waiting<'i, 'a>>,
) -> Result<(), EvalFault>
    ensures { MatchResult result
        (λ u. Ok (body_view frame.new, waits waiting.new)
        ≡ enters (function_of
        (backwards frame.old.before) callee.entry.name.now) callee.entry.name.now callee.entry.wanted
        (vals args.entry) (body_view frame.old) (waits waiting.old))
        (λ f. Fails Err (enters
        (function_of (backwards frame.old.before) callee.entry.name.now) callee.entry.name.now
        callee.entry.wanted (vals args.entry) (body_view frame.old) (waits waiting.old)) f) }
{
    let Some(found) = function_of(frame.before, callee.name) else {
        return Err(EvalFault::NoFilter {
            name: callee.name.copied(alloc)?,
        });
    };
    let inner = frame_of(alloc, found.before, found.params, args, found.body)?;
    enter(callee, inner, frame, waiting)?;
    Ok(())
}

/// A body ended at its last statement.
fn resume_fallen<'i, 'a>(
    alloc: Global,
    frame: &mut Frame<'i, 'a>,
    waiting: &mut Stack<Waiting<'i, 'a>>,
) -> Result<Option<How<'a>>, EvalFault>
    ensures { (r : Route)
        → Steps result r (body_view frame.new) (waits waiting.new) (resumes (falls r) (waits waiting.old)) }
{
    let Some(top) = waiting.pop() else {
        return Ok(Some(How::Falls));
    };
    if top.callee.wanted {
        return Err(EvalFault::NoReturn {
            name: top.callee.name.copied(alloc)?,
        });
    }
    *frame = top.frame;
    Ok(None)
}

/// A body ended with a value.
fn resume_returned<'i, 'a>(
    value: Val<'a>,
    frame: &mut Frame<'i, 'a>,
    waiting: &mut Stack<Waiting<'i, 'a>>,
) -> Result<Option<How<'a>>, EvalFault>
    ensures { (r : Route)
        → Steps result r (body_view frame.new) (waits waiting.new)
        (resumes (returns (val_of value.entry) r) (waits waiting.old)) }
{
    let Some(top) = waiting.pop() else {
        return Ok(Some(How::Returns(value)));
    };
    *frame = top.frame;
    if top.callee.wanted {
        frame.values.push(value)?;
    }
    Ok(None)
}

/// A body ended: all ends, or the body that waits for it goes on.
fn resume<'i, 'a>(
    alloc: Global,
    how: How<'a>,
    frame: &mut Frame<'i, 'a>,
    waiting: &mut Stack<Waiting<'i, 'a>>,
) -> Result<Option<How<'a>>, EvalFault>
    ensures { (r : Route)
        → Steps result r (body_view frame.new) (waits waiting.new)
        (resumes (end_of how.entry r) (waits waiting.old)) }
{
    match how {
        How::Falls => resume_fallen(alloc, frame, waiting),
        How::Returns(value) => resume_returned(value, frame, waiting),
        How::Accepts => Ok(Some(How::Accepts)),
        How::Rejects => Ok(Some(How::Rejects)),
    }
}

/// One step. Some is how all ends.
#[tactic(auto, using(crate::proofs::Passing::entered_fails, crate::proofs::Passing::step_fails))]
pub fn step<'i, 'a>(
    alloc: Global,
    env: &Env<'_>,
    frame: &mut Frame<'i, 'a>,
    waiting: &mut Stack<Waiting<'i, 'a>>,
    route: &mut Route,
) -> Result<Option<How<'a>>, EvalFault>
    ensures { Steps result route.new (body_view frame.new) (waits waiting.new)
        (step (environment_of env.now) (body_view frame.old) (waits waiting.old) route.old) }
{
    match act(alloc, env, &mut frame.tasks, &mut frame.values, route)? {
        Act::On => Ok(None),
        Act::Wants(name) => {
            look(alloc, name, frame, waiting)?;
            Ok(None)
        }
        Act::Calls(callee, args) => {
            call(alloc, callee, args, frame, waiting)?;
            Ok(None)
        }
        Act::Done(how) => resume(alloc, how, frame, waiting),
    }
}
