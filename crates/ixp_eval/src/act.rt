//! One step inside a body.
ghost use Rattle.std.specs.Prelude.{◌≡◌, ◌∷◌, ◌++◌, [], IfOk, MatchResult, Ok, OnOk, Err, List};
ghost use Rattle.std.specs.Option.{option_copied};
ghost use Rattle.ixp_lang.specs.declared.route.Route.{Route};
ghost use Rattle.ixp_lang.specs.declared.value.Value.{Value};
ghost use Rattle.ixp_lang.specs.declared.value.Value.TheVariants as value;
ghost use Rattle.ixp_lang.specs.Attributes.{checked, number, truth};
ghost use Rattle.ixp_lang.specs.Meaning.{roas_or_none};
ghost use Rattle.ixp_lang.specs.Trees.{exprs, stmts};
ghost use Rattle.ixp_lang.specs.Views.{arms_view, exprs_view, stmts_view};
ghost use Rattle.ixp_eval.specs.Answers.{Applies, Fails};
ghost use Rattle.ixp_eval.specs.Machine.{
  act,
  any_goes,
  any_of,
  applied,
  below,
  called,
  calling,
  checks,
  chosen,
  every_goes,
  every_of,
  faulty,
  paired,
  ran,
  top,
};
ghost use Rattle.ixp_eval.specs.Views.{act_of, environment_of, operation_of, todos, val_of, vals};

use crate::begin::{begin, begin_stmt};
use crate::changes::change;
use crate::compare::{compares, has_label};
use crate::env::{Env, table_named};
use crate::fault::EvalFault;
use crate::tasks::{Act, Arms, Callee, How, Operator, Task};
use crate::val::{Val, number, truth};
use ixp_lang::{Expr, Route, Stmt};
use ixp_num::{Asn, Items, Name, Validity};
use ixp_num_tables::Stack;
use ixp_roa::RoaTable;
use std::alloc::{AllocError, Global};

/// Takes the value on top. Where there is none, it is false.
fn take<'a>(values: &mut Stack<Val<'a>>) -> Val<'a>
    ensures value { val_of result ≡ top (vals values.old) }
    ensures rest { vals values.new ≡ below (vals values.old) }
{
    match values.pop() {
        Some(value) => value,
        None => Val::Bool(false),
    }
}

/// What a table says of a prefix and an origin.
fn table_says(table: Option<&RoaTable>, net: &Val<'_>, origin: &Val<'_>) -> Validity
    ensures { value.Roa result
        ≡ checked (roas_or_none (option_copied table.entry)) (val_of net.now) (val_of origin.now) }
{
    match (table, net, origin) {
        (Some(table), Val::Net(net), Val::Int(origin)) => table.validity(net, Asn(*origin)),
        _ => Validity::Unknown,
    }
}

/// Makes a pair of the two numbers on top, each at most 65535.
fn apply_pair(values: &mut Stack<Val<'_>>) -> Result<(), EvalFault>
    ensures { Applies result (vals values.new)
        (paired (number (top (below (vals values.old)))) (number (top (vals values.old)))
        (below (below (vals values.old)))) }
{
    let b = number(&take(values));
    let a = number(&take(values));
    if a > 65535 {
        return Err(EvalFault::PairRange { value: a });
    }
    if b > 65535 {
        return Err(EvalFault::PairRange { value: b });
    }
    values.push(Val::Pair(a, b))?;
    Ok(())
}

/// Makes a triple of the three numbers on top.
fn apply_triple(values: &mut Stack<Val<'_>>) -> Result<(), AllocError>
    ensures { OnOk result
        (vals values.new ≡ value.Triple (number (top (below (below (vals values.old)))))
        (number (top (below (vals values.old)))) (number (top (vals values.old))) ∷ below
        (below (below (vals values.old)))) }
{
    let c = number(&take(values));
    let b = number(&take(values));
    let a = number(&take(values));
    values.push(Val::Triple(a, b, c))?;
    Ok(())
}

/// Asks the table of the name.
fn apply_roa_check(
    env: &Env<'_>,
    name: &Name,
    values: &mut Stack<Val<'_>>,
) -> Result<(), AllocError>
    ensures { OnOk result
        (Ok (vals values.new) ≡ applied (environment_of env.now) (checks name.now) (vals values.old)) }
{
    let origin = take(values);
    let net = take(values);
    let table = table_named(env.roas, name);
    values.push(Val::Roa(table_says(table, &net, &origin)))?;
    Ok(())
}

/// Puts an operator's value in the place of its operands.
fn apply<'a>(
    env: &Env<'_>,
    operator: Operator<'a>,
    values: &mut Stack<Val<'a>>,
) -> Result<(), EvalFault>
    ensures { Applies result (vals values.new)
        (applied (environment_of env.now) (operation_of operator.entry) (vals values.old)) }
{
    match operator {
        Operator::Not => {
            let a = take(values);
            values.push(Val::Bool(!truth(&a)))?;
            Ok(())
        }
        Operator::Pair => apply_pair(values),
        Operator::Triple => {
            apply_triple(values)?;
            Ok(())
        }
        Operator::Compare(op) => {
            let b = take(values);
            let a = take(values);
            values.push(Val::Bool(compares(op, &a, &b)))?;
            Ok(())
        }
        Operator::RoaCheck(name) => {
            apply_roa_check(env, name, values)?;
            Ok(())
        }
    }
}

/// The first of these statements, and then the others.
fn run<'a>(alloc: Global, body: &'a [Stmt], tasks: &mut Stack<Task<'a>>) -> Result<(), AllocError>
    ensures { OnOk result (todos tasks.new ≡ ran (stmts (stmts_view body.now)) (todos tasks.old)) }
{
    match body.split_first() {
        None => Ok(()),
        Some((s, rest)) => {
            tasks.push(Task::Run(rest))?;
            begin_stmt(alloc, s, tasks)
        }
    }
}

/// `&&` of the parts that are left.
fn every<'a>(
    parts: &'a [Expr],
    tasks: &mut Stack<Task<'a>>,
    values: &mut Stack<Val<'a>>,
) -> Result<(), AllocError>
    ensures { OnOk result
        ((todos tasks.new, vals values.new)
        ≡ every_of (exprs (exprs_view parts.now)) (todos tasks.old) (vals values.old)) }
{
    match parts.split_first() {
        None => values.push(Val::Bool(true)),
        Some((e, rest)) => {
            tasks.push(Task::EveryAfter(rest))?;
            tasks.push(Task::Eval(e))
        }
    }
}

/// `&&`, where the value of the part before lies on top.
fn every_after<'a>(
    parts: &'a [Expr],
    tasks: &mut Stack<Task<'a>>,
    values: &mut Stack<Val<'a>>,
) -> Result<(), AllocError>
    ensures { OnOk result
        ((todos tasks.new, vals values.new)
        ≡ every_goes (truth (top (vals values.old))) (exprs (exprs_view parts.now)) (todos tasks.old)
        (below (vals values.old))) }
{
    if truth(&take(values)) {
        tasks.push(Task::Every(parts))
    } else {
        values.push(Val::Bool(false))
    }
}

/// `||` of the parts that are left.
fn any<'a>(
    parts: &'a [Expr],
    tasks: &mut Stack<Task<'a>>,
    values: &mut Stack<Val<'a>>,
) -> Result<(), AllocError>
    ensures { OnOk result
        ((todos tasks.new, vals values.new)
        ≡ any_of (exprs (exprs_view parts.now)) (todos tasks.old) (vals values.old)) }
{
    match parts.split_first() {
        None => values.push(Val::Bool(false)),
        Some((e, rest)) => {
            tasks.push(Task::AnyAfter(rest))?;
            tasks.push(Task::Eval(e))
        }
    }
}

/// `||`, where the value of the part before lies on top.
fn any_after<'a>(
    parts: &'a [Expr],
    tasks: &mut Stack<Task<'a>>,
    values: &mut Stack<Val<'a>>,
) -> Result<(), AllocError>
    ensures { OnOk result
        ((todos tasks.new, vals values.new)
        ≡ any_goes (truth (top (vals values.old))) (exprs (exprs_view parts.now)) (todos tasks.old)
        (below (vals values.old))) }
{
    if truth(&take(values)) {
        values.push(Val::Bool(true))
    } else {
        tasks.push(Task::Any(parts))
    }
}

/// The statements of the first arm that has the value, else the other ones.
fn selected<'a>(arms: Arms<'a>, other: &'a [Stmt], value: &Val<'_>) -> &'a [Stmt]
    ensures { stmts (stmts_view result.now)
        ≡ chosen (arms_view arms.now) (stmts (stmts_view other.now)) (val_of value.now) }
{
    'arms: for (labels, body) in arms {
        if has_label(labels.as_slice(), value) {
            return body.as_slice();
        }
    }
    other
}

/// A call goes on with its next argument, or is made.
fn call<'a>(
    callee: Callee<'a>,
    args: &'a [Expr],
    known: Items<Val<'a>>,
    tasks: &mut Stack<Task<'a>>,
) -> Result<Act<'a>, AllocError>
    ensures { IfOk result
        (λ a. (vs : List Value) (r : Route)
        → act_of a (todos tasks.new) vs r
        ≡ called callee.entry.name.now callee.entry.wanted (exprs (exprs_view args.now))
        (vals known.entry) (todos tasks.old) vs r) }
{
    match args.split_first() {
        None => Ok(Act::Calls(callee, known)),
        Some((e, rest)) => {
            tasks.push(Task::CallAfter(callee, rest, known))?;
            tasks.push(Task::Eval(e))?;
            Ok(Act::On)
        }
    }
}

/// A call's next argument is known.
fn call_after<'a>(
    callee: Callee<'a>,
    args: &'a [Expr],
    mut known: Items<Val<'a>>,
    tasks: &mut Stack<Task<'a>>,
    values: &mut Stack<Val<'a>>,
) -> Result<(), AllocError>
    ensures tasks { OnOk result
        (todos tasks.new ≡ calling callee.entry.name.now callee.entry.wanted (exprs (exprs_view args.now))
        (vals known.entry ++ top (vals values.old) ∷ []) ∷ todos tasks.old) }
    ensures values { OnOk result (vals values.new ≡ below (vals values.old)) }
{
    known.push(take(values))?;
    tasks.push(Task::Call(callee, args, known))
}

/// One step inside a body.
#[tactic(auto, using(crate::proofs::Passing::applied_fails))]
pub fn act<'a>(
    alloc: Global,
    env: &Env<'_>,
    tasks: &mut Stack<Task<'a>>,
    values: &mut Stack<Val<'a>>,
    route: &mut Route,
) -> Result<Act<'a>, EvalFault>
    ensures { MatchResult result
        (λ a. act_of a (todos tasks.new) (vals values.new) route.new
        ≡ act (environment_of env.now) (todos tasks.old) (vals values.old) route.old)
        (λ f. Fails faulty (act (environment_of env.now) (todos tasks.old) (vals values.old) route.old) f) }
{
    let Some(task) = tasks.pop() else {
        return Ok(Act::Done(How::Falls));
    };
    match task {
        Task::Eval(e) => begin(alloc, env, e, tasks, values, route)?,
        Task::Run(stmts) => run(alloc, stmts, tasks)?,
        Task::Name(name) => return Ok(Act::Wants(name)),
        Task::Apply(operator) => apply(env, operator, values)?,
        Task::Every(parts) => every(parts, tasks, values)?,
        Task::EveryAfter(parts) => every_after(parts, tasks, values)?,
        Task::Any(parts) => any(parts, tasks, values)?,
        Task::AnyAfter(parts) => any_after(parts, tasks, values)?,
        Task::Choose(yes, no) => {
            let chosen = if truth(&take(values)) { yes } else { no };
            tasks.push(Task::Run(chosen))?;
        }
        Task::Select(arms, other) => {
            let value = take(values);
            tasks.push(Task::Run(selected(arms, other, &value)))?;
        }
        Task::Call(callee, args, known) => return Ok(call(callee, args, known, tasks)?),
        Task::CallAfter(callee, args, known) => call_after(callee, args, known, tasks, values)?,
        Task::Change(what) => {
            let value = take(values);
            change(alloc, what, &value, route)?;
        }
        Task::Return => return Ok(Act::Done(How::Returns(take(values)))),
        Task::Accept => return Ok(Act::Done(How::Accepts)),
        Task::Reject => return Ok(Act::Done(How::Rejects)),
    }
    Ok(Act::On)
}
