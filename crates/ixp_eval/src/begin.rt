//! The first step of an expression or a statement: the tasks that it comes to.
ghost use Rattle.std.specs.Prelude.{◌≡◌, ◌∷◌, OnOk};
ghost use Rattle.ixp_lang.specs.Views.{expr_view, stmt_view};
ghost use Rattle.ixp_eval.specs.Machine.{apply, begun, begun_stmt, eval, on};
ghost use Rattle.ixp_eval.specs.Views.{environment_of, operation_of, todo_of, todos, vals};

use crate::attributes::attribute_of;
use crate::env::Env;
use crate::tasks::{Callee, Change, Operator, Task};
use crate::val::{Val, held};
use ixp_lang::{Expr, Op, Route, Stmt};
use ixp_num::Items;
use ixp_num_tables::Stack;
use std::alloc::{AllocError, Global};

/// Pushes the tasks of two operands and their operator.
fn binary<'a>(
    operator: Operator<'a>,
    left: &'a Expr,
    right: &'a Expr,
    tasks: &mut Stack<Task<'a>>,
) -> Result<(), AllocError>
    ensures { OnOk result
        (todos tasks.new ≡ eval (expr_view left.now) ∷ eval (expr_view right.now) ∷ apply
        (operation_of operator.entry) ∷ todos tasks.old) }
{
    tasks.push(Task::Apply(operator))?;
    tasks.push(Task::Eval(right))?;
    tasks.push(Task::Eval(left))?;
    Ok(())
}

/// Pushes what is left of an expression: its value, or the tasks that it comes to.
pub fn begin<'a>(
    alloc: Global,
    env: &Env<'_>,
    e: &'a Expr,
    tasks: &mut Stack<Task<'a>>,
    values: &mut Stack<Val<'a>>,
    route: &Route,
) -> Result<(), AllocError>
    ensures { OnOk result
        (on (todos tasks.new) (vals values.new) route.now
        ≡ begun (environment_of env.now) (expr_view e.now) (todos tasks.old)
        (vals values.old) route.now) }
{
    match e {
        Expr::Lit(value) => values.push(held(value)),
        Expr::Named(name) => tasks.push(Task::Name(name)),
        Expr::Attr(attr) => values.push(attribute_of(alloc, env.from, *attr, route)?),
        Expr::Call { name, args } => {
            let callee = Callee { name, wanted: true };
            tasks.push(Task::Call(callee, args.as_slice(), Items::new(alloc)))
        }
        Expr::RoaCheck { table, net, origin } => {
            binary(Operator::RoaCheck(table), net, origin, tasks)
        }
        Expr::Pair(a, b) => binary(Operator::Pair, a, b, tasks),
        Expr::Triple(a, b, c) => {
            tasks.push(Task::Apply(Operator::Triple))?;
            tasks.push(Task::Eval(c))?;
            tasks.push(Task::Eval(b))?;
            tasks.push(Task::Eval(a))
        }
        Expr::Set(set) => values.push(Val::Set(set)),
        Expr::Not(a) => {
            tasks.push(Task::Apply(Operator::Not))?;
            tasks.push(Task::Eval(a))
        }
        Expr::And(es) => tasks.push(Task::Every(es.as_slice())),
        Expr::Or(es) => tasks.push(Task::Any(es.as_slice())),
        Expr::Cmp { op, left, right } => binary(Operator::Compare(*op), left, right, tasks),
    }
}

/// Pushes the tasks of an expression and of what takes its value.
fn first<'a>(e: &'a Expr, then: Task<'a>, tasks: &mut Stack<Task<'a>>) -> Result<(), AllocError>
    ensures { OnOk result (todos tasks.new ≡ eval (expr_view e.now) ∷ todo_of then.entry ∷ todos tasks.old) }
{
    tasks.push(then)?;
    tasks.push(Task::Eval(e))
}

/// Pushes the tasks of a statement.
#[tactic(auto, using(ixp_lang::proofs::CaseView::case_lemmas))]
pub fn begin_stmt<'a>(
    alloc: Global,
    s: &'a Stmt,
    tasks: &mut Stack<Task<'a>>,
) -> Result<(), AllocError>
    ensures { OnOk result (todos tasks.new ≡ begun_stmt (stmt_view s.now) (todos tasks.old)) }
{
    match s {
        Stmt::Block(ss) => tasks.push(Task::Run(ss.as_slice())),
        Stmt::If { test, yes, no } => {
            first(test, Task::Choose(yes.as_slice(), no.as_slice()), tasks)
        }
        Stmt::Case { on, arms, other } => {
            first(on, Task::Select(arms.as_slice(), other.as_slice()), tasks)
        }
        Stmt::Return(e) => first(e, Task::Return, tasks),
        Stmt::Accept => tasks.push(Task::Accept),
        Stmt::Reject => tasks.push(Task::Reject),
        Stmt::Call { name, args } => {
            let callee = Callee {
                name,
                wanted: false,
            };
            tasks.push(Task::Call(callee, args.as_slice(), Items::new(alloc)))
        }
        Stmt::SetNextHop(e) => first(e, Task::Change(Change::NextHop), tasks),
        Stmt::Prepend(e) => first(e, Task::Change(Change::Prepend), tasks),
        Stmt::AddPair(e) => first(e, Task::Change(Change::AddPair), tasks),
        Stmt::DeletePairs(e) => first(e, Task::Change(Change::DeletePairs), tasks),
        Stmt::AddTriple(e) => first(e, Task::Change(Change::AddTriple), tasks),
        Stmt::DeleteTriples(e) => first(e, Task::Change(Change::DeleteTriples), tasks),
    }
}
