//! What is left to do in a body, as explicit tasks.
use crate::val::Val;
use ixp_lang::{Expr, Label, Op, Stmt};
use ixp_num::{Items, Name};

/// The arms of a `case`: labels and statements.
pub type Arms<'a> = &'a [(Items<Label>, Vec<Stmt>)];

/// A change of the route by a value.
#[derive(Clone, Copy)]
pub enum Change {
    NextHop,
    Prepend,
    AddPair,
    DeletePairs,
    AddTriple,
    DeleteTriples,
}

/// An operator, whose operands lie on the stack of values, the last one on top.
#[derive(Clone, Copy)]
pub enum Operator<'a> {
    Not,
    Pair,
    Triple,
    Compare(Op),
    RoaCheck(&'a Name),
}

/// A call: its function, and whether its value is wanted.
#[derive(Clone, Copy)]
pub struct Callee<'a> {
    pub name: &'a Name,
    pub wanted: bool,
}

/// One task.
#[derive(Drop)]
pub enum Task<'a> {
    Eval(&'a Expr),
    Run(&'a [Stmt]),
    /// Puts the value of a name on the stack.
    Name(&'a Name),
    /// Puts an operator's value in the place of its operands.
    Apply(Operator<'a>),
    /// `&&` of these parts.
    Every(&'a [Expr]),
    /// The same, where the value of the part before them lies on top.
    EveryAfter(&'a [Expr]),
    /// `||` of these parts.
    Any(&'a [Expr]),
    AnyAfter(&'a [Expr]),
    /// Chooses between two branches by the value on top.
    Choose(&'a [Stmt], &'a [Stmt]),
    /// Chooses an arm by the value on top.
    Select(Arms<'a>, &'a [Stmt]),
    /// A call, with the arguments that are left and the values of those before them.
    Call(Callee<'a>, &'a [Expr], Items<Val<'a>>),
    /// The same, where the next argument's value lies on top.
    CallAfter(Callee<'a>, &'a [Expr], Items<Val<'a>>),
    /// Changes the route by the value on top.
    Change(Change),
    /// Ends the body with the value on top.
    Return,
    Accept,
    Reject,
}

/// How a body ends; the route stands beside it.
#[derive(Drop)]
pub enum How<'a> {
    Falls,
    Returns(Val<'a>),
    Accepts,
    Rejects,
}

/// What one step inside a body comes to.
#[derive(Drop)]
pub enum Act<'a> {
    On,
    /// The value of a name is wanted on top.
    Wants(&'a Name),
    Calls(Callee<'a>, Items<Val<'a>>),
    Done(How<'a>),
}
