//! Statements.
use crate::Expr;
use ixp_num::{Items, Name, Validity};

/// A label of a `case`: the numbers from the first to the second, or a ROA state.
#[derive(Clone, Copy, Debug, PartialEq, Eq)]
pub enum Label {
    Range(u32, u32),
    State(Validity),
}

/// A statement. A branch that is written as one block is that block's list.
#[derive(Debug, Drop)]
pub enum Stmt {
    Block(Vec<Stmt>),
    If {
        test: Expr,
        yes: Vec<Stmt>,
        no: Vec<Stmt>,
    },
    /// The first arm with the value runs, else `other`.
    Case {
        on: Expr,
        arms: Vec<(Items<Label>, Vec<Stmt>)>,
        other: Vec<Stmt>,
    },
    Return(Expr),
    Accept,
    Reject,
    Call {
        name: Name,
        args: Vec<Expr>,
    },
    SetNextHop(Expr),
    Prepend(Expr),
    AddPair(Expr),
    DeletePairs(Expr),
    AddTriple(Expr),
    DeleteTriples(Expr),
}
