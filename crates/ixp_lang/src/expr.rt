//! Expressions.
use crate::{SetLit, Value};
use ixp_num::Name;

/// What an expression reads of the route, or of the session that brought it.
#[derive(Clone, Copy, Debug, PartialEq, Eq)]
pub enum Attr {
    /// `net`
    Net,
    /// `net.len`
    NetLen,
    /// `from`: the address of the neighbour that sent the route
    From,
    /// `bgp_next_hop`
    NextHop,
    /// `bgp_path`
    Path,
    /// `bgp_path.first`: the latest AS of the path, 0 for the empty path
    First,
    /// `bgp_path.last`: the origin, 0 for the empty path
    Last,
    /// `bgp_path.len`
    Len,
    /// `bgp_community`
    Pairs,
    /// `bgp_community.len`
    PairsLen,
    /// `bgp_large_community`
    Triples,
    /// `bgp_large_community.len`
    TriplesLen,
}

/// A comparison.
#[derive(Clone, Copy, Debug, PartialEq, Eq)]
pub enum Op {
    Eq,
    Ne,
    Lt,
    Le,
    Gt,
    Ge,
    /// `~`
    In,
    /// `!~`
    NotIn,
}

/// An expression. Parentheses leave no node. `And` and `Or` have two parts or more.
#[derive(Debug, Drop)]
pub enum Expr {
    Lit(Value),
    /// A parameter, or a defined value.
    Named(Name),
    Attr(Attr),
    Call {
        name: Name,
        args: Vec<Expr>,
    },
    RoaCheck {
        table: Name,
        net: Box<Expr>,
        origin: Box<Expr>,
    },
    Pair(Box<Expr>, Box<Expr>),
    Triple(Box<Expr>, Box<Expr>, Box<Expr>),
    Set(SetLit),
    Not(Box<Expr>),
    And(Vec<Expr>),
    Or(Vec<Expr>),
    Cmp {
        op: Op,
        left: Box<Expr>,
        right: Box<Expr>,
    },
}
