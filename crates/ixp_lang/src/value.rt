//! Values of the filter language.
use ixp_num::{Addr, Items, Pattern, Prefix, Validity};

/// A set. In the last part of a pair or a triple None stands for `*`, any number.
#[derive(Debug, Drop)]
pub enum SetLit {
    /// Ranges, each from its first number to its second one. One whose first number is the greater is empty.
    Ints(Items<(u32, u32)>),
    Ips(Items<Addr>),
    Prefixes(Items<Pattern>),
    Pairs(Items<(u32, Option<u32>)>),
    Triples(Items<(u32, u32, Option<u32>)>),
}

/// A value. The parts of a pair are at most 65535.
#[derive(Debug, Drop)]
pub enum Value {
    Int(u32),
    Bool(bool),
    Ip(Addr),
    Net(Prefix),
    Pair(u32, u32),
    Triple(u32, u32, u32),
    Roa(Validity),
    Set(SetLit),
}
