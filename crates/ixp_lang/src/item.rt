//! The items of a configuration.
ghost use Rattle.std.specs.Prelude.{◌≡◌, IfOk};
ghost use Rattle.ixp_lang.specs.Trees.{pipe_item, bgp_item};
ghost use Rattle.ixp_lang.specs.Views.{item_view};

use crate::{Expr, Stmt};
use ixp_num::{Addr, Asn, Family, Items, Name};
use std::alloc::{AllocError, Global};

/// What a table holds.
#[derive(Clone, Copy, Debug, PartialEq, Eq)]
pub enum Kind {
    Ipv4,
    Ipv6,
    Roa4,
    Roa6,
}

/// The type of a parameter or of what a function returns.
#[derive(Clone, Copy, Debug, PartialEq, Eq)]
pub enum Ty {
    Int,
    Bool,
    Ip,
    Prefix,
    Pair,
    /// `lc`, a large community
    Lc,
    IntSet,
    IpSet,
    PrefixSet,
    PairSet,
    LcSet,
}

/// What a protocol does with the routes that it takes in or gives out.
#[derive(Debug, Drop)]
pub enum Use {
    All,
    Nothing,
    /// What this filter accepts, as it leaves it.
    Named(Name),
}

/// A pipe between two tables. It imports from the peer table into the primary one.
#[derive(Debug, Drop)]
pub struct Pipe {
    pub name: Name,
    /// The primary table.
    pub table: Name,
    pub peer: Name,
    pub import: Use,
    pub export: Use,
}

/// A BGP session with one neighbour and one channel.
#[derive(Debug, Drop)]
pub struct Bgp {
    pub name: Name,
    pub local: Option<Addr>,
    /// The AS number of this end.
    pub own: Asn,
    pub neighbor: Addr,
    /// The neighbour's AS number.
    pub asn: Asn,
    pub rs_client: bool,
    pub password: Option<Items<u8>>,
    pub family: Family,
    pub table: Name,
    pub import: Use,
    pub export: Use,
    /// How many routes are taken in at most.
    pub limit: Option<u32>,
}

/// An item of a configuration. Pipes and sessions stand on the heap, since most other items take a third of
/// their room.
#[derive(Debug, Drop)]
pub enum Item {
    RouterId(Addr),
    Table {
        kind: Kind,
        name: Name,
    },
    Define {
        name: Name,
        value: Expr,
    },
    Function {
        name: Name,
        params: Items<(Ty, Name)>,
        body: Vec<Stmt>,
    },
    Filter {
        name: Name,
        body: Vec<Stmt>,
    },
    Device {
        name: Option<Name>,
    },
    Pipe(Box<Pipe>),
    Bgp(Box<Bgp>),
}

impl Item {
    /// The item that is this pipe.
    pub fn of_pipe(alloc: Global, pipe: Pipe) -> Result<Item, AllocError>
        ensures { IfOk result (λ item. item_view item ≡ pipe_item pipe) }
    {
        let pipe = Box::new(alloc, pipe)?;
        Ok(Item::Pipe(pipe))
    }

    /// The item that is this session.
    pub fn of_bgp(alloc: Global, session: Bgp) -> Result<Item, AllocError>
        ensures { IfOk result (λ item. item_view item ≡ bgp_item session) }
    {
        let session = Box::new(alloc, session)?;
        Ok(Item::Bgp(session))
    }
}

/// A configuration: its items in the order of the text.
#[derive(Debug)]
pub struct Config {
    pub items: Vec<Item>,
}

// It is written out, so that crates above don't prove again how each part is dropped.
impl Drop for Config {
    fn drop(self) {
        let Config { items: _ } = self;
    }
}
