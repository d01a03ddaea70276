//! Routes, fates, and the trees of the filter language, with what they mean.
//!
//! The language is a profile of BIRD 2's (User's Guide, chapters "Configuration" and "Filters"). A tree has
//! one meaning, defined in `specs/Meaning.antt` for filters and in `specs/Walks.antt` for a route's way
//! through a whole configuration; reader, printer, evaluator and generation all speak of the same trees.
//! [`Groups`] are values by the names of tables or sessions, in the order in which they were added.
#![tactic(auto)]

pub mod communities;
mod expr;
mod fate;
mod groups;
mod item;
pub mod laws;
mod names;
mod reading;
mod route;
pub mod route_laws;
mod stmt;
mod text;
mod value;

pub use expr::{Attr, Expr, Op};
pub use fate::Fate;
pub use groups::Groups;
pub use item::{Bgp, Config, Item, Kind, Pipe, Ty, Use};
pub use names::numbered;
pub use reading::{RouteFault, read_route};
pub use route::{Route, Verdict};
pub use stmt::{Label, Stmt};
pub use text::{print_fate, print_route};
pub use value::{SetLit, Value};
