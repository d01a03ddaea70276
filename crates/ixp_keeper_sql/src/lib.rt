//! Keepers over the kit's `sqlite`: the rows of a [`Keeper`](ixp_io::Keeper) as rows of one table of a
//! database.
//!
//! [`SqlKeeper`] stands over an open connection to any store, or over files; [`FileKeeper`] stands over a
//! file, which it opens at its first call. Neither says in contracts which rows it has. A batch is one
//! transaction, which is on the disk before the call answers Ok. Running out of memory is answered as such;
//! every other refusal of the database is a counted fault.
#![tactic(auto)]

mod audit;
mod file_keeper;
mod opening;
mod refusals;
mod sql_keeper;
mod statements;
mod trees;
mod walking;
mod writing;

pub use file_keeper::{FileKeeper, PathKeeper};
pub use sql_keeper::SqlKeeper;
