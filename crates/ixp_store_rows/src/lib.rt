//! The rows that a store holds of a state.
//!
//! `specs/Names.antt` says how each row is named and what its body is: rows of a registry are the lines of
//! its dump, lists and kept numbers have rows of their own. `specs/States.antt` says which rows a state has;
//! [`whole_batch`] makes all of them, and [`fill`] puts them into a store that is empty.
#![tactic(auto)]

mod filling;
mod kept;
mod keys;
mod lists;
mod rows;
mod tables;
mod whole;

pub use filling::{FillFault, fill};
pub use kept::{
    COUNT, FLOORS, KEPT, VERSION, drop_count, drop_floor, drop_kept, set_count, set_floor,
    set_floor_at, set_kept,
};
pub use keys::{Stored, place_of};
pub use lists::list_name;
pub use rows::{drop_row, drop_rows, set_row, set_rows};
pub use tables::Rows;
pub use whole::whole_batch;
