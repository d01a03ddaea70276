//! What the names and bodies of a store's rows say: owners, numbers of requests, and what each was about.
//!
//! [`kept_told`] gathers the numbers and floors of the owners of requests, in the order of the rows' names
//! (`specs/Gathering.antt`). [`Damage`] and [`LoadFault`] are why a store isn't loaded.
#![tactic(auto)]

mod fault;
mod gathering;
mod storable;
mod words;

pub use fault::{Damage, LoadFault, NoState};
pub use gathering::{MOST_KEPT, NUMBERS_END, floor_said, kept_told, number_said};
pub use words::{Form, first_word, number_of, small_of};
