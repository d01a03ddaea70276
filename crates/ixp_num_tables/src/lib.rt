//! Lists, tables and texts that everything else is made of.
//!
//! [`Items`] is a vector whose room and place in memory are left out of what a contract sees: a clause
//! speaks of the list of its items, and two of them with the same items are equal. Every list in a row,
//! a route or a tree of the filter language is one, so that definitions compare and make such values.
//! [`Stack`] is the same with the last item first, for code that takes back what it put in last. [`Held`] is
//! a value with several owners, which contracts see as the value alone.
//!
//! A [`Row`] has a key, which contracts see as a list of numbers. A [`Table`] keeps its rows ascending, each
//! key once, and contracts see it as the list of its rows: who looks a row up, puts one in or takes one out
//! never speaks of the order. Each search halves the rows that are left.
//!
//! [`put`], [`put_number`] and [`put_joined`] write into a vector of bytes; each says exactly which bytes it
//! adds. [`number_upto`] reads a decimal number.
#![tactic(auto)]

mod decimal;
mod held;
mod items;
mod row;
mod search;
mod stack;
mod table;
mod text;

pub use decimal::number_upto;
pub use held::Held;
pub use items::Items;
pub use row::{Copied, Row};
pub use stack::Stack;
pub use table::Table;
pub use text::{Writes, put, put_joined, put_number, put_whole};
