//! The canonical text of a configuration.
//!
//! [`print_config`] writes the text that `specs/Texts.antt` gives a tree: one item or statement a line, two
//! blanks a level, one blank round operators, and parentheses only where they are needed.
#![tactic(auto)]

mod expr;
mod item;
mod list;
mod stmt;
mod word;

pub use item::print_config;
