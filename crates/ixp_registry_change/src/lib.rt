//! What becomes of a registry: one of its tables, or one of its public lists, changes by a row.
//!
//! `specs/Changes.antt` says what a change makes of a registry ([`RegistryChange`]). It is what an edit comes
//! to: the crates that store a registry, or that follow it with texts, know changes and no edits. A row's key
//! is told by [`Keyed`].
#![tactic(auto)]

mod change;
mod keyed;

pub use change::{PublicList, RegistryChange, TableChange};
pub use keyed::Keyed;
