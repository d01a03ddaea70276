//! JSON of the HTTP interface: the names of fields, pointers into bodies, words, and the texts of rows (RFC
//! 8259, RFC 6901).
#![tactic(auto)]

mod field;
mod members;
mod pointer;
mod quoting;
mod rows;
mod words;

pub use field::Field;
pub use members::{put_number_member, put_text_member};
pub use pointer::{CallFault, Pointer, put_pointer};
pub use quoting::put_quoted;
pub use rows::{put_contacts, put_member, put_rules};
pub use words::{
    OwnerKind, action_of, family_word, owner_kind_of, put_action, status_of, status_word, way_of,
    way_word,
};
