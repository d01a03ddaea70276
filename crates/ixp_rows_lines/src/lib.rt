//! The lines of a dump, one for each row of a registry.
//!
//! A line is the word of its kind, a blank before each field, and a line's end. `specs/Lines.antt` has the
//! table of the kinds: their words, what their fields may be, the fields of each row, and the keys by which
//! lines ascend; `specs/Fields.antt` has the one text of each field. [`Lined`] reads and prints the lines of
//! a kind of rows: what it reads are the fields whose text stands there.
#![tactic(auto)]

mod fault;
mod fields;
mod free;
mod lined;
mod lists;
mod network;
mod numbers;
mod owners;
mod printing;
mod routers;
mod version;
mod words;

pub use fault::Unread;
pub use free::{ESCAPED, put_free};
pub use ixp_registry::Kind;
pub use lined::Lined;
pub use network::print_address;
pub use printing::word_of;
pub use version::Version;
