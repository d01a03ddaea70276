//! The head of a route server's text: its tables, the public sets, and the functions that all sessions call.
//!
//! [`add_header`] adds the items that `Header.antt` of `ixp_compile` defines, in their order.
#![tactic(auto)]

mod head;

pub use head::add_header;
