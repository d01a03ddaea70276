//! Route origin validation (RFC 6811): a table of ROAs, and what it says of a route.
//!
//! [`validity`] answers by RFC 6811 section 2 over all ROAs of a list, and [`RoaTable::validity`] over those
//! that the table was made of. A ROA of AS 0 makes no route valid (RFC 6483 section 4).
//! [`RoaTable::from_csv`] reads the ROAs of a CSV text, as validators export them.
#![tactic(auto)]

mod compact;
mod csv_rows;
mod csv_text;
mod fault;
mod index;
mod ordered;
mod rows;
mod table;

pub use fault::RoaFault;
pub use rows::validity;
pub use table::RoaTable;
