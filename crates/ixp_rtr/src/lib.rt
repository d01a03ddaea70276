//! The cache side of the RPKI to Router protocol, version 1 (RFC 8210).
//!
//! A router asks a cache for the ROAs that it validates origins with: for all of them (Reset Query), or for
//! what has changed since a serial (Serial Query). [`RtrCache`] has the present set of ROAs under its
//! serial, and the sets of up to eight serials before it. [`read_query`] reads what a router asks, or why
//! that is no query. [`answer_of`] takes an [`Answer`] from a cache and [`write`] writes it; an answer
//! shares the sets that it needs, so a lock on the cache need not be held while it is written.
//! [`write_answer`] does both at once. [`write_fault`] writes the Error Report on what is no query.
//!
//! What is promised to the caller: a query or a fault is exactly what the bytes of the link begin with,
//! however they are cut into reads; what is written are the bytes of the answer's PDUs; and a router that
//! has the set which its query names has exactly the present set after the answer, without a ROA announced
//! that it has or one withdrawn that it doesn't have.
//!
//! PDUs are gathered before they are written: a link is handed up to 16 KiB at once.
//!
//! Serial Notify, Router Key and version 0 are left out. A link is any source and sink of `ixp_io`.
#![tactic(auto)]

mod answer;
mod batch;
mod cache;
mod changes;
mod header;
mod law;
mod pdu;
mod query;

pub use answer::{Answer, RtrWriteFault, answer_of, write, write_answer, write_fault};
pub use cache::RtrCache;
pub use header::Header;
pub use law::{changes_bring_the_set, kept_sets_stay};
pub use pdu::Pdu;
pub use query::{Query, QueryFault, read_query};
