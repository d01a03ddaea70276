//! The ROAs of a desk, for routers that ask an RTR cache (RFC 8210).
//!
//! [`roas_now`] gives the ROAs of a version that contains every edit which was accepted when it looked.
//! [`RoaCache`] is a cache of them with a seat that keeps it up to date. [`rtr_link`] answers the queries
//! of one router's link by a cache that many links share behind a lock: it is held while the cache is
//! brought up to date and an answer is taken, and not while that is written.
//!
//! What is promised to the caller: each query is answered by a cache whose present set is exactly the ROAs
//! of one version of the desk's history, which contains every edit that was accepted when the call looked;
//! and a router that has the set which its query names has these ROAs after the answer.
#![tactic(auto)]

mod cache;
mod link;
mod roas;

pub use cache::RoaCache;
pub use link::{QUERY_LIMIT, RtrEnd, rtr_link};
pub use roas::roas_now;
