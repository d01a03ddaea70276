//! The part of a session in a route server's text: the member's sets, its filters and functions, and the
//! protocols.
//!
//! [`add_fragment`] adds the items that `Fragment.antt` and `MemberRules.antt` of `ixp_compile` define, in
//! their order.
#![tactic(auto)]

mod inputs_ref;
mod member_rules;
mod session;

pub use inputs_ref::InputsRef;
pub use session::add_fragment;
