//! What answers calls.
ghost use Rattle.std.specs.Prelude.{◌≢◌, ℕ};
ghost use Rattle.ixp_api.specs.Calls.{HoldsWellFormed};
ghost use Rattle.ixp_api.specs.declared.call.Call.{Call};
ghost use Rattle.ixp_api_replies.specs.declared.outcome.Outcome.{Outcome};
ghost use Rattle.ixp_api_replies.specs.declared.outcome.Outcome.TheVariants.{Head};

use ixp_api::{Call, Outcome};
use std::alloc::Global;

/// What answers calls over a store and a clock, which stand beside it. An outcome of running out of memory
/// ends the link. The head of a reply, which answers what is no request, is no answer to a call. The routes
/// that a call has held are well formed.
pub trait Desk<P, C> {
    /// The store is the desk's.
    ghost fits: { Self → P → Type 0 };

    /// What a call does: desk, store and clock before, the call, how it ended, and desk, store and clock
    /// after.
    ghost turn: { Self × P × C → Call → Outcome → Self × P × C → Type 0 };

    fn answer(&mut self, alloc: Global, store: &mut P, clock: &mut C, call: Call) -> Outcome
        requires fits { fits self.old store.old }
        requires well_formed { HoldsWellFormed call }
        ensures turn { turn (self.old, store.old, clock.old) call result (self.new, store.new, clock.new) }
        ensures whole { (status : ℕ) → result ≢ Head status }
        ensures fits { fits self.new store.new };
}
