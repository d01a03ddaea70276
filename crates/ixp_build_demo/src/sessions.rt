//! What a session with a router adds to the counts.
ghost use Rattle.std.specs.Prelude.{◌≡◌, ◌<◌, ◌≤◌, ◌^◌, length, IfOk};
ghost use Rattle.ixp_pfxset.specs.BlockList.{blocks};
ghost use Rattle.ixp_policy.specs.Views.{session_of};
ghost use Rattle.ixp_registry.specs.Valid.{Valid, ValidRouter};
ghost use Rattle.ixp_compile.specs.Generated.{mode_of};
ghost use Rattle.ixp_build_demo.specs.Sizes.{covered_size, set_sizes, patterns_at, sessions_at};

use ixp_num::Prefix;
use ixp_pfxset::{Mode, blocks_trie};
use ixp_policy::{SessionRows, session_at};
use ixp_registry::{Interface, Registry, Router};
use std::alloc::{AllocError, Global};

/// How many patterns the merged set of the prefixes has.
#[tactic(auto, using(crate::proofs::Sizes::blocks_few))]
fn merged_len(alloc: Global, prefixes: &[Prefix], mode: Mode, high: u8) -> Result<u64, AllocError>
    requires { length prefixes.now ≤ 300000 }
    ensures exact { IfOk result (λ n. n ≡ length (blocks prefixes.now mode high)) }
    ensures small { IfOk result (λ n. n ≤ 38700000) }
{
    let patterns = blocks_trie(alloc, prefixes, mode, high)?;
    Ok(patterns.len() as u64)
}

fn mode_of(more: bool) -> Mode
    ensures { result ≡ mode_of more }
{
    if more { Mode::More } else { Mode::Exact }
}

/// How many patterns the set of the nets has that the prefixes cover; none where the router has no next hop
/// of routes to be dropped.
fn covered_len(alloc: Global, router: &Router, prefixes: &[Prefix]) -> Result<u64, AllocError>
    requires { length prefixes.now ≤ 300000 }
    ensures exact { IfOk result (λ n. n ≡ covered_size router.now prefixes.now) }
    ensures small { IfOk result (λ n. n ≤ 38700000) }
{
    if router.blackhole.is_none() {
        return Ok(0);
    }
    merged_len(alloc, prefixes, Mode::More, router.family.bits())
}

/// How many patterns the merged sets of the session's part have. A member that isn't held to its lists
/// has no set.
fn set_sizes(alloc: Global, router: &Router, session: &SessionRows<'_>) -> Result<u64, AllocError>
    requires bound { router.now.high < 2 ^ 8 }
    requires few { length session.now.prefixes.now ≤ 300000 }
    ensures exact { IfOk result (λ n. n ≡ set_sizes router.now (session_of session.now)) }
    ensures small { IfOk result (λ n. n ≤ 77400000) }
{
    if !session.address.irr {
        return Ok(0);
    }
    let mode = mode_of(session.address.more);
    let allowed = merged_len(alloc, session.prefixes, mode, router.high as u8)?;
    let covered = covered_len(alloc, router, session.prefixes)?;
    Ok(allowed + covered)
}

/// 1 where the interface has a session with the router, else 0.
pub(crate) fn sessions_at(registry: &Registry, router: &Router, interface: &Interface) -> u64
    ensures exact { result ≡ sessions_at registry.now router.now interface.now }
    ensures small { result ≤ 1 }
{
    match session_at(registry, router, interface) {
        Some(_) => 1,
        None => 0,
    }
}

/// How many patterns the sets of the interface's session with the router have, where it has one.
pub(crate) fn patterns_at(
    alloc: Global,
    registry: &Registry,
    router: &Router,
    interface: &Interface,
) -> Result<u64, AllocError>
    requires valid { Valid registry.now }
    requires router { ValidRouter router.now }
    ensures exact { IfOk result (λ n. n ≡ patterns_at registry.now router.now interface.now) }
    ensures small { IfOk result (λ n. n ≤ 77400000) }
{
    match session_at(registry, router, interface) {
        Some(session) => set_sizes(alloc, router, &session),
        None => Ok(0),
    }
}
