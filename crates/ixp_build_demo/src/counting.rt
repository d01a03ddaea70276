//! Counting over all routers.
ghost use Rattle.std.specs.Prelude.{◌≡◌, ◌≤◌, IfOk};
ghost use Rattle.ixp_registry.specs.Valid.{Valid, ValidRouter};
ghost use Rattle.ixp_num_tables.specs.Sums.{total};
ghost use Rattle.ixp_build_demo.specs.Counts.{counts_of};
ghost use Rattle.ixp_build_demo.specs.Sizes.{patterns_at, sessions_at};

use crate::figures::Counts;
use crate::sessions::{patterns_at, sessions_at};
use ixp_registry::{Registry, Router};
use std::alloc::{AllocError, Global};

/// How many sessions the router has.
fn router_sessions(registry: &Registry, router: &Router) -> u64
    requires { Valid registry.now }
    ensures exact { result ≡ total (sessions_at registry.now router.now) registry.now.interfaces }
    ensures small { result ≤ 8000 }
{
    let mut sessions = 0;
    let mut left = registry.interfaces.as_slice();
    'each: while let Some((interface, others)) = left.split_first() {
        sessions += sessions_at(registry, router, interface);
        left = others;
    }
    sessions
}

/// How many patterns the merged sets of the router's sessions have.
fn router_patterns(alloc: Global, registry: &Registry, router: &Router) -> Result<u64, AllocError>
    requires valid { Valid registry.now }
    requires router { ValidRouter router.now }
    ensures exact { IfOk result
        (λ n. n ≡ total (patterns_at registry.now router.now) registry.now.interfaces) }
    ensures small { IfOk result (λ n. n ≤ 619200000000) }
{
    let mut patterns = 0;
    let mut left = registry.interfaces.as_slice();
    'each: while let Some((interface, others)) = left.split_first() {
        patterns += patterns_at(alloc, registry, router, interface)?;
        left = others;
    }
    Ok(patterns)
}

/// How many sessions all routers have.
fn all_sessions(registry: &Registry) -> u64
    requires { Valid registry.now }
    ensures { result ≡ total
        (λ q. total (sessions_at registry.now q) registry.now.interfaces) registry.now.routers }
{
    let mut sessions = 0;
    let mut left = registry.routers.as_slice();
    'each: while let Some((router, others)) = left.split_first() {
        sessions += router_sessions(registry, router);
        left = others;
    }
    sessions
}

/// How many patterns the merged sets of all routers' sessions have.
fn all_patterns(alloc: Global, registry: &Registry) -> Result<u64, AllocError>
    requires { Valid registry.now }
    ensures { IfOk result
        (λ n. n ≡ total (λ q. total
        (patterns_at registry.now q) registry.now.interfaces) registry.now.routers) }
{
    let mut patterns = 0;
    let mut left = registry.routers.as_slice();
    'each: while let Some((router, others)) = left.split_first() {
        patterns += router_patterns(alloc, registry, router)?;
        left = others;
    }
    Ok(patterns)
}

/// The counts of a valid registry. It merges the sets of one session at a time.
pub fn counts(alloc: Global, registry: &Registry) -> Result<Counts, AllocError>
    requires { Valid registry.now }
    ensures { IfOk result (λ c. c ≡ counts_of registry.now) }
{
    Ok(Counts {
        members: registry.members.len() as u64,
        sessions: all_sessions(registry),
        patterns: all_patterns(alloc, registry)?,
    })
}
