//! Of which routes anything is told.
ghost use Rattle.std.specs.Prelude.{◌≡◌, is_some};
ghost use Rattle.ixp_num.specs.Families.{same_family};
ghost use Rattle.ixp_registry.specs.Sessions.{session};
ghost use Rattle.ixp_explain.specs.declared.report.ExplainFault.TheVariants.{NoMemory as no_memory};

use ixp_explain::ExplainFault;
use ixp_lang::Route;
use ixp_policy::session;
use ixp_registry::{Registry, Router};
use std::alloc::AllocError;

/// Whether the interface has a session with the router.
pub(crate) fn has_session(registry: &Registry, router: &Router, interface: u32) -> bool
    ensures { result ≡ is_some (session registry.now router.now interface) }
{
    session(registry, router, interface).is_some()
}

/// Whether the route is of the router's family.
pub(crate) fn is_of_family(router: &Router, route: &Route) -> bool
    ensures { result ≡ same_family router.now.family route.now.net.family }
{
    router.family == route.net.family
}

/// Running out of memory: nothing else keeps the text of a valid registry from explaining a route of its
/// session.
pub(crate) fn unexplained(_fault: ExplainFault) -> AllocError
    requires { _fault ≡ no_memory }
{
    AllocError
}
