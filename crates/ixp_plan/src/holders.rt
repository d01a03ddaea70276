//! Which addresses are taken.
ghost use Rattle.std.specs.Prelude.{◌≡◌};
ghost use Rattle.std.specs.List.{list_any};
ghost use Rattle.ixp_registry.specs.Lookups.{is_host_in, has_blackhole, prefix_in, is_at, has_addr};
ghost use Rattle.ixp_registry.specs.Registries.{rows_of};
ghost use Rattle.ixp_plan.specs.Holders.{answers_at, uses, is_taken};

use ixp_num::{Addr, same_addr};
use ixp_registry::{Interface, Registry, Router, has_addr, has_blackhole};

/// Whether the address is the router's own.
pub(crate) fn answers_at(router: &Router, addr: &Addr) -> bool
    ensures { result ≡ answers_at addr.now router.now }
{
    same_addr(&router.addr, addr)
}

/// Whether the address is the router's own, or for its blackhole.
pub(crate) fn uses(router: &Router, addr: &Addr) -> bool
    ensures { result ≡ uses addr.now router.now }
{
    answers_at(router, addr) || has_blackhole(router, addr)
}

fn any_has(interfaces: &[Interface], addr: &Addr) -> bool
    ensures { result ≡ list_any (has_addr addr.now) interfaces.now }
{
    interfaces.iter().any(|i| has_addr(i, addr))
}

fn any_uses(routers: &[Router], addr: &Addr) -> bool
    ensures { result ≡ list_any (uses addr.now) routers.now }
{
    routers.iter().any(|q| uses(q, addr))
}

/// Whether somebody has the address.
pub(crate) fn is_taken(registry: &Registry, addr: &Addr) -> bool
    ensures { result ≡ is_taken registry.now addr.now }
{
    any_has(registry.interfaces.as_slice(), addr) || any_uses(registry.routers.as_slice(), addr)
}
