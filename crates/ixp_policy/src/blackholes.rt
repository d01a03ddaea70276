//! Blackhole routes.
ghost use Rattle.std.specs.Prelude.{◌≡◌};
ghost use Rattle.ixp_policy.specs.Blackholes.{is_blackhole, is_host_net};

use ixp_lang::Route;
use ixp_lang::communities::BLACKHOLE;
use ixp_num::Prefix;
use ixp_registry::Router;

fn is_host_net(net: &Prefix) -> bool
    ensures { result ≡ is_host_net net.now }
{
    net.len == net.family.bits()
}

/// Whether the route's traffic is to be dropped, and the router has an address for that.
pub(crate) fn is_blackhole(router: &Router, route: &Route) -> bool
    ensures { result ≡ is_blackhole router.now route.now }
{
    router.blackhole.is_some()
        && is_host_net(&route.net)
        && route.has_pair(BLACKHOLE.0, BLACKHOLE.1)
}
