//! The sessions of route servers.
ghost use Rattle.std.specs.Prelude.{◌≡◌, false, option_map};
ghost use Rattle.ixp_num_tables.specs.Tables.{if_there};
ghost use Rattle.ixp_registry.specs.Sessions.{address_of, is_session};

use crate::lookups::is_member_connected;
use crate::{IfAddr, Interface, Registry, Router};
use ixp_num::Family;

/// The interface's address of the family.
pub fn address_of(family: Family, interface: &Interface) -> Option<&IfAddr>
    ensures { option_map (λ a. a.now) result ≡ address_of family interface.entry.now }
{
    match family {
        Family::V4 => interface.v4.as_ref(),
        Family::V6 => interface.v6.as_ref(),
    }
}

/// Whether the interface has an address of the family for the route servers.
fn has_server(family: Family, interface: &Interface) -> bool
    ensures { result ≡ if_there (address_of family interface.now) false (λ a. a.rs) }
{
    match address_of(family, interface) {
        Some(address) => address.rs,
        None => false,
    }
}

/// Whether the interface has a session with the router.
pub fn is_session(registry: &Registry, router: &Router, interface: &Interface) -> bool
    ensures { result ≡ is_session registry.now router.now interface.now }
{
    interface.vlan == router.vlan
        && has_server(router.family, interface)
        && is_member_connected(&registry.members, interface.member)
}
