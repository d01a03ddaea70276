//! Route texts, read.
ghost use Rattle.ixp_lang.specs.RouteAnswers.{RouteAnswer, FamilyAnswer};

mod fault;
mod fields;
mod lists;
mod numbers;

use crate::Route;
pub use fault::RouteFault;
use fault::{Stop, placed};
use fields::route_of;
use std::alloc::Global;

/// Reads a route: net, path, next hop, communities and large communities, with single blanks. A net and a
/// next hop may be spelt in every way that their readers take. The first fault in the text is answered;
/// `Family` comes only where all else is right.
pub fn read_route(alloc: Global, t: &[u8]) -> Result<Route, RouteFault>
    ensures { RouteAnswer t.now result }
{
    match route_of(alloc, t) {
        Ok(route) => of_one_family(route),
        Err(stop) => Err(placed(t, stop)),
    }
}

/// The route, where net and next hop are of one family.
fn of_one_family(route: Route) -> Result<Route, RouteFault>
    ensures { FamilyAnswer route result }
{
    if route.net.family == route.next_hop.family {
        Ok(route)
    } else {
        Err(RouteFault::Family)
    }
}
