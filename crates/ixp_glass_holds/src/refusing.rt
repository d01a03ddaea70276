//! Why a session may not hold routes.
ghost use Rattle.std.specs.Prelude.{◌≡◌};
ghost use Rattle.ixp_glass_holds.specs.Calls.{is_crowded, other_from, refusal};

use crate::fault::HoldFault;
use crate::hold::{Hold, MOST_ROUTES, MOST_SESSIONS};
use ixp_lang::Route;
use ixp_num::Family;
use ixp_num_tables::Table;

/// The place of the first route of the other family, counted from 1.
fn other_place(family: Family, routes: &[Route]) -> Option<u64>
    ensures { result ≡ other_from 1 family routes.now }
{
    let mut place = 1;
    'each: for route in routes {
        if family != route.net.family {
            return Some(place);
        }
        place += 1;
    }
    None
}

/// Whether the session would be one too many.
fn is_crowded(rows: &Table<Hold>, hold: &Hold) -> bool
    ensures { result ≡ is_crowded rows.now hold.now }
{
    !hold.routes.get().is_empty()
        && rows.find(&hold.session).is_none()
        && rows.len() >= MOST_SESSIONS
}

/// Why the session may not hold the routes, which are to be of the family, while sessions hold these.
pub(crate) fn refusal(rows: &Table<Hold>, family: Family, hold: &Hold) -> Option<HoldFault>
    ensures { result ≡ refusal rows.now family hold.now }
{
    let routes = hold.routes.get();
    if routes.len() > MOST_ROUTES {
        return Some(HoldFault::TooMany {
            have: routes.len() as u64,
            limit: MOST_ROUTES as u64,
        });
    }
    if is_crowded(rows, hold) {
        return Some(HoldFault::TooMany {
            have: MOST_SESSIONS as u64 + 1,
            limit: MOST_SESSIONS as u64,
        });
    }
    match other_place(family, routes.as_slice()) {
        Some(place) => Some(HoldFault::Family { place }),
        None => None,
    }
}
