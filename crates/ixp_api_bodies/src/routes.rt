//! Routes that a session is known to announce.
ghost use Rattle.std.specs.Prelude.{◌≡◌, IfOk};
ghost use Rattle.std.specs.List.{All};
ghost use Rattle.serde_json.specs.Find.{as_array};
ghost use Rattle.serde_json.specs.View.{view, items_view};
ghost use Rattle.ixp_api_bodies.specs.Answers.{Gives};
ghost use Rattle.ixp_api_bodies.specs.Each.{Each};
ghost use Rattle.ixp_api_bodies.specs.Routes as spec;

use crate::each::{ReadsItem, each_of};
use crate::json::long_object_of;
use crate::values::{fault_at, must};
use ixp_api_json::{CallFault, Field, Pointer};
use ixp_lang::{Route, RouteFault, read_route};
use ixp_num::Items;
use serde_json::Value;
use std::alloc::{AllocError, Global};

// Whether memory ran out.
fn is_memory(fault: &RouteFault) -> bool
    ensures { result ≡ spec.is_memory fault.now }
{
    match fault {
        RouteFault::NoMemory => true,
        _ => false,
    }
}

// The route whose text this is, if it is one's.
fn route_of(alloc: Global, text: &[u8]) -> Result<Option<Route>, AllocError>
    ensures { IfOk result (λ o. spec.SaysRouteText text.now o) }
{
    match read_route(alloc, text) {
        Ok(route) => Ok(Some(route)),
        Err(fault) => {
            if is_memory(&fault) {
                Err(AllocError)
            } else {
                Ok(None)
            }
        }
    }
}

/// Routes as texts.
struct RouteTexts;

impl ReadsItem for RouteTexts {
    type Item = Route;

    ghost says = { spec.RouteAt };

    fn read(alloc: Global, place: u64, value: &Value) -> Result<Route, CallFault> {
        let pointer = Pointer::Item(Field::Routes, place);
        let Some(text) = value.as_str() else {
            return Err(CallFault::BadBody { pointer });
        };
        match route_of(alloc, text.as_bytes()) {
            Ok(route) => must(pointer, route),
            Err(_) => Err(CallFault::NoMemory),
        }
    }
}

// The routes of a list.
#[tactic(auto, using(crate::proofs::WellFormed::all_well_formed))]
fn listed_routes(alloc: Global, values: &[Value]) -> Result<Items<Route>, CallFault>
    ensures routes { Gives (Each spec.RouteAt 0 (items_view values.now)) result }
    ensures well_formed { IfOk result (λ rs. All spec.IsWellFormed rs) }
{
    each_of::<RouteTexts>(alloc, values)
}

fn routes_by(alloc: Global, value: &Value) -> Result<Items<Route>, CallFault>
    ensures routes { Gives (spec.RoutesBy (as_array (view value.now))) result }
    ensures well_formed { IfOk result (λ rs. All spec.IsWellFormed rs) }
{
    match value.as_array() {
        Some(values) => listed_routes(alloc, values.as_slice()),
        None => Err(fault_at(Field::Routes)),
    }
}

fn routes_in(alloc: Global, body: &Value) -> Result<Items<Route>, CallFault>
    ensures routes { Gives (spec.RoutesIn (view body.now)) result }
    ensures well_formed { IfOk result (λ rs. All spec.IsWellFormed rs) }
{
    match body.get(Field::Routes.word()) {
        Some(value) => routes_by(alloc, value),
        None => Err(fault_at(Field::Routes)),
    }
}

/// The routes that a body has. How many there are isn't tested.
pub fn routes_of(alloc: Global, body: &[u8]) -> Result<Items<Route>, CallFault>
    ensures says { Gives (spec.SaysRoutes body.now) result }
    ensures well_formed { IfOk result (λ rs. All spec.IsWellFormed rs) }
{
    let value = long_object_of(alloc, body)?;
    routes_in(alloc, &value)
}
