//! The command `fate`: the text of a router, and the fate of a route by that text.
ghost use Rattle.std.specs.Prelude.{◌≡◌, true, List, Some, None, Ok, Err, IfOk, IfErr, MatchOption};
ghost use Rattle.ixp_num.specs.Names.{is_name};
ghost use Rattle.ixp_lang.specs.Trees.{ItemTree};
ghost use Rattle.ixp_lang.specs.Views.{config_view};
ghost use Rattle.ixp_registry.specs.Keys.{router_key};
ghost use Rattle.ixp_registry.specs.Valid.{Valid};
ghost use Rattle.ixp_num_tables.specs.Tables.{find};
ghost use Rattle.ixp_compile.specs.Generated.{roa_tables};
ghost use Rattle.ixp_eval.specs.declared.fault.EvalFault.TheVariants.{NoMemory as no_memory};
ghost use Rattle.ixp_read.specs.declared.fault.ReadFault.TheVariants.{NoMemory as no_room};
ghost use Rattle.ixp_read.specs.Answers.{SpellsText};
ghost use Rattle.ixp_compile_laws.specs.Right.{Gen};
ghost use Rattle.ixp_cli_plain.specs.Fates.{
  Fates,
  HasFate,
  HasNoRouter,
  HasRoute,
  IsAstray,
  IsFate,
  IsNoFate,
  IsNoRoute,
  IsOfSession,
  IsStray,
};
ghost use Rattle.ixp_cli_plain.specs.Runs.{Refused, RefusedOr};

use crate::check::registry_of;
use crate::end::NoAnswer;
use crate::eval::refused;
use crate::input::dump_part;
use ixp_compile_laws::text_of;
use ixp_eval::{EvalFault, walk};
use ixp_eval_trial::{SessionRoute, read_session_route};
use ixp_lang::{Config, Fate, numbered, print_fate};
use ixp_num::{Cause, Code, Items, Name, Place};
use ixp_num_tables::Held;
use ixp_policy::session;
use ixp_read::{ReadFault, read_config};
use ixp_registry::Router;
use ixp_roa::RoaTable;
use ixp_rows::Registry;
use std::alloc::{AllocError, Global};

/// The route whose line follows the dump.
#[tactic(auto, using(crate::proofs::Fating::no_route))]
fn route_of(alloc: Global, input: &[u8]) -> Result<SessionRoute, NoAnswer>
    ensures route { IfOk result (λ route. HasRoute input.now (Ok route)) }
    ensures cause { IfErr result (Refused (IsNoRoute input.now)) }
{
    let (dump, behind) = input.split_at(dump_part(input).len());
    match read_session_route(alloc, dump, behind) {
        Ok(route) => Ok(route),
        Err(fault) => Err(refused(fault)),
    }
}

/// Why the router has no fate for the route, if it has none.
fn astray(registry: &Registry, router: &Router, route: &SessionRoute) -> Option<Cause>
    ensures { MatchOption result (IsOfSession registry.now router.now route.now)
        (IsStray registry.now router.now route.now) }
{
    let place = Place::Line { line: route.line };
    match session(registry, router, route.interface) {
        Some(_) => {
            if route.route.net.family == router.family {
                return None;
            }
            Some(Cause {
                code: Code::E2,
                place,
            })
        }
        None => Some(Cause {
            code: Code::E5,
            place,
        }),
    }
}

/// Running out of memory while a text is read: one that spells a configuration is refused for nothing else.
fn unread(_fault: ReadFault) -> AllocError
    requires { _fault ≡ no_room }
{
    AllocError
}

/// Running out of memory on a walk that has no other fault.
fn unwalked(_fault: EvalFault) -> AllocError
    requires { _fault ≡ no_memory }
{
    AllocError
}

/// The configuration that a text spells.
fn config_of(alloc: Global, text: &[u8]) -> Result<Config, AllocError>
    requires { (c : List ItemTree) × SpellsText text.now c }
    ensures { IfOk result (λ c. SpellsText text.now (config_view c)) }
{
    match read_config(alloc, text) {
        Ok(config) => Ok(config),
        Err(fault) => Err(unread(fault)),
    }
}

/// A table of ROAs, with the name by which filters ask it.
fn roas_named(
    alloc: Global,
    name: &[u8],
    roas: &Held<RoaTable>,
) -> Result<(Name, Held<RoaTable>), AllocError>
    requires { is_name name.now ≡ true }
    ensures { IfOk result (λ t. t ≡ (name.now, roas.now)) }
{
    let name = Name::new(alloc, name)?;
    let table = roas.shared()?;
    Ok((name, table))
}

/// The tables of ROAs that filters ask.
fn tables_of(
    alloc: Global,
    registry: &Registry,
) -> Result<Items<(Name, Held<RoaTable>)>, AllocError>
    ensures { IfOk result (λ tables. tables ≡ roa_tables registry.now) }
{
    let table = RoaTable::new(alloc, registry.public.roas.as_slice())?;
    let roas = Held::new(alloc, table)?;
    let mut tables = Items::new(alloc);
    tables.push(roas_named(alloc, b"roas4", &roas)?)?;
    tables.push(roas_named(alloc, b"roas6", &roas)?)?;
    Ok(tables)
}

/// The fate of the route by a text of the router, which is read back.
fn fate_by(
    alloc: Global,
    text: &[u8],
    registry: &Registry,
    router: &Router,
    route: &SessionRoute,
) -> Result<Fate, AllocError>
    requires valid { Valid registry.now }
    requires there { find router_key route.now.router registry.now.routers ≡ Some router.now }
    requires sender { IsOfSession registry.now router.now route.now }
    requires text { text.now ≡ Gen registry.now router.now }
    ensures { IfOk result (HasFate registry.now router.now route.now) }
{
    let config = config_of(alloc, text)?;
    let sender = numbered(alloc, b"b_", route.interface)?;
    let tables = tables_of(alloc, registry)?;
    match walk(alloc, &config, &sender, &route.route, tables.as_slice()) {
        Ok(fate) => Ok(fate),
        Err(fault) => Err(unwalked(fault)),
    }
}

/// The text of the router, and the text of the route's fate by it; None where there is no such router.
fn text_with_fate(
    alloc: Global,
    registry: &Registry,
    router: &Router,
    route: &SessionRoute,
) -> Result<Option<Vec<u8>>, AllocError>
    requires valid { Valid registry.now }
    requires there { find router_key route.now.router registry.now.routers ≡ Some router.now }
    requires sender { IsOfSession registry.now router.now route.now }
    ensures { IfOk result
        (λ out. MatchOption out (find router_key route.now.router registry.now.routers ≡ None)
        (λ text. IsFate registry.now route.now text.items)) }
{
    let Some(mut text) = text_of(alloc, registry, &route.router)? else {
        return Ok(None);
    };
    let fate = fate_by(alloc, text.as_slice(), registry, router, route)?;
    print_fate(&fate, Some(router.asn), &mut text)?;
    Ok(Some(text))
}

/// What is written of a route that a session brings.
fn fate_in(alloc: Global, registry: &Registry, route: SessionRoute) -> Result<Vec<u8>, NoAnswer>
    requires { Valid registry.now }
    ensures output { IfOk result (λ out. IsFate registry.now route out.items) }
    ensures refusal { IfErr result
        (RefusedOr (IsAstray registry.now route)
        (λ handle. (handle ≡ route.router)
        × (find router_key route.router registry.now.routers ≡ None))) }
{
    let Some(router) = registry.routers.find(&route.router) else {
        return Err(NoAnswer::Unknown {
            router: route.router,
        });
    };
    if let Some(cause) = astray(registry, router, &route) {
        return Err(NoAnswer::Bad { cause });
    }
    match text_with_fate(alloc, registry, router, &route) {
        Ok(Some(text)) => Ok(text),
        Ok(None) => Err(NoAnswer::Unknown {
            router: route.router,
        }),
        Err(_) => Err(NoAnswer::NoMemory),
    }
}

/// What `fate` writes for an input: the text of the router that is asked for, and the fate of the route by
/// that text.
#[tactic(auto, using(crate::proofs::Fating::fating))]
pub(crate) fn fate(alloc: Global, input: &[u8]) -> Result<Vec<u8>, NoAnswer>
    ensures output { IfOk result (λ out. Fates input.now out.items) }
    ensures refusal { IfErr result (RefusedOr (IsNoFate input.now) (HasNoRouter input.now)) }
{
    let registry = match registry_of(alloc, dump_part(input)) {
        Ok(registry) => registry,
        Err(why) => return Err(why),
    };
    let route = match route_of(alloc, input) {
        Ok(route) => route,
        Err(why) => return Err(why),
    };
    match fate_in(alloc, &registry, route) {
        Ok(text) => Ok(text),
        Err(why) => Err(why),
    }
}
