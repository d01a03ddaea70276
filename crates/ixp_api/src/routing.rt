//! The call that a request is.
ghost use Rattle.std.specs.Prelude.{◌≡◌, ◌<◌, ◌^◌, Ok, true, IfOk};
ghost use Rattle.ixp_api_bodies.specs.Answers.{Gives, must};
ghost use Rattle.ixp_api_bodies.specs.Lawful.{is_lawful};
ghost use Rattle.ixp_api.specs.Calls as spec;
ghost use Rattle.ixp_api.specs.Heads as heads;

use crate::call::{Call, ExplainCall};
use crate::heads::{number_of, secret_of};
use crate::seen::seen_of;
use ixp_api_bodies::{edit_of, route_asked, router_of, routes_of};
use ixp_api_json::{CallFault, Pointer};
use ixp_api_paths::{Args, Found, Kind, Paths, Question};
use ixp_http::{Field, Request};
use ixp_machine::Query;
use ixp_machine_edits::Edit;
use ixp_machine_steps::Entry;
use ixp_num::Items;
use ixp_registry::EditKind;
use std::alloc::Global;

// A copy of the secret of the request.
fn secret(alloc: Global, fields: &[Field]) -> Result<Items<u8>, CallFault>
    ensures { Gives (λ r. r ≡ Ok (heads.secret_of fields.now)) result }
{
    match secret_of(alloc, fields) {
        Ok(secret) => Ok(secret),
        Err(_) => Err(CallFault::NoMemory),
    }
}

// The number of the request, which must be there.
fn request_number(fields: &[Field]) -> Result<u64, CallFault>
    ensures number { result ≡ must Pointer.RequestNumber (heads.number_of fields.now) }
    ensures counted { IfOk result (λ n. 0 < n) }
    ensures small { IfOk result (λ n. n < 10 ^ 16) }
{
    match number_of(fields) {
        Some(number) => Ok(number),
        None => Err(CallFault::BadBody {
            pointer: Pointer::RequestNumber,
        }),
    }
}

// The request to make the edit.
fn numbered(alloc: Global, request: &Request, number: u64, edit: Edit) -> Result<Call, CallFault>
    requires counted { 0 < number }
    requires small { number < 10 ^ 16 }
    requires lawful { is_lawful edit ≡ true }
    ensures says { Gives (spec.Numbered request.now number (Ok edit)) result }
    ensures well_formed { IfOk result (λ c. spec.HoldsWellFormed c) }
{
    let secret = secret(alloc, request.fields.as_slice())?;
    Ok(Call::Edit(Entry {
        secret,
        number,
        edit,
    }))
}

fn edit_call(
    alloc: Global,
    kind: EditKind,
    args: &Args,
    request: &Request,
) -> Result<Call, CallFault>
    ensures says { Gives (spec.SaysCallOfEdit kind args.now request.now) result }
    ensures well_formed { IfOk result (λ c. spec.HoldsWellFormed c) }
{
    let number = request_number(request.fields.as_slice())?;
    let edit = edit_of(alloc, kind, args, request.body.as_slice())?;
    numbered(alloc, request, number, edit)
}

fn query_of(question: Question, args: &Args) -> Query
    ensures { result ≡ spec.query_of question args.now }
{
    match question {
        Question::Member => Query::Member(args.row),
        Question::Contacts => Query::Contacts(args.row),
        Question::Rules => Query::Rules(args.row),
        Question::Use => Query::Use(args.row, args.family),
        Question::Ixf => Query::Ixf { second: 0 },
        Question::Dump => Query::Dump,
    }
}

fn ask_call(
    alloc: Global,
    question: Question,
    args: &Args,
    request: &Request,
) -> Result<Call, CallFault>
    ensures says { Gives (spec.SaysCallOf (Kind.Ask question) args.now request.now) result }
    ensures well_formed { IfOk result (λ c. spec.HoldsWellFormed c) }
{
    let secret = secret(alloc, request.fields.as_slice())?;
    Ok(Call::Ask(secret, query_of(question, args)))
}

// What the query says that its reader has seen.
fn seen(alloc: Global, query: &[u8]) -> Result<Option<u64>, CallFault>
    ensures { Gives (λ r. r ≡ must Pointer.Seen (heads.seen_of query.now)) result }
{
    match seen_of(alloc, query) {
        Ok(Some(seen)) => Ok(seen),
        Ok(None) => Err(CallFault::BadBody {
            pointer: Pointer::Seen,
        }),
        Err(_) => Err(CallFault::NoMemory),
    }
}

fn config_call(alloc: Global, args: &Args, request: &Request) -> Result<Call, CallFault>
    ensures says { Gives (λ r. r ≡ spec.published args.now request.now) result }
    ensures well_formed { IfOk result (λ c. spec.HoldsWellFormed c) }
{
    let router = router_of(alloc, args)?;
    let seen = seen(alloc, request.query.as_slice())?;
    let secret = secret(alloc, request.fields.as_slice())?;
    Ok(Call::Published(secret, router, seen))
}

fn explain_call(alloc: Global, args: &Args, request: &Request) -> Result<Call, CallFault>
    ensures says { Gives (spec.SaysExplain args.now request.now) result }
    ensures well_formed { IfOk result (λ c. spec.HoldsWellFormed c) }
{
    let router = router_of(alloc, args)?;
    let seen = seen(alloc, request.query.as_slice())?;
    let asked = route_asked(alloc, request.body.as_slice())?;
    let secret = secret(alloc, request.fields.as_slice())?;
    Ok(Call::Explain(ExplainCall {
        secret,
        router,
        interface: args.row,
        seen,
        asked,
    }))
}

fn hold_call(alloc: Global, args: &Args, request: &Request) -> Result<Call, CallFault>
    ensures says { Gives (spec.SaysHold args.now request.now) result }
    ensures well_formed { IfOk result (λ c. spec.HoldsWellFormed c) }
{
    let router = router_of(alloc, args)?;
    let routes = routes_of(alloc, request.body.as_slice())?;
    let secret = secret(alloc, request.fields.as_slice())?;
    Ok(Call::Hold(secret, router, args.row, routes))
}

fn glass_call(alloc: Global, args: &Args, request: &Request) -> Result<Call, CallFault>
    ensures says { Gives (λ r. r ≡ spec.glass args.now request.now) result }
    ensures well_formed { IfOk result (λ c. spec.HoldsWellFormed c) }
{
    let router = router_of(alloc, args)?;
    let secret = secret(alloc, request.fields.as_slice())?;
    Ok(Call::Glass(secret, router, args.row))
}

fn place_call(alloc: Global, args: &Args, request: &Request) -> Result<Call, CallFault>
    ensures says { Gives (λ r. r ≡ spec.glass_place args.now request.now) result }
    ensures well_formed { IfOk result (λ c. spec.HoldsWellFormed c) }
{
    let router = router_of(alloc, args)?;
    let secret = secret(alloc, request.fields.as_slice())?;
    Ok(Call::GlassPlace(secret, router, args.row, args.place))
}

fn call_of(alloc: Global, kind: Kind, args: &Args, request: &Request) -> Result<Call, CallFault>
    ensures says { Gives (spec.SaysCallOf kind args.now request.now) result }
    ensures well_formed { IfOk result (λ c. spec.HoldsWellFormed c) }
{
    match kind {
        Kind::Edit(kind) => edit_call(alloc, kind, args, request),
        Kind::Ask(question) => ask_call(alloc, question, args, request),
        Kind::Config => config_call(alloc, args, request),
        Kind::Explain => explain_call(alloc, args, request),
        Kind::Hold => hold_call(alloc, args, request),
        Kind::Glass => glass_call(alloc, args, request),
        Kind::GlassPlace => place_call(alloc, args, request),
    }
}

/// The call that the request is.
pub fn route(alloc: Global, paths: &Paths, request: &Request) -> Result<Call, CallFault>
    ensures says { Gives (spec.SaysCall request.now) result }
    ensures well_formed { IfOk result (λ c. spec.HoldsWellFormed c) }
{
    match paths.look(alloc, request.method.as_slice(), request.path.as_slice()) {
        Ok(Found::NoPath) => Err(CallFault::NoPath),
        Ok(Found::NoMethod) => Err(CallFault::NoMethod),
        Ok(Found::Call(kind, args)) => call_of(alloc, kind, &args, request),
        Err(_) => Err(CallFault::NoMemory),
    }
}
