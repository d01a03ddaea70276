//! What is told by a text that was handed out, with the ROAs of its version and without the registry.
ghost use Rattle.std.specs.Prelude.{◌≡◌, ℕ, List, Some, Ok, IfOk, MatchResult};
ghost use Rattle.ixp_num_tables.specs.Tables.{find};
ghost use Rattle.ixp_lang.specs.Texts.{fate_text};
ghost use Rattle.ixp_registry.specs.declared.registry.Registry.{Registry};
ghost use Rattle.ixp_registry.specs.declared.router.Router.{Router};
ghost use Rattle.ixp_registry.specs.Keys.{router_key};
ghost use Rattle.ixp_registry.specs.Sessions.{Session, session};
ghost use Rattle.ixp_registry.specs.Valid.{Valid};
ghost use Rattle.ixp_policy.specs.Fates.{fate_of};
ghost use Rattle.ixp_compile_laws.specs.Right.{Gen, Part};
ghost use Rattle.ixp_explain.specs.declared.report.ExplainFault.TheVariants.{NoMemory as no_memory};
ghost use Rattle.ixp_explain.specs.Answers.{in_bytes};
ghost use Rattle.ixp_explain.specs.Texts.{own_text};
ghost use Rattle.ixp_explain_member.specs.ByText.{answered, untold};
ghost use Rattle.ixp_explain_member.specs.Explanations as spec;
ghost use Rattle.ixp_explain_member.specs.Rows.{own_report_by_rows};

use crate::explanation::Explanation;
use ixp_explain::{
    ExplainFault, OwnReport, Reading, explain_member, explain_text, print_own, tables_of,
};
use ixp_lang::Route;
use ixp_num::{Asn, Items};
use ixp_num_tables::Held;
use ixp_registry::Refusal;
use ixp_roa::RoaTable;
use std::alloc::{AllocError, Global};

/// What is answered where a text says nothing of a route.
fn untold(fault: ExplainFault) -> Result<Explanation, ExplainFault>
    ensures { result ≡ untold fault }
{
    match fault {
        ExplainFault::Family { family } => Ok(Explanation::Refused(Refusal::Family { family })),
        ExplainFault::Fault(_) => Ok(Explanation::NoSession),
        fault => Err(fault),
    }
}

/// The text of a report.
fn own_text(alloc: Global, report: &OwnReport) -> Result<Items<u8>, AllocError>
    ensures { IfOk result (λ text. text ≡ own_text report.now) }
{
    let mut out = Vec::new(alloc);
    print_own(report, &mut out)?;
    Ok(Items::from_vec(out))
}

/// A fate's text as an explanation.
fn told_text(answer: Result<Vec<u8>, ExplainFault>) -> Result<Explanation, ExplainFault>
    ensures { result ≡ answered (λ bytes. bytes) (in_bytes answer) }
{
    match answer {
        Ok(text) => Ok(Explanation::Text(Items::from_vec(text))),
        Err(fault) => untold(fault),
    }
}

/// What the text of a router tells. Nothing else goes wrong with it but running out of memory.
pub(crate) fn staff_by_text(
    alloc: Global,
    text: &[u8],
    roas: &Held<RoaTable>,
    interface: u32,
    route: &Route,
) -> Result<Explanation, ExplainFault>
    ensures { (r : Registry) (handle : List ℕ) (router : Router) → Valid r
        → find router_key handle r.routers ≡ Some router → text.now ≡ Gen r router
        → roas.now ≡ r.public.roas
        → MatchResult result
        (λ e. e ≡ spec.told_by (λ s. fate_text (fate_of r router route.now s) (Some router.asn)) router
        route.now
        (session r router interface)) (λ f. f ≡ no_memory) }
{
    let tables = tables_of(alloc, roas)?;
    told_text(explain_text(alloc, text, tables.as_slice(), interface, route))
}

/// The same of a text that was read.
fn staff_by_reading(
    alloc: Global,
    reading: &Reading,
    roas: &Held<RoaTable>,
    interface: u32,
    route: &Route,
) -> Result<Explanation, ExplainFault>
    ensures { (r : Registry) (handle : List ℕ) (router : Router) → Valid r
        → find router_key handle r.routers ≡ Some router → reading.now ≡ Gen r router
        → roas.now ≡ r.public.roas
        → MatchResult result
        (λ e. e ≡ spec.told_by (λ s. fate_text (fate_of r router route.now s) (Some router.asn)) router
        route.now
        (session r router interface)) (λ f. f ≡ no_memory) }
{
    let tables = tables_of(alloc, roas)?;
    told_text(reading.fate_text(alloc, tables.as_slice(), interface, route))
}

/// What a session's own text tells, likewise.
pub(crate) fn member_by_text(
    alloc: Global,
    text: &[u8],
    roas: &Held<RoaTable>,
    interface: u32,
    route: &Route,
    peers: &[Asn],
) -> Result<Explanation, ExplainFault>
    ensures { (r : Registry) (handle : List ℕ) (router : Router) (s : Session) → Valid r
        → find router_key handle r.routers ≡ Some router → session r router interface ≡ Some s
        → text.now ≡ Part r router s → roas.now ≡ r.public.roas
        → MatchResult result
        (λ e. e ≡ spec.told_by (λ s. own_text (own_report_by_rows r router s route.now peers.now)) router
        route.now
        (Some s)) (λ f. f ≡ no_memory) }
{
    let tables = tables_of(alloc, roas)?;
    match explain_member(alloc, text, tables.as_slice(), interface, route, peers) {
        Ok(report) => Ok(Explanation::Text(own_text(alloc, &report)?)),
        Err(fault) => untold(fault),
    }
}

/// What becomes of a route that the interface's session brings, by the text of a router, which was read, and
/// the ROAs of its version. Of a text that is no router's nothing is claimed.
pub fn staff_told(
    alloc: Global,
    reading: &Reading,
    roas: &Held<RoaTable>,
    interface: u32,
    route: &Route,
) -> Result<Explanation, AllocError>
    ensures { (r : Registry) (handle : List ℕ) (router : Router) → Valid r
        → find router_key handle r.routers ≡ Some router → reading.now ≡ Gen r router
        → roas.now ≡ r.public.roas
        → IfOk result
        (λ e. e ≡ spec.told_by (λ s. fate_text (fate_of r router route.now s) (Some router.asn)) router
        route.now
        (session r router interface)) }
{
    match staff_by_reading(alloc, reading, roas, interface, route) {
        Ok(told) => Ok(told),
        Err(_) => Err(AllocError),
    }
}

/// What becomes of a member's own route, by its session's own text and the ROAs of its version, with the
/// member's wish for each peer. Of a text that is no session's own nothing is claimed.
pub fn member_told(
    alloc: Global,
    text: &[u8],
    roas: &Held<RoaTable>,
    interface: u32,
    route: &Route,
    peers: &[Asn],
) -> Result<Explanation, AllocError>
    ensures { (r : Registry) (handle : List ℕ) (router : Router) (s : Session) → Valid r
        → find router_key handle r.routers ≡ Some router → session r router interface ≡ Some s
        → text.now ≡ Part r router s → roas.now ≡ r.public.roas
        → IfOk result
        (λ e. e ≡ spec.told_by (λ s. own_text (own_report_by_rows r router s route.now peers.now)) router
        route.now
        (Some s)) }
{
    match member_by_text(alloc, text, roas, interface, route, peers) {
        Ok(told) => Ok(told),
        Err(_) => Err(AllocError),
    }
}
