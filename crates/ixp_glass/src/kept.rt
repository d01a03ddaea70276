//! Reports that are kept, with what they were made from.
ghost use Rattle.std.specs.Prelude.{
  ◌≡◌,
  ◌↔◌,
  ◌++◌,
  ◌∷◌,
  [],
  ◌-◌,
  take,
  IfOk,
  OnOk,
  IfSome,
  IfNone,
  IsTrue,
};
ghost use Rattle.std.specs.List.{Contains};
ghost use Rattle.ixp_glass.specs.Kept.{AreKept, is_of, made_from, others, with_newest};

use crate::compare::are_same;
use crate::roas::GlassRoas;
use ixp_explain::OwnReport;
use ixp_lang::Route;
use ixp_num::{Items, Name};
use ixp_num_tables::Held;
use std::alloc::{AllocError, Global};

/// The most sessions whose reports are kept.
pub const MOST_KEPT: usize = 16;

/// Reports of routes, in their order. To share them costs the same however many they are.
pub type Reports = Held<Items<OwnReport>>;

/// The reports of a session's routes, and what they were made from.
#[derive(Drop)]
pub struct KeptReports {
    pub router: Name,
    pub interface: u32,
    pub routes: Held<Items<Route>>,
    pub text: Items<u8>,
    pub roas: GlassRoas,
    pub reports: Reports,
}

/// Whether the reports are of the router's session at the interface.
fn is_of(kept: &KeptReports, router: &Name, interface: u32) -> bool
    ensures { result ≡ is_of router.now interface kept.now }
{
    kept.router.as_bytes() == router.as_bytes() && kept.interface == interface
}

/// Whether the reports are of the router's session at the interface, and were made from these.
fn is_made_from(
    kept: &KeptReports,
    router: &Name,
    interface: u32,
    routes: &[Route],
    text: &[u8],
    roas: &GlassRoas,
) -> bool
    ensures { IsTrue result
        ↔ (kept.now ≡ made_from router.now interface routes.now text.now roas.now kept.now.reports) }
{
    if !is_of(kept, router, interface) {
        return false;
    }
    if kept.text.as_slice() != text {
        return false;
    }
    if !are_same(kept.routes.get().as_slice(), routes) {
        return false;
    }
    kept.roas.are_same(roas)
}

/// The reports of the session that were made from these, if they are kept.
pub(crate) fn kept_from<'a>(
    kept: &'a [Held<KeptReports>],
    router: &Name,
    interface: u32,
    routes: &[Route],
    text: &[u8],
    roas: &GlassRoas,
) -> Option<&'a KeptReports>
    ensures there { IfSome result (λ k. Contains kept.now k.now) }
    ensures made { IfSome result
        (λ k. k.now ≡ made_from router.now interface routes.now text.now roas.now k.now.reports) }
    ensures none { IfNone result (AreKept kept.now router.now interface routes.now text.now roas.now → ⊥) }
{
    'each: for row in kept {
        if is_made_from(row.get(), router, interface, routes, text, roas) {
            return Some(row.get());
        }
    }
    None
}

/// Adds the reports, where they aren't of the session.
fn add_other(
    rows: &mut Items<Held<KeptReports>>,
    row: &Held<KeptReports>,
    router: &Name,
    interface: u32,
) -> Result<(), AllocError>
    ensures { OnOk result (rows.new ≡ rows.old ++ others router.now interface (row.now ∷ [])) }
{
    if is_of(row.get(), router, interface) {
        return Ok(());
    }
    rows.push(row.shared()?)
}

/// The reports that aren't of the session.
fn others(
    alloc: Global,
    kept: &[Held<KeptReports>],
    router: &Name,
    interface: u32,
) -> Result<Items<Held<KeptReports>>, AllocError>
    ensures { IfOk result (λ rows. rows ≡ others router.now interface kept.now) }
{
    let mut rows = Items::new(alloc);
    'each: for row in kept {
        add_other(&mut rows, row, router, interface)?;
    }
    Ok(rows)
}

/// These reports, and those of other sessions but for the ones that were made longest ago.
pub(crate) fn with_newest(
    alloc: Global,
    newest: Held<KeptReports>,
    kept: &[Held<KeptReports>],
) -> Result<Items<Held<KeptReports>>, AllocError>
    ensures { IfOk result (λ rows. rows ≡ with_newest newest kept.now) }
{
    let others = others(alloc, kept, &newest.get().router, newest.get().interface)?;
    let mut rows = Items::new(alloc);
    rows.push(newest)?;
    'each: for row in first_rows(others.as_slice()) {
        rows.push(row.shared()?)?;
    }
    Ok(rows)
}

/// As many of them as are kept beside new ones.
fn first_rows(rows: &[Held<KeptReports>]) -> &[Held<KeptReports>]
    ensures { result.now ≡ take (MOST_KEPT - 1) rows.entry.now }
{
    &rows[..rows.len().min(MOST_KEPT - 1)]
}
