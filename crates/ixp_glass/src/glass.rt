//! A glass, which keeps reports.
ghost use Rattle.std.specs.Prelude.{◌≡◌, ◌↔◌, [], false, IfOk, OnOk, OnErr};
ghost use Rattle.ixp_glass.specs.Kept.{AreKept, Gives, made_from, with_newest};
ghost use Rattle.ixp_glass.specs.Reports.{AreReports, Reports};

use crate::kept::{KeptReports, Reports, kept_from, with_newest};
use crate::reports::reports_of;
use crate::roas::GlassRoas;
use ixp_explain::ExplainFault;
use ixp_lang::Route;
use ixp_num::{Items, Name};
use ixp_num_tables::Held;
use std::alloc::{AllocError, Global};
use std::marker::Model;

/// The reports of at most 16 sessions, each with what they were made from. Contracts see them as they were
/// made, the last ones first. Each report that it holds is right.
#[derive(Drop)]
pub struct Glass {
    alloc: Global,
    kept: Items<Held<KeptReports>>,
}

impl Model for Glass {
    ghost use Rattle.std.specs.Prelude.{◌≤◌, List, length};
    ghost use Rattle.std.specs.List.{AllByRecursion};
    ghost use Rattle.ixp_glass.specs.declared.kept.KeptReports.{KeptReports};
    ghost use Rattle.ixp_glass.specs.Kept.{IsRight};

    ghost Value = { List KeptReports };

    ghost view = { λ g. g.kept };

    ghost invariant = { λ g. AllByRecursion IsRight g.kept × (length g.kept ≤ 16) };
}

/// The ROAs, as the reports that were made last have them, where those are the same: so they stand in memory
/// once.
fn shared_roas(kept: &[Held<KeptReports>], roas: &GlassRoas) -> Result<GlassRoas, AllocError>
    ensures { IfOk result (λ r. r ≡ roas.now) }
{
    match kept.first() {
        Some(newest) => newest.get().roas.shared_or(roas),
        None => roas.shared(),
    }
}

/// Reports with what they were made from.
fn newest_of(
    alloc: Global,
    kept: &[Held<KeptReports>],
    router: &Name,
    interface: u32,
    routes: &Held<Items<Route>>,
    text: &[u8],
    roas: &GlassRoas,
    reports: &Reports,
) -> Result<Held<KeptReports>, AllocError>
    ensures { IfOk result
        (λ k. k ≡ made_from router.now interface routes.now text.now roas.now reports.now) }
{
    let newest = KeptReports {
        router: router.copied(alloc)?,
        interface,
        routes: routes.shared()?,
        text: Items::from_slice(alloc, text)?,
        roas: shared_roas(kept, roas)?,
        reports: reports.shared()?,
    };
    Held::new(alloc, newest)
}

impl Glass {
    /// A glass that keeps nothing. It does not allocate.
    pub fn open(alloc: Global) -> Glass
        ensures { result ≡ [] }
    {
        Glass {
            alloc,
            kept: Items::new(alloc),
        }
    }

    /// Whether the reports of the router's session at the interface are to be made: not where they are kept
    /// and were made from these routes, this text and these ROAs. It does not allocate.
    pub fn due(
        &self,
        router: &Name,
        interface: u32,
        routes: &[Route],
        text: &[u8],
        roas: &GlassRoas,
    ) -> bool
        ensures { (result ≡ false) ↔ AreKept self.now router.now interface routes.now text.now roas.now }
    {
        kept_from(self.kept.as_slice(), router, interface, routes, text, roas).is_none()
    }

    /// Keeps these reports of the session.
    fn keep(
        &mut self,
        router: &Name,
        interface: u32,
        routes: &Held<Items<Route>>,
        text: &[u8],
        roas: &GlassRoas,
        reports: &Reports,
    ) -> Result<(), AllocError>
        requires { AreReports text.now roas.now interface routes.now reports.now }
        ensures ok { OnOk result
            (self.new
            ≡ with_newest (made_from router.now interface routes.now text.now roas.now reports.now)
            self.old) }
        ensures err { OnErr result (self.new ≡ self.old) }
    {
        let newest = newest_of(
            self.alloc,
            self.kept.as_slice(),
            router,
            interface,
            routes,
            text,
            roas,
            reports,
        )?;
        self.kept = with_newest(self.alloc, newest, self.kept.as_slice())?;
        Ok(())
    }

    /// The reports of these routes, which the router's session at the interface brings, by the text and the
    /// ROAs: the ones that are kept where they aren't due, else new ones, which are kept. `Unread`, `Family`,
    /// `Fault` and `Shape` come as `explain_member` answers of the first route that it has no report of.
    pub fn show(
        &mut self,
        router: &Name,
        interface: u32,
        routes: &Held<Items<Route>>,
        text: &[u8],
        roas: &GlassRoas,
    ) -> Result<Reports, ExplainFault>
        ensures reports { Reports text.now roas.now interface routes.now result }
        ensures gives { IfOk result
            (λ reports. Gives (made_from router.now interface routes.now text.now roas.now reports) self.old
            self.new) }
        ensures err { OnErr result (self.new ≡ self.old) }
    {
        let listed = routes.get().as_slice();
        if let Some(kept) = kept_from(self.kept.as_slice(), router, interface, listed, text, roas) {
            return Ok(kept.reports.shared()?);
        }
        let reports = reports_of(self.alloc, text, roas, interface, listed)?;
        let reports = Held::new(self.alloc, reports)?;
        self.keep(router, interface, routes, text, roas, &reports)?;
        Ok(reports)
    }
}
