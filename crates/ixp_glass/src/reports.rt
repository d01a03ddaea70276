//! Reports of all routes of a session, by a text that is read once.
ghost use Rattle.std.specs.Prelude.{◌≡◌, ◌<◌, length};
ghost use Rattle.ixp_lang.specs.Views.{config_view};
ghost use Rattle.ixp_read.specs.Answers.{SpellsText};
ghost use Rattle.ixp_glass.specs.Reports.{Reports};

use crate::forms::report_of;
use crate::roas::GlassRoas;
use ixp_explain::session::config_of;
use ixp_explain::{ExplainFault, OwnReport};
use ixp_lang::{Config, Route};
use ixp_num::Items;
use std::alloc::Global;

/// The reports of the routes, by the configuration that the text spells.
fn reports_by(
    alloc: Global,
    text: &[u8],
    config: &Config,
    roas: &GlassRoas,
    interface: u32,
    routes: &[Route],
) -> Result<Items<OwnReport>, ExplainFault>
    requires { SpellsText text.now (config_view config.now) }
    ensures { Reports text.now roas.now interface routes.now result }
{
    let tables = roas.tables(alloc)?;
    let mut has_forms = false;
    let mut reports = Items::new(alloc);
    'each: for route in routes {
        let (report, forms) = report_of(
            alloc,
            text,
            config,
            tables.as_slice(),
            interface,
            route,
            has_forms,
        )?;
        has_forms = forms;
        reports.push(report)?;
    }
    Ok(reports)
}

/// The reports of the routes that the interface's session brings, by the text and the ROAs. Without routes
/// the text isn't read.
pub(crate) fn reports_of(
    alloc: Global,
    text: &[u8],
    roas: &GlassRoas,
    interface: u32,
    routes: &[Route],
) -> Result<Items<OwnReport>, ExplainFault>
    ensures { Reports text.now roas.now interface routes.now result }
{
    if routes.is_empty() {
        return Ok(Items::new(alloc));
    }
    let config = config_of(alloc, text)?;
    reports_by(alloc, text, &config, roas, interface, routes)
}
