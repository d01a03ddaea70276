//! What becomes of a route by a text.
ghost use Rattle.ixp_lang.specs.Views.{config_view};
ghost use Rattle.ixp_explain.specs.Answers.{Answers, Tells, in_bytes};
ghost use Rattle.ixp_explain.specs.Explained.{explained, fate_text_told};

use crate::report::{ExplainFault, Report};
use crate::session::{config_of, fate_of, number_told, own_number};
use ixp_lang::{Config, Route, print_fate};
use ixp_num::Name;
use ixp_num_tables::Held;
use ixp_roa::RoaTable;
use std::alloc::Global;

#[tactic(auto, using(crate::proofs::Telling::telling))]
fn explain_by(
    alloc: Global,
    config: &Config,
    roas: &[(Name, Held<RoaTable>)],
    interface: u32,
    route: &Route,
) -> Result<Report, ExplainFault>
    ensures { Tells result (explained (config_view config.now) roas.now interface route.now) }
{
    let fate = fate_of(alloc, config, roas, interface, route)?;
    let own = own_number(alloc, config, interface)?;
    let number = number_told(own, &fate.table, fate.passed);
    Ok(Report { fate, number })
}

/// What becomes of a route that the interface's session `b_<interface>` brings, by the configuration that the
/// text spells, with these tables of ROAs by their names (`tables_of`). `Unread` comes first, then `Family`,
/// then `Fault`.
#[tactic(auto, using(crate::proofs::Telling::told_of, crate::proofs::Telling::unread_of))]
pub fn explain(
    alloc: Global,
    text: &[u8],
    roas: &[(Name, Held<RoaTable>)],
    interface: u32,
    route: &Route,
) -> Result<Report, ExplainFault>
    ensures { Answers text.now (λ items. explained items roas.now interface route.now) result }
{
    let config = config_of(alloc, text)?;
    explain_by(alloc, &config, roas, interface, route)
}

/// The text of a fate.
#[tactic(auto, using(crate::proofs::Telling::telling))]
pub(crate) fn text_by(
    alloc: Global,
    config: &Config,
    roas: &[(Name, Held<RoaTable>)],
    interface: u32,
    route: &Route,
) -> Result<Vec<u8>, ExplainFault>
    ensures { Tells (in_bytes result)
        (fate_text_told (config_view config.now) roas.now interface route.now) }
{
    let fate = fate_of(alloc, config, roas, interface, route)?;
    let own = own_number(alloc, config, interface)?;
    let mut out = Vec::new(alloc);
    print_fate(&fate, own, &mut out)?;
    Ok(out)
}

/// The same as a text: one line for the route in its own table, one for whether it passes, and one for each
/// other session. Why a route is stopped is told by the AS number that the session gives the route server.
/// Faults come as in [`explain`].
#[tactic(auto, using(crate::proofs::Telling::told_of, crate::proofs::Telling::unread_of))]
pub fn explain_text(
    alloc: Global,
    text: &[u8],
    roas: &[(Name, Held<RoaTable>)],
    interface: u32,
    route: &Route,
) -> Result<Vec<u8>, ExplainFault>
    ensures { Answers text.now (λ items. fate_text_told items roas.now interface route.now)
        (in_bytes result) }
{
    let config = config_of(alloc, text)?;
    text_by(alloc, &config, roas, interface, route)
}
