//! What `explain_member` answers of a route, by a text that is read once.
ghost use Rattle.std.specs.Prelude.{IfOk, IfErr, IsTrue};
ghost use Rattle.ixp_lang.specs.Views.{config_view};
ghost use Rattle.ixp_read.specs.Answers.{SpellsText};
ghost use Rattle.ixp_glass.specs.Forms.{HasForms, Told};

use crate::session::{asks_forms, told_but_forms};
use ixp_explain::{ExplainFault, OwnReport, explain_member};
use ixp_lang::{Config, Route};
use ixp_num::Name;
use ixp_num_tables::Held;
use ixp_roa::RoaTable;
use std::alloc::Global;

/// What `explain_member` answers of the route, and whether it is known then that the text's functions are of
/// their forms. What is known so before spares another reading of the text.
pub(crate) fn report_of(
    alloc: Global,
    text: &[u8],
    config: &Config,
    roas: &[(Name, Held<RoaTable>)],
    interface: u32,
    route: &Route,
    has_forms: bool,
) -> Result<(OwnReport, bool), ExplainFault>
    requires spelt { SpellsText text.now (config_view config.now) }
    requires forms { IsTrue has_forms → HasForms (config_view config.now) }
    ensures ok { IfOk result (λ x. Told text.now roas.now interface route.now (Ok x.0)) }
    ensures forms { IfOk result (λ x. IsTrue x.1 → HasForms (config_view config.now)) }
    ensures err { IfErr result (λ f. Told text.now roas.now interface route.now (Err f)) }
{
    let report = told_but_forms(alloc, config, roas, interface, route)?;
    if has_forms {
        return Ok((report, true));
    }
    let asks = asks_forms(alloc, config, interface, &report)?;
    if !asks {
        return Ok((report, false));
    }
    let told = explain_member(alloc, text, roas, interface, route, &[])?;
    let has_forms = asks_forms(alloc, config, interface, &told)?;
    Ok((told, has_forms))
}
