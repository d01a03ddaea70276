//! What a text that was read says of a route, but for the forms of its functions.
ghost use Rattle.std.specs.Prelude.{◌≡◌, ◌&&◌, IfOk, is_some};
ghost use Rattle.ixp_lang.specs.Views.{config_view};
ghost use Rattle.ixp_explain.specs.Answers.{Tells};
ghost use Rattle.ixp_explain.specs.Explained.{session_in, up_name};
ghost use Rattle.ixp_glass.specs.Forms.{asks_forms, filtered, told_but_forms};

use ixp_eval::{Env, run_filter, session_named};
use ixp_explain::session::{fate_of, name_of, number_told, own_number};
use ixp_explain::{ExplainFault, OwnReport};
use ixp_lang::{Config, Fate, Route, numbered};
use ixp_num::{Items, Name};
use ixp_num_tables::Held;
use ixp_roa::RoaTable;
use std::alloc::{AllocError, Global};

/// The name of the filter up of the interface's session.
fn up_of(alloc: Global, interface: u32) -> Result<Name, AllocError>
    ensures { IfOk result (λ name. name ≡ up_name interface) }
{
    numbered(alloc, b"up_", interface)
}

/// Runs the filter up of the session on a route that passed, for the faults that it may have.
#[tactic(auto, using(ixp_explain::proofs::Telling::telling))]
fn filtered(
    alloc: Global,
    config: &Config,
    roas: &[(Name, Held<RoaTable>)],
    interface: u32,
    fate: &Fate,
) -> Result<(), ExplainFault>
    ensures { Tells result
        (filtered (config_view config.now) roas.now interface
        (session_in (config_view config.now) interface) fate.now.table fate.now.passed) }
{
    let name = name_of(alloc, interface)?;
    let Some(session) = session_named(config.items.as_slice(), &name) else {
        return Ok(());
    };
    let Some(route) = &fate.table else {
        return Ok(());
    };
    if !fate.passed {
        return Ok(());
    }
    let env = Env {
        from: session.neighbor,
        roas,
    };
    let up = up_of(alloc, interface)?;
    let _verdict = run_filter(alloc, config, &up, route, &env)?;
    Ok(())
}

/// What the text says of the route, but for the forms of its functions.
#[tactic(auto, using(ixp_explain::proofs::Telling::telling))]
pub(crate) fn told_but_forms(
    alloc: Global,
    config: &Config,
    roas: &[(Name, Held<RoaTable>)],
    interface: u32,
    route: &Route,
) -> Result<OwnReport, ExplainFault>
    ensures { Tells result (told_but_forms (config_view config.now) roas.now interface route.now) }
{
    let fate = fate_of(alloc, config, roas, interface, route)?;
    filtered(alloc, config, roas, interface, &fate)?;
    let own = own_number(alloc, config, interface)?;
    let number = number_told(own, &fate.table, fate.passed);
    Ok(OwnReport {
        tagged: fate.table,
        passed: fate.passed,
        number,
        asks: Items::new(alloc),
    })
}

/// Whether a report is of a route for which the forms of the text's functions count: one that passed, of a
/// session that is there.
pub(crate) fn asks_forms(
    alloc: Global,
    config: &Config,
    interface: u32,
    report: &OwnReport,
) -> Result<bool, AllocError>
    ensures { IfOk result (λ b. b ≡ asks_forms (config_view config.now) interface report.now) }
{
    let name = name_of(alloc, interface)?;
    let session = session_named(config.items.as_slice(), &name);
    Ok(session.is_some() && report.tagged.is_some() && report.passed)
}
