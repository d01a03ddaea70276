//! What a member is told of its own route.
ghost use Rattle.std.specs.Prelude.{◌≡◌, IfOk};
ghost use Rattle.std.specs.Option.{option_copied};
ghost use Rattle.ixp_lang.specs.Views.{config_view};
ghost use Rattle.ixp_eval.specs.Views.{environment_of};
ghost use Rattle.ixp_explain.specs.Answers.{Answers, Tells};
ghost use Rattle.ixp_explain.specs.Explained.{
  asks_told,
  own_explained,
  passed_told,
  session_in,
  up_name,
  wishes_by,
};

use crate::kinds::sorts_of;
use crate::peers::wishes;
use crate::report::{ExplainFault, OwnReport};
use crate::session::{config_of, fate_of, name_of, number_told, own_number};
use crate::shapes::test_shapes;
use ixp_eval::{Env, run_filter, session_named};
use ixp_lang::{Bgp, Config, Fate, Route, Verdict, numbered};
use ixp_num::{Asn, Items, Name};
use ixp_num_tables::Held;
use ixp_roa::RoaTable;
use std::alloc::{AllocError, Global};

fn up_name(alloc: Global, interface: u32) -> Result<Name, AllocError>
    ensures { IfOk result (λ name. name ≡ up_name interface) }
{
    numbered(alloc, b"up_", interface)
}

fn wishes_by(
    alloc: Global,
    config: &Config,
    env: &Env<'_>,
    peers: &[Asn],
    verdict: &Verdict,
) -> Result<Items<(Asn, Option<u8>)>, ExplainFault>
    ensures { Tells result
        (wishes_by (config_view config.now) (environment_of env.now) peers.now verdict.now) }
{
    match verdict {
        Verdict::Accept(route) => wishes(alloc, config, env, route, peers),
        Verdict::Reject => Ok(Items::new(alloc)),
    }
}

/// The wishes for a route that passed.
#[tactic(auto, using(crate::proofs::Telling::telling))]
fn passed(
    alloc: Global,
    config: &Config,
    env: &Env<'_>,
    interface: u32,
    route: &Route,
    peers: &[Asn],
) -> Result<Items<(Asn, Option<u8>)>, ExplainFault>
    ensures { Tells result
        (passed_told (config_view config.now) (environment_of env.now) interface route.now peers.now) }
{
    let up = up_name(alloc, interface)?;
    let verdict = run_filter(alloc, config, &up, route, env)?;
    let sorts = sorts_of(alloc, config)?;
    test_shapes(alloc, sorts.as_slice())?;
    wishes_by(alloc, config, env, peers, &verdict)
}

#[tactic(auto, using(crate::proofs::Telling::telling))]
fn asks(
    alloc: Global,
    config: &Config,
    roas: &[(Name, Held<RoaTable>)],
    interface: u32,
    fate: &Fate,
    peers: &[Asn],
) -> Result<Items<(Asn, Option<u8>)>, ExplainFault>
    ensures { Tells result
        (asks_told (config_view config.now) roas.now interface
        (session_in (config_view config.now) interface) fate.now.table fate.now.passed peers.now) }
{
    let name = name_of(alloc, interface)?;
    let Some(session) = session_named(config.items.as_slice(), &name) else {
        return Ok(Items::new(alloc));
    };
    let Some(route) = &fate.table else {
        return Ok(Items::new(alloc));
    };
    if !fate.passed {
        return Ok(Items::new(alloc));
    }
    let env = Env {
        from: session.neighbor,
        roas,
    };
    passed(alloc, config, &env, interface, route, peers)
}

#[tactic(auto, using(crate::proofs::Telling::telling))]
fn explain_by(
    alloc: Global,
    config: &Config,
    roas: &[(Name, Held<RoaTable>)],
    interface: u32,
    route: &Route,
    peers: &[Asn],
) -> Result<OwnReport, ExplainFault>
    ensures { Tells result (own_explained (config_view config.now) roas.now interface route.now peers.now) }
{
    let fate = fate_of(alloc, config, roas, interface, route)?;
    let asks = asks(alloc, config, roas, interface, &fate, peers)?;
    let own = own_number(alloc, config, interface)?;
    let number = number_told(own, &fate.table, fate.passed);
    Ok(OwnReport {
        tagged: fate.table,
        passed: fate.passed,
        number,
        asks,
    })
}

/// What a member is told of a route that its interface's session brings, by its own text, with these tables
/// of ROAs: the route as the server holds it, whether it passes, and for each peer that is asked, whether it
/// is to be sent there. `Unread`, `Family` and `Fault` come as in [`explain`](crate::explain). A route that
/// passes is given to the filter `up_<interface>` first; `Fault` comes of it, `Shape` of the functions
/// `ixp_sends` and `ixp_count`, then `Fault` of these, peer after peer.
#[tactic(auto, using(crate::proofs::Telling::told_of, crate::proofs::Telling::unread_of))]
pub fn explain_member(
    alloc: Global,
    text: &[u8],
    roas: &[(Name, Held<RoaTable>)],
    interface: u32,
    route: &Route,
    peers: &[Asn],
) -> Result<OwnReport, ExplainFault>
    ensures { Answers text.now (λ items. own_explained items roas.now interface route.now peers.now) result }
{
    let config = config_of(alloc, text)?;
    explain_by(alloc, &config, roas, interface, route, peers)
}
