//! A route's way through a configuration.
ghost use Rattle.std.specs.Prelude.{◌≡◌, map};
ghost use Rattle.std.specs.Option.{option_copied};
ghost use Rattle.ixp_lang.specs.Views.{config_view, item_view};
ghost use Rattle.ixp_lang.specs.Walks.{
  pipe_from,
  pipes_of,
  sent_through,
  sent_to,
  session_named,
  bgp_sessions,
  through,
  to_primary,
  walk,
};
ghost use Rattle.ixp_eval.specs.Indexed.{items_of};
ghost use Rattle.ixp_eval.specs.Answers.{Gives};
ghost use Rattle.ixp_eval.specs.Views.{environment_of};

use crate::changes::copied_route;
use crate::env::Env;
use crate::fault::EvalFault;
use crate::index::Index;
use crate::names::same_name;
use crate::run::run_filter_by;
use crate::search::{pipe_between, pipe_from};
use ixp_lang::{Bgp, Config, Fate, Item, Route, Use, Verdict};
use ixp_num::{Items, Name};
use ixp_num_tables::Held;
use ixp_roa::RoaTable;
use std::alloc::Global;

/// The session of the name.
pub fn session_named<'a>(items: &'a [Item], name: &Name) -> Option<&'a Bgp>
    ensures { option_copied result ≡ session_named (bgp_sessions (map item_view items.now)) name.now }
{
    'items: for item in items {
        if let Item::Bgp(b) = item
            && same_name(&b.name, name)
        {
            return Some(&**b);
        }
    }
    None
}

/// What a protocol lets through.
fn through<'a>(
    alloc: Global,
    index: &Index<'a>,
    what: &'a Use,
    route: &Route,
    env: &Env<'_>,
) -> Result<Verdict, EvalFault>
    ensures { Gives result (through (environment_of env.now) (items_of index.now) what.now route.now) }
{
    match what {
        Use::All => Ok(Verdict::Accept(copied_route(alloc, route)?)),
        Use::Nothing => Ok(Verdict::Reject),
        Use::Named(name) => run_filter_by(alloc, index, name, route, env),
    }
}

/// What a session is sent of a route in the primary table.
#[tactic(auto, using(crate::proofs::Going::bind_fails))]
fn received<'a>(
    alloc: Global,
    index: &Index<'a>,
    primary: &Name,
    receiver: &'a Bgp,
    route: &Route,
    env: &Env<'_>,
) -> Result<Option<Route>, EvalFault>
    ensures { Gives result
        (sent_through (environment_of env.now) (items_of index.now) primary.now receiver.now route.now) }
{
    let Some(pipe) = pipe_between(index, primary, &receiver.table) else {
        return Ok(None);
    };
    let Verdict::Accept(piped) = through(alloc, index, &pipe.export, route, env)? else {
        return Ok(None);
    };
    match through(alloc, index, &receiver.export, &piped, env)? {
        Verdict::Accept(sent) => Ok(Some(sent)),
        Verdict::Reject => Ok(None),
    }
}

/// What each session but the sender is sent.
fn sent_to<'a>(
    alloc: Global,
    index: &Index<'a>,
    sender: &Name,
    primary: &Name,
    route: &Route,
    env: &Env<'_>,
) -> Result<Items<(Name, Option<Route>)>, EvalFault>
    ensures { Gives result
        (sent_to (environment_of env.now) (items_of index.now) sender.now primary.now
        (bgp_sessions (items_of index.now)) route.now) }
{
    let mut sent = Items::new(alloc);
    'items: for item in index.items {
        if let Item::Bgp(b) = item
            && !same_name(&b.name, sender)
        {
            let got = received(alloc, index, primary, b, route, env)?;
            sent.push((b.name.copied(alloc)?, got))?;
        }
    }
    Ok(sent)
}

/// From a session's table on.
#[tactic(auto, using(crate::proofs::Going::bind_fails))]
fn from_table<'a>(
    alloc: Global,
    index: &Index<'a>,
    sender: &'a Bgp,
    own: Route,
    env: &Env<'_>,
) -> Result<Fate, EvalFault>
    ensures { Gives result
        (to_primary (environment_of env.now) (items_of index.now) sender.now
        (pipe_from (pipes_of (items_of index.now)) sender.now.table) own) }
{
    let Some(pipe) = pipe_from(index, &sender.table) else {
        return Ok(Fate {
            table: Some(own),
            passed: false,
            sent: Items::new(alloc),
        });
    };
    match through(alloc, index, &pipe.import, &own, env)? {
        Verdict::Reject => Ok(Fate {
            table: Some(own),
            passed: false,
            sent: Items::new(alloc),
        }),
        Verdict::Accept(passed) => Ok(Fate {
            table: Some(own),
            passed: true,
            sent: sent_to(alloc, index, &sender.name, &pipe.table, &passed, env)?,
        }),
    }
}

/// What the configuration does with a route from the session of the name. V4 comes where no session has it,
/// and V1 to V4 where a filter on the way gives them; the first fault on the way is the answer.
#[tactic(auto, using(crate::proofs::Going::bind_fails))]
pub fn walk(
    alloc: Global,
    c: &Config,
    session: &Name,
    route: &Route,
    roas: &[(Name, Held<RoaTable>)],
) -> Result<Fate, EvalFault>
    ensures { Gives result (walk (config_view c.now) roas.now session.now route.now) }
{
    let Some(sender) = session_named(c.items.as_slice(), session) else {
        return Err(EvalFault::NoFilter {
            name: session.copied(alloc)?,
        });
    };
    let index = Index::of(alloc, c.items.as_slice())?;
    let env = Env {
        from: sender.neighbor,
        roas,
    };
    match through(alloc, &index, &sender.import, route, &env)? {
        Verdict::Reject => Ok(Fate {
            table: None,
            passed: false,
            sent: Items::new(alloc),
        }),
        Verdict::Accept(own) => from_table(alloc, &index, sender, own, &env),
    }
}
