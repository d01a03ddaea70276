//! To which peers a route is to be sent, by the functions of a text.
ghost use Rattle.std.specs.Prelude.{◌≡◌, ℕ, Option, Err, IfOk};
ghost use Rattle.ixp_lang.specs.Attributes.{truth};
ghost use Rattle.ixp_lang.specs.Views.{config_view};
ghost use Rattle.ixp_eval.specs.Views.{environment_of};
ghost use Rattle.ixp_explain.specs.Answers.{Tells, Troubled};
ghost use Rattle.ixp_explain.specs.Explained.{
  count_name,
  count_told,
  misshapen,
  sends_name,
  sends_told,
  times_told,
  wish_told,
  wishes_told,
};

use crate::report::ExplainFault;
use ixp_eval::{Env, call_function};
use ixp_lang::{Config, Route, Value};
use ixp_num::{Asn, Items, Name};
use std::alloc::{AllocError, Global};

/// The name of the function that says whether a route is to be sent to a peer.
pub(crate) fn sends_name(alloc: Global) -> Result<Name, AllocError>
    ensures { IfOk result (λ name. name ≡ sends_name) }
{
    Name::new(alloc, b"ixp_sends")
}

/// The name of the one that says how often the sender's number is put in front.
pub(crate) fn count_name(alloc: Global) -> Result<Name, AllocError>
    ensures { IfOk result (λ name. name ≡ count_name) }
{
    Name::new(alloc, b"ixp_count")
}

fn truth(value: &Value) -> bool
    ensures { result ≡ truth value.now }
{
    match value {
        Value::Bool(b) => *b,
        _ => false,
    }
}

#[tactic(auto, using(crate::proofs::Telling::telling))]
fn is_sent(
    alloc: Global,
    config: &Config,
    env: &Env<'_>,
    route: &Route,
    peer: u32,
) -> Result<bool, ExplainFault>
    ensures { Tells result (sends_told (config_view config.now) (environment_of env.now) route.now peer) }
{
    let name = sends_name(alloc)?;
    let value = call_function(alloc, config, &name, peer, route, env)?;
    Ok(truth(&value))
}

fn misshapen_count(alloc: Global) -> ExplainFault
    ensures { Troubled {A = Option ℕ} (Err (misshapen count_name)) result }
{
    match count_name(alloc) {
        Ok(name) => ExplainFault::Shape { name },
        Err(_) => ExplainFault::NoMemory,
    }
}

fn times_told(alloc: Global, value: &Value) -> Result<Option<u8>, ExplainFault>
    ensures { Tells result (times_told value.now) }
{
    match value {
        Value::Int(number) => {
            if *number <= 255 {
                Ok(Some(*number as u8))
            } else {
                Err(misshapen_count(alloc))
            }
        }
        _ => Err(misshapen_count(alloc)),
    }
}

#[tactic(auto, using(crate::proofs::Telling::telling))]
fn count(
    alloc: Global,
    config: &Config,
    env: &Env<'_>,
    route: &Route,
    peer: u32,
) -> Result<Option<u8>, ExplainFault>
    ensures { Tells result (count_told (config_view config.now) (environment_of env.now) route.now peer) }
{
    let name = count_name(alloc)?;
    let value = call_function(alloc, config, &name, peer, route, env)?;
    times_told(alloc, &value)
}

/// The wish for one peer.
#[tactic(auto, using(crate::proofs::Telling::telling))]
fn wish(
    alloc: Global,
    config: &Config,
    env: &Env<'_>,
    route: &Route,
    peer: u32,
) -> Result<Option<u8>, ExplainFault>
    ensures { Tells result (wish_told (config_view config.now) (environment_of env.now) route.now peer) }
{
    if is_sent(alloc, config, env, route, peer)? {
        count(alloc, config, env, route, peer)
    } else {
        Ok(None)
    }
}

/// The wishes for the peers, in their order.
#[tactic(auto, using(crate::proofs::Telling::telling))]
pub(crate) fn wishes(
    alloc: Global,
    config: &Config,
    env: &Env<'_>,
    route: &Route,
    peers: &[Asn],
) -> Result<Items<(Asn, Option<u8>)>, ExplainFault>
    ensures { Tells result
        (wishes_told (config_view config.now) (environment_of env.now) route.now peers.now) }
{
    let mut wishes = Items::new(alloc);
    'each: for peer in peers {
        let wish = wish(alloc, config, env, route, peer.0)?;
        wishes.push((*peer, wish))?;
    }
    Ok(wishes)
}
