//! Members' rules in bodies.
ghost use Rattle.std.specs.Prelude.{◌≡◌, ◌<◌, length, IfOk, true};
ghost use Rattle.serde_json.specs.Find.{as_array};
ghost use Rattle.serde_json.specs.View.{view, items_view};
ghost use Rattle.ixp_api_bodies.specs.Answers.{Gives, ThenSays};
ghost use Rattle.ixp_api_bodies.specs.Lawful.{is_lawful};
ghost use Rattle.ixp_api_bodies.specs.Rules as spec;
ghost use Rattle.ixp_api_bodies.specs.Values.{objects_of};

use crate::each::{ReadsItem, each_of};
use crate::json::objects_of;
use crate::texts::prefix_or_null;
use crate::values::{action_in, must, number_or_null, way_in};
use ixp_api_json::{CallFault, Field, Pointer};
use ixp_api_paths::Args;
use ixp_machine_edits::{Edit, NewRule};
use ixp_num::{Asn, Items, Prefix};
use serde_json::Value;
use std::alloc::Global;

/// The places of rules have 32 bits, so a list that is longer isn't held.
const MOST: usize = 4_294_967_294;

fn numbered(peer: Option<u32>) -> Option<Asn>
    ensures { result ≡ spec.numbered peer }
{
    match peer {
        Some(number) => Some(Asn(number)),
        None => None,
    }
}

// The rule with this prefix, where it is said.
fn rule_with(place: u64, net: Option<Option<Prefix>>, rule: &Value) -> Result<NewRule, CallFault>
    ensures { result ≡ spec.rule place net (view rule.now) }
{
    let way = must(Pointer::In(place, Field::Way), way_in(rule, Field::Way))?;
    let peer = must(
        Pointer::In(place, Field::Peer),
        number_or_null(rule, Field::Peer),
    )?;
    let prefix = must(Pointer::In(place, Field::Prefix), net)?;
    let action = must(
        Pointer::In(place, Field::Action),
        action_in(rule, Field::Action),
    )?;
    Ok(NewRule {
        way,
        peer: numbered(peer),
        prefix,
        action,
    })
}

fn rule_of(place: u64, rule: &Value) -> Result<NewRule, CallFault>
    ensures { spec.Rule place (view rule.now) result }
{
    let net = prefix_or_null(rule, Field::Prefix);
    rule_with(place, net, rule)
}

/// Rules at their places in a list.
struct Rules;

impl ReadsItem for Rules {
    type Item = NewRule;

    ghost says = { spec.Rule };

    fn read(_alloc: Global, place: u64, value: &Value) -> Result<NewRule, CallFault> {
        rule_of(place, value)
    }
}

// The rules of a list.
fn rules_of(alloc: Global, items: &[Value]) -> Result<Items<NewRule>, CallFault>
    ensures rules { Gives (spec.Rules (items_view items.now)) result }
    ensures few { IfOk result (λ xs. length xs < 4294967295) }
{
    if items.len() > MOST {
        return Err(CallFault::NoMemory);
    }
    each_of::<Rules>(alloc, items)
}

fn rules_in(alloc: Global, value: &Value) -> Result<Items<NewRule>, CallFault>
    ensures rules { Gives (spec.Rules (spec.items_in (as_array (view value.now)))) result }
    ensures few { IfOk result (λ xs. length xs < 4294967295) }
{
    match value.as_array() {
        Some(items) => rules_of(alloc, items.as_slice()),
        None => Ok(Items::new(alloc)),
    }
}

/// The member's rules are to be these.
pub(crate) fn set_rules(alloc: Global, args: &Args, body: &[u8]) -> Result<Edit, CallFault>
    ensures says { Gives (λ r. ThenSays (objects_of body.now) (λ d x. spec.SetRules args.now d x) r) result }
    ensures lawful { IfOk result (λ e. is_lawful e ≡ true) }
{
    let value = objects_of(alloc, body)?;
    let rules = rules_in(alloc, &value)?;
    Ok(Edit::SetRules {
        member: args.row,
        rules,
    })
}
