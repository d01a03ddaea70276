//! Which rule the rows of a registry break first, and where.
//!
//! [`first_breach`] answers as `breach` says (`Registries.antt` of ixp_registry): each sentence of the rules
//! has a function of its name here, and a rule's place is the earliest of its sentences' places. The time is
//! that of a look-up for each row, but for VLANs, each of which is compared with those before it, and for
//! routers, each of which is compared with those before it, with the members and with the addresses.
#![tactic(auto)]

ghost use Rattle.std.specs.Prelude.{◌≡◌, ◌+◌, ◌<◌, ◌^◌, IfOk, length};
ghost use Rattle.ixp_registry.specs.Registries.{first_rule, breach};
ghost use Rattle.ixp_registry.specs.Sizes.{HasLines};

mod asns;
mod blackholes;
mod bounds;
mod earlier;
mod hosts;
mod limits;
mod numbers;
mod references;
mod sharing;
mod steering;
mod texts;
mod vlans;
mod weights;

use asns::rule_4;
use blackholes::rule_15;
use bounds::{rule_9, rule_10, rule_12};
use hosts::rule_6;
use ixp_registry::{Breach, Rows};
use limits::rule_13;
use numbers::rule_1;
use references::{rule_2, rule_8, rule_14};
use sharing::rule_7;
use std::alloc::{AllocError, Global};
use steering::rule_11;
use texts::rule_3;
use vlans::rule_5;

/// The first rule that has a place, the rules being numbered from `number` on.
fn first_rule(number: u32, places: &[Option<usize>]) -> Option<Breach>
    requires { number + length places.now < 2 ^ 32 }
    ensures { result ≡ first_rule number places.now }
{
    let (place, others) = places.split_first()?;
    match *place {
        Some(line) => Some(Breach { rule: number, line }),
        None => first_rule(number + 1, others),
    }
}

/// The first rule that the rows break, and the line of a dump on which the first row stands that breaks it;
/// None where they break none. It fails only where memory runs out.
pub fn first_breach(alloc: Global, rows: &Rows) -> Result<Option<Breach>, AllocError>
    requires { HasLines rows.now }
    ensures { IfOk result (λ found. found ≡ breach rows.now) }
{
    let numbers = rule_1(alloc, rows)?;
    let sharing = rule_7(alloc, rows)?;
    let limits = rule_13(alloc, rows)?;
    Ok(first_rule(
        1,
        &[
            numbers,
            rule_2(rows),
            rule_3(rows),
            rule_4(rows),
            rule_5(rows),
            rule_6(rows),
            sharing,
            rule_8(rows),
            rule_9(rows),
            rule_10(rows),
            rule_11(rows),
            rule_12(rows),
            limits,
            rule_14(rows),
            rule_15(rows),
        ],
    ))
}
