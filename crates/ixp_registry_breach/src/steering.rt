//! Rule 11: members' own rules.
ghost use Rattle.std.specs.Prelude.{◌≡◌, ◌==◌, ◌+◌, ◌<◌, ◌^◌, length, not, nat_le, true};
ghost use Rattle.ixp_num_tables.specs.Tables.{if_there};
ghost use Rattle.ixp_registry.specs.Places.{first_beside};
ghost use Rattle.ixp_registry.specs.Rules.{place_after, rules_follow, rules_are_lawful, rule_11};
ghost use Rattle.ixp_registry.specs.Words.{is_action_of, is_lawful};
ghost use Rattle.ixp_registry.specs.Sizes.{HasLines};

use ixp_num::Asn;
use ixp_registry::{Action, MemberRule, Rows, Way, earliest, first, rules_at};

/// The place that the next rule has, where it is the member's.
fn place_after(last: Option<MemberRule>, member: u32) -> u64
    ensures { result ≡ place_after last member }
{
    match last {
        Some(last) => {
            if last.member == member {
                u64::from(last.place) + 1
            } else {
                1
            }
        }
        None => 1,
    }
}

fn first_misplaced(start: usize, rules: &[MemberRule]) -> Option<usize>
    requires { start + length rules.now < 2 ^ 64 }
    ensures { result ≡ first_beside start (λ last r. not (r.place == place_after last r.member)) rules.now }
{
    let mut last = None;
    let mut left = rules;
    let mut at = start;
    'rules: while let Some((rule, others)) = left.split_first() {
        if u64::from(rule.place) != place_after(last, rule.member) {
            return Some(at);
        }
        last = Some(*rule);
        left = others;
        at += 1;
    }
    None
}

fn rules_follow(rows: &Rows) -> Option<usize>
    requires { HasLines rows.now }
    ensures { result ≡ rules_follow rows.now }
{
    first_misplaced(rules_at(rows), rows.rules.as_slice())
}

fn is_action_of(way: Way, action: Action) -> bool
    ensures { result ≡ is_action_of way action }
{
    match action {
        Action::AsIs | Action::Stop => true,
        Action::Prepend(times) => match way {
            Way::Advertise => 1 <= times && times <= 3,
            Way::Receive => false,
        },
    }
}

fn is_peer(peer: Option<Asn>) -> bool
    ensures { result ≡ if_there peer true (λ p. nat_le 1 p.0) }
{
    match peer {
        Some(asn) => 1 <= asn.0,
        None => true,
    }
}

fn is_lawful(rule: &MemberRule) -> bool
    ensures { result ≡ is_lawful rule.now }
{
    is_action_of(rule.way, rule.action) && is_peer(rule.peer)
}

fn rules_are_lawful(rows: &Rows) -> Option<usize>
    requires { HasLines rows.now }
    ensures { result ≡ rules_are_lawful rows.now }
{
    let rules = rows.rules.as_slice();
    first(rules_at(rows), rules, |r| !is_lawful(r))
}

/// A member's rules have the places 1 to n and lawful actions, and a rule's peer is any or at least 1.
pub fn rule_11(rows: &Rows) -> Option<usize>
    requires { HasLines rows.now }
    ensures { result ≡ rule_11 rows.now }
{
    earliest(&[rules_follow(rows), rules_are_lawful(rows)])
}
