//! Why edits of members' lists and rules and of public lists are refused.
ghost use Rattle.std.specs.Prelude.{◌≡◌, ◌<◌, ◌^◌, ◌+◌, ◌-◌, [], ◌∷◌, not, length, option_map};
ghost use Rattle.std.specs.List.{list_all, position};
ghost use Rattle.ixp_registry.specs.declared.refusal.Refusal.TheVariants.{BadRule};
ghost use Rattle.ixp_registry.specs.Valid.{Valid};
ghost use Rattle.ixp_registry.specs.Words.{is_action_of, pattern_has_bounds, range_ascends, roa_has_bounds};
ghost use Rattle.ixp_machine_edits.specs.Lists.{
  is_bad,
  prefixes_in,
  put_irr_tests,
  put_origins_tests,
  set_rules_tests,
  put_public_tests,
};
ghost use Rattle.ixp_machine_edits.specs.Tests.{first_refused, refused, beyond};
ghost use Rattle.ixp_registry.specs.Weight.{weight_of};

use crate::after::{prefixes_with_list, weight_with_list};
use crate::refusing::{beyond, out_of_bounds, too_heavy, unknown};
use ixp_machine_edits::NewRule;
use ixp_num::{Asn, Family, Pattern, Prefix, Roa};
use ixp_registry::{Action, Kind, Refusal, Registry, Way, has_member};
use ixp_registry_change::PublicList;

/// `weight` and `prefixes` are the registry's.
pub(crate) fn put_irr(
    registry: &Registry,
    weight: u64,
    prefixes: u64,
    member: u32,
    family: Family,
    list: &[Prefix],
) -> Option<Refusal>
    requires valid { Valid registry.now }
    requires weight { weight ≡ weight_of registry.now }
    requires prefixes { prefixes ≡ prefixes_in registry.now.irr }
    ensures { result ≡ first_refused (put_irr_tests registry.now member family list.now) }
{
    if !has_member(&registry.members, member) {
        return Some(unknown(Kind::Members, member));
    }
    if let Some(refusal) = beyond(Kind::Prefixes, list.len() as u64, 300000) {
        return Some(refusal);
    }
    let prefixes = prefixes_with_list(registry, prefixes, member, family, list);
    if let Some(refusal) = beyond(Kind::Prefixes, prefixes, 4000000) {
        return Some(refusal);
    }
    too_heavy(weight_with_list(registry, weight, member, family, list))
}

pub(crate) fn put_origins(
    registry: &Registry,
    member: u32,
    family: Family,
    asns: &[Asn],
) -> Option<Refusal>
    ensures { result ≡ first_refused (put_origins_tests registry.now member family asns.now) }
{
    if !has_member(&registry.members, member) {
        return Some(unknown(Kind::Members, member));
    }
    beyond(Kind::Origins, asns.len() as u64, 300000)
}

fn is_action_of(way: Way, action: Action) -> bool
    ensures { result ≡ is_action_of way action }
{
    match action {
        Action::AsIs | Action::Stop => true,
        Action::Prepend(times) => match way {
            Way::Advertise => 1 <= times && times <= 3,
            Way::Receive => false,
        },
    }
}

fn is_bad(rule: &NewRule) -> bool
    ensures { result ≡ is_bad rule.now }
{
    let is_peer = match rule.peer {
        Some(asn) => 1 <= asn.0,
        None => true,
    };
    !(is_action_of(rule.way, rule.action) && is_peer)
}

fn bad_rule(rules: &[NewRule]) -> Option<Refusal>
    requires { length rules.now < 2 ^ 32 - 1 }
    ensures { result ≡ option_map (λ i. BadRule (i + 1)) (position is_bad rules.now) }
{
    let mut place = 1;
    let mut left = rules;
    'each: while let Some((rule, others)) = left.split_first() {
        if is_bad(rule) {
            return Some(Refusal::BadRule { place });
        }
        place += 1;
        left = others;
    }
    None
}

pub(crate) fn set_rules(registry: &Registry, member: u32, rules: &[NewRule]) -> Option<Refusal>
    requires { length rules.now < 2 ^ 32 - 1 }
    ensures { result ≡ first_refused (set_rules_tests registry.now member rules.now) }
{
    if !has_member(&registry.members, member) {
        return Some(unknown(Kind::Members, member));
    }
    if let Some(refusal) = bad_rule(rules) {
        return Some(refusal);
    }
    beyond(Kind::Rules, rules.len() as u64, 64)
}

fn pattern_has_bounds(pattern: &Pattern) -> bool
    ensures { result ≡ pattern_has_bounds pattern.now }
{
    pattern.low <= pattern.high && pattern.high <= pattern.prefix.family.bits()
}

fn patterns_have_bounds(patterns: &[Pattern]) -> bool
    ensures { result ≡ list_all pattern_has_bounds patterns.now }
{
    patterns.iter().all(|p| pattern_has_bounds(p))
}

fn range_ascends(range: &(Asn, Asn)) -> bool
    ensures { result ≡ range_ascends range.now }
{
    range.0.0 <= range.1.0
}

fn ranges_ascend(ranges: &[(Asn, Asn)]) -> bool
    ensures { result ≡ list_all range_ascends ranges.now }
{
    ranges.iter().all(|r| range_ascends(r))
}

fn roa_has_bounds(roa: &Roa) -> bool
    ensures { result ≡ roa_has_bounds roa.now }
{
    roa.prefix.len <= roa.max && roa.max <= roa.prefix.family.bits()
}

fn roas_have_bounds(roas: &[Roa]) -> bool
    ensures { result ≡ list_all roa_has_bounds roas.now }
{
    roas.iter().all(|r| roa_has_bounds(r))
}

fn bounded(holds: bool, table: Kind, have: usize, most: u64) -> Option<Refusal>
    ensures { result ≡ first_refused (refused (not holds) (BadRule 0) ∷ beyond table have most ∷ []) }
{
    if !holds {
        return Some(out_of_bounds());
    }
    beyond(table, have as u64, most)
}

pub(crate) fn put_public(list: &PublicList) -> Option<Refusal>
    ensures { result ≡ first_refused (put_public_tests list.now) }
{
    match list {
        PublicList::Bogons(list) => {
            let list = list.as_slice();
            bounded(patterns_have_bounds(list), Kind::Bogons, list.len(), 10000)
        }
        PublicList::BogonAs(list) => {
            let list = list.as_slice();
            bounded(ranges_ascend(list), Kind::BogonAs, list.len(), 10000)
        }
        PublicList::Transit(list) => beyond(Kind::Transit, list.len() as u64, 10000),
        PublicList::Roas(list) => {
            let list = list.as_slice();
            bounded(roas_have_bounds(list), Kind::Roas, list.len(), 1000000)
        }
    }
}
