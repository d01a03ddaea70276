//! A member's rules as filter text.
ghost use Rattle.std.specs.Prelude.{◌≡◌, ◌++◌, ◌∷◌, ◌==◌, ◌&&◌, [], map, nat_le, not, true, IfOk, OnOk};
ghost use Rattle.ixp_num_tables.specs.Tables.{if_there};
ghost use Rattle.ixp_lang.specs.Trees.{set_literal, delete_triples};
ghost use Rattle.ixp_lang.specs.Views.{expr_view, stmts_view};
ghost use Rattle.ixp_lang.specs.declared.value.SetLit.TheVariants as set;
ghost use Rattle.ixp_compile.specs.MemberRules.{
  action_written,
  advertise_rule,
  advertise_rules,
  any_number,
  is_of_family,
  is_printed,
  is_receive,
  net_within,
  number_or_0,
  pairs_rewritten,
  receive_body,
  receive_rule,
  receive_test,
  rewriting,
  sender_is,
  steering_actions,
  within,
};

use ixp_compile_pieces::{
    add, add_return_if, add_tell, add_when, both, compared, compared_number, fits_pair, large,
    same_family, steering_pairs, truth_value,
};
use ixp_lang::communities::{KEEP_FROM, PREPEND_ONCE, PREPEND_THRICE, PREPEND_TWICE, SEND_TO};
use ixp_lang::{Attr, Expr, Op, SetLit, Stmt};
use ixp_num::{Asn, Family, Items, Pattern, Prefix};
use ixp_registry::{Action, MemberRule};
use std::alloc::{AllocError, Global};

fn is_of_family(family: Family, rule: &MemberRule) -> bool
    ensures { result ≡ is_of_family family rule.now }
{
    match rule.prefix {
        Some(prefix) => same_family(prefix.family, family),
        None => true,
    }
}

/// All nets that the prefix covers.
fn within(prefix: Prefix) -> Pattern
    ensures { result ≡ within prefix }
{
    Pattern {
        prefix,
        low: prefix.len,
        high: prefix.family.bits(),
    }
}

fn net_within(alloc: Global, prefix: Prefix) -> Result<Expr, AllocError>
    ensures { IfOk result (λ e. expr_view e ≡ net_within prefix) }
{
    let mut patterns = Items::new(alloc);
    patterns.push(within(prefix))?;
    compared(
        alloc,
        Op::In,
        Attr::Net,
        Expr::Set(SetLit::Prefixes(patterns)),
    )
}

// Advertise rules.

/// Whether the peer is any, or another network than the server.
fn is_other(rs: Asn, peer: Option<Asn>) -> bool
    ensures { result ≡ if_there peer true (λ p. not (p.0 == rs.0)) }
{
    match peer {
        Some(peer) => !(peer.0 == rs.0),
        None => true,
    }
}

/// Whether the rule is one that is printed.
fn is_printed(rs: Asn, family: Family, rule: &MemberRule) -> bool
    ensures { result ≡ is_printed rs.0 family rule.now }
{
    rule.way.is_advertise() && is_other(rs, rule.peer) && is_of_family(family, rule)
}

fn any_number(peer: Option<Asn>) -> Option<u32>
    ensures { result ≡ any_number peer }
{
    match peer {
        Some(peer) => Some(peer.0),
        None => None,
    }
}

fn number_or_0(peer: Option<Asn>) -> u32
    ensures { result ≡ number_or_0 peer }
{
    match peer {
        Some(peer) => peer.0,
        None => 0,
    }
}

/// Whether both numbers may stand in communities of two parts.
fn fit_pair(rs: Asn, peer: Option<Asn>) -> bool
    ensures { result ≡ (nat_le rs.0 65535 && nat_le (number_or_0 peer) 65535) }
{
    fits_pair(rs.0) && fits_pair(number_or_0(peer))
}

fn add_pairs_rewritten(
    alloc: Global,
    body: &mut Vec<Stmt>,
    rs: Asn,
    peer: Option<Asn>,
) -> Result<(), AllocError>
    ensures { OnOk result
        (stmts_view body.new.items ≡ stmts_view body.old.items ++ pairs_rewritten rs.0 peer) }
{
    if !fit_pair(rs, peer) {
        return Ok(());
    }
    let pairs = steering_pairs(alloc, rs, any_number(peer))?;
    add(body, Stmt::DeletePairs(pairs))
}

/// Adds what takes away the large communities that steer to the peer.
fn add_triples_taken_away(
    alloc: Global,
    body: &mut Vec<Stmt>,
    rs: Asn,
    peer: Option<Asn>,
) -> Result<(), AllocError>
    ensures { OnOk result
        (stmts_view body.new.items ≡ stmts_view body.old.items
        ++ delete_triples (set_literal
        (set.Triples (map (λ a. (rs.0, a, any_number peer)) steering_actions))) ∷ []) }
{
    let actions = [
        KEEP_FROM,
        SEND_TO,
        PREPEND_ONCE,
        PREPEND_TWICE,
        PREPEND_THRICE,
    ];
    let triples = large(alloc, rs, &actions, any_number(peer))?;
    add(
        body,
        Stmt::DeleteTriples(Expr::Set(SetLit::Triples(triples))),
    )
}

/// Adds what the action writes for the peer.
fn add_action(body: &mut Vec<Stmt>, rs: Asn, peer: u32, action: Action) -> Result<(), AllocError>
    ensures { OnOk result
        (stmts_view body.new.items ≡ stmts_view body.old.items ++ action_written rs.0 peer action) }
{
    match action {
        Action::Stop => add_tell(body, rs, 0, peer),
        Action::AsIs => add_tell(body, rs, 1, peer),
        Action::Prepend(times) => {
            add_tell(body, rs, 1, peer)?;
            add_tell(body, rs, 100 + u32::from(times), peer)
        }
    }
}

fn add_rewriting(
    alloc: Global,
    body: &mut Vec<Stmt>,
    rs: Asn,
    rule: &MemberRule,
) -> Result<(), AllocError>
    ensures { OnOk result (stmts_view body.new.items ≡ stmts_view body.old.items ++ rewriting rs.0 rule.now) }
{
    add_pairs_rewritten(alloc, body, rs, rule.peer)?;
    add_triples_taken_away(alloc, body, rs, rule.peer)?;
    add_action(body, rs, number_or_0(rule.peer), rule.action)
}

fn add_advertise_rule(
    alloc: Global,
    body: &mut Vec<Stmt>,
    rs: Asn,
    rule: &MemberRule,
) -> Result<(), AllocError>
    ensures { OnOk result
        (stmts_view body.new.items ≡ stmts_view body.old.items ++ advertise_rule rs.0 rule.now) }
{
    let Some(prefix) = rule.prefix else {
        return add_rewriting(alloc, body, rs, rule);
    };
    let test = net_within(alloc, prefix)?;
    let mut yes = Vec::new(alloc);
    add_rewriting(alloc, &mut yes, rs, rule)?;
    add_when(alloc, body, test, yes)
}

/// Adds what the member's advertise rules write, the last rule first.
#[tactic(auto, using(crate::proofs::RulesBackwards::backwards))]
pub(crate) fn add_advertise_rules(
    alloc: Global,
    body: &mut Vec<Stmt>,
    rs: Asn,
    family: Family,
    rules: &[MemberRule],
) -> Result<(), AllocError>
    ensures { OnOk result
        (stmts_view body.new.items ≡ stmts_view body.old.items ++ advertise_rules rs.0 family rules.now) }
{
    let mut left = rules;
    'each: while let Some((rule, earlier)) = left.split_last() {
        if is_printed(rs, family, rule) {
            add_advertise_rule(alloc, body, rs, rule)?;
        }
        left = earlier;
    }
    Ok(())
}

// Receive rules.

fn is_receive(family: Family, rule: &MemberRule) -> bool
    ensures { result ≡ is_receive family rule.now }
{
    !rule.way.is_advertise() && is_of_family(family, rule)
}

fn sender_is(alloc: Global, peer: Asn) -> Result<Expr, AllocError>
    ensures { IfOk result (λ e. expr_view e ≡ sender_is peer) }
{
    compared_number(alloc, Op::Eq, Attr::First, peer.0)
}

fn receive_test(
    alloc: Global,
    peer: Option<Asn>,
    prefix: Option<Prefix>,
) -> Result<Expr, AllocError>
    ensures { IfOk result (λ e. expr_view e ≡ receive_test peer prefix) }
{
    match (peer, prefix) {
        (None, None) => Ok(truth_value(true)),
        (Some(peer), None) => sender_is(alloc, peer),
        (None, Some(prefix)) => net_within(alloc, prefix),
        (Some(peer), Some(prefix)) => {
            let sender = sender_is(alloc, peer)?;
            let net = net_within(alloc, prefix)?;
            both(alloc, sender, net)
        }
    }
}

fn add_receive_rule(
    alloc: Global,
    body: &mut Vec<Stmt>,
    rule: &MemberRule,
) -> Result<(), AllocError>
    ensures { OnOk result
        (stmts_view body.new.items ≡ stmts_view body.old.items ++ receive_rule rule.now ∷ []) }
{
    let test = receive_test(alloc, rule.peer, rule.prefix)?;
    add_return_if(alloc, body, test, truth_value(!rule.action.is_stop()))
}

/// Whether the member gets a route, by its receive rules in order.
pub(crate) fn receive_body(
    alloc: Global,
    family: Family,
    rules: &[MemberRule],
) -> Result<Vec<Stmt>, AllocError>
    ensures { IfOk result (λ v. stmts_view v.items ≡ receive_body family rules.now) }
{
    let mut body = Vec::new(alloc);
    'each: for rule in rules {
        if is_receive(family, rule) {
            add_receive_rule(alloc, &mut body, rule)?;
        }
    }
    add(&mut body, Stmt::Return(truth_value(true)))?;
    Ok(body)
}
