//! What members' rules say.
ghost use Rattle.std.specs.Prelude.{◌≡◌, ◌&&◌, ◌==◌, not, true};
ghost use Rattle.ixp_num_tables.specs.Tables.{if_there};
ghost use Rattle.ixp_registry.specs.Sessions.{asked, is_about, is_for, is_from, receives};

use ixp_num::{Asn, Prefix};
use ixp_registry::{Action, MemberRule};

/// Whether the rule's prefix is any, or covers the net.
fn is_about(rule: &MemberRule, net: &Prefix) -> bool
    ensures { result ≡ is_about rule.now net.now }
{
    match &rule.prefix {
        Some(prefix) => prefix.covers(net),
        None => true,
    }
}

/// Whether the rule's peer is any, or the receiver `to` that isn't the server `rs` itself.
fn names_receiver(rule: &MemberRule, rs: Asn, to: Asn) -> bool
    ensures { result ≡ if_there rule.now.peer true (λ peer. peer.0 == to.0 && not (peer.0 == rs.0)) }
{
    match rule.peer {
        Some(peer) => peer.0 == to.0 && peer.0 != rs.0,
        None => true,
    }
}

/// Whether the rule's peer is any, or the sender.
fn names_sender(rule: &MemberRule, sender: Asn) -> bool
    ensures { result ≡ if_there rule.now.peer true (λ peer. peer.0 == sender.0) }
{
    match rule.peer {
        Some(peer) => peer.0 == sender.0,
        None => true,
    }
}

/// Whether it is a rule on sending the net to the receiver.
fn is_for(rs: Asn, rule: &MemberRule, net: &Prefix, to: Asn) -> bool
    ensures { result ≡ is_for rs.0 rule.now net.now to.0 }
{
    rule.way.is_advertise() && names_receiver(rule, rs, to) && is_about(rule, net)
}

/// Whether it is a rule on taking the net from the sender.
fn is_from(rule: &MemberRule, net: &Prefix, sender: Asn) -> bool
    ensures { result ≡ is_from rule.now net.now sender.0 }
{
    !rule.way.is_advertise() && names_sender(rule, sender) && is_about(rule, net)
}

/// What the sender's rules ask of the server `rs` for the net and the receiver `to`: the action of the first
/// rule on them, None where there is none.
pub fn asked(rules: &[MemberRule], rs: Asn, net: &Prefix, to: Asn) -> Option<Action>
    ensures { result ≡ asked rules.now rs.0 net.now to.0 }
{
    let mut left = rules;
    'rules: while let Some((rule, others)) = left.split_first() {
        if is_for(rs, rule, net, to) {
            return Some(rule.action);
        }
        left = others;
    }
    None
}

/// Whether the receiver's rules let the net in from the sender.
pub fn receives(rules: &[MemberRule], net: &Prefix, sender: Asn) -> bool
    ensures { result ≡ receives rules.now net.now sender.0 }
{
    let mut left = rules;
    'rules: while let Some((rule, others)) = left.split_first() {
        if is_from(rule, net, sender) {
            return !rule.action.is_stop();
        }
        left = others;
    }
    true
}
