//! Rows as JSON.
ghost use Rattle.std.specs.Prelude.{◌≡◌, ◌++◌, codes, OnOk};
ghost use Rattle.ixp_api_json.specs.Rows as spec;

use crate::members::{put_asn_member, put_number_member, put_prefix_member, put_text_member};
use crate::words::{put_action, status_word, way_word};
use ixp_num_tables::{Writes, put, put_joined};
use ixp_registry::{Action, Contact, Member, MemberRule};
use std::alloc::AllocError;

/// Adds a member of the exchange. Where memory runs out, a first part of it may be there; likewise below.
pub fn put_member(out: &mut Vec<u8>, member: &Member) -> Result<(), AllocError>
    ensures { OnOk result (out.new.items ≡ out.old.items ++ spec.member_json member.now) }
{
    put_number_member(out, b"{", b"asn", u64::from(member.asn.0))?;
    put_text_member(out, b",", b"macro", member.as_macro.as_slice())?;
    put_text_member(out, b",", b"name", member.name.as_slice())?;
    put_number_member(out, b",", b"number", u64::from(member.number))?;
    put_text_member(out, b",", b"status", status_word(member.status))?;
    put(out, b"}")
}

struct ContactJson {}

impl Writes for ContactJson {
    type Item = Contact;

    ghost text_of = { spec.contact_json };

    fn write(item: &Contact, out: &mut Vec<u8>) -> Result<(), AllocError> {
        put_text_member(out, b"{", b"mail", item.mail.as_slice())?;
        put_number_member(out, b",", b"member", u64::from(item.member))?;
        put_text_member(out, b",", b"name", item.name.as_slice())?;
        put_number_member(out, b",", b"place", u64::from(item.place))?;
        put_text_member(out, b",", b"role", item.role.as_slice())?;
        put(out, b"}")
    }
}

fn put_action_member(
    out: &mut Vec<u8>,
    mark: &[u8],
    name: &[u8],
    action: Action,
) -> Result<(), AllocError>
    ensures { OnOk result (out.new.items ≡ out.old.items ++ spec.action_member mark.now name.now action) }
{
    let mut word = Vec::new(*out.allocator());
    put_action(&mut word, action)?;
    put_text_member(out, mark, name, word.as_slice())
}

// Adds the second half of a rule.
#[tactic(auto, unfolding(crate::specs::Rows::rule_end))]
fn put_rule_end(out: &mut Vec<u8>, rule: &MemberRule) -> Result<(), AllocError>
    ensures { OnOk result (out.new.items ≡ out.old.items ++ spec.rule_end rule.now) }
{
    put_number_member(out, b",", b"place", u64::from(rule.place))?;
    put_prefix_member(out, b",", b"prefix", rule.prefix)?;
    put_text_member(out, b",", b"way", way_word(rule.way))?;
    put(out, b"}")
}

struct RuleJson {}

impl Writes for RuleJson {
    type Item = MemberRule;

    ghost text_of = { spec.rule_json };

    fn write(item: &MemberRule, out: &mut Vec<u8>) -> Result<(), AllocError> {
        put_action_member(out, b"{", b"action", item.action)?;
        put_number_member(out, b",", b"member", u64::from(item.member))?;
        put_asn_member(out, b",", b"peer", item.peer)?;
        put_rule_end(out, item)
    }
}

fn put_list<W: Writes>(out: &mut Vec<u8>, items: &[W::Item]) -> Result<(), AllocError>
    ensures { OnOk result (out.new.items ≡ out.old.items ++ spec.list_json W.text_of items.now) }
{
    put(out, b"[")?;
    put_joined::<W>(out, b",", items)?;
    put(out, b"]")
}

/// Adds a list of contacts.
pub fn put_contacts(out: &mut Vec<u8>, contacts: &[Contact]) -> Result<(), AllocError>
    ensures { OnOk result (out.new.items ≡ out.old.items ++ spec.list_json spec.contact_json contacts.now) }
{
    put_list::<ContactJson>(out, contacts)
}

/// Adds a list of rules.
pub fn put_rules(out: &mut Vec<u8>, rules: &[MemberRule]) -> Result<(), AllocError>
    ensures { OnOk result (out.new.items ≡ out.old.items ++ spec.list_json spec.rule_json rules.now) }
{
    put_list::<RuleJson>(out, rules)
}
