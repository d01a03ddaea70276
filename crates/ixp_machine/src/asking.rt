//! What a question is answered.
ghost use Rattle.std.specs.Prelude.{◌≡◌, ◌==◌, [], ◌∷◌, None, true, IfOk, IfErr, IsOk, filter};
ghost use Rattle.std.specs.Option.{is_some};
ghost use Rattle.ixp_num_tables.specs.Tables.{find, if_there};
ghost use Rattle.ixp_registry.specs.Keys.{rules_key, member_key, vlan_key};
ghost use Rattle.ixp_registry.specs.declared.kind.Kind.TheVariants as kind;
ghost use Rattle.ixp_registry.specs.declared.refusal.RowKey.TheVariants as key;
ghost use Rattle.ixp_machine_edits.specs.Tests.{unless_there};
ghost use Rattle.ixp_machine.specs.Questions.{
  right_asked,
  unless_known,
  refusal_without,
  ask_refusal,
  IsAnswer,
  IsFault,
};

use crate::question::{Answer, AskFault, Query};
use crate::rights::has_right;
use ixp_ixf::ixf_text;
use ixp_members::rights;
use ixp_num::{Family, Items};
use ixp_num_tables::{Copied, Table};
use ixp_plan::use_report;
use ixp_registry::{
    Contact, Kind, MemberRule, Refusal, Registry, Right, RowKey, RuleList, has_member, has_vlan,
};
use ixp_rows::print_dump;
use std::alloc::{AllocError, Global};

fn right_asked(query: Query) -> Option<Right>
    ensures { result ≡ right_asked query }
{
    match query {
        Query::Member(member) => Some(Right::Member(member)),
        Query::Contacts(member) => Some(Right::Member(member)),
        Query::Rules(member) => Some(Right::Member(member)),
        Query::Use(_, _) => Some(Right::Staff),
        Query::Ixf { .. } => None,
        Query::Dump => Some(Right::Staff),
    }
}

fn contacts_of(
    alloc: Global,
    contacts: &[Contact],
    member: u32,
) -> Result<Items<Contact>, AllocError>
    ensures { IfOk result (λ cs. cs ≡ filter (λ c. c.member == member) contacts.now) }
{
    let mut rows = Items::new(alloc);
    let mut left = contacts;
    'each: while let Some((contact, others)) = left.split_first() {
        if contact.member == member {
            let row = contact.copied(alloc)?;
            rows.push(row)?;
        }
        left = others;
    }
    Ok(rows)
}

fn rules_of(
    alloc: Global,
    rules: &Table<RuleList>,
    member: u32,
) -> Result<Items<MemberRule>, AllocError>
    ensures { IfOk result (λ xs. xs ≡ if_there (find rules_key (member ∷ []) rules.now) [] (λ l. l.rules)) }
{
    match rules.find(&member) {
        Some(list) => list.rules.copied(alloc),
        None => Ok(Items::new(alloc)),
    }
}

fn unless_member(registry: &Registry, member: u32) -> Option<Refusal>
    ensures { result ≡ unless_known registry.now (Query.Contacts member) }
{
    if has_member(&registry.members, member) {
        return None;
    }
    Some(Refusal::Unknown {
        table: Kind::Members,
        key: RowKey::Number(member),
    })
}

fn unless_vlan(registry: &Registry, vlan: u32) -> Option<Refusal>
    ensures { result ≡ unless_there (find vlan_key (vlan ∷ []) registry.now.vlans) kind.Vlans
        (key.Number vlan) }
{
    if has_vlan(&registry.vlans, vlan) {
        return None;
    }
    Some(Refusal::Unknown {
        table: Kind::Vlans,
        key: RowKey::Number(vlan),
    })
}

fn unless_known(registry: &Registry, query: Query) -> Option<Refusal>
    ensures { result ≡ unless_known registry.now query }
{
    match query {
        Query::Member(member) => unless_member(registry, member),
        Query::Contacts(member) => unless_member(registry, member),
        Query::Rules(member) => unless_member(registry, member),
        Query::Use(vlan, _) => unless_vlan(registry, vlan),
        Query::Ixf { .. } => None,
        Query::Dump => None,
    }
}

fn refusal_without(
    registry: &Registry,
    secret: &[u8],
    query: Query,
    right: Right,
) -> Option<Refusal>
    ensures { result ≡ refusal_without registry.now secret.now query right }
{
    let Some(owner) = rights(registry, secret) else {
        return Some(Refusal::NoKey);
    };
    if !has_right(owner, right) {
        return Some(Refusal::Denied { right });
    }
    unless_known(registry, query)
}

fn refusal(registry: &Registry, secret: &[u8], query: Query) -> Option<Refusal>
    ensures { result ≡ ask_refusal registry.now secret.now query }
{
    match right_asked(query) {
        Some(right) => refusal_without(registry, secret, query, right),
        None => None,
    }
}

/// The member is there, so that one is found.
fn member_answer(alloc: Global, registry: &Registry, member: u32) -> Result<Answer, AllocError>
    requires { is_some (find member_key (member ∷ []) registry.now.members) ≡ true }
    ensures { IfOk result (IsAnswer registry.now (Query.Member member)) }
{
    let Some(row) = registry.members.find(&member) else {
        unreachable!();
    };
    let row = row.copied(alloc)?;
    Ok(Answer::Member(row))
}

fn use_answer(
    alloc: Global,
    registry: &Registry,
    vlan: u32,
    family: Family,
) -> Result<Answer, AllocError>
    ensures { IfOk result (IsAnswer registry.now (Query.Use vlan family)) }
{
    let mut text = Vec::new(alloc);
    use_report(alloc, registry, vlan, family, &mut text)?;
    Ok(Answer::Text(Items::from_vec(text)))
}

fn export_answer(alloc: Global, registry: &Registry, second: u64) -> Result<Answer, AllocError>
    ensures { IfOk result (IsAnswer registry.now (Query.Ixf second)) }
{
    let mut text = Vec::new(alloc);
    ixf_text(alloc, registry, second, &mut text)?;
    Ok(Answer::Json(Items::from_vec(text)))
}

fn dump_answer(alloc: Global, registry: &Registry) -> Result<Answer, AllocError>
    ensures { IfOk result (IsAnswer registry.now Query.Dump) }
{
    let mut text = Vec::new(alloc);
    print_dump(registry, &mut text)?;
    Ok(Answer::Text(Items::from_vec(text)))
}

fn answer(alloc: Global, registry: &Registry, query: Query) -> Result<Answer, AllocError>
    requires { unless_known registry.now query ≡ None }
    ensures { IfOk result (IsAnswer registry.now query) }
{
    match query {
        Query::Member(member) => member_answer(alloc, registry, member),
        Query::Contacts(member) => {
            let contacts = contacts_of(alloc, registry.contacts.as_slice(), member)?;
            Ok(Answer::Contacts(contacts))
        }
        Query::Rules(member) => {
            let rules = rules_of(alloc, &registry.rules, member)?;
            Ok(Answer::Rules(rules))
        }
        Query::Use(vlan, family) => use_answer(alloc, registry, vlan, family),
        Query::Ixf { second } => export_answer(alloc, registry, second),
        Query::Dump => dump_answer(alloc, registry),
    }
}

/// What the question is answered by who has the secret. It changes nothing.
pub fn ask(
    alloc: Global,
    registry: &Registry,
    secret: &[u8],
    query: Query,
) -> Result<Answer, AskFault>
    ensures unrefused { IsOk result → ask_refusal registry.now secret.now query ≡ None }
    ensures answer { IfOk result (IsAnswer registry.now query) }
    ensures fault { IfErr result (IsFault (ask_refusal registry.now secret.now query)) }
{
    if let Some(refusal) = refusal(registry, secret, query) {
        return Err(AskFault::Refused(refusal));
    }
    match answer(alloc, registry, query) {
        Ok(answer) => Ok(answer),
        Err(_) => Err(AskFault::NoMemory),
    }
}
