//! Replies.
ghost use Rattle.std.specs.Prelude.{◌≡◌, [], codes, decimal, IfOk, IsOk};
ghost use Rattle.ixp_api_json.specs.Rows.{member_json, contact_json, rule_json, list_json};
ghost use Rattle.ixp_api_replies.specs.Replies as spec;
ghost use Rattle.ixp_api_replies.specs.Details as details;

use crate::details::{put_detail, put_numbers, status_of};
use crate::outcome::Outcome;
use ixp_api_json::{
    CallFault, Pointer, put_contacts, put_member, put_number_member, put_pointer, put_rules,
    put_text_member,
};
use ixp_http::{Content, HttpReply};
use ixp_machine::Answer;
use ixp_num::Items;
use ixp_num_tables::{put, put_number};
use ixp_registry::{Contact, Member, MemberRule, Refusal};
use std::alloc::{AllocError, Global};

fn json_text(status: u16, body: Items<u8>) -> HttpReply
    ensures { result ≡ spec.json status body }
{
    HttpReply {
        status,
        json: true,
        closes: false,
        body: Content::made(body),
    }
}

fn json(status: u16, body: Vec<u8>) -> HttpReply
    ensures { result ≡ spec.json status body.items }
{
    json_text(status, Items::from_vec(body))
}

fn plain(body: Items<u8>) -> HttpReply
    ensures { result ≡ spec.plain body }
{
    HttpReply {
        status: 200,
        json: false,
        closes: false,
        body: Content::made(body),
    }
}

fn closing(reply: HttpReply) -> HttpReply
    ensures { result ≡ spec.closing reply }
{
    HttpReply {
        status: reply.status,
        json: reply.json,
        closes: true,
        body: reply.body,
    }
}

#[tactic(auto, unfolding(crate::specs::Replies::refusal_json))]
fn refusal_json(alloc: Global, rule: &[u8], detail: &[u8]) -> Result<Vec<u8>, AllocError>
    ensures { IfOk result (λ text. text.items ≡ spec.refusal_json rule.now detail.now) }
{
    let mut text = Vec::new(alloc);
    put_text_member(&mut text, b"{", b"detail", detail)?;
    put_text_member(&mut text, b",", b"rule", rule)?;
    put(&mut text, b"}")?;
    Ok(text)
}

fn refused(alloc: Global, status: u16, rule: &[u8], detail: &[u8]) -> Result<HttpReply, AllocError>
    ensures { IfOk result (λ r. r ≡ spec.refused status rule.now detail.now) }
{
    let text = refusal_json(alloc, rule, detail)?;
    Ok(json(status, text))
}

// A refusal whose detail is a number.
fn refused_at(alloc: Global, status: u16, rule: &[u8], number: u64) -> Result<HttpReply, AllocError>
    ensures { IfOk result (λ r. r ≡ spec.refused status rule.now (decimal number)) }
{
    let mut detail = Vec::new(alloc);
    put_number(&mut detail, number)?;
    refused(alloc, status, rule, detail.as_slice())
}

fn refused_edit(alloc: Global, refusal: &Refusal) -> Result<HttpReply, AllocError>
    ensures { IfOk result (λ r. r ≡ spec.refused_edit refusal.now) }
{
    let mut detail = Vec::new(alloc);
    put_detail(&mut detail, refusal)?;
    refused(
        alloc,
        status_of(refusal),
        refusal.code().as_bytes(),
        detail.as_slice(),
    )
}

#[tactic(auto, unfolding(crate::specs::Replies::done_json))]
fn done_json(alloc: Global, number: u64) -> Result<Vec<u8>, AllocError>
    ensures { IfOk result (λ text. text.items ≡ spec.done_json number) }
{
    let mut text = Vec::new(alloc);
    put_number_member(&mut text, b"{", b"done", number)?;
    put(&mut text, b"}")?;
    Ok(text)
}

fn done(alloc: Global, number: u64) -> Result<HttpReply, AllocError>
    ensures { IfOk result (λ r. r ≡ spec.json 201 (spec.done_json number)) }
{
    let text = done_json(alloc, number)?;
    Ok(json(201, text))
}

#[tactic(auto, unfolding(crate::specs::Replies::held_json))]
fn held_json(alloc: Global, number: u64) -> Result<Vec<u8>, AllocError>
    ensures { IfOk result (λ text. text.items ≡ spec.held_json number) }
{
    let mut text = Vec::new(alloc);
    put_number_member(&mut text, b"{", b"held", number)?;
    put(&mut text, b"}")?;
    Ok(text)
}

fn held(alloc: Global, number: u64) -> Result<HttpReply, AllocError>
    ensures { IfOk result (λ r. r ≡ spec.json 200 (spec.held_json number)) }
{
    let text = held_json(alloc, number)?;
    Ok(json(200, text))
}

fn member(alloc: Global, member: &Member) -> Result<HttpReply, AllocError>
    ensures { IfOk result (λ r. r ≡ spec.json 200 (member_json member.now)) }
{
    let mut text = Vec::new(alloc);
    put_member(&mut text, member)?;
    Ok(json(200, text))
}

fn contacts(alloc: Global, contacts: &[Contact]) -> Result<HttpReply, AllocError>
    ensures { IfOk result (λ r. r ≡ spec.json 200 (list_json contact_json contacts.now)) }
{
    let mut text = Vec::new(alloc);
    put_contacts(&mut text, contacts)?;
    Ok(json(200, text))
}

fn rules(alloc: Global, rules: &[MemberRule]) -> Result<HttpReply, AllocError>
    ensures { IfOk result (λ r. r ≡ spec.json 200 (list_json rule_json rules.now)) }
{
    let mut text = Vec::new(alloc);
    put_rules(&mut text, rules)?;
    Ok(json(200, text))
}

fn answered(alloc: Global, answer: Answer) -> Result<HttpReply, AllocError>
    ensures { IfOk result (λ r. r ≡ spec.answered answer) }
{
    match answer {
        Answer::Member(row) => member(alloc, &row),
        Answer::Contacts(rows) => contacts(alloc, rows.as_slice()),
        Answer::Rules(rows) => rules(alloc, rows.as_slice()),
        Answer::Text(text) => Ok(plain(text)),
        Answer::Json(text) => Ok(json_text(200, text)),
    }
}

// The text of running out of memory, which takes none.
#[tactic(auto, unfolding(json::specs::Print::escape_byte, ixp_api_json::specs::Members::text_member, crate::specs::Replies::refusal_json))]
fn memory_text() -> &'static [u8]
    ensures { result.now ≡ spec.refusal_json (codes "memory") [] }
{
    b"{\"detail\":\"\",\"rule\":\"memory\"}"
}

fn no_memory() -> HttpReply
    ensures { result ≡ spec.no_memory }
{
    HttpReply {
        status: 507,
        json: true,
        closes: true,
        body: Content::fixed(memory_text()),
    }
}

fn bad_body(alloc: Global, pointer: Pointer) -> Result<HttpReply, AllocError>
    ensures { IfOk result (λ r. r ≡ spec.called (CallFault.BadBody pointer)) }
{
    let mut detail = Vec::new(alloc);
    put_pointer(&mut detail, pointer)?;
    refused(alloc, 400, b"body", detail.as_slice())
}

fn called(alloc: Global, fault: CallFault) -> Result<HttpReply, AllocError>
    ensures reply { IfOk result (λ r. r ≡ spec.called fault) }
    ensures fixed { fault ≡ CallFault.NoMemory → IsOk result }
{
    match fault {
        CallFault::NoPath => refused(alloc, 404, b"path", b""),
        CallFault::NoMethod => refused(alloc, 405, b"method", b""),
        CallFault::BadBody { pointer } => bad_body(alloc, pointer),
        CallFault::NoMemory => Ok(no_memory()),
    }
}

fn head(alloc: Global, status: u16) -> Result<HttpReply, AllocError>
    ensures { IfOk result (λ r. r ≡ spec.closing (spec.refused status (codes "head") [])) }
{
    let reply = refused(alloc, status, b"head", b"")?;
    Ok(closing(reply))
}

// A refusal whose detail is two numbers.
fn refused_with(
    alloc: Global,
    status: u16,
    rule: &[u8],
    first: u64,
    second: u64,
) -> Result<HttpReply, AllocError>
    ensures { IfOk result
        (λ r. r ≡ spec.refused status rule.now (details.pair (decimal first) (decimal second))) }
{
    let mut detail = Vec::new(alloc);
    put_numbers(&mut detail, first, second)?;
    refused(alloc, status, rule, detail.as_slice())
}

/// The reply of an outcome. That of running out of memory, also of a request that was being read, takes none.
pub fn reply_of(alloc: Global, outcome: Outcome) -> Result<HttpReply, AllocError>
    ensures reply { IfOk result (λ r. r ≡ spec.reply outcome) }
    ensures fixed { outcome ≡ Outcome.NoMemory → IsOk result }
    ensures unread { outcome ≡ Outcome.Called CallFault.NoMemory → IsOk result }
{
    match outcome {
        Outcome::Done(number) => done(alloc, number),
        Outcome::Answered(answer) => answered(alloc, answer),
        Outcome::Text(text) => Ok(plain(text)),
        Outcome::Called(fault) => called(alloc, fault),
        Outcome::Head(status) => head(alloc, status),
        Outcome::Refused(refusal) => refused_edit(alloc, &refusal),
        Outcome::KeeperFault => refused(alloc, 503, b"Y1", b""),
        Outcome::SeenUnknown { number } => refused_at(alloc, 400, b"Y2", number),
        Outcome::NoRouter => refused(alloc, 404, b"Y3", b""),
        Outcome::NoSession => refused(alloc, 404, b"path", b""),
        Outcome::SeatCount { seat, kept } => refused_with(alloc, 500, b"Y4", seat, kept),
        Outcome::Ended { count } => refused_at(alloc, 500, b"Y5", count),
        Outcome::Held(number) => held(alloc, number),
        Outcome::TooManyHeld { have, limit } => refused_with(alloc, 413, b"Z1", have, limit),
        Outcome::HeldFamily { place } => refused_at(alloc, 422, b"Z2", place),
        Outcome::NotHeld => refused(alloc, 404, b"Z3", b""),
        Outcome::NoMemory => Ok(no_memory()),
    }
}
