//! A request, made of its head and its body.
ghost use Rattle.std.specs.Prelude.{◌≡◌, ◌≤◌, [], length, map, unwrap_or, All, IfOk, MatchOption};
ghost use Rattle.httparse.specs.Grammar.{HasNoRequest};
ghost use Rattle.httparse.specs.Spans.{IsHeaderWithin, IsRequestWithin, IsRequestOf, header_bytes};
ghost use Rattle.ixp_http.specs.Fields as fields;
ghost use Rattle.ixp_http.specs.Heads.{line_feeds, line_limit, IsCut};
ghost use Rattle.ixp_http.specs.Messages as spec;

use crate::fields::{Field, any_has_item};
use httparse::Status;
use httparse::spans::{EMPTY_HEADER_SPAN, HeaderSpan, RequestSpans, parse_request};
use ixp_num_tables::Items;
use std::alloc::{AllocError, Global};

/// The greatest number of fields of a request.
const FIELD_LIMIT: usize = 64;

/// A request.
#[derive(Debug, Drop)]
pub struct Request {
    pub method: Items<u8>,
    /// The target before its first `?`.
    pub path: Items<u8>,
    /// The target after its first `?`, empty where there is none.
    pub query: Items<u8>,
    /// The fields of the head, in their order.
    pub fields: Items<Field>,
    pub body: Items<u8>,
    /// The link is closed after the reply: so it is after each request by HEAD, whose reply has a body that a
    /// client doesn't expect.
    pub closes: bool,
}

/// The parts of a head.
#[derive(Debug, Drop)]
pub(crate) struct Head {
    pub(crate) method: Items<u8>,
    pub(crate) target: Items<u8>,
    /// The version is 1.0 or 1.1: what stands behind the point.
    pub(crate) minor: u8,
    pub(crate) fields: Items<Field>,
}

// The field at a place of the bytes.
fn field_at(alloc: Global, bytes: &[u8], place: &HeaderSpan) -> Result<Field, AllocError>
    requires { IsHeaderWithin (length bytes.now) place.now }
    ensures { IfOk result (λ field. field ≡ spec.field_of (header_bytes bytes.now place.now)) }
{
    let name = Items::from_slice(alloc, place.name.of(bytes))?;
    let value = Items::from_slice(alloc, place.value.of(bytes))?;
    Ok(Field { name, value })
}

// The fields at these places of the bytes.
fn fields_at(alloc: Global, bytes: &[u8], places: &[HeaderSpan]) -> Result<Items<Field>, AllocError>
    requires { All (IsHeaderWithin (length bytes.now)) places.now }
    ensures { IfOk result (λ fields. fields ≡ map spec.field_of (map (header_bytes bytes.now) places.now)) }
{
    let mut fields = Items::new(alloc);
    for place in places {
        fields.push(field_at(alloc, bytes, place)?)?;
    }
    Ok(fields)
}

// The parts of a head at their places.
fn head_at(
    alloc: Global,
    bytes: &[u8],
    headers: &[HeaderSpan],
    places: &RequestSpans,
) -> Result<Head, AllocError>
    requires within { IsRequestWithin bytes.now headers.now places.now }
    ensures { IfOk result (λ head. head ≡ spec.head_at bytes.now headers.now places.now) }
{
    let fields = fields_at(alloc, bytes, &headers[..places.headers])?;
    let method = Items::from_slice(alloc, places.method.of(bytes))?;
    let target = Items::from_slice(alloc, places.path.of(bytes))?;
    Ok(Head {
        method,
        target,
        minor: places.version,
        fields,
    })
}

// The parts of a head that was found at these places.
fn found_head(
    alloc: Global,
    bytes: &[u8],
    headers: &[HeaderSpan],
    places: &RequestSpans,
) -> Result<Head, AllocError>
    requires cut { IsCut bytes.now }
    requires within { IsRequestWithin bytes.now headers.now places.now }
    requires found { IsRequestOf bytes.now headers.now places.now }
    ensures { IfOk result (spec.IsHead bytes.now) }
{
    head_at(alloc, bytes, headers, places)
}

/// The parts of a head, if the bytes are one.
pub(crate) fn head_of(alloc: Global, bytes: &[u8]) -> Result<Option<Head>, AllocError>
    requires cut { IsCut bytes.now }
    requires few { line_feeds bytes.now ≤ line_limit }
    ensures { IfOk result (λ head. MatchOption head (HasNoRequest bytes.now) (spec.IsHead bytes.now)) }
{
    let mut headers = [EMPTY_HEADER_SPAN; FIELD_LIMIT];
    match parse_request(bytes, &mut headers) {
        Ok(Status::Complete(places)) => Ok(Some(found_head(alloc, bytes, &headers, &places)?)),
        Ok(Status::Partial) => Ok(None),
        Err(_) => Ok(None),
    }
}

// The bytes before the first `?`.
fn path_of(target: &[u8]) -> &[u8]
    ensures { result.now ≡ fields.before 63 target.now }
{
    for at in 0..target.len() {
        if target[at] == b'?' {
            return &target[..at];
        }
    }
    target
}

// The bytes after the first `?`.
fn query_of(target: &[u8]) -> &[u8]
    ensures { result.now ≡ unwrap_or (fields.after 63 target.now) [] }
{
    let mut rest = target;
    while let [b, more @ ..] = rest {
        if *b == b'?' {
            return more;
        }
        rest = more;
    }
    rest
}

/// The request with this head and body.
pub(crate) fn request_of(alloc: Global, head: Head, body: Items<u8>) -> Result<Request, AllocError>
    ensures { IfOk result (λ request. request ≡ spec.request_of head body) }
{
    let path = Items::from_slice(alloc, path_of(head.target.as_slice()))?;
    let query = Items::from_slice(alloc, query_of(head.target.as_slice()))?;
    let closes = head.minor == 0
        || head.method.as_slice() == b"HEAD".as_slice()
        || any_has_item(head.fields.as_slice(), b"connection", b"close");
    Ok(Request {
        method: head.method,
        path,
        query,
        fields: head.fields,
        body,
        closes,
    })
}
