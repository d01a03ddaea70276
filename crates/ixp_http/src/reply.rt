//! Replies.
ghost use Rattle.std.specs.Prelude.{◌≡◌, ◌≤◌, ◌++◌, decimal, map, OnOk, OnErr};
ghost use Rattle.ixp_io.specs.Faults.{Rose};
ghost use Rattle.ixp_io.specs.Told.{Takes, TakesPart};
ghost use Rattle.ixp_http.specs.Replies as spec;

use crate::content::Content;
use crate::next::HttpFault;
use arrayvec::ArrayVec;
use http::StatusCode;
use itoa::Buffer;
use ixp_io::{Failed, Sink, write_all};

/// A reply.
#[derive(Debug, Drop)]
pub struct HttpReply {
    pub status: u16,
    /// The body is JSON, else plain text.
    pub json: bool,
    /// The link ends with this reply.
    pub closes: bool,
    pub body: Content,
}

/// How much of a reply is gathered for one write.
const ROOM: usize = 4096;

// The canonical phrase of a status, empty where it has none.
#[tactic(auto, unfolding(crate::specs::Replies::phrase_of))]
fn phrase_of(status: u16) -> &'static [u8]
    ensures { result.now ≡ spec.phrase_of status }
{
    if status < 100 {
        return b"";
    }
    if status > 999 {
        return b"";
    }
    match StatusCode::from_u16(status) {
        Ok(status) => match status.canonical_reason() {
            Some(phrase) => phrase.as_bytes(),
            None => b"",
        },
        Err(_) => b"",
    }
}

// The type of the body.
#[tactic(auto, unfolding(crate::specs::Replies::type_of))]
fn type_of(json: bool) -> &'static [u8]
    ensures { result.now ≡ spec.type_of json }
{
    if json {
        b"application/json"
    } else {
        b"text/plain"
    }
}

// The field that says that the link ends.
#[tactic(auto, unfolding(crate::specs::Replies::closing))]
fn closing(closes: bool) -> &'static [u8]
    ensures { result.now ≡ spec.closing closes }
{
    if closes {
        b"Connection: close\r\n"
    } else {
        b""
    }
}

// The name of the field with the body's type, up to its value.
#[tactic(auto, unfolding(crate::specs::Replies::type_name))]
fn type_name() -> &'static [u8]
    ensures { result.now ≡ spec.type_name }
{
    b"Content-Type: "
}

// The name of the field with the body's length, up to its value.
#[tactic(auto, unfolding(crate::specs::Replies::length_name))]
fn length_name() -> &'static [u8]
    ensures { result.now ≡ spec.length_name }
{
    b"Content-Length: "
}

// Puts a text behind what is held, or writes both where it doesn't fit.
fn add<L: Sink>(link: &mut L, held: &mut ArrayVec<u8, ROOM>, text: &[u8]) -> Result<(), Failed>
    ensures ok { OnOk result
        (spec.Holds (L.written link.old) (L.written link.new) held.old.items held.new.items text.now) }
    ensures err { OnErr result
        (TakesPart (L.written link.old) (L.written link.new) (held.old.items ++ text.now)) }
    ensures counts { L.write_faults link.old ≤ L.write_faults link.new }
    ensures cause { OnErr result (Rose (L.write_faults link.old) (L.write_faults link.new)) }
    ensures left { L.left link.new ≡ L.left link.old }
    ensures read_faults { L.read_faults link.new ≡ L.read_faults link.old }
{
    match held.try_extend_from_slice(text) {
        Ok(()) => Ok(()),
        Err(_) => {
            write_all(link, held.as_slice())?;
            held.clear();
            write_all(link, text)
        }
    }
}

/// A part of a reply's bytes.
#[derive(Clone, Copy, Debug, PartialEq, Eq, Drop)]
pub(crate) enum Part {
    Version,
    Status,
    Space,
    Phrase,
    LineEnd,
    TypeName,
    MediaType,
    LengthName,
    Length,
    Closing,
    Body,
}

// Puts a number in decimal behind what is held.
fn add_number<L: Sink>(
    link: &mut L,
    held: &mut ArrayVec<u8, ROOM>,
    number: u64,
) -> Result<(), Failed>
    ensures ok { OnOk result
        (spec.Holds (L.written link.old) (L.written link.new) held.old.items held.new.items
        (decimal number)) }
    ensures err { OnErr result
        (TakesPart (L.written link.old) (L.written link.new) (held.old.items ++ decimal number)) }
    ensures counts { L.write_faults link.old ≤ L.write_faults link.new }
    ensures cause { OnErr result (Rose (L.write_faults link.old) (L.write_faults link.new)) }
    ensures left { L.left link.new ≡ L.left link.old }
    ensures read_faults { L.read_faults link.new ≡ L.read_faults link.old }
{
    let mut buffer = Buffer::new();
    add(link, held, buffer.format(number).as_bytes())
}

// Puts a part of a reply behind what is held.
fn add_part<L: Sink>(
    link: &mut L,
    held: &mut ArrayVec<u8, ROOM>,
    reply: &HttpReply,
    part: Part,
) -> Result<(), Failed>
    ensures ok { OnOk result
        (spec.Holds (L.written link.old) (L.written link.new) held.old.items held.new.items
        (spec.text_of reply.now part)) }
    ensures err { OnErr result
        (TakesPart (L.written link.old) (L.written link.new)
        (held.old.items ++ spec.text_of reply.now part)) }
    ensures counts { L.write_faults link.old ≤ L.write_faults link.new }
    ensures cause { OnErr result (Rose (L.write_faults link.old) (L.write_faults link.new)) }
    ensures left { L.left link.new ≡ L.left link.old }
    ensures read_faults { L.read_faults link.new ≡ L.read_faults link.old }
{
    match part {
        Part::Version => add(link, held, b"HTTP/1.1 "),
        Part::Status => add_number(link, held, u64::from(reply.status)),
        Part::Space => add(link, held, b" "),
        Part::Phrase => add(link, held, phrase_of(reply.status)),
        Part::LineEnd => add(link, held, b"\r\n"),
        Part::TypeName => add(link, held, type_name()),
        Part::MediaType => add(link, held, type_of(reply.json)),
        Part::LengthName => add(link, held, length_name()),
        Part::Length => add_number(link, held, reply.body.len() as u64),
        Part::Closing => add(link, held, closing(reply.closes)),
        Part::Body => add(link, held, reply.body.as_slice()),
    }
}

// Writes parts of a reply one after the other, with one write where they are short.
fn write_parts<L: Sink>(link: &mut L, reply: &HttpReply, parts: &[Part]) -> Result<(), Failed>
    ensures ok { OnOk result
        (Takes (L.written link.old) (L.written link.new)
        (spec.concat (map (spec.text_of reply.now) parts.now))) }
    ensures err { OnErr result
        (TakesPart (L.written link.old) (L.written link.new)
        (spec.concat (map (spec.text_of reply.now) parts.now))) }
    ensures counts { L.write_faults link.old ≤ L.write_faults link.new }
    ensures cause { OnErr result (Rose (L.write_faults link.old) (L.write_faults link.new)) }
    ensures left { L.left link.new ≡ L.left link.old }
    ensures read_faults { L.read_faults link.new ≡ L.read_faults link.old }
{
    let mut held = ArrayVec::new();
    for part in parts {
        add_part(link, &mut held, reply, *part)?;
    }
    write_all(link, held.as_slice())
}

/// Writes a reply, with one write where it is short. It does not allocate.
pub fn write_reply<L: Sink>(link: &mut L, reply: &HttpReply) -> Result<(), HttpFault>
    ensures ok { OnOk result (Takes (L.written link.old) (L.written link.new) (spec.reply_bytes reply.now)) }
    ensures err { OnErr result
        (TakesPart (L.written link.old) (L.written link.new) (spec.reply_bytes reply.now)) }
    ensures fault { OnErr result (result ≡ Err HttpFault.WriteFault) }
    ensures counts { L.write_faults link.old ≤ L.write_faults link.new }
    ensures cause { OnErr result (Rose (L.write_faults link.old) (L.write_faults link.new)) }
    ensures left { L.left link.new ≡ L.left link.old }
    ensures read_faults { L.read_faults link.new ≡ L.read_faults link.old }
{
    let parts = [
        Part::Version,
        Part::Status,
        Part::Space,
        Part::Phrase,
        Part::LineEnd,
        Part::TypeName,
        Part::MediaType,
        Part::LineEnd,
        Part::LengthName,
        Part::Length,
        Part::LineEnd,
        Part::Closing,
        Part::LineEnd,
        Part::Body,
    ];
    match write_parts(link, reply, &parts) {
        Ok(()) => Ok(()),
        Err(_) => Err(HttpFault::WriteFault),
    }
}
