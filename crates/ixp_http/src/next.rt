//! Reading the next request of a link.
ghost use Rattle.std.specs.Prelude.{
  ◌≡◌,
  ◌≢◌,
  ◌≤◌,
  ◌<◌,
  ◌+◌,
  ◌++◌,
  ℕ,
  List,
  true,
  false,
  length,
  drop,
  IfOk,
  IfErr,
  OnOk,
};
ghost use Rattle.ixp_io.specs.Faults.{Rose};
ghost use Rattle.ixp_io.specs.Told.{WhereTold, IsDone};
ghost use Rattle.ixp_http.specs.Heads.{chunk, is_open, start_of, head_limit, IsPlaced};
ghost use Rattle.ixp_http.specs.declared.head.Start.TheVariants.{Headed};
ghost use Rattle.ixp_http.specs.declared.request.Request.{Request};
ghost use Rattle.ixp_http.specs.Fields.{body_limit};
ghost use Rattle.ixp_http.specs.Messages.{Begins, First, HasReading, OneReading, message};
ghost use Rattle.ixp_http.specs.Answers as spec;

use crate::buf::Buf;
use crate::fields::{Need, need_of};
use crate::head::{HEAD_LIMIT, Start, has_feed, start_of};
use crate::request::{Head, Request, head_of, request_of};
use ixp_io::Source;
use ixp_num_tables::Items;
use std::alloc::{AllocError, AllocFailed, Global};

/// What comes next on a link.
#[derive(Debug, Drop)]
pub enum Next {
    Request(Request),
    /// The input has ended, and nothing but empty lines came before.
    End,
}

/// Why there is no next request, or why a reply wasn't written.
#[derive(Clone, Copy, Debug, PartialEq, Eq, Drop)]
pub enum HttpFault {
    /// No message stands here. The reply has this status: 400, 413, 431 or 501.
    Bad(u16),
    /// The input ends inside a message.
    Cut,
    /// A read failed.
    ReadFault,
    /// A write failed.
    WriteFault,
    NoMemory,
}

impl From<AllocError> for HttpFault {
    ghost use Rattle.std.specs.Prelude.{◌≡◌};
    ghost use Rattle.ixp_http.specs.declared.next.HttpFault.TheVariants.{NoMemory};

    ghost from_gives = { λ _ e. e ≡ NoMemory };

    fn from(_: AllocError) -> HttpFault {
        HttpFault::NoMemory
    }
}

// Reads until a line may have ended, or the limit of a head is reached, and answers whether the input goes
// on.
fn read_line<L: Source>(link: &mut L, buf: &mut Buf) -> Result<bool, HttpFault>
    requires { length buf.old < head_limit }
    ensures together { OnOk result (spec.Together (L.left link.old) (L.left link.new) buf.old buf.new) }
    ensures taken { spec.TakesUpTo (head_limit + chunk) (L.left link.old) (L.left link.new) buf.old }
    ensures quiet { OnOk result (spec.IsQuiet buf.old buf.new) }
    ensures grows { IfOk result (λ more. more ≡ true → length buf.old < length buf.new) }
    ensures done { IfOk result (λ more. more ≡ false → IsDone (L.left link.new)) }
    ensures bounded { length buf.new < head_limit + chunk }
    ensures nothing { IfErr result spec.SaysNothing }
    ensures never { result ≢ Err HttpFault.WriteFault }
    ensures failed { result ≡ Err HttpFault.ReadFault
        → Rose (L.read_faults link.old) (L.read_faults link.new) }
    ensures counts { L.read_faults link.old ≤ L.read_faults link.new }
    ensures written { L.written link.new ≡ L.written link.old }
    ensures write_faults { L.write_faults link.new ≡ L.write_faults link.old }
{
    while buf.len() < HEAD_LIMIT {
        let before = buf.len();
        let count = buf.read_more(link)?;
        if count == 0 {
            return Ok(false);
        }
        if has_feed(&buf.as_slice()[before..]) {
            return Ok(true);
        }
    }
    Ok(true)
}

// Reads until it is known what stands first. The bytes are searched again only where a line may have ended.
fn fill_head<L: Source>(link: &mut L, buf: &mut Buf) -> Result<Start, HttpFault>
    ensures together { OnOk result (spec.Together (L.left link.old) (L.left link.new) buf.old buf.new) }
    ensures taken { length buf.old ≤ spec.most_held
        → spec.TakesUpTo spec.most_held (L.left link.old) (L.left link.new) buf.old }
    ensures start { IfOk result (λ start. start ≡ start_of buf.new) }
    ensures rest { OnOk result (length buf.old ≤ chunk → spec.HoldsOneRead (start_of buf.new) buf.new) }
    ensures settled { IfOk result
        (λ start. WhereTold (L.left link.new) (λ rest. start_of (buf.new ++ rest) ≡ start)) }
    ensures still { is_open (start_of buf.old) ≡ false → L.left link.new ≡ L.left link.old }
    ensures same { is_open (start_of buf.old) ≡ false → buf.new ≡ buf.old }
    ensures bounded { length buf.old ≤ spec.most_held → length buf.new ≤ spec.most_held }
    ensures nothing { IfErr result spec.SaysNothing }
    ensures never { result ≢ Err HttpFault.WriteFault }
    ensures failed { result ≡ Err HttpFault.ReadFault
        → Rose (L.read_faults link.old) (L.read_faults link.new) }
    ensures counts { L.read_faults link.old ≤ L.read_faults link.new }
    ensures written { L.written link.new ≡ L.written link.old }
    ensures write_faults { L.write_faults link.new ≡ L.write_faults link.old }
{
    loop {
        let start = start_of(buf.as_slice());
        if !start.is_open() {
            return Ok(start);
        }
        if !read_line(link, buf)? {
            return Ok(start_of(buf.as_slice()));
        }
    }
}

// Reads until the buffer has so many bytes, and answers whether they came.
fn fill_body<L: Source>(link: &mut L, buf: &mut Buf, size: usize) -> Result<bool, HttpFault>
    ensures together { OnOk result (spec.Together (L.left link.old) (L.left link.new) buf.old buf.new) }
    ensures taken { size + chunk ≤ spec.most_held → length buf.old ≤ spec.most_held
        → spec.TakesUpTo spec.most_held (L.left link.old) (L.left link.new) buf.old }
    ensures grows { OnOk result (length buf.old ≤ length buf.new) }
    ensures rest { OnOk result (length buf.old ≤ size + chunk → length buf.new ≤ size + chunk) }
    ensures came { IfOk result (λ came. came ≡ true → size ≤ length buf.new) }
    ensures ended { IfOk result (λ came. came ≡ false → (length buf.new < size) × IsDone (L.left link.new)) }
    ensures still { size ≤ length buf.old → L.left link.new ≡ L.left link.old }
    ensures bounded { size + chunk ≤ spec.most_held → length buf.old ≤ spec.most_held
        → length buf.new ≤ spec.most_held }
    ensures nothing { IfErr result spec.SaysNothing }
    ensures never { result ≢ Err HttpFault.WriteFault }
    ensures failed { result ≡ Err HttpFault.ReadFault
        → Rose (L.read_faults link.old) (L.read_faults link.new) }
    ensures counts { L.read_faults link.old ≤ L.read_faults link.new }
    ensures written { L.written link.new ≡ L.written link.old }
    ensures write_faults { L.write_faults link.new ≡ L.write_faults link.old }
{
    while buf.len() < size {
        let count = buf.read_more(link)?;
        if count == 0 {
            return Ok(false);
        }
    }
    Ok(true)
}

// The request whose body of so many bytes begins at a place of the buffer.
fn with_body<L: Source>(
    alloc: Global,
    link: &mut L,
    buf: &mut Buf,
    head: Head,
    at: usize,
    size: usize,
) -> Result<Next, HttpFault>
    requires limit { at ≤ head_limit }
    requires at { at ≤ length buf.old }
    requires size { size ≤ body_limit }
    ensures answers { spec.Tells (λ bytes x. spec.IsBodied head at size bytes x) (L.left link.old)
        (L.left link.new) buf.old buf.new result }
    ensures leaves { spec.LeavesAt at (L.left link.old) (L.left link.new) buf.old buf.new result }
    ensures still { at + size ≤ length buf.old → L.left link.new ≡ L.left link.old }
    ensures bounded { length buf.old ≤ spec.most_held → length buf.new ≤ spec.most_held }
    ensures never { result ≢ Err HttpFault.WriteFault }
    ensures failed { result ≡ Err HttpFault.ReadFault
        → Rose (L.read_faults link.old) (L.read_faults link.new) }
    ensures counts { L.read_faults link.old ≤ L.read_faults link.new }
    ensures written { L.written link.new ≡ L.written link.old }
    ensures write_faults { L.write_faults link.new ≡ L.write_faults link.old }
{
    if !fill_body(link, buf, at + size)? {
        return Err(HttpFault::Cut);
    }
    let body = Items::from_slice(alloc, &buf.as_slice()[at..at + size])?;
    let request = request_of(alloc, head, body)?;
    buf.skip(alloc, at + size)?;
    Ok(Next::Request(request))
}

// What stands first, where it begins with a head at this place and of this length.
fn with_head<L: Source>(
    alloc: Global,
    link: &mut L,
    buf: &mut Buf,
    from: usize,
    len: usize,
) -> Result<Next, HttpFault>
    requires placed { IsPlaced buf.old from len }
    ensures answers { spec.Tells (λ bytes x. spec.IsHeaded from len bytes x) (L.left link.old)
        (L.left link.new) buf.old buf.new result }
    ensures leaves { spec.LeavesAt (from + len) (L.left link.old) (L.left link.new) buf.old buf.new result }
    ensures still { (r : Request) (rest : List ℕ) → Begins buf.old (Headed from len) (message r rest)
        → L.left link.new ≡ L.left link.old }
    ensures bounded { length buf.old ≤ spec.most_held → length buf.new ≤ spec.most_held }
    ensures never { result ≢ Err HttpFault.WriteFault }
    ensures failed { result ≡ Err HttpFault.ReadFault
        → Rose (L.read_faults link.old) (L.read_faults link.new) }
    ensures counts { L.read_faults link.old ≤ L.read_faults link.new }
    ensures written { L.written link.new ≡ L.written link.old }
    ensures write_faults { L.write_faults link.new ≡ L.write_faults link.old }
{
    let found = head_of(alloc, &buf.as_slice()[from..from + len])?;
    let Some(head) = found else {
        return Err(HttpFault::Bad(400));
    };
    match need_of(head.fields.as_slice()) {
        Need::Refused(status) => Err(HttpFault::Bad(status)),
        Need::Body(size) => with_body(alloc, link, buf, head, from + len, size),
    }
}

/// Reads the next request of a link, after those bytes of it that the buffer holds. Empty lines before a
/// request are skipped. A head has at most 16,384 bytes with these lines, and 64 fields; a body has at most
/// [`BODY_LIMIT`] bytes.
///
/// [`BODY_LIMIT`]: crate::BODY_LIMIT
pub fn next_request<L: Source>(
    alloc: Global,
    link: &mut L,
    buf: &mut Buf,
) -> Result<Next, HttpFault>
    ensures answers { spec.AnswersOf (L.left link.old) (L.left link.new) buf.old buf.new result }
    ensures leaves { spec.Leaves (L.left link.old) (L.left link.new) buf.old buf.new result }

    // Where a whole message is held nothing is read, and never more is held than a message and what one read
    // gives.
    ensures still { (r : Request) (rest : List ℕ) → First buf.old (message r rest)
        → L.left link.new ≡ L.left link.old }
    ensures bounded { length buf.old ≤ spec.most_held → length buf.new ≤ spec.most_held }

    ensures never { result ≢ Err HttpFault.WriteFault }
    ensures failed { result ≡ Err HttpFault.ReadFault
        → Rose (L.read_faults link.old) (L.read_faults link.new) }
    ensures counts { L.read_faults link.old ≤ L.read_faults link.new }
    ensures written { L.written link.new ≡ L.written link.old }
    ensures write_faults { L.write_faults link.new ≡ L.write_faults link.old }
{
    let start = fill_head(link, buf)?;
    match start {
        Start::Over => Err(HttpFault::Bad(431)),
        Start::Between => Ok(Next::End),
        Start::Inside => Err(HttpFault::Cut),
        Start::Headed(from, len) => with_head(alloc, link, buf, from, len),
    }
}

/// Bytes hold one list of requests, and end in one way.
pub fn bytes_have_one_reading()
    ensures { OneReading }
{}

/// No bytes are without a list of requests and a way to end.
pub fn bytes_have_a_reading()
    ensures { HasReading }
{}
