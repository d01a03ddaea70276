//! Where the head of a request stands among the bytes.
ghost use Rattle.std.specs.Prelude.{◌≡◌, ◌<◌, ◌≤◌, nat_lt, length, take, IfSome, IsTrue};
ghost use Rattle.ixp_http.specs.Heads as spec;

/// The greatest number of bytes of a head and the empty lines before it.
pub(crate) const HEAD_LIMIT: usize = 16_384;

/// The greatest number of lines of a head: the request line, 64 fields and the empty line.
const LINE_LIMIT: usize = 66;

/// What bytes begin with, after empty lines.
#[derive(Clone, Copy, Debug, PartialEq, Eq, Drop)]
pub(crate) enum Start {
    /// What is over the limits of a head.
    Over,
    /// Nothing but empty lines.
    Between,
    /// A part of a head.
    Inside,
    /// A head: the bytes before it, and its length.
    Headed(usize, usize),
}

impl Start {
    /// More bytes can change what stands at the front.
    pub(crate) fn is_open(&self) -> bool
        ensures { result ≡ spec.is_open self.now }
    {
        match self {
            Start::Over => false,
            Start::Between => true,
            Start::Inside => true,
            Start::Headed(_, _) => false,
        }
    }
}

// The length of the line end at the front.
fn line_end(bytes: &[u8]) -> Option<usize>
    ensures exact { result ≡ spec.line_end bytes.now }
    ensures within { IfSome result (λ n. n ≤ length bytes.now) }
    ensures some { IfSome result (λ n. 0 < n) }
{
    match bytes {
        [b'\n', ..] => Some(1),
        [b'\r', b'\n', ..] => Some(2),
        _ => None,
    }
}

// Whether an LF stands at the front.
fn begins_with_feed(bytes: &[u8]) -> bool
    ensures { result ≡ spec.begins_with 10 bytes.now }
{
    match bytes {
        [b, ..] => *b == b'\n',
        [] => false,
    }
}

// How many bytes the empty lines at the front have.
fn blank_len(bytes: &[u8]) -> usize
    ensures exact { result ≡ spec.blank_len bytes.now }
    ensures within { result ≤ length bytes.now }
{
    let mut count = 0;
    let mut rest = bytes;
    while let [b, more @ ..] = rest {
        let is_blank = *b == b'\n' || (*b == b'\r' && begins_with_feed(more));
        if !is_blank {
            return count;
        }
        rest = more;
        count += 1;
    }
    count
}

// The length of the head at the front.
fn head_len(bytes: &[u8]) -> Option<usize>
    ensures exact { result ≡ spec.head_len bytes.now }
    ensures within { IfSome result (λ n. n ≤ length bytes.now) }
{
    let mut at = 0;
    while at < bytes.len() {
        at += 1;
        if bytes[at - 1] == b'\n' {
            if let Some(n) = line_end(&bytes[at..]) {
                return Some(at + n);
            }
        }
    }
    None
}

// How many lines end in the bytes.
fn line_feeds(bytes: &[u8]) -> usize
    ensures exact { result ≡ spec.line_feeds bytes.now }
    ensures within { result ≤ length bytes.now }
{
    let mut count = 0;
    for b in bytes {
        if *b == b'\n' {
            count += 1;
        }
    }
    count
}

/// Whether an LF is among the bytes.
pub(crate) fn has_feed(bytes: &[u8]) -> bool
    ensures { result ≡ nat_lt 0 (spec.line_feeds bytes.now) }
{
    line_feeds(bytes) > 0
}

// What stands behind the empty lines, where no head ends there.
fn start_open(full: bool, rest: &[u8]) -> Start
    ensures { result ≡ spec.start_open full rest.now }
{
    if full {
        Start::Over
    } else if rest.is_empty() {
        Start::Between
    } else {
        Start::Inside
    }
}

// The bytes up to a limit.
fn front_of(bytes: &[u8], limit: usize) -> &[u8]
    ensures exact { result.now ≡ take limit bytes.now }
    ensures within { length result.now ≤ length bytes.now }
{
    if bytes.len() > limit {
        &bytes[..limit]
    } else {
        bytes
    }
}

/// What the bytes begin with.
pub(crate) fn start_of(bytes: &[u8]) -> Start
    ensures exact { result ≡ spec.start_of bytes.now }
    ensures short { IsTrue (spec.is_open result) → length bytes.now < spec.head_limit }
    ensures within { spec.EndsWithin (length bytes.now) result }
{
    let full = bytes.len() >= HEAD_LIMIT;
    let front = front_of(bytes, HEAD_LIMIT);
    let from = blank_len(front);
    let rest = &front[from..];
    match head_len(rest) {
        None => start_open(full, rest),
        Some(len) => {
            if line_feeds(&rest[..len]) > LINE_LIMIT {
                Start::Over
            } else {
                Start::Headed(from, len)
            }
        }
    }
}
