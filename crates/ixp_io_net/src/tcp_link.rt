//! A TCP stream as a link.
ghost use Rattle.std.specs.Prelude.{◌≡◌, ◌<◌, ◌≤◌, length, IfOk, IfSome};

use crate::pace::Pace;
use ixp_io::{Failed, Sink, Source, Stream};
use std::io::{self, ErrorKind, Read, Write};
use std::net::{Shutdown, TcpStream};
use std::time::{Duration, Instant};

/// How many seconds a link that writes may wait for the peer in silence.
const WRITE_SECONDS: u64 = 60;

/// How many bytes give a request a second more to come in.
const READ_BYTES: u64 = 1024;

/// How many bytes give a reply a second more to go out.
const WRITE_BYTES: u64 = 10_240;

/// How many seconds one call of the system waits at most.
const TURN_SECONDS: u64 = 5;

/// How many calls of the system a read or a write makes at most. Each waits for `TURN_SECONDS`, unless a
/// signal interrupts it.
const TURNS: u32 = 100_000;

/// How many seconds a link that ends waits for the next bytes of the peer.
const LAST_SECONDS: u64 = 1;

/// How many seconds a link that ends reads on at most.
const LINGER_SECONDS: u64 = 5;

/// How many reads a link that ends makes at most.
const LINGER_READS: u32 = 100_000;

/// A TCP stream. It tells no content. A read or a write that fails, or for which the peer is silent for
/// longer than it may be, is a fault. So is a read once the request that it belongs to takes longer than a
/// minute and a second for each 1,024 bytes of it, and a write once the reply takes longer than a minute
/// and a second for each 10,240 bytes. What was read since the last write is a request, and what was
/// written since the last read is a reply; it takes its time from its first bytes on. A call that a signal
/// interrupts is made again.
///
/// A link that is dropped tells its peer that no more comes, and reads on for some seconds: the system resets
/// a connection that is closed with bytes unread, and its peer might then never see the last reply. After a
/// read that failed nothing is left unread, so the link ends at once.
pub struct TcpLink {
    rt: HostRuntime,
    stream: TcpStream,
    read_seconds: u64,
    request: Pace,
    reply: Pace,
    read_faults: u64,
    write_faults: u64,
}

impl TcpLink {
    /// A link over this stream, where the limits of its calls can be set. A read waits for a silent peer
    /// for so many seconds at most. What is written is sent at once.
    pub fn over(rt: &HostRuntime, stream: TcpStream, read_seconds: u64) -> Option<TcpLink> {
        let turn = Some(Duration::from_secs(TURN_SECONDS));
        stream.set_nodelay(true).ok()?;
        stream.set_read_timeout(turn).ok()?;
        stream.set_write_timeout(turn).ok()?;
        Some(TcpLink {
            rt: *rt,
            stream,
            read_seconds,
            request: Pace::new(READ_BYTES),
            reply: Pace::new(WRITE_BYTES),
            read_faults: 0,
            write_faults: 0,
        })
    }

    // Reads what comes in time.
    fn read_some(&mut self, buf: &mut [u8]) -> Option<usize>
        ensures within { IfSome result (λ n. n ≤ length buf.new) }
        ensures read_faults { self.new.read_faults ≡ self.old.read_faults }
        ensures write_faults { self.new.write_faults ≡ self.old.write_faults }
    {
        let wait = Wait::begin(&self.rt, self.read_seconds)?;
        let count = read_in_turns(&self.rt, &mut self.stream, buf, &self.request, &wait)?;
        self.request.count(wait.begun, count);
        self.reply.restart();
        Some(count)
    }

    // Writes what goes out in time.
    fn write_some(&mut self, bytes: &[u8]) -> Option<usize>
        ensures within { IfSome result (λ n. n ≤ length bytes.now) }
        ensures some { IfSome result (λ n. 0 < n) }
        ensures read_faults { self.new.read_faults ≡ self.old.read_faults }
        ensures write_faults { self.new.write_faults ≡ self.old.write_faults }
    {
        let wait = Wait::begin(&self.rt, WRITE_SECONDS)?;
        let count = write_in_turns(&self.rt, &mut self.stream, bytes, &self.reply, &wait)?;
        self.reply.count(wait.begun, count);
        self.request.restart();
        Some(count)
    }
}

/// A wait for a peer that may be silent for so many seconds.
#[derive(Drop)]
struct Wait {
    begun: Instant,
    seconds: u64,
}

impl Wait {
    fn begin(rt: &HostRuntime, seconds: u64) -> Option<Wait> {
        let begun = Instant::now(rt).ok()?;
        Some(Wait { begun, seconds })
    }

    // The peer has been silent for too long, or the pace is over, or the time can't be told.
    fn is_over(&self, rt: &HostRuntime, pace: &Pace) -> bool {
        match Instant::now(rt) {
            Ok(now) => {
                now.duration_since(self.begun).as_secs() >= self.seconds || pace.is_over(now)
            }
            Err(_) => true,
        }
    }
}

// Reads in turns, until something comes or the time for it is over.
fn read_in_turns(
    rt: &HostRuntime,
    stream: &mut TcpStream,
    buf: &mut [u8],
    pace: &Pace,
    wait: &Wait,
) -> Option<usize>
    ensures { IfSome result (λ n. n ≤ length buf.new) }
{
    for _ in 0..TURNS {
        if wait.is_over(rt, pace) {
            return None;
        }
        match stream.read(buf) {
            Ok(count) => return Some(count),
            Err(error) if passes(&error) => {}
            Err(_) => return None,
        }
    }
    None
}

// Writes in turns, until something goes out or the time for it is over.
fn write_in_turns(
    rt: &HostRuntime,
    stream: &mut TcpStream,
    bytes: &[u8],
    pace: &Pace,
    wait: &Wait,
) -> Option<usize>
    ensures within { IfSome result (λ n. n ≤ length bytes.now) }
    ensures some { IfSome result (λ n. 0 < n) }
{
    for _ in 0..TURNS {
        if wait.is_over(rt, pace) {
            return None;
        }
        match stream.write(bytes) {
            Ok(0) => return None,
            Ok(count) => return Some(count),
            Err(error) if passes(&error) => {}
            Err(_) => return None,
        }
    }
    None
}

// The call waited for its turn, or a signal interrupted it: it can be made again.
fn passes(error: &io::Error) -> bool {
    match error.kind() {
        ErrorKind::WouldBlock | ErrorKind::Interrupted => true,
        _ => false,
    }
}

impl Drop for TcpLink {
    fn drop(self) {
        let TcpLink {
            rt,
            mut stream,
            read_seconds: _,
            request: _,
            reply: _,
            read_faults,
            write_faults: _,
        } = self;
        if read_faults == 0 {
            linger(&rt, &mut stream);
        }
    }
}

// Ends what is written, and reads until the peer ends too, says nothing more, or has had its time.
fn linger(rt: &HostRuntime, stream: &mut TcpStream) {
    let _ = stream.shutdown(Shutdown::Write);
    let limit = Some(Duration::from_secs(LAST_SECONDS));
    let (Ok(()), Ok(start)) = (stream.set_read_timeout(limit), Instant::now(rt)) else {
        return;
    };
    for _ in 0..LINGER_READS {
        if !reads_on(stream) || has_passed(rt, &start) {
            return;
        }
    }
}

// Reads something.
fn reads_on(stream: &mut TcpStream) -> bool {
    let mut chunk = [0; 16384];
    match stream.read(&mut chunk) {
        Ok(count) => count > 0,
        Err(_) => false,
    }
}

// The time to read on has passed, or can't be told.
fn has_passed(rt: &HostRuntime, start: &Instant) -> bool {
    match start.elapsed(rt) {
        Ok(time) => time.as_secs() >= LINGER_SECONDS,
        Err(_) => true,
    }
}

impl Stream for TcpLink {
    ghost read_faults = { λ link. link.read_faults };

    ghost write_faults = { λ link. link.write_faults };
}

impl Source for TcpLink {
    fn read(&mut self, buf: &mut [u8]) -> Result<usize, Failed> {
        match self.read_some(buf) {
            Some(count) => Ok(count),
            None => {
                self.read_faults = self.read_faults.saturating_add(1);
                Err(Failed)
            }
        }
    }
}

impl Sink for TcpLink {
    fn write(&mut self, bytes: &[u8]) -> Result<usize, Failed> {
        if bytes.is_empty() {
            return Ok(0);
        }
        match self.write_some(bytes) {
            Some(count) => Ok(count),
            None => {
                self.write_faults = self.write_faults.saturating_add(1);
                Err(Failed)
            }
        }
    }
}
