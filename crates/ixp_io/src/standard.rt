//! Sources and sinks over std's readers and writers, as standard input and output.
ghost use Rattle.std.specs.Prelude.{◌≡◌, ◌<◌, ◌≤◌, length, IfSome};

use crate::{Failed, Sink, Source, Stream};
use std::io::{Read, Write};

/// A source over a reader. It tells no content. A read that fails or is interrupted is a fault.
#[derive(Drop)]
pub struct ReadSource<R> {
    reader: R,
    faults: u64,
}

impl<R: Read> ReadSource<R> {
    /// A source with no fault yet.
    pub fn new(reader: R) -> ReadSource<R>
        ensures { ⟦<ReadSource<R> as Stream>⟧.read_faults result ≡ 0 }
    {
        ReadSource { reader, faults: 0 }
    }

    /// How often a read failed.
    pub fn faults(&self) -> u64
        ensures { result ≡ ⟦<ReadSource<R> as Stream>⟧.read_faults self.now }
    {
        self.faults
    }
}

impl<R: Read> Stream for ReadSource<R> {
    ghost read_faults = { λ source. source.faults };
}

impl<R: Read> Source for ReadSource<R> {
    fn read(&mut self, buf: &mut [u8]) -> Result<usize, Failed> {
        match self.reader.read(buf) {
            Ok(count) => Ok(count),
            Err(_) => {
                self.faults = self.faults.saturating_add(1);
                Err(Failed)
            }
        }
    }
}

/// A sink over a writer. It tells no content. Each write is flushed. A write or a flush that fails or is
/// interrupted, and a write that takes nothing of a piece, is a fault.
#[derive(Drop)]
pub struct WriteSink<W> {
    writer: W,
    faults: u64,
}

impl<W: Write> WriteSink<W> {
    /// A sink with no fault yet.
    pub fn new(writer: W) -> WriteSink<W>
        ensures { ⟦<WriteSink<W> as Stream>⟧.write_faults result ≡ 0 }
    {
        WriteSink { writer, faults: 0 }
    }

    /// How often a write failed.
    pub fn faults(&self) -> u64
        ensures { result ≡ ⟦<WriteSink<W> as Stream>⟧.write_faults self.now }
    {
        self.faults
    }
}

impl<W: Write> Stream for WriteSink<W> {
    ghost write_faults = { λ sink. sink.faults };
}

impl<W: Write> Sink for WriteSink<W> {
    fn write(&mut self, bytes: &[u8]) -> Result<usize, Failed> {
        match put(&mut self.writer, bytes) {
            Some(count) => Ok(count),
            None => {
                self.faults = self.faults.saturating_add(1);
                Err(Failed)
            }
        }
    }
}

// Writes a first part of the bytes and flushes it; None where a step failed.
fn put<W: Write>(writer: &mut W, bytes: &[u8]) -> Option<usize>
    ensures within { IfSome result (λ n. n ≤ length bytes.now) }
    ensures some { IfSome result (λ n. 0 < length bytes.now → 0 < n) }
{
    if bytes.is_empty() {
        return Some(0);
    }
    let count = writer.write(bytes).ok()?;
    if count == 0 {
        return None;
    }
    writer.flush().ok()?;
    Some(count)
}
