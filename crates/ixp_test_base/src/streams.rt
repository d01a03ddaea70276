//! Sources are read whole and sinks written in pieces; each read and each write fails in turn.
use ixp_io::{
    Failed, Joined, MemSink, MemSource, Plan, ReadSource, WholeFault, WriteSink, read_whole,
    write_all,
};
use ixp_num_tables::Items;
use std::alloc::{AllocError, Global};
use std::io;
use std::io::{Read, Write};
use std::test::Fail;

// `count` bytes that tell their places apart.
fn text(alloc: Global, count: usize) -> Result<Vec<u8>, AllocError> {
    let mut bytes = Vec::new(alloc);
    for at in 0..count {
        bytes.push((at % 251) as u8)?;
    }
    Ok(bytes)
}

pub fn source(
    alloc: Global,
    count: usize,
    most: usize,
    failing: &[u64],
) -> Result<MemSource, AllocError> {
    let plan = Plan::failing(alloc, failing)?;
    let bytes = Items::from_vec(text(alloc, count)?);
    Ok(MemSource::new(bytes, plan).in_pieces(most.max(1)))
}

// Whether a source of `count` bytes in pieces of `most` is read whole as it is.
fn reads(alloc: Global, count: usize, most: usize, limit: usize) -> Result<bool, WholeFault> {
    let mut input = source(alloc, count, most, &[])?;
    let all = read_whole(alloc, &mut input, limit)?;
    let want = text(alloc, count)?;
    Ok(all.as_slice() == want.as_slice())
}

// Lengths, and the greatest number of bytes that a call moves.
const PIECES: &[(usize, usize)] = &[
    (0, 1),
    (1, 1),
    (9, 4),
    (4095, 4096),
    (4096, 4096),
    (4097, 5000),
    (8192, 4096),
    (10000, 333),
];

/// Whether it is read where that is the limit, and is too long where the limit is a byte less.
fn is_bounded(alloc: Global, count: usize, most: usize) -> bool {
    let short = reads(alloc, count, most, count.saturating_sub(1));
    reads(alloc, count, most, count) == Ok(true)
        && (count == 0 || short == Err(WholeFault::TooLong))
}

#[test]
fn a_source_is_read_whole_in_pieces(rt: HostRuntime) {
    for &(count, most) in PIECES {
        assert!(rt; is_bounded(rt.alloc(), count, most), "{count} by {most}");
    }
}

// Reads ten bytes by four, where the read with this number fails: the fault, how often the source failed, and
// how many bytes a second reading gives.
fn reads_again(alloc: Global, number: u64) -> Result<(Option<WholeFault>, u64, usize), WholeFault> {
    let mut input = source(alloc, 10, 4, &[number])?;
    let fault = read_whole(alloc, &mut input, 10).err();
    let rest = read_whole(alloc, &mut input, 10)?;
    Ok((fault, input.plan.faults, rest.len()))
}

/// The number of a read that fails, and how many bytes are left then.
const LEFT: &[(u64, usize)] = &[(1, 10), (2, 6), (3, 2), (4, 0)];

#[test]
fn each_read_fails_in_turn(rt: HostRuntime) {
    for &(number, left) in LEFT {
        let want = (Some(WholeFault::Failed), 1, left);
        assert!(rt;
            reads_again(rt.alloc(), number) == Ok(want),
            "read {number}"
        );
    }
}

// Writes `count` bytes in pieces of `most`, where the write with this number fails: whether all were written,
// whether what was written is a first part of them, and its length.
fn writes(
    alloc: Global,
    count: usize,
    most: usize,
    number: u64,
) -> Result<(bool, bool, usize), AllocError> {
    let want = text(alloc, count)?;
    let plan = Plan::failing(alloc, &[number])?;
    let mut output = MemSink::new(alloc, plan).in_pieces(most.max(1));
    let all = write_all(&mut output, want.as_slice()).is_ok();
    Ok((
        all,
        want.as_slice().starts_with(output.written()),
        output.written().len(),
    ))
}

/// The number of a write of ten bytes by four that fails, and how many were written before.
const WRITTEN: &[(u64, usize)] = &[(1, 0), (2, 4), (3, 8)];

#[test]
fn a_text_is_written_in_pieces(rt: HostRuntime) {
    for &(count, most) in PIECES {
        let seen = writes(rt.alloc(), count, most, 0);
        assert!(rt; seen == Ok((true, true, count)), "{count} by {most}");
    }
    for &(number, length) in WRITTEN {
        let seen = writes(rt.alloc(), 10, 4, number);
        assert!(rt; seen == Ok((false, true, length)), "write {number}");
    }
}

// Fails at the step that its field names: `w` a write, `0` a write of nothing, `f` a flush; and at each read.
#[derive(Drop)]
struct Broken(u8);

impl Write for Broken {
    fn write(&mut self, buf: &[u8]) -> io::Result<usize> {
        match self.0 {
            b'w' => Err(io::Error::from(io::ErrorKind::Interrupted)),
            b'0' => Ok(0),
            _ => Ok(buf.len().min(1)),
        }
    }

    fn flush(&mut self) -> io::Result<()> {
        match self.0 {
            b'f' => Err(io::Error::from(io::ErrorKind::BrokenPipe)),
            _ => Ok(()),
        }
    }
}

impl Read for Broken {
    fn read(&mut self, _buf: &mut [u8]) -> io::Result<usize> {
        Err(io::Error::from(io::ErrorKind::Interrupted))
    }
}

/// The fault of a text that is written at such a step, and the count of faults.
fn written_at(step: u8) -> (Result<(), Failed>, u64) {
    let mut output = WriteSink::new(Broken(step));
    let whole = write_all(&mut output, b"hi");
    (whole, output.faults())
}

#[test]
fn a_step_of_a_stream_that_fails_is_a_fault(rt: HostRuntime) {
    let mut input = ReadSource::new(Broken(b'r'));
    let fault = read_whole(rt.alloc(), &mut input, 5).err();
    assert!(rt; fault == Some(WholeFault::Failed) && input.faults() == 1);
    for step in b"w0f" {
        assert!(rt; written_at(*step) == (Err(Failed), 1), "{step}");
    }
}

#[test]
fn readers_and_writers_are_sources_and_sinks(rt: HostRuntime) -> Result<(), Fail> {
    let mut input = ReadSource::new(b"hello".as_slice());
    let all = read_whole(rt.alloc(), &mut input, 5)?;
    let mut output = WriteSink::new(Vec::new(rt.alloc()));
    let whole = write_all(&mut output, all.as_slice());
    assert!(rt; all.as_slice() == b"hello".as_slice() && whole == Ok(()));
    assert!(rt; input.faults() == 0 && output.faults() == 0);
    Ok(())
}

#[test]
fn two_ends_are_joined(rt: HostRuntime) -> Result<(), Fail> {
    let mut input = source(rt.alloc(), 5, 2, &[])?;
    let mut output = MemSink::new(rt.alloc(), Plan::smooth(rt.alloc()));
    let mut link = Joined {
        source: &mut input,
        sink: &mut output,
    };
    let all = read_whole(rt.alloc(), &mut link, 5)?;
    let whole = write_all(&mut link, all.as_slice());
    assert!(rt; whole == Ok(()) && output.written() == all.as_slice());
    Ok(())
}
