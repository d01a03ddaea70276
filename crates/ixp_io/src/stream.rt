//! What is read and what is written.
ghost use Rattle.std.specs.Prelude.{◌≡◌, ◌<◌, ◌≤◌, Option, None, List, ℕ, length, take, IfOk, OnErr};
ghost use Rattle.ixp_io.specs.Faults.{Rose};
ghost use Rattle.ixp_io.specs.Told.{Moves, Takes, IsDone};

/// A call of the outside failed, and the object's count of faults rose in it.
#[derive(Clone, Copy, Debug, PartialEq, Eq, Drop)]
pub struct Failed;

/// What a source or a sink holds. An object that is both has one of these, so that reading it leaves what it
/// has written as it is, and writing it what is left to read.
pub trait Stream {
    /// The bytes that are left to read, where they are told.
    ghost left: { Self → Option (List ℕ) } = { λ _. None };

    /// The bytes that were written, where they are told.
    ghost written: { Self → Option (List ℕ) } = { λ _. None };

    /// How often a read failed.
    ghost read_faults: { Self → ℕ } = { λ _. 0 };

    /// How often a write failed.
    ghost write_faults: { Self → ℕ } = { λ _. 0 };
}

/// What gives bytes.
pub trait Source: Stream {
    /// Moves the first bytes that are left into the buffer, and answers how many; 0 where the input has
    /// ended. What the buffer holds past them is open.
    fn read(&mut self, buf: &mut [u8]) -> Result<usize, Failed>
        requires { 0 < length buf.old }
        ensures within { IfOk result (λ n. n ≤ length buf.new) }
        ensures moves { IfOk result (λ n. Moves (Self.left self.old) (Self.left self.new) (take n buf.new)) }
        ensures ended { result ≡ Ok 0 → IsDone (Self.left self.new) }
        ensures kept { OnErr result (Self.left self.new ≡ Self.left self.old) }
        ensures counts { Self.read_faults self.old ≤ Self.read_faults self.new }
        ensures cause { OnErr result (Rose (Self.read_faults self.old) (Self.read_faults self.new)) }
        ensures written { Self.written self.new ≡ Self.written self.old }
        ensures write_faults { Self.write_faults self.new ≡ Self.write_faults self.old };
}

/// What takes bytes.
pub trait Sink: Stream {
    /// Takes a first part of the piece, and answers how many bytes: at least one, where the piece has one.
    fn write(&mut self, bytes: &[u8]) -> Result<usize, Failed>
        ensures within { IfOk result (λ n. n ≤ length bytes.now) }
        ensures some { IfOk result (λ n. 0 < length bytes.now → 0 < n) }
        ensures takes { IfOk result
            (λ n. Takes (Self.written self.old) (Self.written self.new) (take n bytes.now)) }
        ensures kept { OnErr result (Self.written self.new ≡ Self.written self.old) }
        ensures counts { Self.write_faults self.old ≤ Self.write_faults self.new }
        ensures cause { OnErr result (Rose (Self.write_faults self.old) (Self.write_faults self.new)) }
        ensures left { Self.left self.new ≡ Self.left self.old }
        ensures read_faults { Self.read_faults self.new ≡ Self.read_faults self.old };
}

impl<T: Stream> Stream for &mut T {
    ghost left = { λ it. T.left it.now };

    ghost written = { λ it. T.written it.now };

    ghost read_faults = { λ it. T.read_faults it.now };

    ghost write_faults = { λ it. T.write_faults it.now };
}

impl<T: Source> Source for &mut T {
    fn read(&mut self, buf: &mut [u8]) -> Result<usize, Failed> {
        (**self).read(buf)
    }
}

impl<T: Sink> Sink for &mut T {
    fn write(&mut self, bytes: &[u8]) -> Result<usize, Failed> {
        (**self).write(bytes)
    }
}
