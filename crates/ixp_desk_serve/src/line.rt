//! A link of two objects that are lent.
ghost use Rattle.std.specs.Prelude.{◌≡◌};

use ixp_io::{Failed, Sink, Source, Stream};
use std::marker::{Brand, PhantomData};

/// By which references the two ends of a link are lent, as [`Lending`] says it of a store.
///
/// [`Lending`]: crate::lent::Lending
pub(crate) trait Joining {
    ghost use Rattle.std.specs.Prelude.{ℕ};

    ghost input: { ℕ };

    ghost output: { ℕ };
}

impl Joining for Brand {
    ghost input = { 0 };

    ghost output = { 0 };
}

/// A link that is read from one object and written to another, both lent.
#[derive(Drop)]
pub(crate) struct Line<'a, 'b, S, K, J: Joining> {
    pub(crate) input: &'a mut S,
    pub(crate) output: &'b mut K,
    pub(crate) of: PhantomData<J>,
    ghost reads: { input.ghost_name ≡ J.input },
    ghost writes: { output.ghost_name ≡ J.output },
}

impl<S: Source, K: Sink, J: Joining> Stream for Line<'_, '_, S, K, J> {
    ghost left = { λ line. S.left line.input.now };

    ghost written = { λ line. K.written line.output.now };

    ghost read_faults = { λ line. S.read_faults line.input.now };

    ghost write_faults = { λ line. K.write_faults line.output.now };
}

impl<S: Source, K: Sink, J: Joining> Source for Line<'_, '_, S, K, J> {
    fn read(&mut self, buf: &mut [u8]) -> Result<usize, Failed> {
        self.input.read(buf)
    }
}

impl<S: Source, K: Sink, J: Joining> Sink for Line<'_, '_, S, K, J> {
    fn write(&mut self, bytes: &[u8]) -> Result<usize, Failed> {
        self.output.write(bytes)
    }
}
