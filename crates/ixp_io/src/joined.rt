//! A source and a sink as one link.
use crate::{Failed, Sink, Source, Stream};

/// A link that is read from one object and written to another.
#[derive(Debug, Drop)]
pub struct Joined<S, K> {
    pub source: S,
    pub sink: K,
}

impl<S: Source, K: Sink> Stream for Joined<S, K> {
    ghost left = { λ link. S.left link.source };

    ghost written = { λ link. K.written link.sink };

    ghost read_faults = { λ link. S.read_faults link.source };

    ghost write_faults = { λ link. K.write_faults link.sink };
}

impl<S: Source, K: Sink> Source for Joined<S, K> {
    fn read(&mut self, buf: &mut [u8]) -> Result<usize, Failed> {
        self.source.read(buf)
    }
}

impl<S: Source, K: Sink> Sink for Joined<S, K> {
    fn write(&mut self, bytes: &[u8]) -> Result<usize, Failed> {
        self.sink.write(bytes)
    }
}
