//! Reading all of a source, and writing all of a text.
ghost use Rattle.std.specs.Prelude.{◌≡◌, ◌+◌, ◌<◌, ◌≤◌, ℕ, length, IfOk, OnOk, OnErr, IsErrOf};
ghost use Rattle.ixp_io.specs.Faults.{Rose};
ghost use Rattle.ixp_io.specs.Told.{Told, Moves, MovesUpTo, IsDone, Takes, TakesPart};

use crate::{Failed, Sink, Source};
use ixp_num_tables::Items;
use std::alloc::{AllocError, AllocFailed, Global};

/// How many bytes one read of [`read_whole`] asks for at most.
pub const CHUNK: usize = 4096;

/// Why a source wasn't read whole.
#[derive(Clone, Copy, Debug, PartialEq, Eq, Drop)]
pub enum WholeFault {
    /// A read failed.
    Failed,
    /// It has more bytes than the limit.
    TooLong,
    NoMemory,
}

/// Writes all the bytes, in as many pieces as the sink takes.
pub fn write_all<K: Sink>(sink: &mut K, bytes: &[u8]) -> Result<(), Failed>
    ensures ok { OnOk result (Takes (K.written sink.old) (K.written sink.new) bytes.now) }
    ensures err { OnErr result (TakesPart (K.written sink.old) (K.written sink.new) bytes.now) }
    ensures counts { K.write_faults sink.old ≤ K.write_faults sink.new }
    ensures cause { OnErr result (Rose (K.write_faults sink.old) (K.write_faults sink.new)) }
    ensures left { K.left sink.new ≡ K.left sink.old }
    ensures read_faults { K.read_faults sink.new ≡ K.read_faults sink.old }
{
    let mut at = 0;
    while at < bytes.len() {
        at += sink.write(&bytes[at..])?;
    }
    Ok(())
}

/// Reads a source to its end, and answers all its bytes, where they are no more than the limit. It reads no
/// more than one byte past the limit.
pub fn read_whole<S: Source>(
    alloc: Global,
    source: &mut S,
    limit: usize,
) -> Result<Items<u8>, WholeFault>
    ensures bytes { IfOk result (λ bytes. Moves (S.left source.old) (S.left source.new) bytes) }
    ensures done { OnOk result (IsDone (S.left source.new)) }
    ensures limit { IfOk result (λ bytes. length bytes ≤ limit) }
    ensures too_long { IsErrOf result WholeFault.TooLong
        → Told (S.left source.old) (S.left source.new) (λ left rest. limit < length left) }
    ensures failed { IsErrOf result WholeFault.Failed
        → Rose (S.read_faults source.old) (S.read_faults source.new) }
    ensures most { MovesUpTo (limit + 1) (S.left source.old) (S.left source.new) }
    ensures counts { S.read_faults source.old ≤ S.read_faults source.new }
    ensures written { S.written source.new ≡ S.written source.old }
    ensures write_faults { S.write_faults source.new ≡ S.write_faults source.old }
{
    let mut chunk = [0; CHUNK];
    let mut bytes = Vec::new(alloc);
    loop {
        let room = limit - bytes.len();
        let asked = if room < CHUNK { room + 1 } else { CHUNK };
        let count = source.read(&mut chunk[..asked])?;
        if count == 0 {
            return Ok(Items::from_vec(bytes));
        }
        if count > room {
            return Err(WholeFault::TooLong);
        }
        bytes.extend_from_slice(&chunk[..count])?;
    }
}

impl From<Failed> for WholeFault {
    ghost use Rattle.std.specs.Prelude.{◌≡◌};
    ghost use Rattle.ixp_io.specs.declared.whole.WholeFault.TheVariants.{Failed as ReadFailed};

    ghost from_gives = { λ _ e. e ≡ ReadFailed };

    fn from(_: Failed) -> WholeFault {
        WholeFault::Failed
    }
}

impl From<AllocError> for WholeFault {
    ghost use Rattle.std.specs.Prelude.{◌≡◌};
    ghost use Rattle.ixp_io.specs.declared.whole.WholeFault.TheVariants.{NoMemory};

    ghost from_gives = { λ _ e. e ≡ NoMemory };

    fn from(_: AllocError) -> WholeFault {
        WholeFault::NoMemory
    }
}
