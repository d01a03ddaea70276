//! The command `restore`: it puts the registry whose dump is read into an empty store.
ghost use Rattle.std.specs.Prelude.{◌≡◌, OnOk, OnErr, IfOk, IfErr, IsErrOf};
ghost use Rattle.ixp_io.specs.Faults.{Rose};
ghost use Rattle.ixp_registry.specs.Valid.{Valid};
ghost use Rattle.ixp_store_rows.specs.declared.filling.FillFault.TheVariants.{
  Failed as KeeperFailed,
  NotEmpty as SomeRow,
};
ghost use Rattle.ixp_cli_plain.specs.Restores.{Fills, IsDumpOf, IsFilled, IsUndumped, Restores, Store};
ghost use Rattle.ixp_cli_plain.specs.Runs.{Flow, NotRead, ReadsDump, RestoreEnds};

use crate::check::registry_of;
use crate::command::{INPUT_LIMIT, too_long};
use crate::end::{End, NoAnswer};
use ixp_io::{Keeper, Sink, Source, WholeFault, read_whole, write_all};
use ixp_machine_steps::first_state;
use ixp_num::Cause;
use ixp_num_tables::{put, put_number};
use ixp_rows::{Registry, rows_count};
use ixp_store_rows::{FillFault, fill};
use std::alloc::{AllocError, Global};

/// What is written of a registry that is restored.
fn restored_text(alloc: Global, registry: &Registry) -> Result<Vec<u8>, AllocError>
    ensures { IfOk result (λ text. text.items ≡ Restores registry.now) }
{
    let Some(rows) = rows_count(registry) else {
        return Err(AllocError);
    };
    let mut text = Vec::new(alloc);
    put(&mut text, b"restored ")?;
    put_number(&mut text, rows as u64)?;
    put(&mut text, b"\n")?;
    Ok(text)
}

/// Why no registry is read.
#[derive(Debug, Drop)]
pub(crate) enum NoDump {
    ReadFault,
    Bad { cause: Cause },
    NoMemory,
}

/// The registry whose dump the text is.
fn dumped(alloc: Global, text: &[u8]) -> Result<Registry, NoDump>
    ensures registry { IfOk result (IsDumpOf text.now) }
    ensures refusal { IfErr result (IsUndumped text.now) }
{
    match registry_of(alloc, text) {
        Ok(registry) => Ok(registry),
        Err(NoAnswer::Bad { cause }) => Err(NoDump::Bad { cause }),
        Err(NoAnswer::Unknown { .. }) => Err(NoDump::NoMemory),
        Err(NoAnswer::BadObjects { .. }) => Err(NoDump::NoMemory),
        Err(NoAnswer::NoMemory) => Err(NoDump::NoMemory),
    }
}

/// Reads all of the input, the dump of a registry.
fn read_registry<S: Source>(alloc: Global, input: &mut S) -> Result<Registry, NoDump>
    ensures read { IfOk result
        (ReadsDump (record { bytes = S.left input.old; faults = S.read_faults input.old })
        (record { bytes = S.left input.new; faults = S.read_faults input.new })) }
    ensures unread { IfErr result
        (NotRead (record { bytes = S.left input.old; faults = S.read_faults input.old })
        (record { bytes = S.left input.new; faults = S.read_faults input.new })) }
    ensures valid { IfOk result Valid }
{
    let bytes = match read_whole(alloc, input, INPUT_LIMIT) {
        Ok(bytes) => bytes,
        Err(WholeFault::Failed) => return Err(NoDump::ReadFault),
        Err(WholeFault::TooLong) => return Err(NoDump::Bad { cause: too_long() }),
        Err(WholeFault::NoMemory) => return Err(NoDump::NoMemory),
    };
    match dumped(alloc, bytes.as_slice()) {
        Ok(registry) => Ok(registry),
        Err(NoDump::ReadFault) => Err(NoDump::NoMemory),
        Err(NoDump::Bad { cause }) => Err(NoDump::Bad { cause }),
        Err(NoDump::NoMemory) => Err(NoDump::NoMemory),
    }
}

/// Puts the rows of a registry into a keeper that has none.
fn store_registry<P: Keeper>(
    alloc: Global,
    keeper: &mut P,
    registry: Registry,
) -> Result<(), FillFault>
    requires { Valid registry }
    ensures filled { OnOk result
        (Fills registry (record { rows = P.table keeper.old; faults = P.faults keeper.old })
        (record { rows = P.table keeper.new; faults = P.faults keeper.new })) }
    ensures kept { OnErr result (P.table keeper.new ≡ P.table keeper.old) }
    ensures full { IsErrOf result SomeRow
        → IsFilled (record { rows = P.table keeper.old; faults = P.faults keeper.old }) }
    ensures cause { IsErrOf result KeeperFailed → Rose (P.faults keeper.old) (P.faults keeper.new) }
{
    let state = first_state(alloc, registry);
    fill(alloc, keeper, &state)
}

/// Reads the dump of a registry, puts its rows into the keeper, and writes how many lines they are.
pub(crate) fn run_restore<S: Source, K: Sink, P: Keeper>(
    alloc: Global,
    input: &mut S,
    output: &mut K,
    keeper: &mut P,
) -> End
    ensures { RestoreEnds (record { bytes = S.left input.old; faults = S.read_faults input.old })
        (record { bytes = S.left input.new; faults = S.read_faults input.new })
        (record { bytes = K.written output.old; faults = K.write_faults output.old })
        (record { bytes = K.written output.new; faults = K.write_faults output.new })
        (record { rows = P.table keeper.old; faults = P.faults keeper.old })
        (record { rows = P.table keeper.new; faults = P.faults keeper.new }) result }
{
    let registry = match read_registry(alloc, input) {
        Ok(registry) => registry,
        Err(NoDump::ReadFault) => return End::ReadFault,
        Err(NoDump::Bad { cause }) => return End::BadInput { cause },
        Err(NoDump::NoMemory) => return End::NoMemory,
    };
    let Ok(text) = restored_text(alloc, &registry) else {
        return End::NoMemory;
    };
    match store_registry(alloc, keeper, registry) {
        Ok(()) => {}
        Err(FillFault::Failed) => return End::KeeperFault,
        Err(FillFault::NotEmpty) => return End::NotEmpty,
        Err(FillFault::NoMemory) => return End::NoMemory,
    }
    match write_all(output, text.as_slice()) {
        Ok(()) => End::Done,
        Err(_) => End::WriteFault,
    }
}
