//! The command `dump`: it writes the dump of the store's registry.
ghost use Rattle.std.specs.Prelude.{◌≡◌, IfOk};
ghost use Rattle.ixp_rows_lines.specs.declared.version.Version.TheVariants.{Two};
ghost use Rattle.ixp_registry.specs.Registries.{rows_of};
ghost use Rattle.ixp_rows.specs.Texts.{dump_text};
ghost use Rattle.ixp_cli_plain.specs.Restores.{Store};
ghost use Rattle.ixp_cli_plain.specs.Runs.{DumpEnds, Flow};

use crate::end::End;
use crate::unloading::unloaded;
use ixp_io::{Keeper, Sink, Source, write_all};
use ixp_rows::{Registry, print_dump};
use ixp_store_load::load;
use std::alloc::{AllocError, Global};

fn dump_of(alloc: Global, registry: &Registry) -> Result<Vec<u8>, AllocError>
    ensures { IfOk result (λ text. text.items ≡ dump_text Two (rows_of registry.now)) }
{
    let mut text = Vec::new(alloc);
    print_dump(registry, &mut text)?;
    Ok(text)
}

/// Writes the dump of the registry that the keeper has. Nothing is read from the input.
pub(crate) fn run_dump<S: Source, K: Sink, P: Keeper>(
    alloc: Global,
    input: &mut S,
    output: &mut K,
    keeper: &mut P,
) -> End
    ensures { DumpEnds (record { bytes = S.left input.old; faults = S.read_faults input.old })
        (record { bytes = S.left input.new; faults = S.read_faults input.new })
        (record { bytes = K.written output.old; faults = K.write_faults output.old })
        (record { bytes = K.written output.new; faults = K.write_faults output.new })
        (record { rows = P.table keeper.old; faults = P.faults keeper.old })
        (record { rows = P.table keeper.new; faults = P.faults keeper.new }) result }
{
    let state = match load(alloc, keeper) {
        Ok(state) => state,
        Err(fault) => return unloaded(alloc, fault),
    };
    let Ok(text) = dump_of(alloc, &state.registry) else {
        return End::NoMemory;
    };
    match write_all(output, text.as_slice()) {
        Ok(()) => End::Done,
        Err(_) => End::WriteFault,
    }
}
