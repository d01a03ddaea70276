//! The command `upgrade`: it makes a store of the first version today's.
ghost use Rattle.ixp_cli_plain.specs.Restores.{Store};
ghost use Rattle.ixp_cli_plain.specs.Runs.{Flow, UpgradeEnds};

use crate::end::{End, write_counted};
use crate::unloading::unloaded;
use ixp_io::{Keeper, Sink, Source};
use ixp_store_upgrade::upgrade;
use std::alloc::Global;

/// Upgrades the keeper's store, and writes how many routers have new rows. Nothing is read from the input.
pub(crate) fn run_upgrade<S: Source, K: Sink, P: Keeper>(
    alloc: Global,
    input: &mut S,
    output: &mut K,
    keeper: &mut P,
) -> End
    ensures { UpgradeEnds (record { bytes = S.left input.old; faults = S.read_faults input.old })
        (record { bytes = S.left input.new; faults = S.read_faults input.new })
        (record { bytes = K.written output.old; faults = K.write_faults output.old })
        (record { bytes = K.written output.new; faults = K.write_faults output.new })
        (record { rows = P.table keeper.old; faults = P.faults keeper.old })
        (record { rows = P.table keeper.new; faults = P.faults keeper.new }) result }
{
    let routers = match upgrade(alloc, keeper) {
        Ok(routers) => routers,
        Err(fault) => return unloaded(alloc, fault),
    };
    match write_counted(output, b"upgraded ", routers) {
        Ok(()) => End::Done,
        Err(_) => End::WriteFault,
    }
}
