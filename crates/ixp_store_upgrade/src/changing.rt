//! The commit that makes a store of the first version today's.
ghost use Rattle.std.specs.Prelude.{◌≡◌, ◌≢◌, ◌≤◌, Err, IfOk, IfErr, IsErrOf, OnErr, OnOk, map};
ghost use Rattle.ixp_io.specs.Faults.{Rose, last_count};
ghost use Rattle.ixp_io.specs.Tables.{changed};
ghost use Rattle.ixp_io.specs.Told.{Told};
ghost use Rattle.ixp_rows_lines.specs.declared.version.Version.TheVariants.{Two};
ghost use Rattle.ixp_store_rows.specs.Names.{version_name, version_row};
ghost use Rattle.ixp_store_rows.specs.States.{set_row};
ghost use Rattle.ixp_store_words.specs.Faults.{IsKeepers};
ghost use Rattle.ixp_store_words.specs.declared.fault.LoadFault.TheVariants.{KeeperFault};
ghost use Rattle.ixp_store_upgrade.specs.Versions.{version_rows};

use ixp_io::{Change, Keeper, RowName};
use ixp_machine_steps::State;
use ixp_num_tables::Items;
use ixp_store_rows::{VERSION, set_rows};
use ixp_store_words::LoadFault;
use std::alloc::{AllocError, Global};

/// The name of the version's row.
pub(crate) fn version_name(alloc: Global) -> RowName
    ensures { result ≡ version_name }
{
    RowName {
        kind: VERSION,
        key: Items::new(alloc),
    }
}

/// Sets the version's row.
fn set_version(alloc: Global) -> Result<Change, AllocError>
    ensures { IfOk result (λ change. change ≡ set_row version_row) }
{
    Ok(Change {
        name: version_name(alloc),
        body: Some(Items::from_slice(alloc, b"2")?),
    })
}

/// The changes that make a store of the first version today's: they set the rows in which versions differ.
fn version_batch(alloc: Global, state: &State) -> Result<Vec<Change>, AllocError>
    ensures { IfOk result (λ batch. batch.items ≡ map set_row (version_rows Two state.now)) }
{
    let mut batch = Vec::new(alloc);
    batch.push(set_version(alloc)?)?;
    set_rows(alloc, state.registry.routers.as_slice(), &mut batch)?;
    Ok(batch)
}

/// Makes the store of the first version of a state today's.
pub(crate) fn set_versions<P: Keeper>(
    alloc: Global,
    keeper: &mut P,
    state: &State,
) -> Result<(), LoadFault>
    ensures made { OnOk result
        (Told (P.table keeper.old) (P.table keeper.new)
        (λ before now. now ≡ changed before (map set_row (version_rows Two state.now)))) }
    ensures kept { OnErr result (P.table keeper.new ≡ P.table keeper.old) }
    ensures faults { IfErr result IsKeepers }
    ensures counts { P.faults keeper.old ≤ P.faults keeper.new }
    ensures cause { IsErrOf result KeeperFault → Rose (P.faults keeper.old) (P.faults keeper.new) }
    ensures answered { P.faults keeper.old ≢ last_count → Rose (P.faults keeper.old) (P.faults keeper.new)
        → result ≡ Err KeeperFault }
{
    let batch = version_batch(alloc, state)?;
    keeper.commit(alloc, batch.as_slice())?;
    Ok(())
}
