//! Dumps of valid registries.
ghost use Rattle.std.specs.Prelude.{◌≡◌, IfOk};
ghost use Rattle.ixp_rows_lines.specs.declared.version.Version.TheVariants.{One, Two};
ghost use Rattle.ixp_registry.specs.Registries.{breach};
ghost use Rattle.ixp_rows.specs.Dumps.{RegistryAnswer, version_in};

use crate::fault::DumpFault;
use crate::gathering::registry_of;
use crate::read::read_rows;
use crate::reading::after_text;
use ixp_registry::{Breach, Registry, Rows, has_lines};
use ixp_registry_breach::first_breach;
use ixp_rows_lines::Version;
use std::alloc::{AllocError, Global};

/// The first rule that rows break; of rows whose lines can't be counted it tells that memory runs out.
fn broken(alloc: Global, rows: &Rows) -> Result<Option<Breach>, AllocError>
    ensures { IfOk result (λ found. found ≡ breach rows.now) }
{
    if !has_lines(rows) {
        return Err(AllocError);
    }
    first_breach(alloc, rows)
}

/// The valid registry whose dump of the version the text is.
#[tactic(auto, using(crate::proofs::Valid::passed, crate::proofs::Valid::joined))]
fn read_valid(alloc: Global, version: Version, text: &[u8]) -> Result<Registry, DumpFault>
    ensures { RegistryAnswer version text.now result }
{
    let rows = match read_rows(alloc, version, text) {
        Ok(rows) => rows,
        Err(fault) => return Err(fault),
    };
    match broken(alloc, &rows)? {
        Some(Breach { rule, line }) => Err(DumpFault::Invalid { rule, line }),
        None => Ok(registry_of(alloc, rows)?),
    }
}

/// The valid registry whose dump the text is, in version 2 of the format. The first faulty line is told;
/// where no line is faulty, the lowest rule that is broken and the first line that breaks it.
pub fn read_dump(alloc: Global, text: &[u8]) -> Result<Registry, DumpFault>
    ensures { RegistryAnswer Two text.now result }
{
    read_valid(alloc, Version::Two, text)
}

/// The same in version 1, whose routers have no blackhole address and no bound on communities.
pub fn read_dump_1(alloc: Global, text: &[u8]) -> Result<Registry, DumpFault>
    ensures { RegistryAnswer One text.now result }
{
    read_valid(alloc, Version::One, text)
}

/// The version that a text's first line says; 2 where that is no dump's.
fn version_in(text: &[u8]) -> Version
    ensures { result ≡ version_in text.now }
{
    match after_text(b"ixp-registry 1\n", text) {
        Some(_) => Version::One,
        None => Version::Two,
    }
}

/// The valid registry whose dump the text is, in the version that its first line says.
pub fn read_any_dump(alloc: Global, text: &[u8]) -> Result<Registry, DumpFault>
    ensures { RegistryAnswer (version_in text.now) text.now result }
{
    read_valid(alloc, version_in(text), text)
}
