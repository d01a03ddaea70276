//! The command `check`: whether the input is the dump of a valid registry, and how many rows it has.
ghost use Rattle.std.specs.Prelude.{◌≡◌, Ok, IfOk, IfErr};
ghost use Rattle.ixp_rows.specs.Dumps.{RegistryAnswer, version_in};
ghost use Rattle.ixp_cli_plain.specs.Checks.{Checks, IsNoDump, ok_text};
ghost use Rattle.ixp_cli_plain.specs.Runs.{Refused};

use crate::end::NoAnswer;
use ixp_num_tables::{put, put_number};
use ixp_rows::{Registry, read_any_dump, rows_count};
use std::alloc::{AllocError, Global};

/// The valid registry whose dump the text is.
pub(crate) fn registry_of(alloc: Global, text: &[u8]) -> Result<Registry, NoAnswer>
    ensures registry { IfOk result (λ r. RegistryAnswer (version_in text.now) text.now (Ok r)) }
    ensures cause { IfErr result (Refused (IsNoDump text.now)) }
{
    let fault = match read_any_dump(alloc, text) {
        Ok(registry) => return Ok(registry),
        Err(fault) => fault,
    };
    match fault.cause() {
        Some(cause) => Err(NoAnswer::Bad { cause }),
        None => Err(NoAnswer::NoMemory),
    }
}

fn ok_text(alloc: Global, rows: usize) -> Result<Vec<u8>, AllocError>
    ensures { IfOk result (λ text. text.items ≡ ok_text rows) }
{
    let mut text = Vec::new(alloc);
    put(&mut text, b"ok ")?;
    put_number(&mut text, rows as u64)?;
    put(&mut text, b"\n")?;
    Ok(text)
}

/// What `check` writes for an input: `ok` and the number of its rows, where it is the dump of a valid
/// registry.
pub(crate) fn check(alloc: Global, input: &[u8]) -> Result<Vec<u8>, NoAnswer>
    ensures output { IfOk result (λ out. Checks input.now out.items) }
    ensures cause { IfErr result (Refused (IsNoDump input.now)) }
{
    let registry = registry_of(alloc, input)?;
    let Some(rows) = rows_count(&registry) else {
        return Err(NoAnswer::NoMemory);
    };
    let text = ok_text(alloc, rows)?;
    Ok(text)
}
