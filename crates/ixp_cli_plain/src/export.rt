//! The command `ixf`: the member export.
ghost use Rattle.std.specs.Prelude.{◌≡◌, IfOk, IfErr};
ghost use Rattle.ixp_cli_plain.specs.Checks.{IsNoDump};
ghost use Rattle.ixp_cli_plain.specs.Exports.{Exports};
ghost use Rattle.ixp_cli_plain.specs.Runs.{Refused};

use crate::check::registry_of;
use crate::end::NoAnswer;
use ixp_ixf::ixf_text;
use std::alloc::Global;

/// What `ixf` writes for an input: the member export of the registry whose dump it is, at a second since
/// 1970.
pub(crate) fn export(alloc: Global, second: u64, input: &[u8]) -> Result<Vec<u8>, NoAnswer>
    ensures output { IfOk result (λ out. Exports second input.now out.items) }
    ensures cause { IfErr result (Refused (IsNoDump input.now)) }
{
    let registry = registry_of(alloc, input)?;
    let mut text = Vec::new(alloc);
    ixf_text(alloc, &registry, second, &mut text)?;
    Ok(text)
}
