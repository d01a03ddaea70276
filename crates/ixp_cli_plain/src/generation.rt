//! The command `generate`: the text of a router.
ghost use Rattle.std.specs.Prelude.{◌≡◌, IfOk, IfErr};
ghost use Rattle.ixp_cli_plain.specs.Checks.{IsNoDump};
ghost use Rattle.ixp_cli_plain.specs.Generates.{Generates, IsUnknown};
ghost use Rattle.ixp_cli_plain.specs.Runs.{RefusedOr};

use crate::check::registry_of;
use crate::end::NoAnswer;
use ixp_compile_laws::text_of;
use ixp_num::Name;
use std::alloc::Global;

/// What `generate` writes for an input: the text of the router with the handle, where the input is the dump
/// of a valid registry.
#[tactic(auto, using(crate::proofs::Generating::generating, crate::proofs::Refusals::no_router_asked))]
pub(crate) fn router_text(alloc: Global, router: Name, input: &[u8]) -> Result<Vec<u8>, NoAnswer>
    ensures output { IfOk result (λ out. Generates router input.now out.items) }
    ensures refusal { IfErr result
        (RefusedOr (IsNoDump input.now) (λ handle. (handle ≡ router) × IsUnknown router input.now)) }
{
    let registry = registry_of(alloc, input)?;
    match text_of(alloc, &registry, &router) {
        Ok(Some(text)) => Ok(text),
        Ok(None) => Err(NoAnswer::Unknown { router }),
        Err(_) => Err(NoAnswer::NoMemory),
    }
}
