//! The text of a route server of a valid registry, by the server's handle.
//!
//! [`text_of`] gives the text `Gen` of `ixp_compile_laws`, which that crate proves to be read back as it was
//! generated, and to do what the rules over the rows say. Commands and the interface hand out no other
//! configuration.
ghost use Rattle.std.specs.Prelude.{◌≡◌, IfOk};
ghost use Rattle.std.specs.Option.{option_map};
ghost use Rattle.ixp_registry.specs.Valid.{Valid};
ghost use Rattle.ixp_compile_laws.specs.Texts.{IsTextOf};

use ixp_compile_text::{GenFault, generate};
use ixp_num::Name;
use ixp_registry::Registry;
use std::alloc::{AllocError, Global};

/// The text of the router with the handle, None where there is no such router.
#[tactic(auto, using(crate::proofs::Generating::generating))]
pub fn text_of(
    alloc: Global,
    registry: &Registry,
    router: &Name,
) -> Result<Option<Vec<u8>>, AllocError>
    requires { Valid registry.now }
    ensures { IfOk result (λ out. IsTextOf registry.now router.now (option_map (λ v. v.items) out)) }
{
    match generate(alloc, registry, router) {
        Ok(text) => Ok(Some(text)),
        Err(GenFault::NoRouter) => Ok(None),
        Err(_) => Err(AllocError),
    }
}
