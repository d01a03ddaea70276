//! Texts of a bundle beside those of full generation.
ghost use Rattle.std.specs.Prelude.{◌≡◌, true, Some, IfOk};
ghost use Rattle.std.specs.Option.{option_map};
ghost use Rattle.ixp_build.specs.Bundles.{IsOf};
ghost use Rattle.ixp_registry.specs.Valid.{Valid};

use ixp_build::Bundle;
use ixp_compile_text::{GenFault, generate};
use ixp_num::Name;
use ixp_registry::Registry;
use std::alloc::{AllocError, Global};

/// Whether there is a text, and it is this one.
fn is_text(held: &Option<Vec<u8>>, full: &[u8]) -> bool
    ensures { option_map (λ v. v.items) held.now ≡ Some full.now → result ≡ true }
{
    match held {
        Some(held) => held.as_slice() == full,
        None => false,
    }
}

/// Whether the bundle gives the router's text as full generation does.
fn is_text_equal(
    alloc: Global,
    bundle: &Bundle,
    registry: &Registry,
    handle: &Name,
) -> Result<bool, AllocError>
    requires valid { Valid registry.now }
    requires whole { IsOf bundle.now registry.now }
    ensures { IfOk result (λ is. is ≡ true) }
{
    let held = bundle.text(alloc, handle)?;
    match generate(alloc, registry, handle) {
        Ok(full) => Ok(is_text(&held, full.as_slice())),
        Err(GenFault::NoRouter) => Ok(held.is_none()),
        Err(_) => Err(AllocError),
    }
}

/// Whether the bundle gives the texts of all routers as full generation does.
pub(crate) fn is_equal(
    alloc: Global,
    bundle: &Bundle,
    registry: &Registry,
) -> Result<bool, AllocError>
    requires valid { Valid registry.now }
    requires whole { IsOf bundle.now registry.now }
    ensures { IfOk result (λ is. is ≡ true) }
{
    let mut left = registry.routers.as_slice();
    'each: while let Some((router, others)) = left.split_first() {
        if !is_text_equal(alloc, bundle, registry, &router.handle)? {
            return Ok(false);
        }
        left = others;
    }
    Ok(true)
}
