//! Routes of texts.
ghost use Rattle.std.specs.Prelude.{◌≡◌, IfOk, OnOk};
ghost use Rattle.std.specs.List.{All};
ghost use Rattle.ixp_glass_holds.specs.Holds.{IsWellFormed};

use ixp_lang::{Route, read_route};
use ixp_num::Items;
use std::alloc::{AllocError, Global};

/// Adds the route of the text.
fn put_route(alloc: Global, routes: &mut Items<Route>, text: &str) -> Result<(), AllocError>
    requires { All IsWellFormed routes.old }
    ensures { OnOk result (All IsWellFormed routes.new) }
{
    match read_route(alloc, text.as_bytes()) {
        Ok(route) => routes.push(route),
        Err(_) => Err(AllocError),
    }
}

/// The routes of these texts.
pub fn routes_of(alloc: Global, texts: &[&str]) -> Result<Items<Route>, AllocError>
    ensures { IfOk result (All IsWellFormed) }
{
    let mut routes = Items::new(alloc);
    'each: for text in texts {
        put_route(alloc, &mut routes, text)?;
    }
    Ok(routes)
}

/// The route of the text, so many times.
pub fn many_of(alloc: Global, text: &str, count: u32) -> Result<Items<Route>, AllocError>
    ensures { IfOk result (All IsWellFormed) }
{
    let mut routes = Items::new(alloc);
    'each: for _ in 0..count {
        put_route(alloc, &mut routes, text)?;
    }
    Ok(routes)
}
