//! The look-up of a method and a path.
ghost use Rattle.std.specs.Prelude.{◌≡◌, ◌<◌, Some, IfOk};
ghost use Rattle.matchit.specs.Route.{parse_route};
ghost use Rattle.matchit.specs.declared.error.InsertError.TheVariants.{OutOfMemory};
ghost use Rattle.ixp_api_paths.specs.Paths as spec;
ghost use Rattle.ixp_api_paths.specs.Serves.{pattern_in, pattern_at};
ghost use Rattle.ixp_api_paths.specs.Table.{found, look, Named};
ghost use Rattle.ixp_api_paths.specs.declared.table.TheConstants.{TABLE};

use crate::reading::{read_at, scan};
use crate::table::{Args, Entry, Kind, PATHS};
use crate::words::kind_at;
use matchit::{InsertError, Router};
use std::alloc::{AllocError, Global};
use std::marker::Model;
use std::str::from_utf8;

/// What a method and a path name.
#[derive(Debug, Drop)]
pub enum Found {
    NoPath,
    NoMethod,
    Call(Kind, Args),
}

/// A router of all paths, and of no others.
#[derive(Drop)]
pub struct Paths {
    router: Router<usize>,
}

impl Model for Paths {
    ghost use Rattle.std.specs.Prelude.{ℕ};
    ghost use Rattle.matchit.specs.Rows.{RowsOf};
    ghost use Rattle.matchit.specs.Router.{RouteOf};
    ghost use Rattle.ixp_api_paths.specs.declared.table.TheConstants.{TABLE};
    ghost use Rattle.ixp_api_paths.specs.Serves.{Serves};

    ghost Value = { RowsOf (RouteOf ℕ) };

    ghost view = { λ p. p.router };

    ghost invariant = { λ p. Serves TABLE p.router };
}

// Why the router doesn't take a path of the table: for want of memory alone.
fn no_memory(error: InsertError) -> AllocError
    requires { error ≡ OutOfMemory }
{
    match error {
        InsertError::OutOfMemory => AllocError,
        _ => unreachable!(),
    }
}

// The path at a place of the table, as the router reads it.
#[tactic(auto, unfolding(matchit::specs::Route::scan))]
fn route_at(place: usize) -> &'static str
    requires { place < PATHS }
    ensures { pattern_in (parse_route result.now) ≡ Some (pattern_at TABLE place) }
{
    match place {
        0 => "/members",
        1 => "/members/{row}",
        2 => "/members/{row}/name",
        3 => "/members/{row}/status",
        4 => "/members/{row}/macro",
        5 => "/members/{row}/contacts",
        6 => "/members/{row}/contacts/{place}",
        7 => "/members/{row}/irr/{family}",
        8 => "/members/{row}/origins/{family}",
        9 => "/members/{row}/rules",
        10 => "/keys",
        11 => "/keys/{row}",
        12 => "/switches",
        13 => "/switches/{row}",
        14 => "/ports",
        15 => "/ports/{row}",
        16 => "/ports/{row}/member",
        17 => "/vlans",
        18 => "/vlans/{row}",
        19 => "/vlans/{row}/use/{family}",
        20 => "/interfaces",
        21 => "/interfaces/{row}",
        22 => "/interfaces/{row}/{family}",
        23 => "/routers",
        24 => "/routers/{router}",
        25 => "/routers/{router}/config",
        26 => "/routers/{router}/explain/{row}",
        27 => "/ixf",
        28 => "/public/{list}",
        29 => "/glass/{router}/{row}",
        30 => "/glass/{router}/{row}/{place}",
        _ => "/dump",
    }
}

// What a method calls for at an entry that reads the path.
fn found_of(method: &[u8], hit: Option<(Entry, Args)>) -> Found
    ensures { result ≡ spec.found_of method.now hit }
{
    match hit {
        None => Found::NoPath,
        Some((entry, args)) => match kind_at(method, entry) {
            None => Found::NoMethod,
            Some(kind) => Found::Call(kind, args),
        },
    }
}

impl Paths {
    /// The router of all paths. No two of them clash, so it fails for want of memory alone.
    pub fn new(alloc: Global) -> Result<Paths, AllocError> {
        let mut router = Router::new(alloc);
        for place in 0..PATHS {
            let route = route_at(place);
            match router.insert(route, place) {
                Ok(()) => {}
                Err(error) => return Err(no_memory(error)),
            }
        }
        Ok(Paths { router })
    }

    // The place of the entry that the router names.
    fn named(&self, path: &str) -> Option<usize>
        ensures { Named path.now result }
    {
        match self.router.at(path) {
            Ok(found) => Some(*found.value),
            Err(_) => None,
        }
    }

    // The one entry that reads the path, with what it reads.
    fn entry(&self, alloc: Global, path: &[u8]) -> Result<Option<(Entry, Args)>, AllocError>
        ensures { IfOk result (λ o. o ≡ found path.now) }
    {
        let Ok(text) = from_utf8(path) else {
            return scan(alloc, path);
        };
        match self.named(text) {
            None => Ok(None),
            Some(place) => read_at(alloc, place, path),
        }
    }

    /// What the method and the path name.
    pub fn look(&self, alloc: Global, method: &[u8], path: &[u8]) -> Result<Found, AllocError>
        ensures { IfOk result (λ f. f ≡ look method.now path.now) }
    {
        let hit = self.entry(alloc, path)?;
        Ok(found_of(method, hit))
    }
}
