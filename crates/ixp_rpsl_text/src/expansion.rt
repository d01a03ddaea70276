//! The text of an expansion.
ghost use Rattle.std.specs.Prelude.{◌≡◌, IfOk, IfErr};
ghost use Rattle.ixp_rpsl_text.specs.declared.listing.Listing.TheVariants.{Origins, Prefixes};
ghost use Rattle.ixp_rpsl_text.specs.Listings.{Expands, ExpandsNot, Refused};
ghost use Rattle.ixp_rpsl_text.specs.Told.{ListingAnswer, TextAnswer, reported};

use crate::fault::{ExpandCause, ExpandFault};
use crate::listing::Listing;
use crate::texts::{origins_text, prefixes_text, sets_text};
use ixp_num::{Family, Name};
use ixp_rpsl::{Objects, Reach, RpslFault, expand, origins_of, prefixes_of, read_objects};
use std::alloc::Global;

/// The listing of the AS numbers of an expansion.
#[tactic(auto, using(crate::proofs::Telling::no_origins))]
fn origins_listing(
    alloc: Global,
    objects: &Objects,
    c: &[Reach],
    family: Family,
) -> Result<Vec<u8>, RpslFault>
    ensures { ListingAnswer objects.now c.now family Origins result }
{
    let origins = match origins_of(alloc, objects, c) {
        Ok(origins) => origins,
        Err(fault) => return Err(fault),
    };
    match origins_text(alloc, origins.as_slice()) {
        Ok(text) => Ok(text),
        Err(_) => Err(RpslFault::NoMemory),
    }
}

/// The listing of the prefixes of an expansion.
#[tactic(auto, using(crate::proofs::Telling::no_origins_first, crate::proofs::Telling::no_prefixes))]
fn prefixes_listing(
    alloc: Global,
    objects: &Objects,
    c: &[Reach],
    family: Family,
) -> Result<Vec<u8>, RpslFault>
    ensures { ListingAnswer objects.now c.now family Prefixes result }
{
    let origins = match origins_of(alloc, objects, c) {
        Ok(origins) => origins,
        Err(fault) => return Err(fault),
    };
    let prefixes = match prefixes_of(alloc, objects, origins.as_slice(), family) {
        Ok(prefixes) => prefixes,
        Err(fault) => return Err(fault),
    };
    match prefixes_text(alloc, prefixes.as_slice()) {
        Ok(text) => Ok(text),
        Err(_) => Err(RpslFault::NoMemory),
    }
}

/// A listing of an expansion.
fn listing_of(
    alloc: Global,
    objects: &Objects,
    c: &[Reach],
    family: Family,
    listing: Listing,
) -> Result<Vec<u8>, RpslFault>
    ensures { ListingAnswer objects.now c.now family listing result }
{
    match listing {
        Listing::Sets => match sets_text(alloc, c) {
            Ok(text) => Ok(text),
            Err(_) => Err(RpslFault::NoMemory),
        },
        Listing::Origins => origins_listing(alloc, objects, c, family),
        Listing::Prefixes => prefixes_listing(alloc, objects, c, family),
    }
}

/// What is written of an input.
#[tactic(auto, using(crate::proofs::Telling::telling))]
fn text_in(
    alloc: Global,
    input: &[u8],
    root: &Name,
    family: Family,
    listing: Listing,
) -> Result<Vec<u8>, RpslFault>
    ensures { TextAnswer input.now root.now family listing result }
{
    let objects = match read_objects(alloc, input) {
        Ok(objects) => objects,
        Err(fault) => return Err(fault),
    };
    let reached = match expand(alloc, &objects, root) {
        Ok(reached) => reached,
        Err(fault) => return Err(fault),
    };
    listing_of(alloc, &objects, reached.as_slice(), family, listing)
}

/// A fault as it is reported.
fn reported(fault: RpslFault, root: Name) -> ExpandFault
    ensures { result ≡ reported fault root }
{
    match fault {
        RpslFault::Line { n } => ExpandFault::Bad {
            cause: ExpandCause::Line { n },
        },
        RpslFault::NoSet => ExpandFault::Bad {
            cause: ExpandCause::NoSet { set: root },
        },
        RpslFault::TooMany { have } => ExpandFault::Bad {
            cause: ExpandCause::TooMany { have },
        },
        RpslFault::NoMemory => ExpandFault::NoMemory,
    }
}

/// What is written of the expansion of a set by whois data: its sets, each with its place; or the AS numbers
/// among the members of these, each with `AS` before it; or the prefixes of a family whose routes have one of
/// these origins. A line each, AS numbers and prefixes in order and each once. The set's name is in upper
/// case.
#[tactic(auto, using(crate::proofs::Telling::refused))]
pub fn expansion_text(
    alloc: Global,
    input: &[u8],
    root: Name,
    family: Family,
    listing: Listing,
) -> Result<Vec<u8>, ExpandFault>
    ensures output { IfOk result (λ text. Expands input.now root family listing text.items) }
    ensures refusal { IfErr result (Refused (ExpandsNot input.now root family listing)) }
{
    match text_in(alloc, input, &root, family, listing) {
        Ok(text) => Ok(text),
        Err(fault) => Err(reported(fault, root)),
    }
}
