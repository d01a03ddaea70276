//! What a set or an AS number expands to.
ghost use Rattle.std.specs.Prelude.{◌≡◌, ◌∷◌, [], MatchResult};
ghost use Rattle.ixp_rpsl.specs.declared.fault.RpslFault.TheVariants.{NoMemory};
ghost use Rattle.ixp_rpsl_sources.specs.Expansions.{OriginsAnswer, PrefixesAnswer, SetsAnswer};

use ixp_num::{Asn, Family, Items, Prefix};
use ixp_num_sorted::Sorted;
use ixp_rpsl::{Item, Objects, Reach, RpslFault, expand, origins_of, prefixes_of};
use std::alloc::Global;

/// The sets that a set leads to, itself first; of an AS number none.
pub fn sets_from(alloc: Global, objects: &Objects, root: &Item) -> Result<Items<Reach>, RpslFault>
    ensures { SetsAnswer objects.now root.now result }
{
    match root {
        Item::As(_) => Ok(Items::new(alloc)),
        Item::Set(name) => expand(alloc, objects, name),
    }
}

/// One AS number.
fn one_origin(alloc: Global, asn: Asn) -> Result<Sorted<Asn>, RpslFault>
    ensures { MatchResult result (λ o. o ≡ asn ∷ []) (λ e. e ≡ NoMemory) }
{
    let mut origins = Vec::new(alloc);
    match origins.push(asn) {
        Ok(()) => Ok(Sorted::from_ascending(origins)),
        Err(_) => Err(RpslFault::NoMemory),
    }
}

/// The AS numbers among the members of the sets that a set leads to, in order and each once; an AS number
/// stands for itself.
pub fn origins_from(alloc: Global, objects: &Objects, root: &Item) -> Result<Sorted<Asn>, RpslFault>
    ensures { OriginsAnswer objects.now root.now result }
{
    match root {
        Item::As(asn) => one_origin(alloc, *asn),
        Item::Set(name) => match expand(alloc, objects, name) {
            Ok(reached) => origins_of(alloc, objects, reached.as_slice()),
            Err(fault) => Err(fault),
        },
    }
}

/// The prefixes of a family whose routes have one of these origins, in order and each once.
pub fn prefixes_from(
    alloc: Global,
    objects: &Objects,
    root: &Item,
    family: Family,
) -> Result<Sorted<Prefix>, RpslFault>
    ensures { PrefixesAnswer objects.now root.now family result }
{
    match origins_from(alloc, objects, root) {
        Ok(origins) => prefixes_of(alloc, objects, origins.as_slice(), family),
        Err(fault) => Err(fault),
    }
}
