//! The command `expand`: a listing of the expansion of a set by whois data.
ghost use Rattle.std.specs.Prelude.{◌≡◌, IfOk, IfErr};
ghost use Rattle.ixp_rpsl_text.specs.Listings.{Expands, ExpandsNot};
ghost use Rattle.ixp_cli_plain.specs.Expansions.{HasCause};

use crate::end::NoAnswer;
use ixp_num::{Family, Name};
use ixp_rpsl_text::{ExpandFault, Listing, expansion_text};
use std::alloc::Global;

/// What `expand` writes for an input of whois data: the sets of the expansion, or the AS numbers among their
/// members, or the prefixes of the family whose routes have one of these origins.
pub(crate) fn expansion(
    alloc: Global,
    set: Name,
    family: Family,
    listing: Listing,
    input: &[u8],
) -> Result<Vec<u8>, NoAnswer>
    ensures output { IfOk result (λ out. Expands input.now set family listing out.items) }
    ensures refusal { IfErr result (HasCause (ExpandsNot input.now set family listing)) }
{
    match expansion_text(alloc, input, set, family, listing) {
        Ok(text) => Ok(text),
        Err(ExpandFault::Bad { cause }) => Err(NoAnswer::BadObjects { cause }),
        Err(ExpandFault::NoMemory) => Err(NoAnswer::NoMemory),
    }
}
