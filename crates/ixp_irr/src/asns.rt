//! AS numbers in lists.
ghost use Rattle.std.specs.Prelude.{◌≡◌, MatchOption};
ghost use Rattle.ixp_num.specs.declared.asn.Asn.{Asn};
ghost use Rattle.ixp_irr.specs.Items.{IsAsnText, IsRangeText};

use crate::lines::parted;
use ixp_num::{Asn, read_asn};

/// An AS number, with or without `AS` before it.
pub(crate) fn asn_of(t: &[u8]) -> Option<Asn>
    ensures { MatchOption result (¬ ((a : Asn) × IsAsnText t.now a)) (λ a. IsAsnText t.now a) }
{
    let number = match t {
        [b'A', b'S', rest @ ..] => rest,
        _ => t,
    };
    match read_asn(number) {
        Ok(asn) => Some(asn),
        Err(_) => None,
    }
}

/// Two AS numbers with a blank between them.
pub(crate) fn range_of(t: &[u8]) -> Option<(Asn, Asn)>
    ensures { MatchOption result (¬ ((r : Asn × Asn) × IsRangeText t.now r)) (λ r. IsRangeText t.now r) }
{
    let Some((front, behind)) = parted(b' ', t) else {
        return None;
    };
    let Some(first) = asn_of(front) else {
        return None;
    };
    let Some(last) = asn_of(behind) else {
        return None;
    };
    Some((first, last))
}
