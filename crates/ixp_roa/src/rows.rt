//! Which ROAs speak of a route.
ghost use Rattle.std.specs.Prelude.{◌≡◌};
ghost use Rattle.ixp_num.specs.Roas.{is_covered, is_matched, validity};
ghost use Rattle.ixp_roa.specs.Climbs.{is_match};

use ixp_num::{Asn, Prefix, Roa, Validity};

/// Whether a ROA covers the prefix.
fn is_covered(rows: &[Roa], net: &Prefix) -> bool
    ensures { result ≡ is_covered rows.now net.now }
{
    rows.iter().any(|r| r.prefix.covers(net))
}

/// Whether the ROA covers the prefix, allows its length and names its origin, which isn't AS 0.
pub(crate) fn is_match(r: &Roa, net: &Prefix, origin: Asn) -> bool
    ensures { result ≡ is_match r.now net.now origin.0 }
{
    r.prefix.covers(net) && net.len <= r.max && r.asn.0 == origin.0 && origin.0 != 0
}

/// Whether such a ROA is there.
fn is_matched(rows: &[Roa], net: &Prefix, origin: Asn) -> bool
    ensures { result ≡ is_matched rows.now net.now origin.0 }
{
    rows.iter().any(|r| is_match(r, net, origin))
}

/// What the ROAs say of a route to the prefix with the origin. It does not allocate.
pub fn validity(rows: &[Roa], net: &Prefix, origin: Asn) -> Validity
    ensures { result ≡ validity rows.now net.now origin.0 }
{
    if is_matched(rows, net, origin) {
        Validity::Valid
    } else if is_covered(rows, net) {
        Validity::Invalid
    } else {
        Validity::Unknown
    }
}
