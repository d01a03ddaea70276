//! What a route's communities ask.
ghost use Rattle.std.specs.Prelude.{◌≡◌, ◌≤◌};
ghost use Rattle.ixp_lang.specs.Steering.{first_line, fit_pairs, prepends, sends};

use ixp_lang::Route;
use ixp_lang::communities::{KEEP_FROM, PREPEND_ONCE, PREPEND_THRICE, PREPEND_TWICE, SEND_TO};
use ixp_num::Asn;

/// Whether both numbers fit a community of two parts.
fn fit_pairs(rs: Asn, to: Asn) -> bool
    ensures { result ≡ fit_pairs rs.0 to.0 }
{
    rs.0 <= 65535 && to.0 <= 65535
}

/// What the first line says that holds, else `other`.
fn first_line<T: Copy + Drop>(lines: &[(bool, T)], other: T) -> T
    ensures { result ≡ first_line lines.now other }
{
    let mut left = lines;
    'lines: while let Some((line, rest)) = left.split_first() {
        if line.0 {
            return line.1;
        }
        left = rest;
    }
    other
}

/// Whether the server `rs` sends the route to the peer `to`, by the route's communities.
pub fn sends(rs: Asn, route: &Route, to: Asn) -> bool
    ensures { result ≡ sends rs.0 route.now to.0 }
{
    let fit = fit_pairs(rs, to);
    let lines = [
        (route.has_triple(rs.0, KEEP_FROM, to.0), false),
        (route.has_triple(rs.0, SEND_TO, to.0), true),
        (route.has_triple(rs.0, KEEP_FROM, 0), false),
        (route.has_triple(rs.0, SEND_TO, 0), true),
        (fit && route.has_pair(0, to.0), false),
        (fit && route.has_pair(rs.0, to.0), true),
        (fit && route.has_pair(0, rs.0), false),
        (fit && route.has_pair(rs.0, rs.0), true),
    ];
    first_line(lines.as_slice(), true)
}

/// How often the sender's number is put in front for the peer `to`, by the route's communities.
pub fn prepends(rs: Asn, route: &Route, to: Asn) -> u8
    ensures { result ≡ prepends rs.0 route.now to.0 }
{
    let lines = [
        (route.has_triple(rs.0, PREPEND_THRICE, to.0), 3),
        (route.has_triple(rs.0, PREPEND_TWICE, to.0), 2),
        (route.has_triple(rs.0, PREPEND_ONCE, to.0), 1),
        (route.has_triple(rs.0, SEND_TO, to.0), 0),
        (route.has_triple(rs.0, PREPEND_THRICE, 0), 3),
        (route.has_triple(rs.0, PREPEND_TWICE, 0), 2),
        (route.has_triple(rs.0, PREPEND_ONCE, 0), 1),
    ];
    first_line(lines.as_slice(), 0)
}
