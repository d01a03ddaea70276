//! Edits that are refused and that no request can be, since its body isn't of the form.
use crate::changes::Change;
use crate::lists::Listed;
use crate::samples::{Decided, LINES, is_wanted, told};
use ixp_registry::{Action, Way};

/// An edit, and what is decided of it.
const CASES: &[(Change, &str)] = &[
    (
        Change::SetRules(
            1,
            Some((Way::Advertise, None, "*", Action::Prepend(3))),
            Some((Way::Advertise, None, "*", Action::Prepend(4))),
        ),
        "X15 2",
    ),
    (
        Change::SetRules(
            1,
            Some((Way::Receive, None, "*", Action::Prepend(1))),
            Some((Way::Advertise, None, "*", Action::Prepend(0))),
        ),
        "X15 1",
    ),
    (Change::PutPublic(Listed::Roas, "10.0.0.0/8 7"), "X15 0"),
    (Change::PutPublic(Listed::Roas, "10.0.0.0/8 33"), "X15 0"),
    (Change::ManyPrefixes(9, 300001), "X4 member 9"),
    (
        Change::Many(Listed::Prefixes, 300001),
        "X16 prefix 300001 300000",
    ),
    (
        Change::Many(Listed::Origins, 300001),
        "X16 origin 300001 300000",
    ),
    (
        Change::Many(Listed::Roas, 1000001),
        "X16 roa 1000001 1000000",
    ),
];

#[test]
fn edits_out_of_bounds_are_refused(rt: HostRuntime) {
    for &(change, want) in CASES {
        let have = told(rt.alloc(), LINES.as_bytes(), &Decided(change));
        is_wanted(&rt, have, want.as_bytes(), want);
    }
}
