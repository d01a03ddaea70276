//! Dumps that are to be of one version.
use crate::samples::{Asks, is_wanted, told_of};
use ixp_num_tables::put;
use ixp_rows::{Registry, print_dump, rows_count};
use ixp_rows_lines::Version;
use std::alloc::AllocError;

/// Asks for the registry's dump. A registry of other than so many rows has none.
#[derive(Clone, Copy)]
struct Dump(usize);

impl Asks for Dump {
    fn put(&self, registry: &Registry, out: &mut Vec<u8>) -> Result<(), AllocError> {
        if rows_count(registry) != Some(self.0) {
            return put(out, b"other rows");
        }
        print_dump(registry, out)
    }
}

const FIRST: &str = "ixp-registry 1
site 1 0 D
vlan 1 1 10.0.0.0/24 - a
router rs1 1 4 10.0.0.1 1 10.0.0.1 8 24 1
end 3
";

const SECOND: &str = "ixp-registry 2
site 1 0 D
vlan 1 1 10.0.0.0/24 - a
router rs1 1 4 10.0.0.1 1 10.0.0.1 8 24 1 - 0
end 3
";

/// The version that is asked for, a text, and its dump in version 2 or its fault.
const VERSIONS: &[(Version, &str, &str)] = &[
    (Version::One, FIRST, SECOND),
    (Version::Two, SECOND, SECOND),
    (Version::Two, FIRST, "U1 1"),
    (Version::One, SECOND, "U1 1"),
];

#[test]
fn one_version_is_read(rt: HostRuntime) {
    for &(version, text, want) in VERSIONS {
        let have = told_of(rt.alloc(), version, text.as_bytes(), &Dump(3));
        is_wanted(&rt, have, want, text);
    }
}
