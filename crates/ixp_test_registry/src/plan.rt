//! The address plan of a VLAN that isn't there.
use crate::samples::{Asks, is_wanted, told_of};
use ixp_num::Family;
use ixp_num_tables::put;
use ixp_plan::{first_free, use_report};
use ixp_rows::Registry;
use ixp_rows_lines::Version;
use std::alloc::AllocError;

/// Asks for the report of a VLAN that isn't there, and the least free address once more.
#[derive(Clone, Copy)]
struct Plan;

impl Asks for Plan {
    fn put(&self, registry: &Registry, out: &mut Vec<u8>) -> Result<(), AllocError> {
        use_report(*out.allocator(), registry, 2, Family::V4, out)?;
        match first_free(registry, 2, Family::V4) {
            Some(_) => put(out, b"some"),
            None => put(out, b"none"),
        }
    }
}

const DUMP: &str = "ixp-registry 2
site 1 0 D
vlan 1 1 10.0.0.0/24 - a
end 2
";

#[test]
fn nothing_is_free_where_no_vlan_is(rt: HostRuntime) {
    let have = told_of(rt.alloc(), Version::Two, DUMP.as_bytes(), &Plan);
    is_wanted(&rt, have, "free none\nnone", "no VLAN");
}
