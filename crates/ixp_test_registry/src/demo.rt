//! The demo exchange, as its dump has it.
use crate::samples::is_wanted;
use ixp_registry_demo::demo_registry;
use ixp_rows::print_dump;
use std::alloc::{AllocError, Global};

/// The dump of the demo exchange with two members.
fn demo_dump(alloc: Global) -> Result<Vec<u8>, AllocError> {
    let registry = demo_registry(alloc, 2)?;
    let mut out = Vec::new(alloc);
    print_dump(&registry, &mut out)?;
    Ok(out)
}

const OF_TWO: &str = "ixp-registry 2
site 1 0 DEMO
member 1 100001 connected - m1
member 2 100002 connected - m2
key 1 staff 1 staff00000000001
switch 1 sw1
port 1 1 10000 1 p1
port 2 1 10000 2 p2
vlan 1 100 10.0.0.0/8 - lan
interface 1 1 1 1
interface 2 2 2 1
address 1 10.64.0.1 0 1 1 0 -
address 2 10.64.0.2 0 1 1 0 -
router rs1 1 4 10.255.0.1 65500 10.255.0.1 8 24 0 - 0
prefix 1 20.0.4.0/24
prefix 1 20.0.5.0/24
prefix 1 20.0.6.0/24
prefix 1 20.0.7.0/24
prefix 2 20.0.8.0/24
prefix 2 20.0.9.0/24
prefix 2 20.0.10.0/24
prefix 2 20.0.11.0/24
origin 1 4 100001
origin 2 4 100002
end 23
";

#[test]
fn the_demo_exchange_of_two(rt: HostRuntime) {
    is_wanted(&rt, demo_dump(rt.alloc()), OF_TWO, "demo");
}
